// 2 to 6: the faults of one row, by the table of kinds.

#![tactic(auto)]

ghost use Rattle.std.specs.Prelude.{◌≡◌, ◌&&◌, ◌≤◌};
ghost use Rattle.rows.specs.Patterns.{blank, cell, limited};
ghost use Rattle.rows.specs.Patterns.{patterns as Patterns·patterns};
ghost use Rattle.rows.specs.States.{Ready, Tested, Tried};
ghost use Rattle.rows.specs.Faults.{first as Faults·first};
ghost use Rattle.rows.specs.Numbers.{number, number_of};

// What a table is refused for, with 01's numbers.
#[derive(Clone, Copy, PartialEq, Eq, PartialOrd, Ord, Debug)]
pub enum Fault {
    // no words, not four to a row, or over 2,048 rows
    BadLength = 1,
    // a kind that is not listed
    UnlistedKind = 2,
    // a variable's number or a mark's row out of range, or an unused field not 0
    OutOfRange = 3,
    // a link to a row that is not lower
    LinkNotLower = 4,
    // a linked row of the wrong sort
    WrongSort = 5,
    // a row linked twice
    LinkedTwice = 6,
    // a last row that is no script, or another that nothing links to
    Loose = 7,
    // an assignment to a frozen name
    FrozenTarget = 8,
    // a frozen name or a mark where it may not stand
    Misplaced = 9,
    // ifs and whiles nested too deep
    TooDeep = 10,
}

impl Fault {
    pub fn number(self) -> usize
        ensures { result ≡ number self }
    {
        self as usize
    }
}

// The kinds of 01, four letters to each number from 0 to 48: the sort of its rows, then what their three fields hold. A capital
// is a sort (X: script, U: a kind that is not listed), and of a field a link to a row of that sort; `_` is a field that is not
// used, `c` a constant's value, `v` a variable that is read, `t` one that is assigned to, `l` the row of a mark's loop.
// Letters and no enum: `Patterns.patterns`, which `kinds` promises, and `States.States` speak of them.
const KINDS: [u8; 196] = *b"U___Ec__Ev__EEE_EEE_EEE_EEE_EEE_EE__El__EFEEU___U___U___U___U___\
    F___F___FEE_FEE_FEE_FEE_FF__FFF_FFF_FFF_U___U___U___U___U___U___\
    S___StE_SSS_SFSSSFNSNFE_SF__U___U___U___U___U___U___U___U___U___XFSF";

pub fn kinds() -> [u8; 196]
    ensures { result ≡ Patterns·patterns }
{
    KINDS
}

// 3: whether a field that is no link has a number that its letter allows, in a table of so many rows.
fn in_range(letter: u8, n: usize, rows: usize) -> bool
    requires { 95 ≤ letter }
    ensures { result ≡ limited rows (cell letter n) && blank (cell letter n) }
{
    match letter {
        b'_' => n == 0,
        b'c' => true,
        b'l' => n < rows,
        _ => n < script::VARIABLES,
    }
}

// 3 to 6: the fault of a field of row r. The state of a row is the letter of its sort, a small one once it is linked.
fn field_fault(
    states: &mut [u8; 2048],
    r: usize,
    rows: usize,
    letter: u8,
    n: usize,
) -> Option<Fault>
    requires { r ≤ 2048 }
    ensures { Tried states.old r rows letter n (number_of result) states.new }
{
    if b'_' <= letter {
        if in_range(letter, n, rows) {
            return None;
        }
        return Some(Fault::OutOfRange);
    }
    if r <= n {
        return Some(Fault::LinkNotLower);
    }
    let linked = letter + 32;
    if states[n] == letter {
        states[n] = linked;
        return None;
    }
    if states[n] == linked {
        return Some(Fault::LinkedTwice);
    }
    Some(Fault::WrongSort)
}

// The first of two faults. Option's own order has `None` first.
fn first(a: Option<Fault>, b: Option<Fault>) -> Option<Fault>
    ensures { number_of result ≡ Faults·first (number_of a) (number_of b) }
{
    let Some(x) = a else {
        return b;
    };
    let Some(y) = b else {
        return a;
    };
    Some(x.min(y))
}

// The first fault of row r; where it has none but 6, its links are in the states.
pub fn row_fault(
    table: &[i32],
    kinds: &[u8; 196],
    r: usize,
    states: &mut [u8; 2048],
) -> Option<Fault>
    requires { Ready table.now r states.old × (kinds.now ≡ Patterns·patterns) }
    ensures { Tested table.now r (number_of result) states.new }
{
    let kind = script::field(table, r, 0);
    if 48 < kind {
        return Some(Fault::UnlistedKind);
    }
    let of = 4 * kind;
    let sort = kinds[of];
    if sort == b'U' {
        return Some(Fault::UnlistedKind);
    }
    let rows = script::row_count(table);
    let a = field_fault(states, r, rows, kinds[of + 1], script::field(table, r, 1));
    let b = field_fault(states, r, rows, kinds[of + 2], script::field(table, r, 2));
    let c = field_fault(states, r, rows, kinds[of + 3], script::field(table, r, 3));
    states[r] = sort;
    first(a, first(b, c))
}
