// Which expressions and formulas of a table divide: those with a div or mod, whose D (02, P5) stands; and where that D begins.
// D of a node with one part that divides, and no divisor of its own, is D of that part: such nodes are passed over, down to
// the source, where D has a word of its own. It is found once for a table, from the first row up, and then only read. It goes
// into the run that has what follows each statement, at the entries of expressions and formulas, which are free there
// (`specs/Divided.antt` says what an entry means). An entry is a word of the lent scratch, so it is a number and no Option.

#![tactic(auto)]

ghost use Rattle.std.specs.Prelude.{◌≡◌, true, ◌+◌, ◌<◌, length};
ghost use Rattle.script.specs.Refusals.{verdict, accepted};
ghost use Rattle.following.specs.Follow.{row_on, Followed};
ghost use Rattle.dividing.specs.Divided.{marked, Entry, Divided};
ghost use Rattle.dividing.specs.Divisions.{division};
ghost use Rattle.dividing.specs.Entries.{RowReady};
ghost use Rattle.dividing.specs.Filling.{Filled};

use script::{Kind, RowNumber, field};

// The entry of the node at row r.
fn entry(follow: &[i32], r: RowNumber) -> usize
    requires { r.0 < length follow.now }
    ensures { result ≡ row_on follow.now r.0 }
{
    let row = r.0;
    script::field_number(follow[row])
}

// Whether the node at row r divides.
pub fn divides(follow: &[i32], r: RowNumber) -> bool
    requires { r.0 < length follow.now }
    ensures { result ≡ marked follow.now r.0 }
{
    0 < entry(follow, r)
}

// The source of a node that divides.
pub fn source(follow: &[i32], r: RowNumber) -> RowNumber
    requires { (r.0 < length follow.now) × (marked follow.now r.0 ≡ true) }
    ensures { result.0 + 1 ≡ row_on follow.now r.0 }
{
    RowNumber(entry(follow, r) - 1)
}

// Whether a kind is div or mod, whatever the number.
pub fn is_division(kind: usize) -> bool
    ensures { result ≡ division kind }
{
    kind == Kind::Div as usize || kind == Kind::Mod as usize
}

// What the entry of the node at row r must be, from those of its parts.
fn find_entry(table: &[i32], follow: &[i32], r: usize) -> usize
    requires { RowReady table.now follow.now r }
    ensures { Entry table.now r result }
{
    match script::kind_at(table, r) {
        Kind::Constant | Kind::Variable | Kind::Mark | Kind::True | Kind::False => 0,
        Kind::Negate | Kind::Not => entry(follow, RowNumber(field(table, r, 1))),
        Kind::Choose => {
            let f = RowNumber(field(table, r, 1));
            let a = RowNumber(field(table, r, 2));
            let b = RowNumber(field(table, r, 3));
            if divides(follow, a) || divides(follow, b) {
                r + 1
            } else {
                entry(follow, f)
            }
        }
        Kind::Div | Kind::Mod => r + 1,
        // another operator, a relation or a connective
        _ => {
            let a = RowNumber(field(table, r, 1));
            let b = RowNumber(field(table, r, 2));
            if !divides(follow, a) {
                entry(follow, b)
            } else if divides(follow, b) {
                r + 1
            } else {
                entry(follow, a)
            }
        }
    }
}

// Fills in the entries of nodes up to the first div or mod: nothing divides there. Gives that row, or the number of rows.
fn pass_undivided(table: &[i32], follow: &mut [i32]) -> usize
    requires { (verdict table.now ≡ accepted) × Followed table.now follow.old }
    ensures { Filled table.now follow.new result }
{
    let rows = script::row_count(table);
    for r in 0..rows {
        let kind = field(table, r, 0);
        if is_division(kind) {
            return r;
        }
        // the kinds of nodes are those before skip's
        if kind < Kind::Skip as usize {
            follow[r] = 0;
        }
    }
    rows
}

// Fills in the entries of expressions and formulas, from the first row up, so that a node's parts are known before it.
pub fn find_divisions(table: &[i32], follow: &mut [i32])
    requires { (verdict table.now ≡ accepted) × Followed table.now follow.old }
    ensures { Followed table.now follow.new × Divided table.now follow.new }
{
    let first = pass_undivided(table, follow);
    for r in first..script::row_count(table) {
        if field(table, r, 0) < Kind::Skip as usize {
            follow[r] = find_entry(table, follow, r) as i32;
        }
    }
}
