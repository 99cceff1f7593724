// What is known of frames and of tokens, a letter for each number from 0 to 63 (`Symbols` has them in rows). The number of a frame is
// that of its operator's row where it makes one, 0 is the bottom of the stack; those of places follow on each other. The sorts are N (the k of a mark), E, F, S
// (statement) and X (script); B is a place that takes an expression or a formula, `_` is none.

ghost use Rattle.std.specs.Prelude.{◌≡◌, ◌%◌, get_or};
ghost use Rattle.parser.specs.Symbols.{holds, holes, makes, ends, binds, takes, begins, closes};

use script::Kind;

// ---- sorts, by their letters; no enum, since `take` takes a state with any number for its sort, and the clauses of `Machine` compare letters

pub const NUMBER: usize = b'N' as usize;

pub const EXPRESSION: usize = b'E' as usize;

pub const FORMULA: usize = b'F' as usize;

pub const STATEMENT: usize = b'S' as usize;

pub const EITHER: usize = b'B' as usize;

// ---- frames: operators that wait for the part right of them, and places of forms; the operators that are not named here have
// the kind of their row, and the places that are not named stand between those of their form

pub const NEGATE: usize = Kind::Negate as usize;

pub const IN_MARK: usize = Kind::Mark as usize;

pub const ASSIGN: usize = Kind::Assign as usize;

pub const SEMICOLON: usize = Kind::Sequence as usize;

pub const WHEN_FIRST: usize = 49;

pub const WHEN_THIRD: usize = 51;

pub const IF_GUARD: usize = 52;

pub const IF_ELSE: usize = 54;

pub const WHILE_GUARD: usize = 55;

pub const WHILE_FALL: usize = 57;

pub const WHILE_BODY: usize = 58;

pub const PRECONDITION: usize = 59;

pub const POSTCONDITION: usize = 61;

pub const GROUP: usize = 62;

pub const EXPRESSION_GROUP: usize = 63; // a group that takes an expression only

// ---- the letters, at their numbers; tables, since a match with an arm for several names compares ranges and reads a text a fifth slower

const HOLDS: &[u8; 64] = b"aaaiijjjkaaaaaaaaahhhhgfedaaaaaaacbaaacaaaaaaaaaaaaaaaaaaaaaaaaa";

const HOLES: &[u8; 64] = b"X__EEEEEEN________EEEEFFFF_______ES___F__________FEEFSSFFESFSFBE";

const MAKES: &[u8; 64] = b"___EEEEEEE________FFFFFFFF_______SS___S__________EEESSSSSSSXXX__";

const ENDS: &[u8; 64] = b"_________)_______________________________________,,)tlekfde;p$))";

const BINDS: &[u8; 64] = b"bbbiijjjbbbbbbbbbbhhhhbfeebbbbbbbbcbbbbbbbbbbbbbbbbbbbbbbbbbbbbb";

const TAKES: &[u8; 64] = b"___EEEEE__________EEEE_FFF________S_____________________________";

const BEGINS: &[u8; 64] = b"____E____EE_____FF____F_________S__SS_S_E_______X_______________";

const CLOSES: &[u8; 64] = b"----------------------------------;------),tlekf-dp$------------";

// How tight an operator holds the part left of the next token: from b, a semicolon, to k, a unary minus; a holds nothing.
#[tactic(auto, unfolding(crate::specs::Symbols::holds))]
pub fn hold(frame: usize) -> u8
    ensures { result ≡ get_or holds (frame % 64) 0 }
{
    HOLDS[frame % 64]
}

// What sort the part has that a frame waits for.
#[tactic(auto, unfolding(crate::specs::Symbols::holes))]
pub fn hole(frame: usize) -> usize
    ensures { result ≡ get_or holes (frame % 64) 0 }
{
    HOLES[frame % 64] as usize
}

// What sort a frame makes.
#[tactic(auto, unfolding(crate::specs::Symbols::makes))]
pub fn maker(frame: usize) -> usize
    ensures { result ≡ get_or makes (frame % 64) 0 }
{
    MAKES[frame % 64] as usize
}

// What ends a place.
#[tactic(auto, unfolding(crate::specs::Symbols::ends))]
pub fn end_of(frame: usize) -> u8
    ensures { result ≡ get_or ends (frame % 64) 0 }
{
    ENDS[frame % 64]
}

// From which letter on operators take the part before the token.
#[tactic(auto, unfolding(crate::specs::Symbols::binds))]
pub fn binding(token: usize) -> u8
    ensures { result ≡ get_or binds (token % 64) 0 }
{
    BINDS[token % 64]
}

// What sort an infix operator has on both sides.
#[tactic(auto, unfolding(crate::specs::Symbols::takes))]
pub fn operand_sort(token: usize) -> usize
    ensures { result ≡ get_or takes (token % 64) 0 }
{
    TAKES[token % 64] as usize
}

// What sort a token begins; numerals and variables are apart.
#[tactic(auto, unfolding(crate::specs::Symbols::begins))]
pub fn beginning(token: usize) -> usize
    ensures { result ≡ get_or begins (token % 64) 0 }
{
    BEGINS[token % 64] as usize
}

// The end that a token is.
#[tactic(auto, unfolding(crate::specs::Symbols::closes))]
pub fn closing(token: usize) -> u8
    ensures { result ≡ get_or closes (token % 64) 0 }
{
    CLOSES[token % 64]
}
