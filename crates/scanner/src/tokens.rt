// The numbers of tokens. A token that makes a row has the kind of that row; the numbers of the others are no kinds.
// No enum: the machine that takes tokens (`Machine.take` in `parser`) takes any number.

use script::Kind;

pub const NUMERAL: usize = Kind::Constant as usize;

pub const VARIABLE: usize = Kind::Variable as usize;

pub const PLUS: usize = Kind::Plus as usize;

pub const MINUS: usize = Kind::Minus as usize;

pub const TIMES: usize = Kind::Times as usize;

pub const DIV: usize = Kind::Div as usize;

pub const MOD: usize = Kind::Mod as usize;

pub const MARK: usize = Kind::Mark as usize;

pub const WHEN: usize = Kind::Choose as usize;

pub const TRUE: usize = Kind::True as usize;

pub const FALSE: usize = Kind::False as usize;

pub const LESS: usize = Kind::Less as usize;

pub const AT_MOST: usize = Kind::AtMost as usize;

pub const EQUAL: usize = Kind::Equal as usize;

pub const UNEQUAL: usize = Kind::Unequal as usize;

pub const NOT: usize = Kind::Not as usize;

pub const AND: usize = Kind::And as usize;

pub const OR: usize = Kind::Or as usize;

pub const IMPLIES: usize = Kind::Implies as usize;

pub const SKIP: usize = Kind::Skip as usize;

pub const BECOMES: usize = Kind::Assign as usize;

pub const SEMICOLON: usize = Kind::Sequence as usize;

pub const IF: usize = Kind::If as usize;

pub const WHILE: usize = Kind::While as usize;

pub const ASSERT: usize = Kind::Assert as usize;

pub const OPEN: usize = 40;

pub const CLOSE: usize = 41;

pub const COMMA: usize = 42;

pub const THEN: usize = 43;

pub const ELSE: usize = 44;

pub const END: usize = 45;

pub const KEEP: usize = 46;

pub const FALL: usize = 47;

pub const PRE: usize = Kind::Script as usize;

pub const DO: usize = 49;

pub const POST: usize = 50;

pub const END_OF_TEXT: usize = 51;
