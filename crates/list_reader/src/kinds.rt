// The kinds as the words of a list, which are signed: to compare a word with them takes less than to make it a number, or a `Kind`, first.

use script::Kind;

pub const CONSTANT: i32 = Kind::Constant as i32;

pub const VARIABLE: i32 = Kind::Variable as i32;

pub const PLUS: i32 = Kind::Plus as i32;

pub const MOD: i32 = Kind::Mod as i32;

pub const NEGATE: i32 = Kind::Negate as i32;

pub const MARK: i32 = Kind::Mark as i32;

pub const CHOOSE: i32 = Kind::Choose as i32;

pub const TRUE: i32 = Kind::True as i32;

pub const FALSE: i32 = Kind::False as i32;

pub const LESS: i32 = Kind::Less as i32;

pub const UNEQUAL: i32 = Kind::Unequal as i32;

pub const NOT: i32 = Kind::Not as i32;

pub const AND: i32 = Kind::And as i32;

pub const IMPLIES: i32 = Kind::Implies as i32;
