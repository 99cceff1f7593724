// The keywords by their numbers: the bytes as digits to the base 256, as `runs::run_at` tells a word, so that one switch finds them.

ghost use Rattle.std.specs.Prelude.{◌≡◌};
ghost use Rattle.grammar.specs.Scanning.{keywords};
ghost use Rattle.scanner.specs.Words.{keyword_told};

use crate::tokens;

pub const PRE: usize = 0x70_72_65;

pub const POST: usize = 0x70_6f_73_74;

pub const SKIP: usize = 0x73_6b_69_70;

pub const ASSERT: usize = 0x61_73_73_65_72_74;

pub const IF: usize = 0x69_66;

pub const THEN: usize = 0x74_68_65_6e;

pub const ELSE: usize = 0x65_6c_73_65;

pub const END: usize = 0x65_6e_64;

pub const WHILE: usize = 0x77_68_69_6c_65;

pub const KEEP: usize = 0x6b_65_65_70;

pub const FALL: usize = 0x66_61_6c_6c;

pub const DO: usize = 0x64_6f;

pub const IMPLIES: usize = 0x69_6d_70_6c_69_65_73;

pub const OR: usize = 0x6f_72;

pub const AND: usize = 0x61_6e_64;

pub const NOT: usize = 0x6e_6f_74;

pub const DIV: usize = 0x64_69_76;

pub const MOD: usize = 0x6d_6f_64;

pub const MARK: usize = 0x6d_61_72_6b;

pub const WHEN: usize = 0x77_68_65_6e;

pub const TRUE: usize = 0x74_72_75_65;

pub const FALSE: usize = 0x66_61_6c_73_65;

// The token of the keyword with this number.
#[tactic(auto, unfolding(crate::specs::Words::keyword_number, crate::specs::Words::keyword_told, grammar::specs::Numbers::token_number))]
pub fn keyword(number: usize) -> Option<usize>
    ensures { result ≡ keyword_told keywords number }
{
    let token = match number {
        PRE => tokens::PRE,
        POST => tokens::POST,
        SKIP => tokens::SKIP,
        ASSERT => tokens::ASSERT,
        IF => tokens::IF,
        THEN => tokens::THEN,
        ELSE => tokens::ELSE,
        END => tokens::END,
        WHILE => tokens::WHILE,
        KEEP => tokens::KEEP,
        FALL => tokens::FALL,
        DO => tokens::DO,
        IMPLIES => tokens::IMPLIES,
        OR => tokens::OR,
        AND => tokens::AND,
        NOT => tokens::NOT,
        DIV => tokens::DIV,
        MOD => tokens::MOD,
        MARK => tokens::MARK,
        WHEN => tokens::WHEN,
        TRUE => tokens::TRUE,
        FALSE => tokens::FALSE,
        _ => return None,
    };
    Some(token)
}
