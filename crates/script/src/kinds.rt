// The kinds of rows, 01, "Rows of a script", each with its number there.

ghost use Rattle.std.specs.Prelude.{◌≡◌};
ghost use Rattle.script.specs.Kinds.{kind_of};

#[derive(Clone, Copy, PartialEq, Eq, Debug)]
pub enum Kind {
    // a number that no kind has
    Unlisted = 0,
    Constant = 1,
    Variable = 2,
    Plus = 3,
    Minus = 4,
    Times = 5,
    Div = 6,
    Mod = 7,
    Negate = 8,
    Mark = 9,
    Choose = 10,
    True = 16,
    False = 17,
    Less = 18,
    AtMost = 19,
    Equal = 20,
    Unequal = 21,
    Not = 22,
    And = 23,
    Or = 24,
    Implies = 25,
    Skip = 32,
    Assign = 33,
    Sequence = 34,
    If = 35,
    While = 36,
    Note = 37,
    Assert = 38,
    Script = 48,
}

impl From<usize> for Kind {
    ghost from_gives = { λ n kind. kind ≡ kind_of n };

    #[tactic(auto, unfolding(crate::specs::Kinds::kind_of))]
    fn from(number: usize) -> Kind {
        match number {
            1 => Kind::Constant,
            2 => Kind::Variable,
            3 => Kind::Plus,
            4 => Kind::Minus,
            5 => Kind::Times,
            6 => Kind::Div,
            7 => Kind::Mod,
            8 => Kind::Negate,
            9 => Kind::Mark,
            10 => Kind::Choose,
            16 => Kind::True,
            17 => Kind::False,
            18 => Kind::Less,
            19 => Kind::AtMost,
            20 => Kind::Equal,
            21 => Kind::Unequal,
            22 => Kind::Not,
            23 => Kind::And,
            24 => Kind::Or,
            25 => Kind::Implies,
            32 => Kind::Skip,
            33 => Kind::Assign,
            34 => Kind::Sequence,
            35 => Kind::If,
            36 => Kind::While,
            37 => Kind::Note,
            38 => Kind::Assert,
            48 => Kind::Script,
            _ => Kind::Unlisted,
        }
    }
}
