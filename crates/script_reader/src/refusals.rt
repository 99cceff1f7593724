// The refusals of a text.

ghost use Rattle.std.specs.Prelude.{◌≡◌};
ghost use Rattle.script_reader.specs.Results.{fault_number};

// Why a text gives no table, with the number that is answered.
#[derive(Clone, Copy, PartialEq, Eq, Debug)]
pub enum Fault {
    // a byte that begins no token
    NoToken = 40,
    // a token that no text has there
    NoText = 41,
    // a number out of range
    OutOfRange = 42,
    // rows that have no room
    NoRoom = 43,
    // over 32,768 bytes
    TooLong = 44,
}

impl Fault {
    pub fn number(self) -> usize
        ensures { result ≡ fault_number self }
    {
        self as usize
    }
}

// A fault and its place; that of 43 and 44 is 0.
#[derive(Clone, Copy, PartialEq, Eq, Debug)]
pub struct Refusal {
    pub fault: Fault,
    pub place: usize,
}
