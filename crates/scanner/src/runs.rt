// The longest run of digits, or of letters and digits, from a place on: where it ends, and the number that it makes.

ghost use Rattle.std.specs.Prelude.{◌≡◌, true, ℕ, Bool, List, ◌+◌, ◌*◌, ◌-◌, ◌≤◌, min, drop};
ghost use Rattle.grammar.specs.Scanning.{is_digit, is_word_byte, front, decimal, number};
ghost use Rattle.grammar.specs.Fronts.{run};
ghost use Rattle.grammar.specs.Numbers.{most};
ghost use Rattle.scanner.specs.Words.{packed, longest};
ghost use Rattle.scanner.specs.Folds.{Folds, decimal_folds, packed_folds};

use crate::bytes;

// The largest value that is told, which is beyond every range.
const MOST: usize = 4294967295;

// The largest number of seven bytes. No word has it, and a longer word is told as it.
const LONGEST: usize = 0xff_ff_ff_ff_ff_ff_ff;

// Where a run ends, and the number that its bytes make, up to the largest that is told.
#[derive(Clone, Copy)]
pub struct Run {
    pub end: usize,
    pub number: usize,
}

// Which bytes a run has, and the number that they make, a step for each byte.
pub trait Bytes {
    ghost passes: { ℕ → Bool };

    ghost fold: { ℕ → List ℕ → ℕ };

    ghost step: { ℕ → ℕ → ℕ };

    ghost top: { ℕ };

    fn passes(byte: u8) -> bool
        ensures { result ≡ passes byte };

    // A number with one byte more.
    fn with_byte(number: usize, byte: u8) -> usize
        requires { (number ≤ top) × (passes byte ≡ true) }
        ensures { result ≡ min (step number byte) top };

    ghost laws: { Folds fold step top };
}

pub struct Digits;

impl Bytes for Digits {
    ghost passes = { is_digit };

    ghost fold = { decimal };

    ghost step = { λ n d. 10 * n + (d - 48) };

    ghost top = { most };

    ghost laws = { decimal_folds };

    fn passes(byte: u8) -> bool {
        bytes::is_digit(byte)
    }

    fn with_byte(number: usize, byte: u8) -> usize {
        (10 * number + (byte - b'0') as usize).min(MOST)
    }
}

// Letters and digits, as digits to the base 256.
pub struct WordBytes;

impl Bytes for WordBytes {
    ghost passes = { is_word_byte };

    ghost fold = { packed };

    ghost step = { λ n b. 256 * n + b };

    ghost top = { longest };

    ghost laws = { packed_folds };

    fn passes(byte: u8) -> bool {
        bytes::is_word_byte(byte)
    }

    fn with_byte(number: usize, byte: u8) -> usize {
        (256 * number + byte as usize).min(LONGEST)
    }
}

// The run of such bytes from a place on; none past the text's end.
pub fn run_at<B: Bytes>(text: &[u8], at: usize) -> Run
    ensures end { result.end ≡ at + front B.passes (drop at text.now) }
    ensures number { result.number ≡ min (B.fold 0 (run B.passes (drop at text.now))) B.top }
{
    let mut number = 0;
    if text.len() < at {
        return Run { end: at, number };
    }
    for (passed, byte) in text[at..].iter().enumerate() {
        if !B::passes(*byte) {
            return Run {
                end: at + passed,
                number,
            };
        }
        number = B::with_byte(number, *byte);
    }
    Run {
        end: text.len(),
        number,
    }
}

// The digits from a place on as the number of a numeral or a variable: one with a leading zero is beyond every range.
pub fn number_at(text: &[u8], at: usize) -> Run
    ensures end { result.end ≡ at + front is_digit (drop at text.now) }
    ensures number { result.number ≡ min (number (run is_digit (drop at text.now))) most }
{
    let digits = run_at::<Digits>(text, at);
    if digits.end - at < 2 || text[at] != b'0' {
        return digits;
    }
    Run {
        end: digits.end,
        number: MOST,
    }
}
