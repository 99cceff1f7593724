// The reader of script text: tokens are taken one after the other, rows are written, and marks get the rows of their loops; or
// one refusal: 44, then 40 anywhere, 41, 42 and 43.

#![tactic(auto)]

mod refusals; // the refusals
mod tokens; // the tokens of a text, taken

ghost use Rattle.std.specs.Prelude.{◌≡◌, ◌≤◌, ◌<◌, length};
ghost use Rattle.script.specs.Generated.{zeros};
ghost use Rattle.grammar.specs.Answer.{answer};
ghost use Rattle.script_reader.specs.Results.{answer_of};
ghost use Rattle.script_reader.specs.Takes.{Taken, Told, Comes};

use clearing::clear;
use parser::State;
pub use refusals::{Fault, Refusal};

// How many words are used when all tokens are taken and the marks are named, unless it is 41, 42 or 43.
fn finish(words: &mut [i32], s: State) -> Result<usize, Refusal>
    requires { Taken s words.old }
    ensures { Told s words.old result words.new }
{
    if s.mode == parser::REFUSED {
        return Err(Refusal {
            fault: Fault::NoText,
            place: s.place,
        });
    }
    if s.out != parser::NOWHERE {
        return Err(Refusal {
            fault: Fault::OutOfRange,
            place: s.out,
        });
    }
    if s.rows == parser::FULL {
        return Err(Refusal {
            fault: Fault::NoRoom,
            place: 0,
        });
    }
    marks::name_loops(words, s.rows);
    Ok(4 * s.rows)
}

// Reads the text with a stack that has a place for each of its bytes and one more. Shorter texts have a shorter stack, so that
// less is cleared.
fn read_with<const N: usize>(text: &[u8], words: &mut [i32]) -> Result<usize, Refusal>
    requires stack_len_bound { N ≤ 32769 }
    requires text_in_bounds { length text.now < N }
    requires words_value { words.old ≡ zeros (length words.old) }
    ensures { Comes text.now (length words.old) result words.new }
{
    let mut stack = [0u32; N];
    let s = tokens::take_tokens(text, &mut stack, words)?;
    finish(words, s)
}

// Reads a script text into the words of its table, zeros behind, and tells how many it has; a refusal leaves zeros.
pub fn read_text(text: &[u8], words: &mut [i32]) -> Result<usize, Refusal>
    ensures { answer_of result words.new ≡ answer text.now (length words.old) }
{
    clear(words);
    let used = match text.len() {
        0..1024 => read_with::<1024>(text, words),
        1024..8192 => read_with::<8192>(text, words),
        8192..=32768 => read_with::<32769>(text, words),
        _ => {
            return Err(Refusal {
                fault: Fault::TooLong,
                place: 0,
            });
        }
    };
    if used.is_err() {
        clear(words);
    }
    used
}
