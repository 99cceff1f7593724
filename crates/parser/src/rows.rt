// The rows, written one after the other. Once there is no room for a row, the count of rows is `FULL`, and no more are written.

ghost use Rattle.std.specs.Prelude.{◌≡◌};
ghost use Rattle.parser.specs.Machine.{rows_after, with_words, with_row, with_constant, operator_row};

use crate::frames::first_part;
use crate::{FULL, symbols};
use scanner::tokens;
use script::Kind;

// Writes the four words of a row.
fn write_words(words: &mut [i32], rows: usize, row: [i32; 4]) -> usize
    ensures rows { result ≡ rows_after words.old rows }
    ensures words { words.new ≡ with_words words.old rows row }
{
    if 2048 <= rows || words.len() < 4 * rows + 4 {
        return FULL;
    }
    words[4 * rows..4 * rows + 4].copy_from_slice(&row);
    rows + 1
}

// Writes a row of small numbers: all are below 65,536, so that no remainder changes one.
pub fn write_row(words: &mut [i32], rows: usize, kind: usize, a: usize, b: usize, c: usize) -> usize
    ensures rows { result ≡ rows_after words.old rows }
    ensures words { words.new ≡ with_row words.old rows kind a b c }
{
    write_words(
        words,
        rows,
        [
            (kind % 65536) as i32,
            (a % 65536) as i32,
            (b % 65536) as i32,
            (c % 65536) as i32,
        ],
    )
}

// Writes the row of a constant.
pub fn write_constant(words: &mut [i32], rows: usize, value: i32) -> usize
    ensures rows { result ≡ rows_after words.old rows }
    ensures words { words.new ≡ with_constant words.old rows value }
{
    write_words(words, rows, [Kind::Constant as i32, value, 0, 0])
}

// Writes the row of an operator, whose last part ends at the last row.
pub fn write_operator(words: &mut [i32], rows: usize, frame: usize) -> usize
    ensures rows { result ≡ rows_after words.old rows }
    ensures words { words.new ≡ operator_row words.old rows frame }
{
    let kind = frame % 64;
    let last = rows.saturating_sub(1);
    match kind {
        // operators that have one part
        symbols::NEGATE | tokens::NOT | tokens::ASSERT => write_row(words, rows, kind, last, 0, 0),
        _ => write_row(words, rows, kind, first_part(frame), last, 0),
    }
}
