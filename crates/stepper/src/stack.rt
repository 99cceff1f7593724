// The rows that are to do lie in lent words, from word 0, the next one last, zeros above.

ghost use Rattle.std.specs.Prelude.{◌≡◌, length, replicate};
ghost use Rattle.script.specs.Rows.{row};
ghost use Rattle.script.specs.Refusals.{verdict, accepted};
ghost use Rattle.stepper.specs.Kinds.{splits};
ghost use Rattle.stepper.specs.DueRows.{due_row};
ghost use Rattle.stepper.specs.Taking.{Ready, Taken};

use script::{Kind, field, kind_at, row_count};

// Puts a zero into every word.
pub fn clear(words: &mut [u32])
    ensures { words.new ≡ replicate (length words.old) 0 }
{
    words.fill(0);
}

// Whether a row of the table is a sequence.
fn is_sequence(table: &[i32], r: usize) -> bool
    requires { verdict table.now ≡ accepted }
    ensures { result ≡ splits (row table.now r) }
{
    r < row_count(table) && matches!(kind_at(table, r), Kind::Sequence)
}

// The row of the statement that is due where r is the next row: down the first parts of sequences.
pub fn due(table: &[i32], r: usize) -> usize
    requires { verdict table.now ≡ accepted }
    ensures { result ≡ due_row table.now r }
{
    let mut at = r;
    while is_sequence(table, at) {
        at = field(table, at, 1);
    }
    at
}

// Takes the next row away and puts there what is to do after its statement due: the second parts of the sequences that are
// split.
pub fn take_next(table: &[i32], stack: &mut [u32], height: usize) -> usize
    requires { Ready table.now stack.old height }
    ensures { Taken table.now stack.old height stack.new result }
{
    let mut left = height - 1;
    let mut at = stack[left] as usize;
    stack[left] = 0;
    while is_sequence(table, at) {
        let first = field(table, at, 1);
        let second = field(table, at, 2);
        stack[left] = second as u32;
        left += 1;
        at = first;
    }
    left
}
