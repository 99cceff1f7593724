// Marks, named: while a text is read, the row of a mark holds the mark's number k. When all rows are there, one pass
// from the last row down puts the row of the k-th loop around it in its place.

#![tactic(auto)]

mod loops; // the loops around a row

ghost use Rattle.std.specs.Prelude.{◌≡◌, ◌*◌, ◌≤◌, length};
ghost use Rattle.marks.specs.Quads.{marks_named};

use loops::Loops;
use script::{Kind, kind_at};

// Puts the row of its loop into the row of each mark, among the first `rows` rows; all other words stay. On the way down
// a loop's row is met before those of its body, and its note after them.
pub fn name_loops(words: &mut [i32], rows: usize)
    requires { (4 * rows ≤ length words.old) × (rows ≤ 2048) }
    ensures { words.new ≡ marks_named rows words.old }
{
    let mut loops = Loops::new();
    for r in (0..rows).rev() {
        match kind_at(words, r) {
            Kind::While => loops.enter(r as u16),
            Kind::Note => loops.leave(),
            Kind::Mark => words[4 * r + 1] = loops.named(words[4 * r + 1]),
            _ => {}
        }
    }
}
