// The lines of a list, each with its formula shortened and its trailer, and the count, in the form of the list.

ghost use Rattle.std.specs.Prelude.{◌≡◌};
ghost use Rattle.shortener.specs.Runs.{ends, changes};
ghost use Rattle.shortener.specs.Lines.{Trailing, Trailed, Ready, AllWritten};

use crate::plan::{Entry, place};
use crate::writing::write_formula;
use output::Output;

// Writes the trailer of a formula that was written from `start` on: kind and row as they stand in the list at a place, how many
// words the formula has now, and the depth as it stands there, where trailers have a fourth word. Where the formula had no room,
// its length is not known, and nothing is written.
fn write_trailer(list: &[i32], tail: usize, at: usize, start: usize, out: &mut Output<'_, i32>)
    requires { Trailing list.now tail at start out.old }
    ensures { Trailed list.now at start out.old out.new }
{
    if out.fits() {
        let length = out.at - start;
        out.push_two(list[at], list[at + 1]);
        out.push(length as i32);
        if 4 <= tail {
            out.push(list[at + 3]);
        }
    }
}

// Writes all lines of a list, which has so many, and the count.
pub fn write_lines(list: &[i32], count: usize, entries: &mut [Entry], out: &mut Output<'_, i32>)
    requires { Ready list.now count (ends entries.old) (changes entries.old) }
    ensures wrote { AllWritten list.now count out.old out.new }
    ensures same { out.new.list.ghost_name ≡ out.old.list.ghost_name }
{
    let tail = list_reader::trailer_length(list);
    let mut at = 0;
    for _left in (0..count).rev() {
        let end = place(entries[at].end);
        let start = out.at;
        write_formula(list, at, end, entries, out);
        write_trailer(list, tail, end, start, out);
        at = end + tail;
    }
    out.push(list[at]);
}
