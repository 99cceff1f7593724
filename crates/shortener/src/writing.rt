// A formula written anew, word after word, as its entries say: each word once at most, and none moved.

ghost use Rattle.std.specs.Prelude.{◌≡◌};
ghost use Rattle.shortener.specs.Turns.{Begins, WroteShort};
ghost use Rattle.shortener.specs.Runs.{ends, changes};

use crate::plan::{Entry, place};
use crate::rules::Change;
use output::Output;
use script::Kind;

// Writes the formula that stands in the words from `first` to `end`, shortened. A part that is dropped behind a part that is
// written is noted when its node is met, and passed over when it is reached.
pub fn write_formula(
    words: &[i32],
    first: usize,
    end: usize,
    entries: &mut [Entry],
    out: &mut Output<'_, i32>,
)
    requires { Begins words.now first end (ends entries.old) (changes entries.old) }
    ensures wrote { WroteShort words.now first end (changes entries.old) out.old (changes entries.new) out.new }
    ensures ends { ends entries.new ≡ ends entries.old }
{
    let mut at = first;
    while at < end {
        match entries[at].change {
            Change::Kept => {
                out.push(words[at]);
                at += 1;
            }
            Change::KeptWithNumber => {
                out.push_two(words[at], words[at + 1]);
                at += 2;
            }
            Change::First => {
                let dropped = place(entries[at + 1].end);
                entries[dropped].change = Change::Passed;
                at += 1;
            }
            Change::Second => at = place(entries[at + 1].end),
            Change::NegatedSecond => {
                out.push_kind(Kind::Negate as usize);
                at = place(entries[at + 1].end);
            }
            Change::True => {
                out.push_kind(Kind::True as usize);
                at = place(entries[at].end);
            }
            Change::False => {
                out.push_kind(Kind::False as usize);
                at = place(entries[at].end);
            }
            Change::Passed => at = place(entries[at].end),
        }
    }
}
