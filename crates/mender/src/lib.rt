// A table with shared parts written anew, 02, P7: a row for every use, and none that the script does not reach.

#![tactic(auto)]

mod parts; // 2 to 5
mod loops; // 13: the loops around every use of a row
mod sizes; // 14: how many rows a use of a row takes
mod rewriting; // the new table

ghost use Rattle.std.specs.Prelude.{◌≡◌, ◌≤◌, length};
ghost use Rattle.script.specs.Refusals.{◌and_then◌, length_test, script_test};
ghost use Rattle.table.specs.Verdicts.{verdict_of};
ghost use Rattle.mending.specs.Mended.{mended, part_test};
ghost use Rattle.mending.specs.Mended.{too_long as Mended·too-long};
ghost use Rattle.mender.specs.Whole.{Cleared, Counting, Told};
ghost use Rattle.mender.specs.Answers.{number, row, number_of, row_of, words_of, dropped_of, copied_of};
ghost use Rattle.mender.specs.declared.Unmendable.{Unmendable};

use clearing::clear;
use rows::Fault;
use script::RowNumber;
use table::{Refusal, tests};

// What is told beside the new table and the old row of each of its rows: how many words the new table has, how many old rows were
// dropped, and how many new rows are copies of a row that was copied before.
#[derive(Clone, Copy, PartialEq, Eq, Default, Debug)]
pub struct Counts {
    pub words: usize,
    pub dropped: usize,
    pub copied: usize,
}

// Why a table is not mended.
#[derive(Clone, Copy, PartialEq, Eq, Debug)]
pub enum Unmendable {
    // 1 to 5, and 7
    Refused(Refusal),
    // 13: the lowest mark with a use outside the body of its loop
    MarkOutside(RowNumber),
    // 14: more rows than a table has, or than there is room for
    TooLong,
}

impl Unmendable {
    // The papers' number.
    pub fn number(self) -> usize
        ensures { result ≡ number self }
    {
        match self {
            Unmendable::Refused(refusal) => refusal.fault.number(),
            Unmendable::MarkOutside(_) => 13,
            Unmendable::TooLong => 14,
        }
    }

    // The row that is named, or 0.
    pub fn row(self) -> usize
        ensures { result ≡ row self }
    {
        match self {
            Unmendable::Refused(refusal) => refusal.row.0,
            Unmendable::MarkOutside(r) => r.0,
            Unmendable::TooLong => 0,
        }
    }
}

impl From<Refusal> for Unmendable {
    ghost from_gives = { λ refusal e. e ≡ Unmendable.Refused refusal };

    fn from(refusal: Refusal) -> Unmendable {
        Unmendable::Refused(refusal)
    }
}

// 1 to 5, then 7 for a last row that is no script.
fn check(table: &[i32]) -> Result<(), Refusal>
    ensures { verdict_of result ≡ length_test table.now and_then part_test table.now and_then script_test table.now }
{
    if tests::bad_length(table.len()) {
        return Err(Refusal {
            fault: Fault::BadLength,
            row: RowNumber(0),
        });
    }
    parts::check_parts(table)?;
    tests::check_script(table)
}

// 14: whether so many rows are more than a table has, or than fit into so many words and places.
#[tactic(auto, unfolding(mending::specs::Mended::too_long))]
fn too_long(words: usize, places: usize, total: usize) -> bool
    requires { total ≤ 2049 }
    ensures { result ≡ Mended·too-long words places total }
{
    2048 < total || words < 4 * total || places < total
}

// Counts the new rows and writes them, of a table that passes 1 to 13 and reaches so many rows; 14 where they do not fit.
fn write(
    table: &[i32],
    reached: usize,
    new: &mut [i32],
    origins: &mut [i32],
) -> Result<Counts, Unmendable>
    requires { Counting table.now reached × (Cleared new.old × Cleared origins.old) }
    ensures { Told (mended table.now (length new.old) (length origins.old)) result new.new origins.new }
{
    let mut sizes: [u16; 2048] = [0; 2048];
    sizes::count(table, &mut sizes);
    let rows = script::row_count(table);
    let total = sizes[rows - 1] as usize;
    if too_long(new.len(), origins.len(), total) {
        return Err(Unmendable::TooLong);
    }
    rewriting::write_table(table, &sizes, total, new, origins);
    Ok(Counts {
        words: 4 * total,
        dropped: rows - reached,
        copied: total - reached,
    })
}

// Writes the table anew: from its last row down, parts left to right before their parent, a row for every use; in `origins` the old
// row of each new one. Refused, both runs are zeros.
pub fn mend(table: &[i32], new: &mut [i32], origins: &mut [i32]) -> Result<Counts, Unmendable>
    ensures number { number_of result ≡ (mended table.now (length new.old) (length origins.old)).number }
    ensures row { row_of result ≡ (mended table.now (length new.old) (length origins.old)).row }
    ensures words { words_of result ≡ (mended table.now (length new.old) (length origins.old)).words }
    ensures dropped { dropped_of result ≡ (mended table.now (length new.old) (length origins.old)).dropped }
    ensures copied { copied_of result ≡ (mended table.now (length new.old) (length origins.old)).copied }
    ensures table { new.new ≡ (mended table.now (length new.old) (length origins.old)).table }
    ensures origins { origins.new ≡ (mended table.now (length new.old) (length origins.old)).origins }
{
    clear(new);
    clear(origins);
    check(table)?;
    let swept = loops::sweep(table);
    if let Some(mark) = swept.escaped {
        return Err(Unmendable::MarkOutside(mark));
    }
    write(table, swept.reached, new, origins)
}
