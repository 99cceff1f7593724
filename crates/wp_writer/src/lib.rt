// Writing W of a statement and of what follows it into the list, word after word, with no formula kept. The scratch has two runs
// of as many words as there are rows: the path, that is the assignments passed since the formula was begun, which are carried
// out where a variable is written; and what follows each statement and which rows divide, which the table fixes. Once there is
// no room, a call returns at once.

#![tactic(auto)]

ghost use Rattle.std.specs.Prelude.{◌≡◌};
ghost use Rattle.output.specs.Written.{Written};
ghost use Rattle.following.specs.Follow.{follow_in};
ghost use Rattle.wp_writer.specs.Loops.{Loop, invariant_row, variant_row};
ghost use Rattle.wp_writer.specs.Ends.{end_formula, EndReady, words_under};
ghost use Rattle.wp_writer.specs.Walked.{Before, before_end, Walked};

use output::Output;
use script::{Kind, RowNumber, field, kind_at};

// The row of a loop's invariant.
pub fn invariant(table: &[i32], k: RowNumber) -> RowNumber
    requires { Loop table.now k.0 }
    ensures { result.0 ≡ invariant_row table.now k.0 }
{
    let note = field(table, k.0, 2);
    RowNumber(field(table, note, 1))
}

// The row of a loop's variant.
pub fn variant(table: &[i32], k: RowNumber) -> RowNumber
    requires { Loop table.now k.0 }
    ensures { result.0 ≡ variant_row table.now k.0 }
{
    let note = field(table, k.0, 2);
    RowNumber(field(table, note, 2))
}

// Writes the formula that is to hold at an end, under the first j assignments of the path: at the end of the script at a row
// its postcondition, at the end of the body of the loop there (I and (V less m)).
pub fn write_end(table: &[i32], end: RowNumber, path: &[i32], j: usize, out: &mut Output<'_, i32>)
    requires { EndReady table.now path.now j end.0 }
    ensures { Written out.old
        (words_under table.now path.now j (end_formula table.now end.0))
        out.new }
{
    match kind_at(table, end.0) {
        Kind::Script => {
            let post = RowNumber(field(table, end.0, 3));
            formula_writer::write_formula(table, post, path, j, out);
        }
        // a loop
        _ => {
            out.push_kind(Kind::And as usize);
            formula_writer::write_formula(table, invariant(table, end), path, j, out);
            out.push_kind(Kind::Less as usize);
            formula_writer::write_expression(table, variant(table, end), path, j, out);
            out.push_mark(end);
        }
    }
}

// Writes W of the statement at row `first` and of all that follows it, before the formula at the end; the first `passed`
// assignments of the path were passed before. A call for a branch's then part, a turn for all else.
pub fn write_before(
    table: &[i32],
    first: usize,
    scratch: &mut [i32],
    passed: usize,
    end: RowNumber,
    out: &mut Output<'_, i32>,
)
    requires { Before table.now (follow_in table.now scratch.old) scratch.old passed end.0 first }
    ensures { Walked table.now scratch.old passed
        (before_end table.now (follow_in table.now scratch.old) first end.0)
        out.old out.new scratch.new }
{
    let mut s = first;
    let mut j = passed;
    // 2048, a word of the lent scratch, says that nothing follows
    while s != 2048 {
        if !out.fits() {
            return;
        }
        match kind_at(table, s) {
            Kind::Skip => s = following::next(table, scratch, s),
            Kind::Assign => {
                let e = RowNumber(field(table, s, 2));
                divisor_writer::write_conjunct(table, e, scratch, j, out);
                scratch[j] = formula_writer::path::entry(table, RowNumber(s));
                j = j + 1;
                s = following::next(table, scratch, s);
            }
            Kind::Sequence => s = field(table, s, 1),
            Kind::If => {
                let b = RowNumber(field(table, s, 1));
                let x = field(table, s, 2);
                let y = field(table, s, 3);
                divisor_writer::write_conjunct(table, b, scratch, j, out);
                out.push_kind(Kind::And as usize);
                out.push_kind(Kind::Implies as usize);
                formula_writer::write_formula(table, b, scratch, j, out);
                write_before(table, x, scratch, j, end, out);
                out.push_kind(Kind::Implies as usize);
                out.push_kind(Kind::Not as usize);
                formula_writer::write_formula(table, b, scratch, j, out);
                s = y;
            }
            Kind::While => {
                let i = invariant(table, RowNumber(s));
                return formula_writer::write_formula(table, i, scratch, j, out);
            }
            // an assertion
            _ => {
                let f = RowNumber(field(table, s, 1));
                out.push_kind(Kind::And as usize);
                formula_writer::write_formula(table, f, scratch, j, out);
                s = following::next(table, scratch, s);
            }
        }
    }
    write_end(table, end, scratch, j, out);
}
