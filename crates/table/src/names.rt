// 9: the lowest frozen name or mark that stands where it may not.

ghost use Rattle.std.specs.Prelude.{◌≡◌, cond, false, not, ◌||◌, get_or, [], ◌∷◌, ℕ, ◌<◌};
ghost use Rattle.script.specs.Rows.{rows};
ghost use Rattle.script.specs.Refusals.{◌and_then◌, reading_test, row_test, accepted, target_test};
ghost use Rattle.table.specs.Verdicts.{verdict_of};
ghost use Rattle.table.specs.Reads.{expression_reads, formula_reads, reads_of, statement_reads};
ghost use Rattle.table.specs.Misread.{Misread, Sound, least};

use crate::{Reads, Refusal, tests};
use rows::Fault;
use script::{ExpressionRow, FormulaRow, Row, RowNumber, StatementRow};

fn expression_reads(code: bool, row: ExpressionRow) -> Reads
    ensures { result ≡ expression_reads code row }
{
    match row {
        ExpressionRow::Constant(_) => Reads::Nothing,
        ExpressionRow::Variable(v) => Reads::Variable(v),
        ExpressionRow::Arithmetic(_, a, b) => Reads::Two(code, a, b),
        ExpressionRow::Negate(a) => Reads::One(code, a),
        ExpressionRow::Mark(m) => Reads::Mark(m),
        ExpressionRow::Choose(f, a, b) => Reads::Three(code, code, f, a, b),
    }
}

fn formula_reads(code: bool, row: FormulaRow) -> Reads
    ensures { result ≡ formula_reads code row }
{
    match row {
        FormulaRow::True => Reads::Nothing,
        FormulaRow::False => Reads::Nothing,
        FormulaRow::Comparison(_, a, b) => Reads::Two(code, a, b),
        FormulaRow::Not(f) => Reads::One(code, f),
        FormulaRow::Junction(_, f, g) => Reads::Two(code, f, g),
    }
}

fn statement_reads(row: StatementRow) -> Reads
    ensures { result ≡ statement_reads row }
{
    match row {
        StatementRow::Skip => Reads::Nothing,
        StatementRow::Assign(_, e) => Reads::One(true, e),
        StatementRow::Sequence(a, b) => Reads::Two(false, a, b),
        StatementRow::If(b, x, y) => Reads::Three(true, false, b, x, y),
        StatementRow::While(b, i, x) => Reads::Loop(b, i, x),
        StatementRow::Assert(f) => Reads::One(false, f),
    }
}

// How a row is read on, where `code` says how it is read itself.
fn reads(code: bool, row: Row) -> Reads
    ensures { result ≡ reads_of code row }
{
    match row {
        Row::Expression(x) => expression_reads(code, x),
        Row::Formula(x) => formula_reads(code, x),
        Row::Statement(x) => statement_reads(x),
        Row::Note(i, v) => Reads::Two(false, i, v),
        Row::Script(p, s, q) => Reads::Three(false, false, p, s, q),
        Row::Unknown => Reads::Nothing,
    }
}

// The lower of `low` and row r, where that is misplaced.
fn lower(r: RowNumber, misplaced: bool, low: usize) -> usize
    ensures { result ≡ least (cond misplaced (r.0 ∷ []) []) low }
{
    if misplaced { low.min(r.0) } else { low }
}

// Whether the mark of a loop may not stand here: in code, or outside the loop's body. `around` says which bodies are around.
fn mark_misplaced(code: bool, around: &[bool; 2048], m: RowNumber) -> bool
    requires { m.0 < 2048 }
    ensures { result ≡ (code || not (get_or around.now m.0 false)) }
{
    code || !around[m.0]
}

// The lower of `low` and the lowest name at row r or below it that stands where it may not.
fn lowest_misread(
    table: &[i32],
    r: RowNumber,
    code: bool,
    around: &mut [bool; 2048],
    low: usize,
) -> usize
    requires { Sound table.now × (r.0 < rows table.now) }
    ensures { Misread table.now r.0 code around.old low result around.new }
{
    let next = reads(code, script::row_at(table, r));
    match next {
        Reads::Nothing => low,
        Reads::Variable(v) => lower(r, code && script::is_frozen(v), low),
        Reads::Mark(m) => lower(r, mark_misplaced(code, around, m), low),
        Reads::One(c, a) => lowest_misread(table, a, c, around, low),
        Reads::Two(c, a, b) => {
            let m = lowest_misread(table, a, c, around, low);
            lowest_misread(table, b, c, around, m)
        }
        Reads::Three(c, d, f, a, b) => {
            let m = lowest_misread(table, f, c, around, low);
            let n = lowest_misread(table, a, d, around, m);
            lowest_misread(table, b, d, around, n)
        }
        Reads::Loop(b, i, x) => {
            let m = lowest_misread(table, b, true, around, low);
            let n = lowest_misread(table, i, false, around, m);
            let at = r.0;
            let was = around[at];
            around[at] = true;
            let k = lowest_misread(table, x, false, around, n);
            around[at] = was;
            k
        }
    }
}

// 9: each frozen name and each mark stands where it may.
fn check_reading(table: &[i32]) -> Result<(), Refusal>
    requires { Sound table.now }
    ensures { verdict_of result ≡ reading_test table.now }
{
    let mut around = [false; 2048];
    let rows = script::row_count(table);
    let m = lowest_misread(table, RowNumber(rows - 1), false, &mut around, rows);
    if m < rows {
        return Err(Refusal {
            fault: Fault::Misplaced,
            row: RowNumber(m),
        });
    }
    Ok(())
}

// 8 and 9.
pub fn check_names(table: &[i32]) -> Result<(), Refusal>
    requires { Sound table.now × (row_test table.now ≡ accepted) }
    ensures { verdict_of result ≡ target_test table.now and_then reading_test table.now }
{
    if !tests::any_named(table) {
        return Ok(());
    }
    tests::check_targets(table)?;
    check_reading(table)
}
