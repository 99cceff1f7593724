// Writing D of 02, P5: that no divisor of the expression or formula at a row is zero, under a path of assignments. The ands come
// first, then the items: the D of each part, and for div and mod the divisor unequal to 0. Which rows divide was found before,
// and from which row on D has words of its own (`dividing`): so the cost goes by the words written. Once there is no room, a
// call returns at once.

#![tactic(auto)]

ghost use Rattle.std.specs.Prelude.{◌<◌, length};
ghost use Rattle.script.specs.declared.Sort.TheVariants.{Expression, Formula};
ghost use Rattle.theorems.specs.DivisorWords.{and_if_both};
ghost use Rattle.output.specs.Written.{Written};
ghost use Rattle.formula_writer.specs.Paths.{expr_under, formula_under};
ghost use Rattle.formula_writer.specs.Nodes.{Ready};
ghost use Rattle.following.specs.Follow.{follow_in};
ghost use Rattle.dividing.specs.Divided.{marked};
ghost use Rattle.divisor_writer.specs.Words.{divisor_words, conjunct_words, DivisorReady};
ghost use Rattle.divisor_writer.specs.Under.{ands, lead, premise, unequal_zero};

use dividing::divides;
use output::Output;
use script::{Kind, RowNumber, field};

// Writes the and of two items, where both stand.
fn push_and_if_both(first: bool, second: bool, out: &mut Output<'_, i32>)
    ensures { Written out.old (and_if_both first second) out.new }
{
    if first && second {
        out.push_kind(Kind::And as usize);
    }
}

// Writes the ands of three items, grouped from the left: the D of the nodes at rows a and b, and one that stands or not.
fn push_ands(follow: &[i32], a: RowNumber, b: RowNumber, third: bool, out: &mut Output<'_, i32>)
    requires { (a.0 < length follow.now) × (b.0 < length follow.now) }
    ensures { Written out.old
        (ands (marked follow.now a.0) (marked follow.now b.0) third)
        out.new }
{
    let first = divides(follow, a);
    let second = divides(follow, b);
    push_and_if_both(first | second, third, out);
    push_and_if_both(first, second, out);
}

// Writes what a choose by the formula at row f puts before D of a side, at row a, where that stands: f implies, and for the second
// side not f implies.
fn write_premise(
    table: &[i32],
    f: RowNumber,
    denied: bool,
    a: RowNumber,
    follow: &[i32],
    path: &[i32],
    j: usize,
    out: &mut Output<'_, i32>,
)
    requires { Ready table.now path.now j f.0 Formula × (a.0 < length follow.now) }
    ensures { Written out.old
        (lead (marked follow.now a.0)
        (premise denied (formula_under table.now path.now j f.0)))
        out.new }
{
    if divides(follow, a) {
        out.push_kind(Kind::Implies as usize);
        if denied {
            out.push_kind(Kind::Not as usize);
        }
        formula_writer::write_formula(table, f, path, j, out);
    }
}

// Writes that the divisor at row b is unequal to 0.
fn write_nonzero(table: &[i32], b: RowNumber, path: &[i32], j: usize, out: &mut Output<'_, i32>)
    requires { Ready table.now path.now j b.0 Expression }
    ensures { Written out.old
        (unequal_zero (expr_under table.now path.now j b.0))
        out.new }
{
    out.push_kind(Kind::Unequal as usize);
    formula_writer::write_expression(table, b, path, j, out);
    out.push_constant(0);
}

// Writes D of the node at row r, under the first j assignments of the path. A turn begins at the source, and writes a word at
// least. A node's last part is a turn, where nothing comes after it.
pub fn write_divisors(
    table: &[i32],
    r: RowNumber,
    follow: &[i32],
    path: &[i32],
    j: usize,
    out: &mut Output<'_, i32>,
)
    requires { DivisorReady table.now follow.now path.now j r.0 }
    ensures { Written out.old (divisor_words table.now path.now j r.0) out.new }
{
    let mut row = r.0;
    while out.fits() {
        if !divides(follow, RowNumber(row)) {
            return;
        }
        row = dividing::source(follow, RowNumber(row)).0;
        match script::kind_at(table, row) {
            Kind::Choose => {
                let f = RowNumber(field(table, row, 1));
                let a = RowNumber(field(table, row, 2));
                row = field(table, row, 3);
                let last = divides(follow, RowNumber(row));
                push_ands(follow, f, a, last, out);
                write_divisors(table, f, follow, path, j, out);
                write_premise(table, f, false, a, follow, path, j, out);
                write_divisors(table, a, follow, path, j, out);
                write_premise(table, f, true, RowNumber(row), follow, path, j, out);
            }
            Kind::Div | Kind::Mod => {
                let a = RowNumber(field(table, row, 1));
                let b = RowNumber(field(table, row, 2));
                push_ands(follow, a, b, true, out);
                write_divisors(table, a, follow, path, j, out);
                write_divisors(table, b, follow, path, j, out);
                return write_nonzero(table, b, path, j, out);
            }
            // another operator, a relation or a connective
            _ => {
                let a = RowNumber(field(table, row, 1));
                let b = RowNumber(field(table, row, 2));
                push_ands(follow, a, b, false, out);
                write_divisors(table, a, follow, path, j, out);
                row = b.0;
            }
        }
    }
}

// Writes what D of the node at row r puts before a formula, under the first j assignments of the path in the scratch: an and,
// and D, where D stands.
pub fn write_conjunct(
    table: &[i32],
    r: RowNumber,
    scratch: &[i32],
    j: usize,
    out: &mut Output<'_, i32>,
)
    requires { DivisorReady table.now (follow_in table.now scratch.now) scratch.now j r.0 }
    ensures { Written out.old
        (conjunct_words table.now scratch.now j r.0)
        out.new }
{
    let rows = script::row_count(table);
    let follow = &scratch[rows..];
    if divides(follow, r) {
        out.push_kind(Kind::And as usize);
        write_divisors(table, r, follow, scratch, j, out);
    }
}
