// Writing the expression or formula at a row into an output, under a path of assignments: a variable is written as the latest
// assignment to it says, under the path before that one. Once there is no room, a call returns at once, so the cost goes by the
// words written, not by those that would have been. A node's last part is a turn of the loop; a call is for the parts before it. A
// row is not taken apart: the writers go by its kind.

#![tactic(auto)]

pub mod path; // what a path has of an assignment, and the search for the latest one

ghost use Rattle.std.specs.Prelude.{◌<◌};
ghost use Rattle.script.specs.declared.Sort.TheVariants.{Expression, Formula};
ghost use Rattle.script.specs.Rows.{variables};
ghost use Rattle.theorems.specs.Accepted.{Accepted};
ghost use Rattle.output.specs.Written.{Written};
ghost use Rattle.formula_writer.specs.Paths.{expr_under, formula_under};
ghost use Rattle.formula_writer.specs.Nodes.{OnPath, Ready};
ghost use Rattle.formula_writer.specs.Replacing.{Replaced};

use output::Output;
use script::{Kind, RowNumber, VariableNumber, field};

// The step for an assignment (02, P3): where variable v is to be written, under the first j assignments of the path, the value
// of the latest to it comes in its place. Gives the value's row, and how many assignments it stands under; none where there is no
// assignment to v, and v itself was written.
fn replace_variable(
    table: &[i32],
    v: VariableNumber,
    path: &[i32],
    j: usize,
    out: &mut Output<'_, i32>,
) -> Option<(RowNumber, usize)>
    requires { Accepted table.now × OnPath table.now path.now j × (v.0 < variables) }
    ensures { Replaced table.now path.now v.0 j out.old out.new result }
{
    match path::latest(v, path, j) {
        None => {
            out.push_variable(v);
            None
        }
        Some(i) => {
            let r = path::row_at(path, i);
            Some((RowNumber(field(table, r.0, 2)), i))
        }
    }
}

// Writes the expression at row r, under the first j assignments of the path.
#[cycle(write_expression_write_formula)]
pub fn write_expression(
    table: &[i32],
    r: RowNumber,
    path: &[i32],
    j: usize,
    out: &mut Output<'_, i32>,
)
    requires { Ready table.now path.now j r.0 Expression }
    ensures { Written out.old (expr_under table.now path.now j r.0) out.new }
{
    let mut row = r.0;
    let mut seen = j;
    while out.fits() {
        let number = field(table, row, 0);
        match Kind::from(number) {
            Kind::Constant => return out.push_constant(table[4 * row + 1]),
            Kind::Variable => {
                let v = VariableNumber(field(table, row, 1));
                match replace_variable(table, v, path, seen, out) {
                    None => return,
                    Some((value, before)) => {
                        row = value.0;
                        seen = before;
                    }
                }
            }
            Kind::Negate => {
                out.push_kind(Kind::Negate as usize);
                row = field(table, row, 1);
            }
            Kind::Mark => return out.push_mark(RowNumber(field(table, row, 1))),
            Kind::Choose => {
                out.push_kind(Kind::Choose as usize);
                write_formula(table, RowNumber(field(table, row, 1)), path, seen, out);
                write_expression(table, RowNumber(field(table, row, 2)), path, seen, out);
                row = field(table, row, 3);
            }
            // an operator
            _ => {
                out.push_kind(number);
                write_expression(table, RowNumber(field(table, row, 1)), path, seen, out);
                row = field(table, row, 2);
            }
        }
    }
}

// Writes the formula at row r, under the first j assignments of the path.
#[cycle(write_expression_write_formula)]
pub fn write_formula(table: &[i32], r: RowNumber, path: &[i32], j: usize, out: &mut Output<'_, i32>)
    requires { Ready table.now path.now j r.0 Formula }
    ensures { Written out.old (formula_under table.now path.now j r.0) out.new }
{
    let mut row = r.0;
    while out.fits() {
        let number = field(table, row, 0);
        match Kind::from(number) {
            Kind::True => return out.push_kind(Kind::True as usize),
            Kind::False => return out.push_kind(Kind::False as usize),
            Kind::Not => {
                out.push_kind(Kind::Not as usize);
                row = field(table, row, 1);
            }
            Kind::Less | Kind::AtMost | Kind::Equal | Kind::Unequal => {
                out.push_kind(number);
                let first = RowNumber(field(table, row, 1));
                let second = RowNumber(field(table, row, 2));
                write_expression(table, first, path, j, out);
                return write_expression(table, second, path, j, out);
            }
            // a connective
            _ => {
                out.push_kind(number);
                let first = RowNumber(field(table, row, 1));
                row = field(table, row, 2);
                write_formula(table, first, path, j, out);
            }
        }
    }
}
