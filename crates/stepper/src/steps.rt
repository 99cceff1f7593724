// One step, of the statement that is due: first what is to be worked out, then, where that succeeds, what is written. A step that
// fails writes nothing. The lent runs are parameters: of a struct that holds them as `&mut` each step would also have to ensure that
// all three references stay.

ghost use Rattle.std.specs.Prelude.{◌≡◌, cond, ◌+◌, ◌*◌, ◌<◌, length};
ghost use Rattle.script.specs.Kinds.{number};
ghost use Rattle.script.specs.Rows.{field_number, word};
ghost use Rattle.evaluation.specs.Worked.{fault_of};
ghost use Rattle.stepper.specs.Parts.{HasKind};
ghost use Rattle.stepper.specs.Steps.{Stage, Tried, failure_of, stepped};
ghost use Rattle.stepper.specs.Statements.{passing};

use crate::stack::take_next;
use evaluation::{State, Stop};
use script::{Kind, field, kind_at, row_count};

// Why a step fails, with its number.
#[derive(Clone, Copy, PartialEq, Eq, Debug)]
pub enum Failure {
    // "50 when a value leaves 64 bits"
    Overflow = 50,
    // "52 when an assertion is false"
    Untrue = 52,
    // "53 when a script divides by zero"
    ByZero = 53,
}

impl From<Stop> for Failure {
    ghost from_gives = { λ stop failure. failure ≡ failure_of (fault_of stop) };

    fn from(stop: Stop) -> Failure {
        match stop {
            Stop::Overflow => Failure::Overflow,
            Stop::ByZero => Failure::ByZero,
        }
    }
}

// The variable takes the value of its expression.
fn assign(
    table: &[i32],
    stack: &mut [u32],
    height: usize,
    variables: &mut [i64],
    marks: &[i64],
    at: usize,
) -> Result<usize, Failure>
    requires { Stage table.now stack.old height variables.old marks.now at × HasKind table.now at (number Kind.Assign) }
    ensures { Tried table.now stack.old height variables.old marks.now
        stack.new variables.new marks.now result }
{
    let variable = field(table, at, 1);
    let expression = field(table, at, 2);
    let state = State {
        table,
        variables,
        marks,
        code: true,
    };
    variables[variable] = state.value_at(expression)?;
    Ok(take_next(table, stack, height))
}

// Goes on where the assertion is true.
fn assert_true(
    table: &[i32],
    stack: &mut [u32],
    height: usize,
    variables: &[i64],
    marks: &[i64],
    at: usize,
) -> Result<usize, Failure>
    requires { Stage table.now stack.old height variables.now marks.now at × HasKind table.now at (number Kind.Assert) }
    ensures { Tried table.now stack.old height variables.now marks.now
        stack.new variables.now marks.now result }
{
    let formula = field(table, at, 1);
    let state = State {
        table,
        variables,
        marks,
        code: false,
    };
    if state.truth_at(formula)? {
        Ok(take_next(table, stack, height))
    } else {
        Err(Failure::Untrue)
    }
}

// The row of the side of an if that is taken.
fn side(table: &[i32], at: usize, holds: bool) -> usize
    requires { 4 * at + 3 < length table.now }
    ensures { result ≡ cond holds (field_number (word table.now at 2)) (field_number (word table.now at 3)) }
{
    if holds {
        field(table, at, 2)
    } else {
        field(table, at, 3)
    }
}

// The side that the guard takes is next.
fn choose_side(
    table: &[i32],
    stack: &mut [u32],
    height: usize,
    variables: &[i64],
    marks: &[i64],
    at: usize,
) -> Result<usize, Failure>
    requires { Stage table.now stack.old height variables.now marks.now at × HasKind table.now at (number Kind.If) }
    ensures { Tried table.now stack.old height variables.now marks.now
        stack.new variables.now marks.now result }
{
    let guard = field(table, at, 1);
    let state = State {
        table,
        variables,
        marks,
        code: true,
    };
    let holds = state.truth_at(guard)?;
    let side = side(table, at, holds);
    let left = take_next(table, stack, height);
    stack[left] = side as u32;
    Ok(left + 1)
}

// A pass of the loop: its mark takes the variant's value; its body is next, then the loop again.
#[tactic(auto, using(crate::proofs::Marks::mark_low))]
fn begin_pass(
    table: &[i32],
    stack: &mut [u32],
    height: usize,
    variables: &[i64],
    marks: &mut [i64],
    at: usize,
) -> Result<usize, Failure>
    requires { Stage table.now stack.old height variables.now marks.old at × (HasKind table.now at (number Kind.While) × (stepped table.now stack.old height variables.now marks.old ≡ passing table.now stack.old height variables.now marks.old at)) }
    ensures { Tried table.now stack.old height variables.now marks.old
        stack.new variables.now marks.new result }
{
    let note = field(table, at, 2);
    let body = field(table, at, 3);
    let variant = field(table, note, 2);
    let state = State {
        table,
        variables,
        marks,
        code: false,
    };
    marks[at] = state.value_at(variant)?;
    let left = take_next(table, stack, height);
    stack[left] = at as u32;
    stack[left + 1] = body as u32;
    Ok(left + 2)
}

// Begins a pass where the guard is true; else the loop is left.
fn test_guard(
    table: &[i32],
    stack: &mut [u32],
    height: usize,
    variables: &[i64],
    marks: &mut [i64],
    at: usize,
) -> Result<usize, Failure>
    requires { Stage table.now stack.old height variables.now marks.old at × HasKind table.now at (number Kind.While) }
    ensures { Tried table.now stack.old height variables.now marks.old
        stack.new variables.now marks.new result }
{
    let guard = field(table, at, 1);
    let state = State {
        table,
        variables,
        marks,
        code: true,
    };
    if state.truth_at(guard)? {
        begin_pass(table, stack, height, variables, marks, at)
    } else {
        Ok(take_next(table, stack, height))
    }
}

// Tries the statement at row `at`, which is due. What is no statement of the table is passed over, as a skip.
pub fn step(
    table: &[i32],
    stack: &mut [u32],
    height: usize,
    variables: &mut [i64],
    marks: &mut [i64],
    at: usize,
) -> Result<usize, Failure>
    requires { Stage table.now stack.old height variables.old marks.old at }
    ensures { Tried table.now stack.old height variables.old marks.old
        stack.new variables.new marks.new result }
{
    if at < row_count(table) {
        match kind_at(table, at) {
            Kind::Assign => assign(table, stack, height, variables, marks, at),
            Kind::If => choose_side(table, stack, height, variables, marks, at),
            Kind::While => test_guard(table, stack, height, variables, marks, at),
            Kind::Assert => assert_true(table, stack, height, variables, marks, at),
            _ => Ok(take_next(table, stack, height)),
        }
    } else {
        Ok(take_next(table, stack, height))
    }
}
