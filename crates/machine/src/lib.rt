// The stepping machine, 02, P11: steps of a script, from its beginning or from where a call before stopped, up to a limit.

#![tactic(auto)]

ghost use Rattle.std.specs.Prelude.{◌≡◌, ◌||◌, ◌+◌, ltb};
ghost use Rattle.script.specs.Rows.{variables as Rows·variables};
ghost use Rattle.stepping.specs.Values.{mode_64};
ghost use Rattle.stepping.specs.Machine.{mark_values, machine_run, machine_on};
ghost use Rattle.machine.specs.declared.Refusal.TheVariants.{Table};
ghost use Rattle.machine.specs.Playing.{Begun, Told, answer_of, played};

use script::{RowNumber, VARIABLES, field, row_count};
use stepper::stack;
use stepper::steps::{self, Failure};

// Why a call takes no step.
#[derive(Clone, Copy, PartialEq, Eq, Debug)]
pub enum Refusal {
    // the table's, 1 to 10
    Table(table::Refusal),
    // 51: the stack has fewer words than rows, or a run of values is short
    Short,
}

impl From<table::Refusal> for Refusal {
    ghost from_gives = { λ refusal told. told ≡ Table refusal };

    fn from(refusal: table::Refusal) -> Refusal {
        Refusal::Table(refusal)
    }
}

// How the steps of a call end, and at which row's statement.
#[derive(Clone, Copy, PartialEq, Eq, Debug)]
pub enum End {
    // nothing is left to do
    Done,
    // that statement's step fails
    Failed(Failure, RowNumber),
    // 54: the limit is spent, and that statement is due
    Spent(RowNumber),
}

// What a call leaves that takes steps: the whole ones, and the height of the stack after them.
#[derive(Clone, Copy, PartialEq, Eq, Debug)]
pub struct Played {
    pub end: End,
    pub steps: u64,
    pub height: usize,
}

// What C is told: the number of 02, P11; the row of the statement that is due, or of a refusal; the whole steps done, and the
// height of the stack.
#[derive(Clone, Copy, PartialEq, Eq, Debug)]
pub struct RunAnswer {
    pub number: usize,
    pub row: usize,
    pub steps: u64,
    pub height: usize,
}

impl From<Result<Played, Refusal>> for RunAnswer {
    ghost from_gives = { λ ended told. told ≡ answer_of ended };

    fn from(ended: Result<Played, Refusal>) -> RunAnswer {
        match ended {
            Ok(played) => {
                let (number, row) = match played.end {
                    End::Done => (0, 0),
                    End::Failed(failure, row) => (failure as usize, row.0),
                    End::Spent(row) => (54, row.0),
                };
                RunAnswer {
                    number,
                    row,
                    steps: played.steps,
                    height: played.height,
                }
            }
            Err(refusal) => {
                let (number, row) = match refusal {
                    Refusal::Table(refusal) => (refusal.fault.number(), refusal.row.0),
                    Refusal::Short => (51, 0),
                };
                RunAnswer {
                    number,
                    row,
                    steps: 0,
                    height: 0,
                }
            }
        }
    }
}

// How many values there are of marks.
const MARKS: usize = 2048;

// 51: whether the stack has fewer words than the rows that lie in it and those of the table, or a run of values is short.
fn too_short(words: usize, height: usize, rows: usize, variables: usize, marks: usize) -> bool
    ensures { result ≡ ltb words (height + rows) || (ltb variables Rows·variables || ltb marks mark_values) }
{
    words < rows || words - rows < height || variables < VARIABLES || marks < MARKS
}

// Steps until nothing is left to do, a step fails, or the limit is spent. The loop goes by the height: a `for` over the steps would
// test it and the limit twice.
fn play(
    table: &[i32],
    stack: &mut [u32],
    begun: usize,
    variables: &mut [i64],
    marks: &mut [i64],
    limit: u64,
) -> Played
    requires { Begun table.now stack.old begun variables.old marks.old }
    ensures { Told (played table.now stack.old begun variables.old marks.old limit)
        (answer_of (Ok result)) stack.new variables.new marks.new }
{
    let mut height = begun;
    let mut steps = 0;
    while 0 < height {
        let row = stack::due(table, stack[height - 1] as usize);
        if steps == limit {
            let end = End::Spent(RowNumber(row));
            return Played { end, steps, height };
        }
        match steps::step(table, stack, height, variables, marks, row) {
            Ok(left) => {
                height = left;
                steps += 1;
            }
            Err(failure) => {
                let end = End::Failed(failure, RowNumber(row));
                return Played { end, steps, height };
            }
        }
    }
    Played {
        end: End::Done,
        steps,
        height: 0,
    }
}

// Runs the table's script from its beginning.
pub fn run(
    table: &[i32],
    stack: &mut [u32],
    variables: &mut [i64],
    marks: &mut [i64],
    limit: u64,
) -> Result<Played, Refusal>
    ensures number { (answer_of result).number ≡ (machine_run mode_64 table.now stack.old variables.old marks.old limit).number }
    ensures row { (answer_of result).row ≡ (machine_run mode_64 table.now stack.old variables.old marks.old limit).row }
    ensures steps { (answer_of result).steps ≡ (machine_run mode_64 table.now stack.old variables.old marks.old limit).steps }
    ensures height { (answer_of result).height ≡ (machine_run mode_64 table.now stack.old variables.old marks.old limit).height }
    ensures stack { stack.new ≡ (machine_run mode_64 table.now stack.old variables.old marks.old limit).stack }
    ensures variables { variables.new ≡ (machine_run mode_64 table.now stack.old variables.old marks.old limit).vars }
    ensures marks { marks.new ≡ (machine_run mode_64 table.now stack.old variables.old marks.old limit).marks }
{
    table::check(table)?;
    let rows = row_count(table);
    if too_short(stack.len(), 0, rows, variables.len(), marks.len()) {
        return Err(Refusal::Short);
    }
    stack::clear(stack);
    stack[0] = field(table, rows - 1, 2) as u32;
    Ok(play(table, stack, 1, variables, marks, limit))
}

// Goes on with the rows in the first words of the stack, as a call before left them.
pub fn go_on(
    table: &[i32],
    stack: &mut [u32],
    height: usize,
    variables: &mut [i64],
    marks: &mut [i64],
    limit: u64,
) -> Result<Played, Refusal>
    ensures number { (answer_of result).number ≡ (machine_on mode_64 table.now stack.old variables.old marks.old limit height).number }
    ensures row { (answer_of result).row ≡ (machine_on mode_64 table.now stack.old variables.old marks.old limit height).row }
    ensures steps { (answer_of result).steps ≡ (machine_on mode_64 table.now stack.old variables.old marks.old limit height).steps }
    ensures height { (answer_of result).height ≡ (machine_on mode_64 table.now stack.old variables.old marks.old limit height).height }
    ensures stack { stack.new ≡ (machine_on mode_64 table.now stack.old variables.old marks.old limit height).stack }
    ensures variables { variables.new ≡ (machine_on mode_64 table.now stack.old variables.old marks.old limit height).vars }
    ensures marks { marks.new ≡ (machine_on mode_64 table.now stack.old variables.old marks.old limit height).marks }
{
    table::check(table)?;
    if too_short(
        stack.len(),
        height,
        row_count(table),
        variables.len(),
        marks.len(),
    ) {
        return Err(Refusal::Short);
    }
    stack::clear(&mut stack[height..]);
    Ok(play(table, stack, height, variables, marks, limit))
}
