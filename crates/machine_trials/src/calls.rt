// One call: what is lent is made of the numbers, and what is left is written.

ghost use Rattle.std.specs.Prelude.{◌<◌, IfOk};

use machine::RunAnswer;
use std::io;

// A number, or 0 where there is none.
fn number_at(numbers: &[i64], i: usize) -> i64 {
    numbers.get(i).copied().unwrap_or(0)
}

// A number that counts something; 0 where it is negative or too large.
fn count_at(numbers: &[i64], i: usize) -> usize
    ensures { result < 4096 }
{
    match number_at(numbers, i) {
        n @ 0..4096 => n as usize,
        _ => 0,
    }
}

// The variables of so many pairs: which, and its value.
fn set_variables(numbers: &[i64], pairs: usize, variables: &mut [i64; 1024])
    requires { pairs < 4096 }
{
    for i in 0..pairs {
        if let Some(variable) = variables.get_mut(count_at(numbers, 3 + 2 * i)) {
            *variable = number_at(numbers, 4 + 2 * i);
        }
    }
}

// The first words of a table; 0 where 32 bits do not hold a number.
fn set_table(numbers: &[i64], table: &mut [i32]) {
    for (word, number) in table.iter_mut().zip(numbers) {
        *word = i32::try_from(*number).unwrap_or(0);
    }
}

// The values that are not 0, each after its number.
fn write_values(rt: &impl Print, values: &[i64]) -> io::Result<()> {
    for (i, value) in values.iter().enumerate() {
        if *value != 0 {
            print!(rt; " {i}: {value}")?;
        }
    }
    Ok(())
}

// Runs a table, and writes what C is told and what is left.
fn run(
    rt: &impl Print,
    table: &[i32],
    stack: &mut [u32],
    variables: &mut [i64],
    limit: u64,
) -> io::Result<()> {
    let mut marks = [0; 2048];
    let told = RunAnswer::from(machine::run(table, stack, variables, &mut marks, limit));
    let RunAnswer {
        number,
        row,
        steps,
        height,
    } = told;
    print!(rt; "number {number}, row {row}, steps {steps}, height {height}; stack")?;
    for row in stack {
        print!(rt; " {row}")?;
    }
    print!(rt; "; variables")?;
    write_values(rt, variables)?;
    print!(rt; "; marks")?;
    write_values(rt, &marks)?;
    println!(rt)
}

// The call that the numbers begin with; how many of them it has. Its words of stack were 9 before: at most 64.
fn call(rt: &impl Print, numbers: &[i64]) -> io::Result<usize>
    ensures { IfOk result (λ used. (0 < used) × (used < 16384)) }
{
    let mut variables = [0; 1024];
    let mut table = [0; 512];
    let mut stack = [9; 64];
    let limit = count_at(numbers, 0);
    let room = count_at(numbers, 1);
    let pairs = count_at(numbers, 2);
    set_variables(numbers, pairs, &mut variables);
    let from = 3 + 2 * pairs;
    let words = count_at(numbers, from);
    let end = from + 1 + words;
    if let Some(table) = table.get_mut(..words) {
        set_table(numbers.get(from + 1..).unwrap_or(&[]), table);
        if let Some(stack) = stack.get_mut(..room) {
            run(rt, table, stack, &mut variables, limit as u64)?;
        }
    }
    Ok(end)
}

pub fn all(rt: &impl Print, numbers: &[i64]) -> io::Result<()> {
    let mut at = 0;
    while at < numbers.len() {
        at += call(rt, &numbers[at..])?;
    }
    Ok(())
}
