// The generator: it lists the conditions of a script, for every table, list and scratch.
#![tactic(auto)]

ghost use Rattle.std.specs.Prelude.{◌≡◌, length};
ghost use Rattle.script.specs.Refusals.{verdict, accepted};
ghost use Rattle.script.specs.Generated.{zeros, scratch_need, outcome};
ghost use Rattle.script.specs.Promise.{Demand3};
ghost use Rattle.generator.specs.declared.Refusal.TheVariants.{Table};
ghost use Rattle.generator.specs.Answers.{answer_of, number, row};
ghost use Rattle.generator.specs.Outcomes.{Fitted, Answered};

use clearing::clear;
use script::Answer;

// A list that was written: how many conditions it has, and how many words.
#[derive(Clone, Copy, PartialEq, Eq, Debug)]
pub struct Plan {
    pub conditions: usize,
    pub words: usize,
}

// What a call is refused for.
#[derive(Clone, Copy, PartialEq, Eq, Debug)]
pub enum Refusal {
    // 1 to 10
    Table(table::Refusal),
    // 11: the scratch is shorter than the table needs
    Scratch,
    // 12: the list is longer than its room
    Room,
}

impl From<table::Refusal> for Refusal {
    ghost from_gives = { λ refusal given. given ≡ Table refusal };

    fn from(refusal: table::Refusal) -> Refusal {
        Refusal::Table(refusal)
    }
}

impl Refusal {
    pub fn number(self) -> usize
        ensures { result ≡ number self }
    {
        match self {
            Refusal::Table(refusal) => refusal.fault.number(),
            Refusal::Scratch => 11,
            Refusal::Room => 12,
        }
    }

    pub fn row(self) -> usize
        ensures { result ≡ row self }
    {
        match self {
            Refusal::Table(refusal) => refusal.row.0,
            Refusal::Scratch | Refusal::Room => 0,
        }
    }
}

// What a call tells, as the four numbers of 01.
pub fn told(plan: Result<Plan, Refusal>) -> Answer
    ensures { result ≡ answer_of plan }
{
    match plan {
        Ok(plan) => Answer {
            number: 0,
            row: 0,
            conditions: plan.conditions,
            words: plan.words,
        },
        Err(refusal) => Answer {
            number: refusal.number(),
            row: refusal.row(),
            conditions: 0,
            words: 0,
        },
    }
}

// Writes the list of an accepted table into its room, or leaves zeros where there is none.
fn write_plan(table: &[i32], list: &mut [i32], scratch: &mut [i32]) -> Result<Plan, Refusal>
    requires { (verdict table.now ≡ accepted) × ((list.old ≡ zeros (length list.old)) × (length scratch.old ≡ scratch_need table.now)) }
    ensures fitted { Fitted table.now (length list.old) (answer_of result) list.new }
    ensures scratch_len_unchanged { length scratch.new ≡ length scratch.old }
{
    let room = list.len().min(16384);
    let progress = list_writer::write_list(table, &mut list[..room], scratch);
    if room < progress.at {
        clear(list);
        return Err(Refusal::Room);
    }
    Ok(Plan {
        conditions: progress.count,
        words: progress.at,
    })
}

// Lists the conditions of an accepted table.
fn plan_accepted(table: &[i32], list: &mut [i32], scratch: &mut [i32]) -> Result<Plan, Refusal>
    requires { (verdict table.now ≡ accepted) × (list.old ≡ zeros (length list.old)) }
    ensures answered { Answered table.now (length list.old) (length scratch.old) (answer_of result) list.new }
    ensures scratch_len_unchanged { length scratch.new ≡ length scratch.old }
{
    let need = 2 * script::row_count(table);
    if scratch.len() < need {
        return Err(Refusal::Scratch);
    }
    write_plan(table, list, &mut scratch[..need])
}

// Answers for any table, with something left in the scratch.
fn answer(table: &[i32], list: &mut [i32], scratch: &mut [i32]) -> Result<Plan, Refusal>
    ensures answered { Answered table.now (length list.old) (length scratch.old) (answer_of result) list.new }
    ensures scratch_len_unchanged { length scratch.new ≡ length scratch.old }
{
    clear(list);
    table::check(table)?;
    plan_accepted(table, list, scratch)
}

// Lists the conditions of the table's script.
pub fn generate(table: &[i32], list: &mut [i32], scratch: &mut [i32]) -> Result<Plan, Refusal>
    ensures answer { answer_of result ≡ (outcome table.now (length list.old) (length scratch.old)).answer }
    ensures words { list.new ≡ (outcome table.now (length list.old) (length scratch.old)).list }
    ensures scratch { scratch.new ≡ (outcome table.now (length list.old) (length scratch.old)).scratch }
    ensures demand { Demand3 table.now (answer_of result) list.new }
{
    let answer = answer(table, list, scratch);
    clear(scratch);
    answer
}
