// The lines of a list, one function for each kind of condition: its formula, then its trailer. Nothing is kept of a formula:
// each is written straight into the list. Once there is no room, nothing more is written.

#![tactic(auto)]

ghost use Rattle.std.specs.Prelude.{◌≡◌, [], ◌∷◌, ◌<◌, pos};
ghost use Rattle.script.specs.declared.Connective.TheVariants.{And};
ghost use Rattle.script.specs.Syntax.{join};
ghost use Rattle.script.specs.Words.{rule_number, formula_words};
ghost use Rattle.output.specs.Written.{Written};
ghost use Rattle.following.specs.Follow.{follow_in};
ghost use Rattle.wp_writer.specs.Loops.{Loop, guard_at, invariant_at};
ghost use Rattle.wp_writer.specs.Walked.{Before};
ghost use Rattle.line_writer.specs.Listed.{Listed, InRoom};
ghost use Rattle.line_writer.specs.Spelled.{Finishing, Finished, Counted};
ghost use Rattle.line_writer.specs.Guards.{GuardReady, guard_lines};
ghost use Rattle.line_writer.specs.Loops.{Lined, StepReady, MainReady, exit_line, floor_line, step_line, main_line};

use output::Output;
use script::{Kind, RowNumber, Rule, field};

// Where the next word goes, with the number of conditions before it; a place past the end of the list says that there was no
// room.
#[derive(Clone, Copy)]
pub struct Progress {
    pub at: usize,
    pub count: usize,
}

// What lines are written into, with the number of conditions before its place.
#[derive(Drop)]
pub struct Lines<'a, 'b> {
    // by `&mut`: of a list two structs deep the maker of both is told no more than its length
    pub out: &'a mut Output<'b, i32>,
    pub count: usize,
}

fn rule_word(rule: Rule) -> i32
    ensures { result ≡ pos (rule_number rule) }
{
    rule as i32
}

// Writes the trailer of the formula that was written from `start` on: rule, row, length, and how many loops enclose the one at
// the row, or 0 for main (02, P9).
fn finish_line(start: usize, rule: Rule, row: RowNumber, depth: usize, lines: &mut Lines<'_, '_>)
    requires { Finishing start row.0 depth lines.old }
    ensures { Finished start rule row.0 depth lines.old lines.new }
{
    if lines.out.fits() {
        let length = lines.out.at - start;
        lines.out.push_two(rule_word(rule), row.0 as i32);
        lines.out.push_two(length as i32, depth as i32);
        lines.count += 1;
    }
}

// "I implies D(B)", where the guard divides (02, P5); nothing where it does not.
pub fn write_guard(
    table: &[i32],
    k: RowNumber,
    depth: usize,
    scratch: &[i32],
    lines: &mut Lines<'_, '_>,
)
    requires { GuardReady table.now k.0 (follow_in table.now scratch.now) × InRoom lines.old × (depth < 2048) }
    ensures { Listed lines.old (guard_lines table.now depth k.0) lines.new }
{
    let guard = RowNumber(field(table, k.0, 1));
    let rows = script::row_count(table);
    let follow = &scratch[rows..];
    if dividing::divides(follow, guard) {
        let start = lines.out.at;
        lines.out.push_kind(Kind::Implies as usize);
        formula_writer::write_formula(table, wp_writer::invariant(table, k), scratch, 0, lines.out);
        divisor_writer::write_divisors(table, guard, follow, scratch, 0, lines.out);
        finish_line(start, Rule::Guard, k, depth, lines);
    }
}

// "(I and (not B)) implies Q", where Q is W of what follows the loop.
pub fn write_exit(
    table: &[i32],
    k: RowNumber,
    depth: usize,
    scratch: &mut [i32],
    end: RowNumber,
    lines: &mut Lines<'_, '_>,
)
    requires { Loop table.now k.0 × Before table.now (follow_in table.now scratch.old) scratch.old 0 end.0 k.0
        × InRoom lines.old × (depth < 2048) }
    ensures { Lined table.now scratch.old
        (exit_line table.now (follow_in table.now scratch.old) end.0 depth k.0 ∷ [])
        lines.old lines.new scratch.new }
{
    let row = k.0;
    let guard = RowNumber(field(table, row, 1));
    let next = following::next(table, scratch, row);
    let start = lines.out.at;
    lines.out.push_kind(Kind::Implies as usize);
    lines.out.push_kind(Kind::And as usize);
    formula_writer::write_formula(table, wp_writer::invariant(table, k), scratch, 0, lines.out);
    lines.out.push_kind(Kind::Not as usize);
    formula_writer::write_formula(table, guard, scratch, 0, lines.out);
    wp_writer::write_before(table, next, scratch, 0, end, lines.out);
    finish_line(start, Rule::Exit, k, depth, lines);
}

// Writes (I and B), which holds where the body of a loop begins.
fn write_entered(table: &[i32], k: RowNumber, path: &[i32], out: &mut Output<'_, i32>)
    requires { Loop table.now k.0 }
    ensures { Written out.old
        (formula_words (join And (invariant_at table.now k.0) (guard_at table.now k.0)))
        out.new }
{
    let guard = RowNumber(field(table, k.0, 1));
    out.push_kind(Kind::And as usize);
    formula_writer::write_formula(table, wp_writer::invariant(table, k), path, 0, out);
    formula_writer::write_formula(table, guard, path, 0, out);
}

// "(I and B) implies (0 at most V)"
pub fn write_floor(
    table: &[i32],
    k: RowNumber,
    depth: usize,
    path: &[i32],
    lines: &mut Lines<'_, '_>,
)
    requires { Loop table.now k.0 × InRoom lines.old × (depth < 2048) }
    ensures { Listed lines.old (floor_line table.now depth k.0 ∷ []) lines.new }
{
    let start = lines.out.at;
    lines.out.push_kind(Kind::Implies as usize);
    write_entered(table, k, path, lines.out);
    lines.out.push_kind(Kind::AtMost as usize);
    lines.out.push_constant(0);
    formula_writer::write_expression(table, wp_writer::variant(table, k), path, 0, lines.out);
    finish_line(start, Rule::Floor, k, depth, lines);
}

// "((I and B) and (V equal m)) implies W(body, I and (V less m))"
pub fn write_step(
    table: &[i32],
    k: RowNumber,
    depth: usize,
    scratch: &mut [i32],
    lines: &mut Lines<'_, '_>,
)
    requires { StepReady table.now k.0 (follow_in table.now scratch.old) scratch.old × InRoom lines.old × (depth < 2048) }
    ensures { Lined table.now scratch.old (step_line table.now depth k.0 ∷ [])
        lines.old lines.new scratch.new }
{
    let body = field(table, k.0, 3);
    let start = lines.out.at;
    lines.out.push_kind(Kind::Implies as usize);
    lines.out.push_kind(Kind::And as usize);
    write_entered(table, k, scratch, lines.out);
    lines.out.push_kind(Kind::Equal as usize);
    formula_writer::write_expression(table, wp_writer::variant(table, k), scratch, 0, lines.out);
    lines.out.push_mark(k);
    wp_writer::write_before(table, body, scratch, 0, k, lines.out);
    finish_line(start, Rule::Step, k, depth, lines);
}

// "P implies W(S, Q)", of the script at a row.
pub fn write_main(table: &[i32], row: RowNumber, scratch: &mut [i32], lines: &mut Lines<'_, '_>)
    requires { MainReady table.now row.0 (follow_in table.now scratch.old) scratch.old × InRoom lines.old }
    ensures { Lined table.now scratch.old (main_line table.now row.0 ∷ [])
        lines.old lines.new scratch.new }
{
    let pre = RowNumber(field(table, row.0, 1));
    let statement = field(table, row.0, 2);
    let start = lines.out.at;
    lines.out.push_kind(Kind::Implies as usize);
    formula_writer::write_formula(table, pre, scratch, 0, lines.out);
    wp_writer::write_before(table, statement, scratch, 0, row, lines.out);
    finish_line(start, Rule::Main, row, 0, lines);
}

// Writes the last word of a list, minus the number of its conditions (02, P9).
pub fn write_count(lines: &mut Lines<'_, '_>)
    requires { InRoom lines.old }
    ensures { Counted lines.old lines.new }
{
    if lines.out.fits() {
        let count = lines.count as i32;
        lines.out.push(-count);
    }
}
