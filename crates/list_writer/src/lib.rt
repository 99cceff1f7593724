// The walk that lists the conditions of a script into the list. It calls itself on a statement's first-listed part and on a
// loop's body, and the row number falls at every turn and every call. What follows a statement is found once, before the walk.

#![tactic(auto)]

ghost use Rattle.std.specs.Prelude.{◌≡◌, ◌≤◌, length};
ghost use Rattle.script.specs.Rows.{rows};
ghost use Rattle.script.specs.Conditions.{conditions};
ghost use Rattle.script.specs.Trees.{tree};
ghost use Rattle.script.specs.Refusals.{verdict, accepted};
ghost use Rattle.script.specs.Generated.{scratch_need};
ghost use Rattle.following.specs.Follow.{follow_in, Followed};
ghost use Rattle.dividing.specs.Divided.{Divided};
ghost use Rattle.line_writer.specs.Spelled.{Whole};
ghost use Rattle.line_writer.specs.Loops.{Lined};
ghost use Rattle.list_writer.specs.Walks.{Walking, walk_at};

use line_writer::{Lines, Progress};
use output::Output;
use script::{Kind, RowNumber, field};

// Lists the conditions of the statement at row `first`, in the bodies of `depth` loops, met with what follows it and the formula
// at the end after it.
fn list_conditions(
    table: &[i32],
    first: usize,
    depth: usize,
    scratch: &mut [i32],
    end: RowNumber,
    lines: &mut Lines<'_, '_>,
)
    requires { Walking table.now (follow_in table.now scratch.old) scratch.old end.0 depth first lines.old }
    ensures { Lined table.now scratch.old
        (walk_at table.now (follow_in table.now scratch.old) end.0 depth first)
        lines.old lines.new scratch.new }
{
    let mut s = first;
    while lines.out.fits() {
        match script::kind_at(table, s) {
            Kind::Sequence => {
                let a = field(table, s, 1);
                let b = field(table, s, 2);
                list_conditions(table, b, depth, scratch, end, lines);
                s = a;
            }
            Kind::If => {
                let x = field(table, s, 2);
                let y = field(table, s, 3);
                list_conditions(table, x, depth, scratch, end, lines);
                s = y;
            }
            Kind::While => {
                let k = RowNumber(s);
                let body = field(table, s, 3);
                line_writer::write_guard(table, k, depth, scratch, lines);
                line_writer::write_exit(table, k, depth, scratch, end, lines);
                line_writer::write_floor(table, k, depth, scratch, lines);
                list_conditions(table, body, depth + 1, scratch, k, lines);
                return line_writer::write_step(table, k, depth, scratch, lines);
            }
            // skip, an assignment, an assertion
            _ => return,
        }
    }
}

// Fills in what follows each statement, and which rows divide.
fn fill_run(table: &[i32], follow: &mut [i32])
    requires { (verdict table.now ≡ accepted) × (length follow.old ≡ rows table.now) }
    ensures { Followed table.now follow.new × Divided table.now follow.new }
{
    following::find_follow(table, follow);
    dividing::find_divisions(table, follow);
}

// Writes the whole list of a table that is accepted: the conditions of the script's statement, main, and minus their number.
pub fn write_list(table: &[i32], list: &mut [i32], scratch: &mut [i32]) -> Progress
    requires { (verdict table.now ≡ accepted) × ((length list.old ≤ 16384) × (length scratch.old ≡ scratch_need table.now)) }
    ensures whole { Whole list.old (conditions (tree table.now)) result list.new }
    ensures scratch_len_unchanged { length scratch.new ≡ length scratch.old }
{
    let rows = script::row_count(table);
    fill_run(table, &mut scratch[rows..]);
    let script = RowNumber(rows - 1);
    let statement = field(table, script.0, 2);
    let mut out = Output { list, at: 0 };
    let mut lines = Lines {
        out: &mut out,
        count: 0,
    };
    list_conditions(table, statement, 0, scratch, script, &mut lines);
    line_writer::write_main(table, script, scratch, &mut lines);
    line_writer::write_count(&mut lines);
    let count = lines.count;
    Progress { at: out.at, count }
}
