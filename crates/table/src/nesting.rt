// 10: the largest number of if and while rows on one path, from the rows below up.

ghost use Rattle.std.specs.Prelude.{◌≡◌, ℕ, ◌<◌, max, get_or};
ghost use Rattle.script.specs.Rows.{rows};
ghost use Rattle.script.specs.Trees.{tree};
ghost use Rattle.script.specs.Trees.{nesting as Trees·nesting};
ghost use Rattle.script.specs.Refusals.{accepted, script_test};
ghost use Rattle.table.specs.Misread.{Sound};
ghost use Rattle.table.specs.Nesting.{Nested, Nestings};

use script::Kind;

fn nesting_at(nestings: &[u16; 2048], r: usize) -> u16
    requires { r < 2048 }
    ensures { result ≡ get_or nestings.now r 0 }
{
    nestings[r]
}

// The nesting of row r, from those of the rows below it.
fn row_nesting(table: &[i32], nestings: &[u16; 2048], r: usize) -> u16
    requires { Sound table.now × ((r < rows table.now) × Nestings table.now r nestings.now) }
    ensures { Nested table.now r result }
{
    match script::kind_at(table, r) {
        Kind::Sequence => {
            let first = script::field(table, r, 1);
            let second = script::field(table, r, 2);
            nesting_at(nestings, first).max(nesting_at(nestings, second))
        }
        Kind::If => {
            let true_side = script::field(table, r, 2);
            let false_side = script::field(table, r, 3);
            nesting_at(nestings, true_side).max(nesting_at(nestings, false_side)) + 1
        }
        Kind::While => {
            let body = script::field(table, r, 3);
            nesting_at(nestings, body) + 1
        }
        _ => 0,
    }
}

// The nesting of the script.
pub fn script_nesting(table: &[i32]) -> usize
    requires { Sound table.now × (script_test table.now ≡ accepted) }
    ensures { result ≡ Trees·nesting (tree table.now).body }
{
    let mut nestings: [u16; 2048] = [0; 2048];
    let rows = script::row_count(table);
    for r in 0..rows {
        nestings[r] = row_nesting(table, &nestings, r);
    }
    let body = script::field(table, rows - 1, 2);
    nesting_at(&nestings, body) as usize
}
