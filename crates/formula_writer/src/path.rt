// A path is a run with an entry for each assignment that was passed, the latest last: the assignment's row, and beside it the
// variable that it assigns, so that the search for a variable reads nothing but the path.

ghost use Rattle.std.specs.Prelude.{◌≡◌, ◌+◌, ◌<◌};
ghost use Rattle.script.specs.Rows.{variables};
ghost use Rattle.theorems.specs.Accepted.{Accepted};
ghost use Rattle.formula_writer.specs.Paths.{entry as Paths·entry, passed_row, passed_variable};
ghost use Rattle.formula_writer.specs.Nodes.{Assignment};
ghost use Rattle.formula_writer.specs.Search.{Entries, Between, Blocks, Latest, left_of};

use script::{RowNumber, VariableNumber, field};

// The entry of the assignment at row r.
pub fn entry(table: &[i32], r: RowNumber) -> i32
    requires { Accepted table.now × Assignment table.now r.0 }
    ensures { result ≡ Paths·entry table.now r.0 }
{
    let row = r.0;
    (2048 * field(table, row, 1) + row) as i32
}

// The row of the assignment at place i of a path.
pub fn row_at(path: &[i32], i: usize) -> RowNumber
    requires { Entries path.now (i + 1) }
    ensures { result.0 ≡ passed_row path.now i }
{
    RowNumber(path[i] as usize % 2048)
}

// The number of the variable that it assigns; in 32 bits, so that a comparison of several at once takes twice as many.
fn target_at(path: &[i32], i: usize) -> u32
    requires { Entries path.now (i + 1) }
    ensures { result ≡ passed_variable path.now i }
{
    path[i] as u32 / 2048
}

// Whether one of the eight assignments from place k on is to v. The loop does not stop at the first that is, so that the
// compiler compares all eight at once.
fn is_in_block(v: VariableNumber, path: &[i32], k: usize) -> bool
    requires { Entries path.now (k + 8) × (v.0 < variables) }
    ensures { Between path.now v.0 k (k + 8) result }
{
    let target = v.0 as u32;
    let mut found = false;
    for i in 0..8 {
        if target_at(path, k + i) == target {
            found = true;
        }
    }
    found
}

// How many of the first j assignments are left, going back by blocks of eight up to one with an assignment to v.
fn pass_blocks(v: VariableNumber, path: &[i32], j: usize) -> usize
    requires { Entries path.now j × (v.0 < variables) }
    ensures { Blocks path.now v.0 j result }
{
    let mut k = j;
    // no `for`: `(8..=j).rev().step_by(8)` would need `j % 8` after it
    while 8 <= k {
        if is_in_block(v, path, k - 8) {
            return k;
        }
        k -= 8;
    }
    k
}

// The place of the latest of the first j assignments that is to v.
pub fn latest(v: VariableNumber, path: &[i32], j: usize) -> Option<usize>
    requires { Entries path.now j × (v.0 < variables) }
    ensures { Latest path.now v.0 j (left_of result) }
{
    let target = v.0 as u32;
    for i in (0..pass_blocks(v, path, j)).rev() {
        if target_at(path, i) == target {
            return Some(i);
        }
    }
    None
}
