// The tests that go over the rows, from 0 up: 2 to 6, 7 and 8. Each gives the lowest row that has a fault.

ghost use Rattle.std.specs.Prelude.{◌≡◌, Bool, ◌&&◌, ◌||◌, ℕ, ◌-◌, ◌+◌, ◌*◌, ◌<◌, length};
ghost use Rattle.script.specs.Rows.{fields, row, rows};
ghost use Rattle.script.specs.Refusals.{assigns_frozen, bad_length, linked, unlinked_test, script_test, target_test};
ghost use Rattle.rows.specs.States.{Sized, States};
ghost use Rattle.table.specs.Kinds.{named};
ghost use Rattle.table.specs.Verdicts.{verdict_of};
ghost use Rattle.table.specs.Lowest.{NamelessAt, RowsTested};

use crate::Refusal;
use rows::Fault;
use script::{Kind, RowNumber, VariableNumber};

// 1: no words, not four to a row, or over 2,048 rows.
pub fn bad_length(n: usize) -> bool
    ensures { result ≡ bad_length n }
{
    n == 0 || n % 4 != 0 || 8192 < n
}

// 2 to 6; where no row has a fault, `states` says which rows are linked.
pub fn check_rows(table: &[i32], states: &mut [u8; 2048]) -> Result<(), Refusal>
    requires { Sized table.now × (length states.old ≡ 2048) }
    ensures { RowsTested table.now result states.new }
{
    let kinds = rows::kinds();
    for r in 0..script::row_count(table) {
        if let Some(fault) = rows::row_fault(table, &kinds, r, states) {
            return Err(Refusal {
                fault,
                row: RowNumber(r),
            });
        }
    }
    Ok(())
}

// 7: the last row is a script.
pub fn check_script(table: &[i32]) -> Result<(), Refusal>
    requires { Sized table.now }
    ensures { verdict_of result ≡ script_test table.now }
{
    let last = script::row_count(table) - 1;
    match script::kind_at(table, last) {
        Kind::Script => Ok(()),
        _ => Err(Refusal {
            fault: Fault::Loose,
            row: RowNumber(last),
        }),
    }
}

// 7: each row but the last is linked: its state is a small letter.
pub fn check_unlinked(table: &[i32], states: &[u8; 2048]) -> Result<(), Refusal>
    requires { Sized table.now × States table.now (rows table.now) (linked table.now (rows table.now)) states.now }
    ensures { verdict_of result ≡ unlinked_test table.now }
{
    let last = script::row_count(table) - 1;
    for r in 0..last {
        if states[r] < b'a' {
            return Err(Refusal {
                fault: Fault::Loose,
                row: RowNumber(r),
            });
        }
    }
    Ok(())
}

// Whether row r is a mark or has a frozen name: by its number and without a branch, since told by `Kind` this pass over all rows takes
// several times as long.
fn is_named(table: &[i32], r: usize) -> bool
    requires { 4 * r + 3 < length table.now }
    ensures { result ≡ named (row table.now r) }
{
    let kind = script::field(table, r, 0);
    let frozen = script::is_frozen(VariableNumber(script::field(table, r, 1)));
    let has_name = (kind == Kind::Variable as usize) | (kind == Kind::Assign as usize);
    (kind == Kind::Mark as usize) | (has_name & frozen)
}

// Whether any row is a mark or has a frozen name: where none is, 8 and 9 pass.
pub fn any_named(table: &[i32]) -> bool
    requires { Sized table.now }
    ensures { NamelessAt table.now (rows table.now) result }
{
    let mut found = false;
    for r in 0..script::row_count(table) {
        found |= is_named(table, r);
    }
    found
}

// Whether row r assigns to a frozen name.
fn assigns_frozen(table: &[i32], r: usize) -> bool
    requires { 4 * r + 3 < length table.now }
    ensures { result ≡ assigns_frozen table.now (fields (row table.now r)) }
{
    match script::kind_at(table, r) {
        Kind::Assign => script::is_frozen(VariableNumber(script::field(table, r, 1))),
        _ => false,
    }
}

// 8: no assignment to a frozen name.
pub fn check_targets(table: &[i32]) -> Result<(), Refusal>
    requires { Sized table.now }
    ensures { verdict_of result ≡ target_test table.now }
{
    for r in 0..script::row_count(table) {
        if assigns_frozen(table, r) {
            return Err(Refusal {
                fault: Fault::FrozenTarget,
                row: RowNumber(r),
            });
        }
    }
    Ok(())
}
