// The editor's entry, 01: "The editor's entry takes the table as a lent run of row records and gives the same answer as
// four words to a row." It copies the records into a local run of words and calls the generator on them.
#![tactic(auto)]

ghost use Rattle.std.specs.Prelude.{◌≡◌, ◌+◌, ◌*◌, ◌≤◌, length, take};
ghost use Rattle.editor.specs.Flat.{flat, put_row, copy_first, rows_copied};
ghost use Rattle.generator.specs.Answers.{answer_of};
ghost use Rattle.generator.specs.Whole.{Left};

use generator::{Plan, Refusal};

// A row of a table: its kind and its three fields.
#[repr(C)]
#[derive(Clone, Copy)]
pub struct Record {
    pub kind: i32,
    pub first: i32,
    pub second: i32,
    pub third: i32,
}

// Puts the four words of row i at their places.
fn put_row(table: &mut [i32], i: usize, r: Record)
    requires { 4 * i + 4 ≤ length table.old }
    ensures { table.new ≡ put_row table.old i r }
{
    let at = 4 * i;
    table[at..at + 4].copy_from_slice(&[r.kind, r.first, r.second, r.third]);
}

// Puts the first n records at their places.
fn copy_first(rows: &[Record], n: usize, table: &mut [i32])
    requires { (n ≤ length rows.now) × (4 * n ≤ length table.old) }
    ensures { table.new ≡ copy_first rows.now n table.old }
{
    for i in 0..n {
        put_row(&mut *table, i, rows[i]);
    }
}

// How many of n records are copied: none where they are over 2,048.
fn within(n: usize) -> usize
    ensures { result ≡ rows_copied n }
{
    if n <= 2048 { n } else { 0 }
}

// The generator on the front of the table: on no words where the records are over 2,048, which it refuses as it does
// over 8,192 words.
fn front(table: &[i32], n: usize, list: &mut [i32], scratch: &mut [i32]) -> Result<Plan, Refusal>
    requires { length table.now ≡ 8192 }
    ensures { Left (take (4 * rows_copied n) table.now) (length list.old) (length scratch.old) (answer_of result) list.new scratch.new }
{
    let end = 4 * within(n);
    generator::generate(&table[..end], list, scratch)
}

// Lists the conditions of the script that the records hold.
pub fn generate_records(
    records: &[Record],
    list: &mut [i32],
    scratch: &mut [i32],
) -> Result<Plan, Refusal>
    ensures { Left (flat records.now) (length list.old) (length scratch.old) (answer_of result) list.new scratch.new }
{
    let mut table = [0i32; 8192];
    let n = records.len();
    copy_first(records, within(n), &mut table);
    front(&table, n, list, scratch)
}
