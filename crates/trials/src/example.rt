// Example A: by room and scratch, and with a row edited.

use crate::run;
use std::io;
use trial_words::printed;

fn within(rt: &impl Print, name: &str, room: usize, lent: usize) -> io::Result<()> {
    run::words(rt, name, &printed::example_a(), room, lent)
}

pub fn rooms(rt: &impl Print) -> io::Result<()> {
    within(rt, "A", 512, 5120)?;
    within(rt, "A, room 97", 97, 5120)?;
    // 11 by document 01; planned since 02, P8.
    within(rt, "A, room 98, scratch 281", 98, 281)?;
    within(rt, "A, room 98, scratch 282", 98, 282)?;
    within(rt, "A, room 98, scratch 40", 98, 40)?;
    within(rt, "A, room 98, scratch 39", 98, 39)?;
    within(rt, "A, room 97, scratch 40", 97, 40)?;
    within(rt, "A, room 97, scratch 39", 97, 39)
}

// With these words in the row, and 0.
fn edited(
    rt: &impl Print,
    name: &str,
    row: usize,
    kind: i32,
    first: i32,
    second: i32,
) -> io::Result<()> {
    let mut table = printed::example_a();
    if let Some(words) = table.chunks_exact_mut(4).nth(row) {
        words.copy_from_slice(&[kind, first, second, 0]);
    }
    run::words(rt, name, &table, 512, 5120)
}

pub fn edits(rt: &impl Print) -> io::Result<()> {
    edited(rt, "A, row 14 is 33 128 13 0", 14, 33, 128, 13)?;
    // 3 at row 14 by document 01; planned since 02, P2.
    edited(rt, "A, row 14 is 33 256 13 0", 14, 33, 256, 13)?;
    edited(rt, "A, row 14 is 33 255 13 0", 14, 33, 255, 13)?;
    edited(rt, "A, row 14 is 33 1023 13 0", 14, 33, 1023, 13)?;
    edited(rt, "A, row 14 is 33 1024 13 0", 14, 33, 1024, 13)?;
    edited(rt, "A, row 9 is 9 15 0 0", 9, 9, 15, 0)?;
    edited(rt, "A, row 13 is 4 11 11 0", 13, 4, 11, 11)?;
    edited(rt, "A, row 13 is 4 11 13 0", 13, 4, 11, 13)
}
