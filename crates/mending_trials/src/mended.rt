// Tables with shared parts, mended (02, P7): every field of the answer, and every word of both runs, which were 7 before.

use mender::{Counts, Unmendable};
use std::io;
use trial_words::{output, printed};

pub fn say_answer(
    rt: &impl Print,
    name: &str,
    answer: Result<Counts, Unmendable>,
) -> io::Result<()> {
    let (number, row, counts) = match answer {
        Ok(counts) => (0, 0, counts),
        Err(unmendable) => (unmendable.number(), unmendable.row(), Counts::default()),
    };
    let Counts {
        words,
        dropped,
        copied,
    } = counts;
    println!(rt;
        "{name}: number {number}, row {row}, words {words}, dropped {dropped}, copied {copied}"
    )
}

fn say_run(rt: &impl Print, name: &str, words: &[i32]) -> io::Result<()> {
    print!(rt; "{name}:")?;
    output::words(rt, words)?;
    println!(rt)
}

// A table, with so many words for the new one, and for the old rows: at most 512.
fn mend_words(
    rt: &impl Print,
    name: &str,
    table: &[i32],
    room: usize,
    places: usize,
) -> io::Result<()> {
    let mut new = [7; 512];
    let mut origins = [7; 512];
    if room <= 512 && places <= 512 {
        let new = &mut new[..room];
        let origins = &mut origins[..places];
        say_answer(rt, name, mender::mend(table, new, origins))?;
        say_run(rt, "new", new)?;
        say_run(rt, "from", origins)?;
    }
    Ok(())
}

// The same of a table as document 01 prints it.
fn mend(rt: &impl Print, name: &str, rows: &str, room: usize, places: usize) -> io::Result<()> {
    mend_words(rt, name, &printed::numbers(rows), room, places)
}

fn shared(rt: &impl Print) -> io::Result<()> {
    mend(
        rt,
        "one constant used four times",
        "1 5 0 0, 19 0 0 0, 32 0 0 0, 48 1 2 1.",
        36,
        10,
    )?;
    mend(
        rt,
        "a loop at two places",
        "16 0 0 0, 9 6 0 0, 1 1 0 0, 18 1 2 0, 38 3 0 0, 37 0 2 0, 36 0 5 4, 34 6 6 0, 48 0 7 0.",
        92,
        24,
    )?;
    mend(
        rt,
        "a loop twice in another",
        "16 0 0 0, 1 1 0 0, 9 7 0 0, 9 9 0 0, 18 2 3 0, 38 4 0 0, 37 0 1 0, 36 0 6 5, 34 7 7 0, 36 0 6 8, 48 0 9 0.",
        112,
        29,
    )?;
    mend(
        rt,
        "a loop twice in another, which is used twice",
        "16 0 0 0, 1 1 0 0, 9 7 0 0, 9 9 0 0, 18 2 3 0, 38 4 0 0, 37 0 1 0, 36 0 6 5, 34 7 7 0, 36 0 6 8, 34 9 9 0,
        48 0 10 0.",
        212,
        54,
    )?;
    mend(
        rt,
        "a mark of the outer loop, in both",
        "16 0 0 0, 1 1 0 0, 9 8 0 0, 18 2 1 0, 38 3 0 0, 37 0 1 0, 36 0 5 4, 34 4 6 0, 36 0 5 7, 48 0 8 0.",
        92,
        24,
    )?;
    mend(
        rt,
        "an unreachable row",
        "1 7 0 0, 16 0 0 0, 32 0 0 0, 16 0 0 0, 48 1 2 3.",
        20,
        6,
    )?;
    mend(
        rt,
        "an unreachable mark without a loop",
        "9 0 0 0, 16 0 0 0, 32 0 0 0, 16 0 0 0, 48 1 2 3.",
        20,
        6,
    )?;
    mend(
        rt,
        "an unreachable loop",
        "16 0 0 0, 1 1 0 0, 9 6 0 0, 18 2 1 0, 37 3 1 0, 32 0 0 0, 36 0 4 5, 48 0 5 0.",
        20,
        6,
    )?;
    mend(
        rt,
        "another order",
        "16 0 0 0, 16 0 0 0, 32 0 0 0, 48 1 2 0.",
        20,
        6,
    )
}

// It is in order.
fn example_a(rt: &impl Print) -> io::Result<()> {
    mend_words(rt, "A, mended", &printed::example_a(), 80, 20)
}

// 13: with the mark's row.
fn marks(rt: &impl Print) -> io::Result<()> {
    mend(
        rt,
        "a statement with a mark in two loops",
        "16 0 0 0, 1 1 0 0, 9 7 0 0, 18 2 1 0, 38 3 0 0, 34 4 4 0, 37 0 1 0, 36 0 6 5, 32 0 0 0, 34 8 4 0, 36 0 6 9,
        34 7 10 0, 48 0 11 0.",
        8,
        3,
    )?;
    mend(
        rt,
        "two loops with one body",
        "16 0 0 0, 1 1 0 0, 9 6 0 0, 18 2 1 0, 38 3 0 0, 37 0 1 0, 36 0 5 4, 36 0 5 4, 34 6 7 0, 48 0 8 0.",
        8,
        3,
    )?;
    mend(
        rt,
        "a mark inside and outside",
        "16 0 0 0, 1 1 0 0, 9 6 0 0, 18 2 1 0, 38 3 0 0, 37 0 1 0, 36 0 5 4, 48 0 6 3.",
        8,
        3,
    )?;
    mend(
        rt,
        "a mark in its own loop's note",
        "16 0 0 0, 9 4 0 0, 37 0 1 0, 32 0 0 0, 36 0 2 3, 48 0 4 0.",
        8,
        3,
    )?;
    mend(
        rt,
        "two marks without a loop",
        "16 0 0 0, 9 0 0 0, 9 0 0 0, 19 2 1 0, 32 0 0 0, 48 3 4 0.",
        8,
        3,
    )
}

// 1 to 5, 7, and what comes before what.
fn numbers(rt: &impl Print) -> io::Result<()> {
    mend(rt, "no words", "", 8, 3)?;
    mend(rt, "one word", "16.", 8, 3)?;
    mend(
        rt,
        "kind 11",
        "11 0 0 0, 16 0 0 0, 32 0 0 0, 48 1 2 1.",
        8,
        3,
    )?;
    mend(
        rt,
        "variable 1024",
        "2 1024 0 0, 16 0 0 0, 32 0 0 0, 48 1 2 1.",
        8,
        3,
    )?;
    mend(
        rt,
        "a mark past the table",
        "9 4 0 0, 16 0 0 0, 32 0 0 0, 48 1 2 1.",
        8,
        3,
    )?;
    mend(rt, "an unused field", "16 0 0 1, 32 0 0 0, 48 0 1 0.", 8, 3)?;
    mend(
        rt,
        "a link up",
        "16 0 0 0, 22 5 0 0, 32 0 0 0, 48 0 2 0.",
        8,
        3,
    )?;
    mend(rt, "a statement for a formula", "32 0 0 0, 48 0 0 0.", 8, 3)?;
    mend(
        rt,
        "5 before 2",
        "32 0 0 0, 22 0 0 0, 11 0 0 0, 48 1 0 1.",
        8,
        3,
    )?;
    mend(rt, "no script", "16 0 0 0, 32 0 0 0.", 8, 3)?;
    mend(rt, "no script, a mark", "16 0 0 0, 9 0 0 0.", 8, 3)?;
    mend(
        rt,
        "13 before 14",
        "16 0 0 0, 9 0 0 0, 19 1 1 0, 32 0 0 0, 48 2 3 0.",
        0,
        0,
    )
}

// 14: the rows of either run do not fit.
fn rooms(rt: &impl Print) -> io::Result<()> {
    let rows =
        "16 0 0 0, 9 6 0 0, 1 1 0 0, 18 1 2 0, 38 3 0 0, 37 0 2 0, 36 0 5 4, 34 6 6 0, 48 0 7 0.";
    mend(
        rt,
        "no room",
        "16 0 0 0, 16 0 0 0, 32 0 0 0, 48 1 2 0.",
        0,
        0,
    )?;
    mend(rt, "one word short", rows, 87, 22)?;
    mend(rt, "one old row short", rows, 88, 21)?;
    mend(rt, "just enough room", rows, 88, 22)
}

// Some of rust/reference/tests/vectors/P7.jsonl.
fn vectors(rt: &impl Print) -> io::Result<()> {
    mend(
        rt,
        "P7.jsonl, line 5",
        "2 200 0 0, 2 255 0 0, 2 1023 0 0, 2 128 0 0, 2 128 2 0, 32 0 0 0, 3 3 0 0, 17 0 0 0, 4 1 4 0, 4 0 8 0, 20 2 9 0,
        48 10 5 7.",
        0,
        12,
    )?;
    mend(
        rt,
        "P7.jsonl, line 7",
        "16 0 0 0, 16 0 0 0, 2 0 0 0, 37 1 2 0, 1 1 0 0, 18 4 4 0, 38 5 0 0, 36 0 3 6, 34 6 6 0, 34 8 8 0, 1 1 0 0,
        3 10 10 0, 4 11 11 0, 4 12 12 0, 5 13 13 0, 20 14 14 0, 32 0 0 0, 48 15 9 1.",
        72,
        3,
    )?;
    mend(
        rt,
        "P7.jsonl, line 14",
        "16 0 0 0, 2 512 0 0, 2 127 0 0, 2 257 0 0, 17 0 0 0, 38 4 0 0, 33 127 1 0, 34 5 6 0, 21 3 2 0, 48 0 7 8.",
        80,
        10,
    )?;
    mend(
        rt,
        "P7.jsonl, line 28",
        "9 20 0 0, 2 255 0 0, 19 0 1 0, 1 0 0 0, 2 127 0 0, 18 3 4 0, 1 0 0 0, 2 127 0 0, 19 6 7 0, 2 127 0 0, 37 8 6 0,
        2 127 0 0, 9 20 0 0, 20 12 12 0, 38 13 0 0, 2 127 0 0, 1 1 0 0, 4 3 16 0, 33 127 12 0, 34 14 18 0, 36 13 10 19,
        2 127 0 0, 9 20 0 0, 20 12 22 0, 48 2 20 23.",
        140,
        3,
    )?;
    mend(
        rt,
        "P7.jsonl, line 72",
        "16 0 0 0, 2 127 0 0, 2 1023 0 0, 3 1 2 0, 33 1000 1 0, 1 5 0 0, 2 129 0 0, 20 5 2 0, 48 0 4 7.",
        36,
        9,
    )?;
    mend(
        rt,
        "P7.jsonl, line 77",
        "2 1 0 0, 17 0 0 0, 2 512 0 0, 2 1 0 0, 2 0 0 0, 2 127 0 0, 1 0 0 0, 2 0 0 0, 16 0 0 0, 7 0 5 0, 2 0 0 0,
        33 0 7 0, 2 128 0 0, 33 0 9 0, 34 13 11 0, 2 512 0 0, 6 4 0 0, 3 0 0 0, 21 15 2 0, 7 7 16 0, 18 19 12 0,
        38 18 0 0, 34 11 21 0, 48 20 14 20.",
        136,
        24,
    )?;
    mend(
        rt,
        "P7.jsonl, line 91",
        "1 4 0 0, 9 28 0 0, 2 1023 0 0, 2 128 0 0, 1 2 0 0, 2 257 0 0, 2 1023 0 0, 9 28 0 0, 21 3 5 0, 9 28 0 0,
        2 1000 0 0, 32 0 0 0, 16 0 0 0, 33 1023 2 0, 24 8 12 0, 2 128 0 0, 2 1023 0 0, 5 0 15 0, 19 17 4 0, 1 1 0 0,
        2 255 0 0, 4 7 20 0, 4 1 16 0, 37 14 6 0, 33 1000 21 0, 18 22 10 0, 21 9 19 0, 34 13 24 0, 36 25 23 27,
        34 28 11 0, 48 26 29 18.",
        0,
        31,
    )?;
    mend(
        rt,
        "P7.jsonl, line 99",
        "2 255 0 0, 2 127 0 0, 2 127 0 0, 2 127 0 0, 20 2 2 0, 1 0 0 0, 1 0 0 0, 1 1 0 0, 1 0 0 0, 38 4 0 0, 2 127 0 0,
        4 10 7 0, 20 3 6 0, 1 0 0 0, 1 5 0 0, 33 127 11 0, 2 127 0 0, 34 9 15 0, 2 129 0 0, 18 13 18 0, 19 16 26 0,
        2 127 0 0, 19 5 21 0, 37 20 16 0, 36 19 23 17, 48 22 24 12.",
        104,
        26,
    )?;
    mend(
        rt,
        "P7.jsonl, line 113",
        "1 0 0 0, 2 128 0 0, 19 1 0 0, 1 0 0 0, 2 2 0 0, 18 4 4 0, 1 0 0 0, 2 2 0 0, 19 6 7 0, 2 2 0 0, 37 8 7 0,
        2 2 0 0, 9 20 0 0, 20 6 11 0, 38 8 0 0, 2 2 0 0, 1 1 0 0, 4 1 16 0, 33 2 0 0, 34 14 14 0, 36 2 10 19, 9 7 0 0,
        1 0 0 0, 20 12 6 0, 48 2 14 23.",
        0,
        25,
    )?;
    mend(
        rt,
        "P7.jsonl, line 152",
        "32 0 0 0, 32 0 0 0, 2 255 0 0, 2 2 0 0, 32 0 0 0, 32 0 0 0, 32 0 0 0, 17 0 0 0, 10 7 2 3, 33 1023 8 0, 16 0 0 0,
        34 6 1 0, 34 5 6 0, 16 0 0 0, 34 9 12 0, 34 14 12 0, 48 13 15 10.",
        68,
        17,
    )?;
    mend(
        rt,
        "P7.jsonl, line 155",
        "2 127 0 0, 2 127 0 0, 32 0 0 0, 2 5 0 0, 2 127 0 0, 18 4 3 0, 1 1 0 0, 2 5 0 0, 3 0 6 0, 16 0 0 0, 2 127 0 0,
        16 0 0 0, 19 7 10 0, 33 127 8 0, 34 2 2 0, 2 5 0 0, 4 3 4 0, 37 5 16 0, 36 5 17 14, 48 11 14 12.",
        80,
        20,
    )
}

pub fn all(rt: &impl Print) -> io::Result<()> {
    shared(rt)?;
    example_a(rt)?;
    marks(rt)?;
    numbers(rt)?;
    rooms(rt)?;
    vectors(rt)
}
