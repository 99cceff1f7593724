// Tables whose rows double when they are mended (02, P7): every field of the answer, and how many words of each run are as
// expected, up to the first that is not. The words were 7 before.

use crate::mended;
use arrayvec::ArrayVec;
use std::io;

// A table or a run, of at most 9,000 words.
type Words = ArrayVec<i32, 9000>;

fn push(table: &mut Words, row: [i32; 4]) {
    let _ = table.try_extend_from_slice(&row);
}

// A constant, and so many additions, each of the row before to itself.
fn additions(times: u16) -> Words {
    let mut table = Words::new();
    push(&mut table, [1, 1, 0, 0]);
    for i in 0..i32::from(times) {
        push(&mut table, [3, i, i, 0]);
    }
    table
}

// The last addition is compared with itself before and after: with its copies 2 to the times + 3 rows.
fn doubled(times: u16) -> Words {
    let mut table = additions(times);
    let last = i32::from(times);
    push(&mut table, [19, last, last, 0]);
    push(&mut table, [32, 0, 0, 0]);
    push(&mut table, [48, last + 1, last + 2, last + 1]);
    table
}

// The same with the precondition negated: one row more.
fn doubled_more(times: u16) -> Words {
    let mut table = additions(times);
    let last = i32::from(times);
    push(&mut table, [19, last, last, 0]);
    push(&mut table, [22, last + 1, 0, 0]);
    push(&mut table, [32, 0, 0, 0]);
    push(&mut table, [48, last + 2, last + 3, last + 1]);
    table
}

// A row of a new table, and the old row that it was.
#[derive(Clone, Copy, Default)]
struct Row {
    words: [i32; 4],
    origin: i32,
}

type Mended = ArrayVec<Row, 2048>;

fn add(table: &mut Mended, words: [i32; 4], origin: i32) {
    let _ = table.try_push(Row { words, origin });
}

// The first rows once more behind all, and the links of each so much further.
fn copy(table: &mut Mended, rows: u16, further: i32) {
    for i in 0..usize::from(rows) {
        if let Some(row) = table.as_slice().get(i).copied() {
            let [kind, first, second, third] = row.words;
            let links = if kind == 1 { 0 } else { further };
            let first = first.saturating_add(links);
            let second = second.saturating_add(links);
            add(table, [kind, first, second, third], row.origin);
        }
    }
}

// All rows once more behind themselves, and a row for both.
fn level(table: &mut Mended, rows: u16, kind: i32, origin: i32) {
    let further = i32::from(rows);
    copy(table, rows, further);
    add(table, [kind, further - 1, 2 * further - 1, 0], origin);
}

// What becomes of `doubled` 8.
fn most_rows() -> Mended {
    let mut table = Mended::new();
    add(&mut table, [1, 1, 0, 0], 0);
    level(&mut table, 1, 3, 1);
    level(&mut table, 3, 3, 2);
    level(&mut table, 7, 3, 3);
    level(&mut table, 15, 3, 4);
    level(&mut table, 31, 3, 5);
    level(&mut table, 63, 3, 6);
    level(&mut table, 127, 3, 7);
    level(&mut table, 255, 3, 8);
    level(&mut table, 511, 19, 9);
    add(&mut table, [32, 0, 0, 0], 10);
    copy(&mut table, 1023, 1024);
    add(&mut table, [48, 1022, 1023, 2046], 11);
    table
}

// Says how many words are as expected before one that is not: behind those that are expected all are 0.
fn say_alike(rt: &impl Print, name: &str, words: &[i32], expected: &[i32]) -> io::Result<()> {
    let mut alike = 0;
    for (i, word) in words.iter().enumerate() {
        if *word != expected.get(i).copied().unwrap_or(0) {
            break;
        }
        alike = i + 1;
    }
    let all = words.len();
    println!(rt; "{name}: {alike} of {all} words as expected")
}

// A table, with so many words for the new one, and for the old rows: at most 9,000.
fn mend(
    rt: &impl Print,
    name: &str,
    table: &[i32],
    room: usize,
    places: usize,
    expected: &[Row],
) -> io::Result<()> {
    let mut new = [7; 9000];
    let mut origins = [7; 9000];
    let mut expected_new = Words::new();
    let mut expected_origins = Words::new();
    for row in expected {
        push(&mut expected_new, row.words);
        let _ = expected_origins.try_push(row.origin);
    }
    if room <= 9000 && places <= 9000 {
        let new = &mut new[..room];
        let origins = &mut origins[..places];
        mended::say_answer(rt, name, mender::mend(table, new, origins))?;
        say_alike(rt, "new", new, &expected_new)?;
        say_alike(rt, "from", origins, &expected_origins)?;
    }
    Ok(())
}

fn refuse(
    rt: &impl Print,
    name: &str,
    table: &[i32],
    room: usize,
    places: usize,
) -> io::Result<()> {
    mend(rt, name, table, room, places, &[])
}

fn most(rt: &impl Print) -> io::Result<()> {
    let table = doubled(8);
    let expected = most_rows();
    mend(rt, "2048 rows", &table, 8192, 2048, &expected)?;
    mend(rt, "2048 rows, more room", &table, 9000, 9000, &expected)?;
    refuse(rt, "2048 rows, one word short", &table, 8191, 2048)?;
    refuse(rt, "2048 rows, one old row short", &table, 8192, 2047)
}

fn one_more(rt: &impl Print) -> io::Result<()> {
    let table = doubled_more(8);
    refuse(rt, "2049 rows", &table, 8192, 2048)?;
    refuse(rt, "2049 rows, more room", &table, 9000, 9000)
}

fn many(rt: &impl Print, name: &str, times: u16) -> io::Result<()> {
    refuse(rt, name, &doubled(times), 9000, 9000)
}

pub fn all(rt: &impl Print) -> io::Result<()> {
    most(rt)?;
    one_more(rt)?;
    many(rt, "doubled 9 times", 9)?;
    many(rt, "doubled 50 times", 50)?;
    many(rt, "doubled 1000 times", 1000)
}
