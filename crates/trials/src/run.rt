// One trial: a table and its buffers, and what the generator answers, as the program `vcgen` writes it.

use script::Answer;
use std::io;
use trial_words::{output, printed};

// Both numbers of an answer are said: of a list its conditions and words, of a refusal its number and row.
pub fn say(rt: &impl Print, name: &str, answer: Answer) -> io::Result<()> {
    let Answer {
        number,
        row,
        conditions,
        words,
    } = answer;
    if number == 0 {
        println!(rt; "{name}: planned {conditions} {words}")
    } else {
        println!(rt; "{name}: refused {number} {row}")
    }
}

// A table, with that room and scratch: at most 512 and 5,120 words, as the program has.
pub fn words(
    rt: &impl Print,
    name: &str,
    table: &[i32],
    room: usize,
    lent: usize,
) -> io::Result<()> {
    let mut list = [7; 512];
    let mut scratch = [7; 5120];
    if room <= 512 && lent <= 5120 {
        let answer = generator::told(generator::generate(
            table,
            &mut list[..room],
            &mut scratch[..lent],
        ));
        say(rt, name, answer)?;
    }
    Ok(())
}

// The same of a table as document 01 prints it.
pub fn rows(rt: &impl Print, name: &str, rows: &str, room: usize, lent: usize) -> io::Result<()> {
    words(rt, name, &printed::numbers(rows), room, lent)
}

// What the generator answers to a table as document 01 prints it, and the list.
pub fn listed(rt: &impl Print, name: &str, rows: &str) -> io::Result<()> {
    let mut list = [7; 512];
    let mut scratch = [7; 5120];
    let answer = generator::told(generator::generate(
        &printed::numbers(rows),
        &mut list,
        &mut scratch,
    ));
    let words = answer.words;
    say(rt, name, answer)?;
    if let Some(written) = list.get(..words) {
        output::list(rt, name, written)?;
    }
    Ok(())
}
