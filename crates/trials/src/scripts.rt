// Conditions as scripts for solvers (02, P1): example A's, what is refused, and the last variable (02, P2) in lists of both forms
// (02, P9).

use std::io;
use trial_words::printed;

// The condition at an index: its text, or the number of the refusal.
fn script(rt: &impl Print, list: &[i32], index: i32, text: &mut [u8]) -> io::Result<()> {
    match smt_writer::write_condition(list, index, text) {
        Ok(used) => {
            if let Some(written) = text.get(..used) {
                rt.write_all(written)?;
            }
            Ok(())
        }
        Err(refusal) => {
            let number = refusal.number();
            println!(rt; "script refused {number}")
        }
    }
}

// A list that lacks its first word is none.
fn torn(rt: &impl Print, list: &[i32], text: &mut [u8]) -> io::Result<()> {
    if let Some((_, rest)) = list.split_first() {
        script(rt, rest, 4, text)?;
    }
    Ok(())
}

const LAST_VARIABLE: [i32; 9] = [20, 2, 1023, 2, 255, 4, 0, 5, 1];

const NO_VARIABLE: [i32; 9] = [20, 2, 1024, 2, 255, 4, 0, 5, 1];

const LAST_DEPTH: [i32; 10] = [20, 2, 1023, 2, 255, 4, 0, 5, 7, -1];

const NO_DEPTH: [i32; 10] = [20, 2, 1023, 2, 255, 4, 0, 5, 8, -1];

pub fn all(rt: &impl Print) -> io::Result<()> {
    let table = printed::example_a();
    let mut list = [7; 98];
    let mut scratch = [7; 40];
    let mut text = [7; 512];
    let mut exact = [7; 179];
    let mut short = [7; 178];
    let _ = generator::generate(&table, &mut list, &mut scratch);
    script(rt, &list, 0, &mut text)?;
    script(rt, &list, 1, &mut text)?;
    script(rt, &list, 2, &mut exact)?;
    script(rt, &list, 3, &mut text)?;
    script(rt, &list, 2, &mut short)?;
    script(rt, &list, 4, &mut short)?;
    torn(rt, &list, &mut short)?;
    script(rt, &LAST_VARIABLE, 0, &mut text)?;
    script(rt, &NO_VARIABLE, 0, &mut text)?;
    script(rt, &LAST_DEPTH, 0, &mut text)?;
    script(rt, &NO_DEPTH, 0, &mut text)
}
