// Lists with their conditions shortened, each in its form (02, P9), and the shorter of two formulas (02, P6).

use std::io;
use trial_words::{output, printed};

// Says what a list becomes in a run.
fn shorten_words(rt: &impl Print, name: &str, list: &[i32], short: &mut [i32]) -> io::Result<()> {
    match shortener::shorten(list, short) {
        Ok(used) => {
            if let Some(written) = short.get(..used) {
                output::list(rt, name, written)?;
            }
            Ok(())
        }
        Err(refusal) => {
            let number = refusal.number();
            println!(rt; "{name}: refused {number}")
        }
    }
}

// The same of a list as the program prints it.
fn shorten(rt: &impl Print, name: &str, words: &str, short: &mut [i32]) -> io::Result<()> {
    shorten_words(rt, name, &printed::numbers(words), short)
}

// The same of a list with depths, from the words before its last one.
fn shorten_with_depths(
    rt: &impl Print,
    name: &str,
    words: &str,
    last: i32,
    short: &mut [i32],
) -> io::Result<()> {
    let mut list = printed::numbers(words);
    if !list.is_full() {
        list.push(last);
        shorten_words(rt, name, &list, short)?;
    }
    Ok(())
}

// Says the number and the shorter formula.
fn shorter<'a>(rt: &impl Print, old: &'a [i32], new: &'a [i32], index: i32) -> io::Result<()> {
    let mut number: usize = 7;
    let formula = shortener::shorter(old, new, index, &mut number);
    print!(rt; "shorter: {number},")?;
    output::words(rt, formula)?;
    println!(rt)
}

// 0 - v0 = v1; v0 - 0 = v0 + 0; 0 + v0 = v0 * 1; 1 * v0 = v1.
fn expressions(rt: &impl Print) -> io::Result<()> {
    let mut short = [7; 40];
    shorten(
        rt,
        "expressions",
        "20 4 1 0 2 0 2 1 1 9 8 20 4 2 0 1 0 3 2 0 1 0 2 9 11 20 3 1 0 2 0 5 2 0 1 1 3 9 11 20 5 1 1 2 0 2 1 4 9 8 4\n",
        &mut short,
    )
}

// With F for v0 < v1: (true and F) or (F and true); (false and F) or (F and false); (true implies F) or ((false implies F) or
// (F implies true)); (not true) or (not false).
fn formulas(rt: &impl Print) -> io::Result<()> {
    let mut short = [7; 40];
    shorten(
        rt,
        "formulas",
        "24 23 16 18 2 0 2 1 23 18 2 0 2 1 16 1 9 15 24 23 17 18 2 0 2 1 23 18 2 0 2 1 17 2 9 15 24 25 16 18 2 0 2 1 24 25 17 18 2 0 2 1 25 18 2 0 2 1 16 3 9 23 24 22 16 22 17 5 9 5 4\n",
        &mut short,
    )
}

// v0 = 0 - 0; true implies (not false and v0 + 1 * 0 = 0): rules that fit when a part was shortened. It becomes 17 words.
fn padded(rt: &impl Print) -> io::Result<()> {
    let words = "20 2 0 4 1 0 1 0 1 7 8 25 16 23 22 17 20 3 2 0 5 1 1 1 0 1 0 4 9 16 2\n";
    let mut exact = [7; 17];
    let mut short = [7; 16];
    shorten(rt, "padded", words, &mut exact)?;
    shorten(rt, "padded, one word short", words, &mut short)?;
    shorten(rt, "no list", "16 25 16 16 4 3 3 1\n", &mut exact)
}

// The same conditions with depths 7 and 0. It becomes 19 words.
fn padded_with_depths(rt: &impl Print) -> io::Result<()> {
    let words = "20 2 0 4 1 0 1 0 1 7 8 7 25 16 23 22 17 20 3 2 0 5 1 1 1 0 1 0 4 9 16 0\n";
    let mut exact = [7; 19];
    let mut short = [7; 18];
    shorten_with_depths(rt, "padded, with depths", words, -2, &mut exact)?;
    shorten_with_depths(
        rt,
        "padded, with depths, one word short",
        words,
        -2,
        &mut short,
    )?;
    shorten_with_depths(rt, "depth 8", "25 16 16 3 3 3 8\n", -1, &mut exact)
}

// 02, P10: 0 - 0 = v0 + (0 - 0); not (0 - 0 = 0); (0 - 0) - 0 = 0 - (0 - 0). Then what the order of P6 left of them, which stays.
fn zero_minus_zero(rt: &impl Print) -> io::Result<()> {
    let mut short = [7; 40];
    shorten(
        rt,
        "0 - 0",
        "20 4 1 0 1 0 3 2 0 4 1 0 1 0 1 7 14 22 20 4 1 0 1 0 1 0 2 7 9 20 4 4 1 0 1 0 1 0 4 1 0 4 1 0 1 0 4 9 17 3\n",
        &mut short,
    )?;
    shorten(
        rt,
        "0 - 0, from before",
        "20 8 1 0 3 2 0 8 1 0 1 7 10 22 20 8 1 0 1 0 2 7 7 20 8 1 0 8 8 1 0 4 9 8 3\n",
        &mut short,
    )
}

// true implies true, and what it becomes, in both forms
const OLD: [i32; 7] = [25, 16, 16, 4, 3, 3, 1];

const NEW: [i32; 5] = [16, 4, 3, 1, 1];

const NEW_WITH_DEPTH: [i32; 6] = [16, 4, 3, 1, 0, -1];

// v0 = 0 - 0, as the order of P6 left it and as that of P10 does
const BEFORE: [i32; 10] = [20, 2, 0, 8, 1, 0, 4, 3, 6, 1];

const SINCE: [i32; 9] = [20, 2, 0, 1, 0, 4, 3, 5, 1];

fn two_lists(rt: &impl Print) -> io::Result<()> {
    shorter(rt, &OLD, &NEW, 0)?;
    shorter(rt, &NEW, &OLD, 0)?;
    shorter(rt, &OLD, &OLD, 0)?;
    shorter(rt, &OLD, &[], -1)?;
    shorter(rt, &OLD, &[], 0)?;
    shorter(rt, &[], &NEW, 1)?;
    shorter(rt, &OLD, &NEW_WITH_DEPTH, 0)?;
    shorter(rt, &NEW_WITH_DEPTH, &OLD, 0)?;
    shorter(rt, &BEFORE, &SINCE, 0)
}

pub fn all(rt: &impl Print) -> io::Result<()> {
    expressions(rt)?;
    formulas(rt)?;
    padded(rt)?;
    padded_with_depths(rt)?;
    zero_minus_zero(rt)?;
    two_lists(rt)
}
