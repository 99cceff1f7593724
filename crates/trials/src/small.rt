// The script of four rows, one of ten with as short a list, and tables by their number of words.

use crate::run;
use std::io;
use trial_words::output;

const FOUR_ROWS: [i32; 16] = [16, 0, 0, 0, 32, 0, 0, 0, 16, 0, 0, 0, 48, 0, 1, 2];

const FOUR_SKIPS: [i32; 40] = [
    16, 0, 0, 0, 32, 0, 0, 0, 32, 0, 0, 0, 34, 1, 2, 0, 32, 0, 0, 0, 34, 3, 4, 0, 32, 0, 0, 0, 34,
    5, 6, 0, 16, 0, 0, 0, 48, 0, 7, 8,
];

pub fn rooms(rt: &impl Print) -> io::Result<()> {
    run::words(rt, "four rows, room 7, scratch 12", &FOUR_ROWS, 7, 12)?;
    // 11 by document 01; planned since 02, P8.
    run::words(rt, "four rows, room 8, scratch 13", &FOUR_ROWS, 8, 13)?;
    run::words(rt, "four rows, room 8, scratch 8", &FOUR_ROWS, 8, 8)?;
    run::words(rt, "four rows, room 8, scratch 7", &FOUR_ROWS, 8, 7)?;
    run::words(rt, "four rows, room 0, scratch 8", &FOUR_ROWS, 0, 8)?;
    run::words(rt, "four rows, room 0, scratch 7", &FOUR_ROWS, 0, 7)?;
    run::words(rt, "four rows, room 0, scratch 0", &FOUR_ROWS, 0, 0)?;
    // planned by the rule of document 01; 11 since 02, P8.
    run::words(rt, "four skips, room 8, scratch 19", &FOUR_SKIPS, 8, 19)?;
    run::words(rt, "four skips, room 8, scratch 20", &FOUR_SKIPS, 8, 20)
}

pub fn list(rt: &impl Print) -> io::Result<()> {
    let mut list = [7; 8];
    let mut scratch = [7; 8];
    run::say(
        rt,
        "four rows",
        generator::told(generator::generate(&FOUR_ROWS, &mut list, &mut scratch)),
    )?;
    output::list(rt, "four rows", &list)
}

// All words are 0: where their number passes, row 0 has a kind that is not listed.
pub fn lengths(rt: &impl Print) -> io::Result<()> {
    let words = [0; 8196];
    run::words(rt, "no words", &words[..0], 512, 5120)?;
    run::words(rt, "8192 words", &words[..8192], 512, 5120)?;
    run::words(rt, "8196 words", &words, 512, 5120)
}
