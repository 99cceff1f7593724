// Branches, each the then part of the next: guard true, else skip.

use crate::run;
use std::io;

// Each if adds 7 words to what is to hold: and, implies, true, implies, not, true and the else part's. So main of eight has
// 1 + 1 + 1 + 8 * 7, and the list with its trailer and the count 64 words.
pub fn eight(rt: &impl Print) -> io::Result<()> {
    run::rows(
        rt,
        "nesting 8",
        "32 0 0 0, 16 0 0 0, 32 0 0 0, 35 1 0 2, 16 0 0 0, 32 0 0 0, 35 4 3 5, 16 0 0 0, 32 0 0 0, 35 7 6 8, 16 0 0 0, 32 0 0 0,
        35 10 9 11, 16 0 0 0, 32 0 0 0, 35 13 12 14, 16 0 0 0, 32 0 0 0, 35 16 15 17, 16 0 0 0, 32 0 0 0, 35 19 18 20, 16 0 0 0,
        32 0 0 0, 35 22 21 23, 16 0 0 0, 16 0 0 0, 48 25 24 26.",
        512,
        5120,
    )
}

pub fn nine(rt: &impl Print) -> io::Result<()> {
    run::rows(
        rt,
        "nesting 9",
        "32 0 0 0, 16 0 0 0, 32 0 0 0, 35 1 0 2, 16 0 0 0, 32 0 0 0, 35 4 3 5, 16 0 0 0, 32 0 0 0, 35 7 6 8, 16 0 0 0, 32 0 0 0,
        35 10 9 11, 16 0 0 0, 32 0 0 0, 35 13 12 14, 16 0 0 0, 32 0 0 0, 35 16 15 17, 16 0 0 0, 32 0 0 0, 35 19 18 20, 16 0 0 0,
        32 0 0 0, 35 22 21 23, 16 0 0 0, 32 0 0 0, 35 25 24 26, 16 0 0 0, 16 0 0 0, 48 28 27 29.",
        512,
        5120,
    )
}
