// Scripts that divide (02, P5): their lists hold that no divisor is zero.

use crate::run;
use std::io;

// v0 := 1 div v1: without P5 its list would have 8 words.
pub fn rooms(rt: &impl Print) -> io::Result<()> {
    let rows = "16 0 0 0, 1 1 0 0, 2 1 0 0, 6 1 2 0, 33 0 3 0, 16 0 0 0, 48 0 4 5.";
    run::rows(rt, "v0 := 1 div v1, room 8", rows, 8, 512)?;
    run::rows(rt, "v0 := 1 div v1, room 13", rows, 13, 512)?;
    run::rows(rt, "v0 := 1 div v1, room 14", rows, 14, 512)
}

pub fn shapes(rt: &impl Print) -> io::Result<()> {
    run::listed(
        rt,
        "v2 := (v1 div v2) mod (v3 div v4)",
        "16 0 0 0, 2 1 0 0, 2 2 0 0, 6 1 2 0, 2 3 0 0, 2 4 0 0, 6 4 5 0, 7 3 6 0, 33 2 7 0, 16 0 0 0, 48 0 8 9.",
    )?;
    run::listed(
        rt,
        "v0 := when(v1 div v2 = 0, v3 div v4, v5 mod v6)",
        "16 0 0 0, 2 1 0 0, 2 2 0 0, 6 1 2 0, 1 0 0 0, 20 3 4 0, 2 3 0 0, 2 4 0 0, 6 6 7 0, 2 5 0 0, 2 6 0 0, 7 9 10 0,
        10 5 8 11, 33 0 12 0, 16 0 0 0, 48 0 13 14.",
    )?;
    run::listed(
        rt,
        "if v1 <> 0 and 1 div v1 = 1",
        "16 0 0 0, 2 1 0 0, 1 0 0 0, 21 1 2 0, 1 1 0 0, 2 1 0 0, 6 4 5 0, 1 1 0 0, 20 6 7 0, 23 3 8 0, 32 0 0 0, 17 0 0 0,
        38 11 0 0, 35 9 10 12, 16 0 0 0, 48 0 13 14.",
    )?;
    run::listed(
        rt,
        "v1 := v1 - 1; v0 := 1 div v1",
        "16 0 0 0, 2 1 0 0, 1 1 0 0, 4 1 2 0, 33 1 3 0, 1 1 0 0, 2 1 0 0, 6 5 6 0, 33 0 7 0, 34 4 8 0, 16 0 0 0, 48 0 9 10.",
    )?;
    run::listed(
        rt,
        "while 1 div v0 = 1",
        "16 0 0 0, 1 1 0 0, 2 0 0 0, 6 1 2 0, 1 1 0 0, 20 3 4 0, 16 0 0 0, 1 0 0 0, 37 6 7 0, 32 0 0 0, 36 5 8 9, 16 0 0 0,
        48 0 10 11.",
    )
}
