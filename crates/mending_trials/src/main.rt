// Tables with shared parts mended (02, P7), run: for each its name, what the mender answers, and every word that it leaves.

#![tactic(auto)]

use std::io;

mod mended; // tables of up to 124 words
mod doubling; // tables that grow to 2,048 rows and beyond

fn main(rt: HostRuntime) -> io::Result<()> {
    mended::all(&rt)?;
    doubling::all(&rt)
}
