// Runs the trial rows of document 01 and writes a line for each: its name, and what the generator answers, or div and mod.
// Then scripts that divide (02, P5), the scripts of example A's conditions (02, P1), and texts with what the reader answers
// (02, P4); last lists read, with depths and without (02, P9), and lists with their conditions shortened (02, P6 and P10). Tables
// that are mended (02, P7) are `mending_trials`.

#![tactic(auto)]

use std::io;

mod run; // one trial
mod example; // example A, by room and scratch, and with a row edited
mod small; // the script of four rows, and tables by their number of words
mod nesting; // branches in one another
mod divisions; // div and mod
mod zero_divisors; // scripts that divide
mod scripts; // conditions as scripts
mod texts; // scripts as text
mod depths; // lists read, with depths and without
mod shortened; // lists shortened

fn main(rt: HostRuntime) -> io::Result<()> {
    example::rooms(&rt)?;
    small::list(&rt)?;
    small::rooms(&rt)?;
    small::lengths(&rt)?;
    example::edits(&rt)?;
    nesting::eight(&rt)?;
    nesting::nine(&rt)?;
    divisions::all(&rt)?;
    zero_divisors::rooms(&rt)?;
    zero_divisors::shapes(&rt)?;
    scripts::all(&rt)?;
    texts::all(&rt)?;
    depths::words(&rt)?;
    depths::scripts(&rt)?;
    shortened::all(&rt)
}
