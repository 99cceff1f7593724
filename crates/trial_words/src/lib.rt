// What the programs of trials share: words read as document 01 prints them, and written to standard output.

#![tactic(auto)]

pub mod output;
pub mod printed;
