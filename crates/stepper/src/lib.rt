// One step of the stepping machine, 02, P11, and the stack on which it finds what is to do.

#![tactic(auto)]

pub mod stack; // the rows that are to do, in lent words
pub mod steps; // one step
