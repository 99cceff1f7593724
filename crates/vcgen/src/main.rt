// Reads a table from standard input and writes the conditions of its script: see `report`.
#![tactic(auto)]

use std::io;

fn main(rt: HostRuntime) -> io::Result<()> {
    let mut input = [0u8; 32772];
    let n = input_reader::read_full(&mut rt.reader(), &mut input)?;
    let mut out = [0u8; 6208];
    let k = program::report(&input[..n], &mut out);
    rt.write_all(&out[..k])
}
