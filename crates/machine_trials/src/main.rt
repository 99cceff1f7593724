// Calls of the stepping machine (02, P11), run. They come as text on standard input, of which the numbers count: for each call the
// limit, the words of stack that are lent, how many variables do not start at 0, each with its value, how many words the table has,
// and these. The answer to each is written, with the stack that is left and the variables and marks that are not 0.

#![tactic(auto)]

use std::io;

mod numbers; // numbers read from text, and written
mod calls; // one call

fn main(rt: HostRuntime) -> io::Result<()> {
    let mut text = [0; 65536];
    let n = input_reader::read_full(&mut rt.reader(), &mut text)?;
    let numbers = numbers::read::<8192>(&text[..n]);
    calls::all(&rt, &numbers)
}
