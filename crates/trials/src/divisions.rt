// The trial rows of div and mod: each line is written where the quotient and the remainder are those that it says.

use std::io;

fn divided(n: i64, d: i64, quotient: i64, remainder: i64) -> bool {
    arithmetic::div(n, d) == Some(quotient) && arithmetic::rem(n, d) == remainder
}

fn say(rt: &impl Print, line: &str, right: bool) -> io::Result<()> {
    if right {
        println!(rt; "{line}")?;
    }
    Ok(())
}

pub fn all(rt: &impl Print) -> io::Result<()> {
    say(rt, "-7 by 2: div -4, mod 1", divided(-7, 2, -4, 1))?;
    say(rt, "7 by -2: div -3, mod 1", divided(7, -2, -3, 1))?;
    say(rt, "-7 by -2: div 4, mod 1", divided(-7, -2, 4, 1))?;
    say(rt, "5 by 0: div 0, mod 5", divided(5, 0, 0, 5))
}
