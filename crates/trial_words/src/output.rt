// Words of lists and tables, each after a space.

use std::io;

pub fn words(rt: &impl Print, list: &[i32]) -> io::Result<()> {
    for word in list {
        print!(rt; " {word}")?;
    }
    Ok(())
}

// The words of a list, after its name.
pub fn list(rt: &impl Print, name: &str, list: &[i32]) -> io::Result<()> {
    print!(rt; "{name}, list:")?;
    words(rt, list)?;
    println!(rt)
}
