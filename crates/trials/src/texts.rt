// Scripts as text (02, P4): of a text that is read the words of its table, of another the number and the place. Example A as
// text is read and planned.

use crate::run;
use script_reader::Refusal;
use std::io;

// Says what a text gets with so many words: at most 512.
fn read(rt: &impl Print, text: &str, room: usize) -> io::Result<()> {
    let mut words = [7; 512];
    if room <= 512 {
        match script_reader::read_text(text.as_bytes(), &mut words[..room]) {
            Ok(used) => println!(rt; "{text}: read {used}")?,
            Err(Refusal { fault, place }) => {
                let number = fault.number();
                println!(rt; "{text}: refused {number} {place}")?
            }
        }
    }
    Ok(())
}

fn example(rt: &impl Print) -> io::Result<()> {
    let text = "pre 0 <= v0; while 0 < v0 keep 0 <= v0 fall v0 do v0 := v0 - 1 end; post v0 = 0";
    let mut words = [7; 80];
    if let Ok(used) = script_reader::read_text(text.as_bytes(), &mut words)
        && used <= 80
    {
        run::words(rt, "A as text", &words[..used], 512, 5120)?;
    }
    Ok(())
}

pub fn all(rt: &impl Print) -> io::Result<()> {
    example(rt)?;
    read(rt, "pre true; skip; post true", 16)?;
    read(rt, "pre true; skip; post true", 15)?;
    read(rt, "pre true; skip; skip; skip; post true", 512)?;
    read(
        rt,
        "pre v0 = 1 implies true implies false; v1 := 1 - 2 * v0; post not true or false",
        512,
    )?;
    read(rt, "pre (v0) < 1; assert (1 < 2) and true; post true", 512)?;
    read(rt, "pre true; v0 := when(true, --5, -(5)); post true", 512)?;
    read(rt, "pre (v0) and true; skip; post true", 512)?;
    read(rt, "pre true; v0 := (1 < 2); post true", 512)?;
    read(rt, "pre 1 < 2 < 3; skip; post true", 512)?;
    read(rt, "pre true; skip;; post true", 512)?;
    read(rt, "pre true; skip; post true ;", 512)?;
    read(rt, "pre true; skip; post", 512)?;
    read(rt, "pre true; foo; post true", 512)?;
    read(rt, "pre true; v0 := 1 :; post", 512)?;
    read(rt, "pre true; v0 := -2147483648; post true", 512)?;
    read(rt, "pre true; v0 := 2147483648; post true", 512)?;
    read(rt, "pre true; v1023 := 01; post true", 512)?;
    read(rt, "pre true; v1024 := 1; post true", 512)?;
    read(rt, "pre true; assert mark(1) = 0; post true", 512)?;
    read(rt, "pre v1024 = 0; skip; post true true", 512)
}
