// Lists with depths, and lists from before (02, P9): what the reader gives of a line, and the depths of a script's loops.

use crate::run;
use script::Line;
use std::io;

fn read(rt: &impl Print, name: &str, list: &[i32], index: i32) -> io::Result<()> {
    match list_reader::line_at(list, index) {
        Ok(
            Line {
                kind,
                row,
                depth,
                start,
                end,
                ..
            },
        ) => {
            println!(rt; "{name}: kind {kind}, row {row}, depth {depth}, from {start} to {end}")
        }
        Err(missing) => {
            let number = missing.number();
            println!(rt; "{name}: refused {number}")
        }
    }
}

// One condition, true, with this fourth word of its trailer and this last word of the list.
fn ends_in(rt: &impl Print, name: &str, fourth: i32, last: i32) -> io::Result<()> {
    let list = [16, 4, 0, 1, fourth, last];
    read(rt, name, &list, 0)
}

const OLD: [i32; 7] = [25, 16, 16, 4, 3, 3, 1];

const NEW: [i32; 8] = [25, 16, 16, 4, 3, 3, 0, -1];

// Kind 5 and the last variable, of 02, P5 and P2, in the form of document 01.
const OLD_GUARD: [i32; 11] = [25, 16, 21, 2, 1023, 1, 0, 5, 10, 7, 1];

// The last word is that of the other form.
const OLD_NEGATED: [i32; 7] = [25, 16, 16, 4, 3, 3, -1];

const NEW_NOT_NEGATED: [i32; 8] = [25, 16, 16, 4, 3, 3, 0, 1];

pub fn words(rt: &impl Print) -> io::Result<()> {
    ends_in(rt, "fourth word -1", -1, -1)?;
    ends_in(rt, "fourth word 0", 0, -1)?;
    ends_in(rt, "fourth word 7", 7, -1)?;
    ends_in(rt, "fourth word 8", 8, -1)?;
    ends_in(rt, "last word 0", 0, 0)?;
    ends_in(rt, "last word -1", 0, -1)?;
    ends_in(rt, "last word -2", 0, -2)?;
    ends_in(rt, "last word -2147483648", 0, -2147483648)?;
    read(rt, "old list", &OLD, 0)?;
    read(rt, "old list, index 1", &OLD, 1)?;
    read(rt, "old list of a guard", &OLD_GUARD, 0)?;
    read(rt, "old list, count negated", &OLD_NEGATED, 0)?;
    read(rt, "new list", &NEW, 0)?;
    read(rt, "new list, index 1", &NEW, 1)?;
    read(rt, "new list, index -1", &NEW, -1)?;
    read(rt, "new list, count not negated", &NEW_NOT_NEGATED, 0)
}

// Kind, row and depth of each condition, first one first.
fn say_depths(rt: &impl Print, list: &[i32], conditions: usize) -> io::Result<()> {
    for i in 0..100 {
        if i < conditions {
            let Line {
                kind,
                row,
                depth,
                ..
            } = list_reader::as_line(list_reader::line_at(list, i as i32));
            print!(rt; " {kind} {row} {depth};")?;
        }
    }
    println!(rt)
}

fn generated(rt: &impl Print, name: &str, table: &[i32]) -> io::Result<()> {
    let mut list = [7; 512];
    let mut scratch = [7; 5120];
    let answer = generator::told(generator::generate(table, &mut list, &mut scratch));
    let conditions = answer.conditions;
    let words = answer.words;
    run::say(rt, name, answer)?;
    print!(rt; "kinds, rows and depths:")?;
    if let Some(written) = list.get(..words) {
        say_depths(rt, written, conditions)?;
    }
    Ok(())
}

// The script of a text.
fn depths(rt: &impl Print, name: &str, text: &str) -> io::Result<()> {
    let mut table = [7; 512];
    if let Ok(used) = script_reader::read_text(text.as_bytes(), &mut table)
        && used <= 512
    {
        generated(rt, name, &table[..used])?;
    }
    Ok(())
}

pub fn scripts(rt: &impl Print) -> io::Result<()> {
    depths(
        rt,
        "a loop in a loop in a branch",
        "pre true; if v0 < 1 then while true keep true fall 0 do if v1 < 1 then while true keep true fall 1 do skip end else skip end
        end else while true keep true fall 2 do skip end end; post true",
    )?;
    depths(
        rt,
        "guards that divide",
        "pre true; while 1 div v0 = 1 keep true fall 0 do while 1 mod v1 = 1 keep true fall 1 do skip end; while true keep true fall 2
        do skip end end; while 1 div v2 = 1 keep true fall 3 do skip end; post true",
    )?;
    depths(
        rt,
        "eight loops in one another",
        "pre true; while true keep true fall 0 do while true keep true fall 1 do while true keep true fall 2 do while true keep true
        fall 3 do while true keep true fall 4 do while true keep true fall 5 do while true keep true fall 6 do while true keep true
        fall 7 do skip end end end end end end end end; post true",
    )
}
