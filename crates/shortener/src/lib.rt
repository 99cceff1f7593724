// A list of conditions made shorter, 02, P6: the entry for the pass, and the entry over two lists.

#![tactic(auto)]

mod lines;
mod plan;
mod rules;
mod writing;

ghost use Rattle.std.specs.Prelude.{◌≡◌, ◌+◌, ◌*◌, ◌≤◌, length};
ghost use Rattle.shortening.specs.Simplify.{order};
ghost use Rattle.shortening.specs.Shortened.{written, shorter, part_for, part_words};
ghost use Rattle.shortener.specs.Whole.{Counted, WrittenShort, refusal_number, number_told, used_told};
ghost use Rattle.shortener.specs.Parts.{Ordered, Stands, Told, chosen};

use clearing::clear;
use lines::write_lines;
use list_reader::Missing;
use output::Output;
use plan::{BLANK, plan};
use script::Line;

// The most words that a list has.
const LONGEST: usize = 16384;

// The most words of a list that is given fewer entries, which are cleared sooner.
const BRIEF: usize = 512;

// Why no list is written, by the number of the refusal: the words are no list, or the new list has no room.
#[derive(Clone, Copy, PartialEq, Eq, Debug)]
pub enum Refusal {
    NoList = 20,
    NoRoom = 31,
}

impl Refusal {
    pub fn number(self) -> usize
        ensures { result ≡ refusal_number self }
    {
        self as usize
    }
}

// Writes the list, which has so many conditions, shortened, with entries for N words; gives the place past it.
#[tactic(auto, using(crate::specs::Whole::ready))]
fn write_within<const N: usize>(list: &[i32], count: usize, short: &mut [i32]) -> usize
    requires { Counted list.now count × (length list.now ≤ N) × (N ≤ 16384) }
    ensures { WrittenShort list.now short.old result short.new }
{
    let mut entries = [BLANK; N];
    plan(list, &mut entries);
    let mut out = Output { list: short, at: 0 };
    write_lines(list, count, &mut entries, &mut out);
    out.at
}

// The same, with as few entries as the list allows.
fn write_short(list: &[i32], count: usize, short: &mut [i32]) -> usize
    requires { Counted list.now count }
    ensures { WrittenShort list.now short.old result short.new }
{
    if list.len() <= BRIEF {
        write_within::<BRIEF>(list, count, short)
    } else {
        write_within::<LONGEST>(list, count, short)
    }
}

// Writes a list whose conditions are shortened, with zeros behind it, and gives how many words were used.
pub fn shorten(list: &[i32], short: &mut [i32]) -> Result<usize, Refusal>
    ensures number { number_told result ≡ (written order list.now (length short.old)).number }
    ensures used { used_told result ≡ (written order list.now (length short.old)).used }
    ensures short { short.new ≡ (written order list.now (length short.old)).list }
{
    clear(short);
    let count = list_reader::condition_count(list);
    if count == 0 {
        return Err(Refusal::NoList);
    }
    let used = write_short(list, count, short);
    if short.len() < used {
        clear(short);
        return Err(Refusal::NoRoom);
    }
    Ok(used)
}

// Which of two lists.
#[derive(Clone, Copy, PartialEq, Eq, Debug)]
pub enum Side {
    Old,
    New,
}

// Which of two lists, and from where to where in it.
#[derive(Clone, Copy)]
pub struct Part {
    pub side: Side,
    pub start: usize,
    pub end: usize,
}

// The shorter of two lines, the old one if they are of one length.
fn shorter_of(old: Line, new: Line) -> Part
    requires ordered { Ordered old × Ordered new }
    requires read { (old.number ≡ 0) × (new.number ≡ 0) }
    ensures { Stands (part_for old new) result }
{
    if new.end - new.start < old.end - old.start {
        Part {
            side: Side::New,
            start: new.start,
            end: new.end,
        }
    } else {
        Part {
            side: Side::Old,
            start: old.start,
            end: old.end,
        }
    }
}

// Where the shorter of the two formulas at an index stands; the old list's refusal comes before the new one's.
pub fn shorter_part(old: &[i32], new: &[i32], index: i32) -> Result<Part, Missing>
    ensures { Told (shorter old.now new.now index) result }
{
    let a = match list_reader::line_at(old, index) {
        Ok(line) => line,
        Err(missing) => return Err(missing),
    };
    match list_reader::line_at(new, index) {
        Ok(b) => Ok(shorter_of(a, b)),
        Err(missing) => Err(missing),
    }
}

// The shorter of the two formulas at an index, where it stands, and the number of a refusal, or 0. No result: its clauses `block` and
// `place` say where the empty part stands on refusal.
pub fn shorter<'a>(old: &'a [i32], new: &'a [i32], index: i32, number: &mut usize) -> &'a [i32]
    ensures number { number.new ≡ (shorter old.now new.now index).number }
    ensures words { result.now ≡ part_words old.now new.now (shorter old.now new.now index) }
    ensures block { result.ref_ptr.0 ≡ (chosen (shorter old.now new.now index) old.entry new.entry).ref_ptr.0 }
    ensures place { result.ref_ptr.1 ≡ 4 * (shorter old.now new.now index).start
        + (chosen (shorter old.now new.now index) old.entry new.entry).ref_ptr.1 }
{
    match shorter_part(old, new, index) {
        Ok(part) => {
            *number = 0;
            match part.side {
                Side::Old => &old[part.start..part.end],
                Side::New => &new[part.start..part.end],
            }
        }
        Err(missing) => {
            *number = missing.number();
            &old[0..0]
        }
    }
}
