// What becomes of each word of a list, taken as the kind of a node: where the node ends, its shape when it is shortened, and what it
// becomes. All words are gone through from the last one back, so that the parts of a node are known before it. What is found at a
// word that is no kind is of no use, and does no harm: nothing looks there.

ghost use Rattle.std.specs.Prelude.{◌≡◌, ℕ, ◌+◌, ◌<◌, pos, length, get_or};
ghost use Rattle.script.specs.Kinds.{kind_of};
ghost use Rattle.shortener.specs.Codes.{kept_code, numbered_code, other_code};
ghost use Rattle.shortener.specs.Entries.{entry, number_code, pair_entry, not_entry, entry_at};
ghost use Rattle.shortener.specs.Planning.{Roomy, Planned};
ghost use Rattle.shortener.specs.Runs.{shape_told, coded, ends, shapes, changes};

use crate::rules::{Change, Shape, changed_shape, not_change, pair_change};
use list_reader::kind_at;
use script::Kind;

// Of a node: the place past it, its shape when it is shortened, and what it becomes.
#[derive(Clone, Copy)]
pub struct Entry {
    pub end: u16,
    pub shape: Shape,
    pub change: Change,
}

// The entry of which nothing is known.
pub const BLANK: Entry = Entry {
    end: 0,
    shape: Shape::Zero,
    change: Change::Kept,
};

// A place, which the entries have in 16 bits, since the longest list has 16,384 words; the one cast.
pub fn place(end: u16) -> usize
    ensures { result ≡ end }
{
    end as usize
}

// The place past the part that begins at a place; 0 past the run's end.
fn end_at(entries: &[Entry], at: usize) -> u16
    ensures { result ≡ get_or (ends entries.now) at 0 }
{
    if at < entries.len() {
        entries[at].end
    } else {
        0
    }
}

// The shape of the part that begins at a place; that of 0 past the run's end.
fn shape_at(entries: &[Entry], at: usize) -> Shape
    ensures { shape_told result ≡ get_or (shapes entries.now) at 0 }
{
    if at < entries.len() {
        entries[at].shape
    } else {
        Shape::Zero
    }
}

// Puts an entry at its place, field by field: the entry before it reads one field at once, and would wait for a word put together.
fn put(place: &mut Entry, entry: Entry)
    ensures { place.new ≡ entry }
{
    place.end = entry.end;
    place.shape = entry.shape;
    place.change = entry.change;
}

// The shape of the constant whose number stands at a place; that of 0 past the words' end.
fn number_shape(words: &[i32], at: usize) -> Shape
    ensures { shape_told result ≡ number_code (get_or words.now at (pos 0)) }
{
    if words.len() <= at {
        return Shape::Zero;
    }
    let number = words[at];
    match number {
        0 => Shape::Zero,
        1 => Shape::One,
        _ => Shape::Other,
    }
}

// The entry of a not at a place.
fn not_entry(at: usize, entries: &[Entry]) -> Entry
    requires { at < 16384 }
    ensures { coded result ≡ not_entry (ends entries.now) (shapes entries.now) at }
{
    let end = end_at(entries, at + 1);
    let x = shape_at(entries, at + 1);
    let change = not_change(x);
    let shape = changed_shape(change, x, Shape::Other);
    Entry { end, shape, change }
}

// The entry of a node with two parts at a place.
fn pair_entry(kind: Kind, at: usize, entries: &[Entry]) -> Entry
    requires { at < 16384 }
    ensures { (k : ℕ) → kind ≡ kind_of k → coded result ≡ pair_entry k (ends entries.now) (shapes entries.now) at }
{
    let middle = place(end_at(entries, at + 1));
    let end = end_at(entries, middle);
    let x = shape_at(entries, at + 1);
    let y = shape_at(entries, middle);
    let change = pair_change(kind, x, y);
    let shape = changed_shape(change, x, y);
    Entry { end, shape, change }
}

// The entry of a constant, a variable or a mark at a place.
fn number_entry(at: usize, shape: Shape) -> Entry
    requires { at < 16384 }
    ensures { coded result ≡ entry (at + 2) (shape_told shape) numbered_code }
{
    Entry {
        end: (at + 2) as u16,
        shape,
        change: Change::KeptWithNumber,
    }
}

// The entry of true or false at a place.
fn truth_entry(at: usize, shape: Shape) -> Entry
    requires { at < 16384 }
    ensures { coded result ≡ entry (at + 1) (shape_told shape) kept_code }
{
    Entry {
        end: (at + 1) as u16,
        shape,
        change: Change::Kept,
    }
}

// The entry of a node that always stays, and whose last part ends at a place.
fn kept_entry(end: u16) -> Entry
    ensures { coded result ≡ entry end other_code kept_code }
{
    Entry {
        end,
        shape: Shape::Other,
        change: Change::Kept,
    }
}

// The entry of the word at a place, with those of all words after it.
fn entry_at(words: &[i32], at: usize, entries: &[Entry]) -> Entry
    requires { (at < length words.now) × (at < 16384) }
    ensures { coded result ≡ entry_at words.now (ends entries.now) (shapes entries.now) at }
{
    let kind = kind_at(words, at);
    match kind {
        Kind::Constant => number_entry(at, number_shape(words, at + 1)),
        Kind::Variable => number_entry(at, Shape::Other),
        Kind::Mark => number_entry(at, Shape::Other),
        Kind::True => truth_entry(at, Shape::True),
        Kind::False => truth_entry(at, Shape::False),
        Kind::Negate => kept_entry(end_at(entries, at + 1)),
        Kind::Choose => {
            let formula = place(end_at(entries, at + 1));
            let chosen = place(end_at(entries, formula));
            kept_entry(end_at(entries, chosen))
        }
        Kind::Not => not_entry(at, entries),
        Kind::Plus | Kind::Minus | Kind::Times | Kind::And | Kind::Implies => {
            pair_entry(kind, at, entries)
        }
        // two parts and no rule: by `pair_entry` too it is slower
        _ => {
            let middle = place(end_at(entries, at + 1));
            kept_entry(end_at(entries, middle))
        }
    }
}

// Finds the entries of all words.
pub fn plan(words: &[i32], entries: &mut [Entry])
    requires { Roomy words.now (ends entries.old) (shapes entries.old) (changes entries.old) }
    ensures { Planned words.now (ends entries.new) (shapes entries.new) (changes entries.new) }
{
    for at in (0..words.len()).rev() {
        let entry = entry_at(words, at, entries);
        put(&mut entries[at], entry);
    }
}
