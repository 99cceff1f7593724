// The line that ends at a place: a trailer and the formula before it. A trailer has three words or four, as the last word of the
// list tells (02, P9).

ghost use Rattle.std.specs.Prelude.{◌≡◌, ◌+◌, ◌≤◌, ◌<◌, pos, length, get_or};
ghost use Rattle.script.specs.Rows.{field_number};
ghost use Rattle.script.specs.Kinds.{kind_of};
ghost use Rattle.script.specs.declared.Line.{Line};
ghost use Rattle.script.specs.Listing.{rule_of, below, last_word, step_back};
ghost use Rattle.list_reader.specs.Lines.{is_some, line_ending, Tail, trailer_at, is_line, found_by, start_found};
ghost use Rattle.list_reader.specs.Lines.{trailer_line, line_told, refusal, Told, place_after, place_of, line_alone};

use crate::formulas::is_formula;
use script::{Kind, Line};

// Why there is no line, by the number of the refusal: the words are no list, or a list without that line.
#[derive(Clone, Copy, PartialEq, Eq, Debug)]
pub enum Missing {
    NoList = 20,
    NoLine = 21,
}

impl Missing {
    pub fn number(self) -> usize
        ensures { result ≡ refusal self }
    {
        self as usize
    }
}

// The words of a trailer; the depth is 0 where the list has none.
#[derive(Clone, Copy)]
pub struct Trailer {
    pub kind: i32,
    pub row: i32,
    pub size: i32,
    pub depth: i32,
}

// The last word; 0 where there are no words.
pub fn last_word(words: &[i32]) -> i32
    ensures { result ≡ last_word words.now }
{
    let n = words.len();
    if n == 0 { 0 } else { words[n - 1] }
}

// The kind that a word is.
pub fn kind_at(words: &[i32], at: usize) -> Kind
    requires { at < length words.now }
    ensures { result ≡ kind_of (field_number (get_or words.now at (pos 0))) }
{
    Kind::from(script::field_number(words[at]))
}

// How many words a trailer has.
pub fn trailer_length(words: &[i32]) -> usize
    ensures { Tail words.now result }
{
    if last_word(words) < 0 { 4 } else { 3 }
}

// The words of the trailer that begins at e, where trailers have `tail` words.
fn trailer_at(words: &[i32], tail: usize, e: usize) -> Trailer
    requires { Tail words.now tail × (e + tail ≤ length words.now) }
    ensures { result ≡ trailer_at words.now e }
{
    let kind = words[e];
    let row = words[e + 1];
    let size = words[e + 2];
    let depth = if tail < 4 { 0 } else { words[e + 3] };
    Trailer {
        kind,
        row,
        size,
        depth,
    }
}

// Whether a number is a condition's kind.
fn is_rule(kind: usize) -> bool
    ensures { result ≡ is_some (rule_of kind) }
{
    0 < kind && kind < 6
}

// Whether a word is not negative and below a limit.
fn is_below(limit: usize, word: i32) -> bool
    ensures { result ≡ is_some (below limit word) }
{
    0 <= word && script::field_number(word) < limit
}

// Whether a trailer is one after a formula that ends at e.
fn is_line(words: &[i32], e: usize, t: Trailer) -> bool
    requires { e ≤ length words.now }
    ensures { result ≡ is_line words.now e t }
{
    let k = script::field_number(t.kind);
    let n = script::field_number(t.size);
    is_rule(k)
        && (is_below(2048, t.row)
            && (is_below(e + 1, t.size) && (is_below(8, t.depth) && is_formula(&words[e - n..e]))))
}

// Where the formula that ends at e starts, by its trailer, where that is one.
fn start_of(words: &[i32], e: usize, t: Trailer) -> Option<usize>
    requires { e ≤ length words.now }
    ensures { result ≡ start_found (found_by words.now e t) }
{
    let n = script::field_number(t.size);
    if is_line(words, e, t) {
        Some(e - n)
    } else {
        None
    }
}

// Where the formula of the line starts whose trailer ends at a place, where there is such a line.
pub fn start_before(words: &[i32], tail: usize, end: usize) -> Option<usize>
    requires { Tail words.now tail }
    ensures { result ≡ start_found (line_ending words.now end) }
{
    if end < tail || words.len() < end {
        None
    } else {
        let e = end - tail;
        start_of(words, e, trailer_at(words, tail, e))
    }
}

// The line that a trailer tells after a formula that ends at e.
fn trailer_line(e: usize, t: Trailer) -> Line
    ensures { result ≡ trailer_line e t }
{
    let kind = script::field_number(t.kind);
    let row = script::field_number(t.row);
    let depth = script::field_number(t.depth);
    let start = e.saturating_sub(script::field_number(t.size));
    Line {
        number: 0,
        kind,
        row,
        depth,
        start,
        end: e,
    }
}

// The line that the trailer before a place tells, the formula unread.
pub fn line_told(words: &[i32], tail: usize, end: usize) -> Result<Line, Missing>
    requires { Tail words.now tail }
    ensures { Told result (line_told words.now end) }
{
    if end < tail || words.len() < end {
        Err(Missing::NoLine)
    } else {
        let e = end - tail;
        Ok(trailer_line(e, trailer_at(words, tail, e)))
    }
}

// The line whose trailer ends at a place; none at the front.
pub fn line_before(words: &[i32], end: usize) -> Result<Line, Missing>
    ensures { Told result (step_back words.now end) }
{
    if end == 0 {
        return Err(Missing::NoLine);
    }
    let tail = trailer_length(words);
    match start_before(words, tail, end) {
        Some(_) => line_told(words, tail, end),
        None => Err(Missing::NoList),
    }
}

// The place that a reader moves to from the place end, with the line that it read there.
pub fn place_after(line: Line, end: usize) -> usize
    ensures { result ≡ place_after line end }
{
    if line.number == 0 { line.start } else { end }
}

// The same, with what it read there.
pub fn place_of(read: Result<Line, Missing>, end: usize) -> usize
    ensures place { result ≡ place_of read end }
    ensures told { (line : Line) → Told read line → result ≡ place_after line end }
{
    match read {
        Ok(line) => line.start,
        Err(_) => end,
    }
}

// An answer as a line alone: the line, or one of zeros with the number of the refusal.
pub fn as_line(read: Result<Line, Missing>) -> Line
    ensures line { result ≡ line_alone read }
    ensures told { (line : Line) → Told read line → result ≡ line }
{
    match read {
        Ok(line) => line,
        Err(missing) => Line {
            number: missing.number(),
            kind: 0,
            row: 0,
            depth: 0,
            start: 0,
            end: 0,
        },
    }
}
