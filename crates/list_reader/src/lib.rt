// The reader of finished lists, 01, "Reading a finished list": the whole list, walked from the end back, and the entries.

#![tactic(auto)]

mod formulas;
mod kinds;
mod lines;

ghost use Rattle.std.specs.Prelude.{◌≡◌, ◌+◌, ◌*◌, pos};
ghost use Rattle.script.specs.Listing.{count_told, lines, line_at, part_at, first_place, condition_count};
ghost use Rattle.list_reader.specs.Lines.{is_some, lines_ending, line_among, Claimed, Told};

pub use formulas::{expression_end, formula_end};
use lines::{last_word, line_told, start_before};
pub use lines::{Missing, as_line, kind_at, line_before, place_after, place_of, trailer_length};
use script::Line;

// The line at an index of the count lines that end at a place, walked from the end back: its own place is kept on the way.
fn walked(words: &[i32], count: usize, last: usize, index: usize) -> Result<Line, Missing>
    ensures { Told result (line_among (lines_ending words.now count last) (pos index)) }
{
    let tail = trailer_length(words);
    let mut end = last;
    let mut kept = 0;
    for i in (0..count).rev() {
        let Some(start) = start_before(words, tail, end) else {
            return Err(Missing::NoList);
        };
        if i == index {
            kept = end;
        }
        end = start;
    }
    if end == 0 {
        line_told(words, tail, kept)
    } else {
        Err(Missing::NoList)
    }
}

// The count that a last word tells: the word itself, or minus it. The least word has no opposite among the words.
fn count_told(word: i32) -> usize
    ensures { result ≡ count_told word }
{
    word.unsigned_abs() as usize
}

// The count that the last word tells; 0 for no list.
fn claimed(words: &[i32]) -> usize
    ensures { Claimed words.now result }
{
    if 16384 < words.len() {
        0
    } else {
        count_told(last_word(words))
    }
}

// The line at an index.
pub fn line_at(words: &[i32], index: i32) -> Result<Line, Missing>
    ensures { Told result (line_at words.now index) }
{
    let count = claimed(words);
    if count == 0 {
        Err(Missing::NoList)
    } else {
        walked(words, count, words.len() - 1, script::field_number(index))
    }
}

// The formula at an index, where it stands; refused, the empty part at the front.
pub fn formula_at<'a>(words: &'a [i32], index: i32) -> &'a [i32]
    ensures words { result.now ≡ part_at words.now index }
    ensures block { result.ref_ptr.0 ≡ words.entry.ref_ptr.0 }
    ensures place { result.ref_ptr.1 ≡ 4 * (line_at words.now index).start + words.entry.ref_ptr.1 }
{
    match line_at(words, index) {
        Ok(line) => &words[line.start..line.end],
        Err(_) => &words[0..0],
    }
}

// Whether the words are a list.
fn is_list(words: &[i32]) -> bool
    ensures { result ≡ is_some (lines words.now) }
{
    match line_at(words, -1) {
        Ok(_) => false,
        Err(Missing::NoList) => false,
        Err(Missing::NoLine) => true,
    }
}

// How many conditions a list has; 0 where the words are no list.
pub fn condition_count(words: &[i32]) -> usize
    ensures { result ≡ condition_count words.now }
{
    if is_list(words) { claimed(words) } else { 0 }
}

// The place where a reader of the words begins.
pub fn first_place(words: &[i32]) -> usize
    ensures { result ≡ first_place words.now }
{
    if is_list(words) { words.len() - 1 } else { 1 }
}
