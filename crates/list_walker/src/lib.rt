// A reader over a finished list, 01, "Reading a finished list": a struct that keeps the words and the place where the
// conditions not yet read end, and walks back one condition at a time. `new` reads the whole list once, and so knows
// whether it is torn; a step then reads the words of one condition, so that all steps together cost time linear in the
// words of the list. A function over the struct is thin: it takes the struct apart and leaves the work to a function of
// plain words and places. Callers with a plain slice use `start` and `step_from`.

#![tactic(auto)]

ghost use Rattle.std.specs.Prelude.{◌≡◌};
ghost use Rattle.script.specs.Listing.{first_place, step_back, next_place};
ghost use Rattle.list_reader.specs.Lines.{Told};
ghost use Rattle.list_walker.specs.Steps.{opened, moved, Part};

use list_reader::Missing;
use script::Line;

#[derive(Drop)]
pub struct Reader<'a> {
    pub words: &'a [i32],
    pub end: usize,
}

// A reader that stands before the count of a list. Over words that are no list it stands at 1, where each step answers 20.
pub fn new<'a>(words: &'a [i32]) -> Reader<'a>
    ensures { result ≡ opened words.entry }
{
    let end = list_reader::first_place(words);
    Reader { words, end }
}

// One condition back, whatever words and place the reader holds: the line that ends at its place, and the reader moved back before
// it. No iterator: over words that are no list the steps have no end.
pub fn step<'a>(r: Reader<'a>) -> (Result<Line, Missing>, Reader<'a>)
    ensures line { Told result.0 (step_back r.entry.words.now r.entry.end) }
    ensures reader { result.1 ≡ moved r.entry }
{
    let line = list_reader::line_before(r.words, r.end);
    let end = list_reader::place_of(line, r.end);
    let reader = Reader {
        words: r.words,
        end,
    };
    (line, reader)
}

// The formula of a line, as the part of the reader's words where it stands.
pub fn formula<'a>(r: Reader<'a>, line: Line) -> &'a [i32]
    ensures { Part r.entry.words line result }
{
    part(r.words, line)
}

// The words from a line's start to its end, as far as there are any.
pub fn part<'a>(words: &'a [i32], line: Line) -> &'a [i32]
    ensures { Part words.entry line result }
{
    let end = line.end.min(words.len());
    let start = line.start.min(end);
    &words[start..end]
}

// The place where a reader of the words stands first.
pub fn start(words: &[i32]) -> usize
    ensures { result ≡ first_place words.now }
{
    let r = new(words);
    r.end
}

// A reader's step from any place of a slice, with the place before the line.
pub fn step_from(words: &[i32], end: usize) -> (Result<Line, Missing>, usize)
    ensures line { Told result.0 (step_back words.now end) }
    ensures place { result.1 ≡ next_place words.now end }
{
    let (line, reader) = step(Reader { words, end });
    (line, reader.end)
}
