// The entries for other languages: the reader of text, the check, the mender, the list reader, the generator, the pass that shortens
// lists, the writer of solver scripts, and the stepping machine, with their answers as numbers that the caller lends. A slice is its place and its length.

#![tactic(auto)]

ghost use Rattle.std.specs.Prelude.{◌≡◌, length};
ghost use Rattle.script.specs.Refusals.{verdict};
ghost use Rattle.script.specs.Generated.{outcome};
ghost use Rattle.editor.specs.Flat.{flat};
ghost use Rattle.script.specs.Listing.{line_at, first_place, step_back, next_place};
ghost use Rattle.script.specs.Promise.{Demand3};
ghost use Rattle.smt.specs.Written.{written};
ghost use Rattle.shortening.specs.Simplify.{order};
ghost use Rattle.shortening.specs.Shortened.{written as written_short, shorter};
ghost use Rattle.mending.specs.Mended.{mended};
ghost use Rattle.stepping.specs.Values.{mode_64};
ghost use Rattle.stepping.specs.Machine.{machine_run, machine_on};
ghost use Rattle.grammar.specs.Answer.{answer};
ghost use Rattle.exports.specs.Told.{Told, answer_of};
ghost use Rattle.exports.specs.Verdicts.{number_of, row_of};
ghost use Rattle.exports.specs.Sides.{side_number};

use editor::Record;
use machine::RunAnswer;
use script::{Answer, Line};
use shortener::Side;

// The verdict on a table: number and row, both 0 where it is accepted.
#[unsafe(no_mangle)]
pub extern "C" fn leqwarti_check(table: &[i32], number: &mut usize, row: &mut usize)
    ensures number { number.new ≡ number_of (verdict table.now) }
    ensures row { row.new ≡ row_of (verdict table.now) }
{
    match table::check(table) {
        Ok(()) => {
            *number = 0;
            *row = 0;
        }
        Err(refused) => {
            *number = refused.fault.number();
            *row = refused.row.0;
        }
    }
}

// The line at an index of a list, or one of zeros with the number of the refusal.
fn line_told(words: &[i32], index: i32) -> Line
    ensures { result ≡ line_at words.now index }
{
    list_reader::as_line(list_reader::line_at(words, index))
}

// The same of a reader's step, with the place before it.
fn step_told(words: &[i32], place: usize) -> (Line, usize)
    ensures line { result.0 ≡ step_back words.now place }
    ensures place { result.1 ≡ next_place words.now place }
{
    let (read, before) = list_walker::step_from(words, place);
    (list_reader::as_line(read), before)
}

// The line at an index of a list: number, kind, row and depth, and where its formula starts and ends. A list without depths has depth 0.
#[unsafe(no_mangle)]
pub extern "C" fn leqwarti_line(
    words: &[i32],
    index: i32,
    number: &mut usize,
    kind: &mut usize,
    row: &mut usize,
    depth: &mut usize,
    start: &mut usize,
    end: &mut usize,
)
    ensures number { number.new ≡ (line_at words.now index).number }
    ensures kind { kind.new ≡ (line_at words.now index).kind }
    ensures row { row.new ≡ (line_at words.now index).row }
    ensures depth { depth.new ≡ (line_at words.now index).depth }
    ensures start { start.new ≡ (line_at words.now index).start }
    ensures end { end.new ≡ (line_at words.now index).end }
{
    let line = line_told(words, index);
    *number = line.number;
    *kind = line.kind;
    *row = line.row;
    *depth = line.depth;
    *start = line.start;
    *end = line.end;
}

// Where a reader of the words stands first.
#[unsafe(no_mangle)]
pub extern "C" fn leqwarti_first_place(words: &[i32], place: &mut usize)
    ensures place { place.new ≡ first_place words.now }
{
    *place = list_walker::start(words);
}

// A reader's step: the line that ends at its place, told as above, and the place moved back before it.
#[unsafe(no_mangle)]
pub extern "C" fn leqwarti_step(
    words: &[i32],
    place: &mut usize,
    number: &mut usize,
    kind: &mut usize,
    row: &mut usize,
    depth: &mut usize,
    start: &mut usize,
    end: &mut usize,
)
    ensures place { place.new ≡ next_place words.now place.old }
    ensures number { number.new ≡ (step_back words.now place.old).number }
    ensures kind { kind.new ≡ (step_back words.now place.old).kind }
    ensures row { row.new ≡ (step_back words.now place.old).row }
    ensures depth { depth.new ≡ (step_back words.now place.old).depth }
    ensures start { start.new ≡ (step_back words.now place.old).start }
    ensures end { end.new ≡ (step_back words.now place.old).end }
{
    let (passed, before) = step_told(words, *place);
    *place = before;
    *number = passed.number;
    *kind = passed.kind;
    *row = passed.row;
    *depth = passed.depth;
    *start = passed.start;
    *end = passed.end;
}

// An answer as the four numbers.
fn tell(
    answer: Answer,
    number: &mut usize,
    row: &mut usize,
    conditions: &mut usize,
    words: &mut usize,
)
    ensures { Told answer number.new row.new conditions.new words.new }
{
    *number = answer.number;
    *row = answer.row;
    *conditions = answer.conditions;
    *words = answer.words;
}

// Lists the conditions of the table's script: number and row, how many conditions, and the words used.
#[unsafe(no_mangle)]
pub extern "C" fn leqwarti_generate(
    table: &[i32],
    list: &mut [i32],
    scratch: &mut [i32],
    number: &mut usize,
    row: &mut usize,
    conditions: &mut usize,
    words: &mut usize,
)
    ensures number { number.new ≡ (outcome table.now (length list.old) (length scratch.old)).answer.number }
    ensures row { row.new ≡ (outcome table.now (length list.old) (length scratch.old)).answer.row }
    ensures conditions { conditions.new ≡ (outcome table.now (length list.old) (length scratch.old)).answer.conditions }
    ensures words { words.new ≡ (outcome table.now (length list.old) (length scratch.old)).answer.words }
    ensures list { list.new ≡ (outcome table.now (length list.old) (length scratch.old)).list }
    ensures scratch { scratch.new ≡ (outcome table.now (length list.old) (length scratch.old)).scratch }
    ensures demand { Demand3 table.now (answer_of number.new row.new conditions.new words.new) list.new }
{
    let answer = generator::told(generator::generate(table, list, scratch));
    tell(answer, number, row, conditions, words)
}

// The same for a table of row records.
#[unsafe(no_mangle)]
pub extern "C" fn leqwarti_generate_records(
    records: &[Record],
    list: &mut [i32],
    scratch: &mut [i32],
    number: &mut usize,
    row: &mut usize,
    conditions: &mut usize,
    words: &mut usize,
)
    ensures number { number.new ≡ (outcome (flat records.now) (length list.old) (length scratch.old)).answer.number }
    ensures row { row.new ≡ (outcome (flat records.now) (length list.old) (length scratch.old)).answer.row }
    ensures conditions { conditions.new ≡ (outcome (flat records.now) (length list.old) (length scratch.old)).answer.conditions }
    ensures words { words.new ≡ (outcome (flat records.now) (length list.old) (length scratch.old)).answer.words }
    ensures list { list.new ≡ (outcome (flat records.now) (length list.old) (length scratch.old)).list }
    ensures scratch { scratch.new ≡ (outcome (flat records.now) (length list.old) (length scratch.old)).scratch }
    ensures demand { Demand3 (flat records.now) (answer_of number.new row.new conditions.new words.new) list.new }
{
    let answer = generator::told(editor::generate_records(records, list, scratch));
    tell(answer, number, row, conditions, words)
}

// Writes the condition at an index of a list as an SMT-LIB 2 script: number, and how many bytes of the text were used.
#[unsafe(no_mangle)]
pub extern "C" fn leqwarti_smt(
    words: &[i32],
    index: i32,
    text: &mut [u8],
    number: &mut usize,
    used: &mut usize,
)
    ensures number { number.new ≡ (written words.now index (length text.old)).number }
    ensures used { used.new ≡ (written words.now index (length text.old)).used }
    ensures text { text.new ≡ (written words.now index (length text.old)).buffer }
{
    let (refused, bytes) = match smt_writer::write_condition(words, index, text) {
        Ok(bytes) => (0, bytes),
        Err(refusal) => (refusal.number(), 0),
    };
    *number = refused;
    *used = bytes;
}

// Reads a script's text: number and place, how many words of the table were used, and the table.
#[unsafe(no_mangle)]
pub extern "C" fn leqwarti_read(
    text: &[u8],
    words: &mut [i32],
    number: &mut usize,
    place: &mut usize,
    used: &mut usize,
)
    ensures number { number.new ≡ (answer text.now (length words.old)).number }
    ensures place { place.new ≡ (answer text.now (length words.old)).place }
    ensures used { used.new ≡ (answer text.now (length words.old)).used }
    ensures words { words.new ≡ (answer text.now (length words.old)).words }
{
    let (fault, at, read) = match script_reader::read_text(text, words) {
        Ok(read) => (0, 0, read),
        Err(refusal) => (refusal.fault.number(), refusal.place, 0),
    };
    *number = fault;
    *place = at;
    *used = read;
}

// Writes a list whose conditions are shortened: number, and how many words of the new list were used.
#[unsafe(no_mangle)]
pub extern "C" fn leqwarti_shorten(
    list: &[i32],
    short: &mut [i32],
    number: &mut usize,
    used: &mut usize,
)
    ensures number { number.new ≡ (written_short order list.now (length short.old)).number }
    ensures used { used.new ≡ (written_short order list.now (length short.old)).used }
    ensures short { short.new ≡ (written_short order list.now (length short.old)).list }
{
    let (refusal, length) = match shortener::shorten(list, short) {
        Ok(words) => (0, words),
        Err(refusal) => (refusal.number(), 0),
    };
    *number = refusal;
    *used = length;
}

// The shorter of the two formulas at an index: number, in which list it stands (0 the old, 1 the new), and from where to where.
#[unsafe(no_mangle)]
pub extern "C" fn leqwarti_shorter(
    old: &[i32],
    new: &[i32],
    index: i32,
    number: &mut usize,
    side: &mut usize,
    start: &mut usize,
    end: &mut usize,
)
    ensures number { number.new ≡ (shorter old.now new.now index).number }
    ensures side { side.new ≡ side_number (shorter old.now new.now index).which }
    ensures start { start.new ≡ (shorter old.now new.now index).start }
    ensures end { end.new ≡ (shorter old.now new.now index).end }
{
    match shortener::shorter_part(old, new, index) {
        Ok(part) => {
            *number = 0;
            *start = part.start;
            *end = part.end;
            match part.side {
                Side::Old => *side = 0,
                Side::New => *side = 1,
            }
        }
        Err(missing) => {
            *number = missing.number();
            *side = 0;
            *start = 0;
            *end = 0;
        }
    }
}

// Writes a table with shared parts anew: number and row, how many words the new table has, how many old rows were dropped, and how
// many new rows were copied again.
#[unsafe(no_mangle)]
pub extern "C" fn leqwarti_mend(
    table: &[i32],
    new: &mut [i32],
    origins: &mut [i32],
    number: &mut usize,
    row: &mut usize,
    words: &mut usize,
    dropped: &mut usize,
    copied: &mut usize,
)
    ensures number { number.new ≡ (mended table.now (length new.old) (length origins.old)).number }
    ensures row { row.new ≡ (mended table.now (length new.old) (length origins.old)).row }
    ensures words { words.new ≡ (mended table.now (length new.old) (length origins.old)).words }
    ensures dropped { dropped.new ≡ (mended table.now (length new.old) (length origins.old)).dropped }
    ensures copied { copied.new ≡ (mended table.now (length new.old) (length origins.old)).copied }
    ensures new { new.new ≡ (mended table.now (length new.old) (length origins.old)).table }
    ensures origins { origins.new ≡ (mended table.now (length new.old) (length origins.old)).origins }
{
    match mender::mend(table, new, origins) {
        Ok(counts) => {
            *number = 0;
            *row = 0;
            *words = counts.words;
            *dropped = counts.dropped;
            *copied = counts.copied;
        }
        Err(unmendable) => {
            *number = unmendable.number();
            *row = unmendable.row();
            *words = 0;
            *dropped = 0;
            *copied = 0;
        }
    }
}

// Runs the table's script from its beginning, up to a limit of steps: number and row, the whole steps done, and the height of the stack.
#[unsafe(no_mangle)]
pub extern "C" fn leqwarti_run(
    table: &[i32],
    stack: &mut [u32],
    variables: &mut [i64],
    marks: &mut [i64],
    limit: u64,
    number: &mut usize,
    row: &mut usize,
    steps: &mut u64,
    height: &mut usize,
)
    ensures number { number.new ≡ (machine_run mode_64 table.now stack.old variables.old marks.old limit).number }
    ensures row { row.new ≡ (machine_run mode_64 table.now stack.old variables.old marks.old limit).row }
    ensures steps { steps.new ≡ (machine_run mode_64 table.now stack.old variables.old marks.old limit).steps }
    ensures height { height.new ≡ (machine_run mode_64 table.now stack.old variables.old marks.old limit).height }
    ensures stack { stack.new ≡ (machine_run mode_64 table.now stack.old variables.old marks.old limit).stack }
    ensures variables { variables.new ≡ (machine_run mode_64 table.now stack.old variables.old marks.old limit).vars }
    ensures marks { marks.new ≡ (machine_run mode_64 table.now stack.old variables.old marks.old limit).marks }
{
    let stopped = RunAnswer::from(machine::run(table, stack, variables, marks, limit));
    *number = stopped.number;
    *row = stopped.row;
    *steps = stopped.steps;
    *height = stopped.height;
}

// The same, going on with the rows that stand in so many words of the stack, next row last.
#[unsafe(no_mangle)]
pub extern "C" fn leqwarti_go_on(
    table: &[i32],
    stack: &mut [u32],
    begun: usize,
    variables: &mut [i64],
    marks: &mut [i64],
    limit: u64,
    number: &mut usize,
    row: &mut usize,
    steps: &mut u64,
    height: &mut usize,
)
    ensures number { number.new ≡ (machine_on mode_64 table.now stack.old variables.old marks.old limit begun).number }
    ensures row { row.new ≡ (machine_on mode_64 table.now stack.old variables.old marks.old limit begun).row }
    ensures steps { steps.new ≡ (machine_on mode_64 table.now stack.old variables.old marks.old limit begun).steps }
    ensures height { height.new ≡ (machine_on mode_64 table.now stack.old variables.old marks.old limit begun).height }
    ensures stack { stack.new ≡ (machine_on mode_64 table.now stack.old variables.old marks.old limit begun).stack }
    ensures variables { variables.new ≡ (machine_on mode_64 table.now stack.old variables.old marks.old limit begun).vars }
    ensures marks { marks.new ≡ (machine_on mode_64 table.now stack.old variables.old marks.old limit begun).marks }
{
    let stopped = RunAnswer::from(machine::go_on(table, stack, begun, variables, marks, limit));
    *number = stopped.number;
    *row = stopped.row;
    *steps = stopped.steps;
    *height = stopped.height;
}
