// The program's input and output, but for reading and writing themselves: the words that the input's bytes spell, and the
// text of an answer. In this order: bytes to words, the parts of a line, an answer. A part is written as far as there is room
// (crate `text`); an answer has room.

#![tactic(auto)]

ghost use Rattle.std.specs.Prelude.{◌≡◌, [], ◌∷◌, ◌+◌, ◌*◌, ◌≤◌, pos, length};
ghost use Rattle.theorems.specs.Writing.{Wrote};
ghost use Rattle.output.specs.Written.{Written};
ghost use Rattle.text.specs.Decimal.{decimal};
ghost use Rattle.printer.specs.Input.{words_of};
ghost use Rattle.printer.specs.Text.{signed_decimal, rest_of_line, line, name, name_of, lines, conditions_in, answer_text, Listed};

use output::Output;
use script::{Answer, Rule};
use text::Text;

// Writes the words that the bytes spell, and gives their number.
pub fn decode(bytes: &[u8], words: &mut [i32]) -> usize
    requires { length bytes.now ≤ 4 * length words.old }
    ensures wrote { Wrote words.old 0 (words_of bytes.now) result words.new }
    ensures upper_bound { result ≤ length words.old }
{
    let (fours, _) = bytes.as_chunks::<4>();
    for (i, four) in fours.iter().enumerate() {
        words[i] = i32::from_le_bytes(*four);
    }
    fours.len()
}

// A space and a number.
fn put_count(n: usize, out: &mut Output<'_, u8>)
    ensures { Written out.old (32 ∷ decimal n) out.new }
{
    out.push_byte(b' ');
    out.push_number(n);
}

// A space and a word.
fn put_field(w: i32, out: &mut Output<'_, u8>)
    ensures { Written out.old (32 ∷ signed_decimal w) out.new }
{
    let n = text::magnitude(w);
    if w < 0 {
        out.push_text(b" -");
        out.push_number(n);
    } else {
        put_count(n, out);
    }
}

// What stands after the first word of a line. A word has at most 11 characters.
fn put_fields(words: &[i32], out: &mut Output<'_, u8>)
    ensures wrote { Written out.old (rest_of_line words.now) out.new }
    ensures words_len_bound { length (rest_of_line words.now) ≤ 12 * length words.now + 1 }
{
    for word in words {
        put_field(*word, out);
    }
    out.push_byte(b'\n');
}

// A line of a name and two numbers.
fn put_heading(name: &[u8], first: usize, second: usize, out: &mut Output<'_, u8>)
    ensures { Written out.old (line name.now (pos first ∷ pos second ∷ [])) out.new }
{
    out.push_text(name);
    put_count(first, out);
    put_count(second, out);
    out.push_byte(b'\n');
}

// The rule of a condition of this kind.
#[tactic(auto, unfolding(crate::specs::Text::name_of))]
fn rule_of(kind: usize) -> Rule
    ensures { name result ≡ name_of kind }
{
    match kind {
        1 => Rule::Exit,
        2 => Rule::Floor,
        3 => Rule::Step,
        5 => Rule::Guard,
        _ => Rule::Main,
    }
}

// The name of a rule.
fn put_name(rule: Rule, out: &mut Output<'_, u8>)
    ensures { Written out.old (name rule) out.new }
{
    match rule {
        Rule::Exit => out.push_text(b"exit"),
        Rule::Floor => out.push_text(b"floor"),
        Rule::Step => out.push_text(b"step"),
        Rule::Main => out.push_text(b"main"),
        Rule::Guard => out.push_text(b"guard"),
    }
}

// The line of a condition.
fn put_condition(kind: usize, row: i32, formula: &[i32], out: &mut Output<'_, u8>)
    ensures wrote { Written out.old (line (name_of kind) (row ∷ formula.now)) out.new }
    ensures formula_len_bound { length (line (name_of kind) (row ∷ formula.now)) ≤ 12 * length formula.now + 36 }
{
    put_name(rule_of(kind), out);
    put_field(row, out);
    put_fields(formula, out);
}

// The lines of a list's conditions, first one first. The list may be in either form: its trailers, depths among them, are passed over.
fn put_lines(list: &[i32], out: &mut Output<'_, u8>)
    requires { Listed list.now }
    ensures wrote { Written out.old (lines (conditions_in list.now)) out.new }
    ensures list_len_bound { length (lines (conditions_in list.now)) ≤ 12 * length list.now }
{
    let tail = list_reader::trailer_length(list);
    let mut i = 0;
    while i + 1 < list.len() {
        let e = list_reader::formula_end(list, i);
        let kind = script::field_number(list[e]);
        put_condition(kind, list[e + 1], &list[i..e], out);
        i = e + tail;
    }
}

// The text of an answer.
fn put_answer(answer: Answer, list: &[i32], out: &mut Output<'_, u8>)
    requires { answer.number ≡ 0 → Listed list.now }
    ensures wrote { Written out.old (answer_text answer (conditions_in list.now)) out.new }
    ensures answer_len_bound { length (answer_text answer (conditions_in list.now)) ≤ 12 * length list.now + 64 }
{
    if answer.number == 0 {
        put_heading(b"planned", answer.conditions, answer.words, out);
        put_lines(list, out);
    } else {
        put_heading(b"refused", answer.number, answer.row, out);
    }
}

// Writes the text of an answer: after a plan with the conditions of the list, which is all of it that was used.
pub fn render(answer: Answer, list: &[i32], out: &mut [u8]) -> usize
    requires listed { answer.number ≡ 0 → Listed list.now }
    requires list_in_bounds { 12 * length list.now + 64 ≤ length out.old }
    ensures wrote { Wrote out.old 0 (answer_text answer (conditions_in list.now)) result out.new }
    ensures upper_bound { result ≤ length out.old }
{
    let mut text = Output { list: out, at: 0 };
    put_answer(answer, list, &mut text);
    text.at
}
