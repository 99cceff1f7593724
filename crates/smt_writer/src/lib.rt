// A condition of a list as an SMT-LIB 2 script, 02, P1. Nothing is kept of the text but what is written, up to the first byte
// that has no room: then the writers return at once. A dividend is passed over at each division that it stands in, so the cost
// goes by the bytes written times the depth of divisions at most.

#![tactic(auto)]

mod names;
mod terms;

ghost use Rattle.std.specs.Prelude.{◌≡◌, length, replicate};
ghost use Rattle.script.specs.Syntax.{Formula};
ghost use Rattle.theorems.specs.Writing.{Wrote};
ghost use Rattle.output.specs.Written.{Written};
ghost use Rattle.smt.specs.Translate.{script};
ghost use Rattle.smt.specs.Text.{script_text};
ghost use Rattle.smt.specs.Written.{fit, written};
ghost use Rattle.smt_writer.specs.Nodes.{Spells, Spelled};
ghost use Rattle.smt_writer.specs.Entry.{Answered};
ghost use Rattle.smt_writer.specs.Refused.{refusal_number, refusal_of, number_told, used_told};

use list_reader::Missing;
use names::write_declarations;
use output::Output;
use terms::write_node;
use text::{Text, clear};

// Why no script is written, by the number of the refusal: the words are no list, a list without that condition, or the text has
// no room.
#[derive(Clone, Copy, PartialEq, Eq, Debug)]
pub enum Refusal {
    NoList = 20,
    NoCondition = 21,
    NoRoom = 30,
}

impl Refusal {
    pub fn number(self) -> usize
        ensures { result ≡ refusal_number self }
    {
        self as usize
    }
}

impl From<Missing> for Refusal {
    ghost from_gives = { λ missing refusal. refusal ≡ refusal_of missing };

    fn from(missing: Missing) -> Refusal {
        match missing {
            Missing::NoList => Refusal::NoList,
            Missing::NoLine => Refusal::NoCondition,
        }
    }
}

// Writes the script of the formula that the words spell.
fn write_script(formula: &[i32], out: &mut Output<'_, u8>)
    requires { Spelled formula.now }
    ensures { (f : Formula) → Spells formula.now f → Written out.old (script_text (script f)) out.new }
{
    out.push_text(b"(set-logic QF_NIA)\n");
    write_declarations(formula, out);
    out.push_text(b"(assert (not ");
    write_node(formula, 0, out);
    out.push_text(b"))\n(check-sat)\n");
}

// The same into a run of bytes, from its start on; gives the place past it.
fn write_from_start(formula: &[i32], text: &mut [u8]) -> usize
    requires { Spelled formula.now }
    ensures { (f : Formula) → Spells formula.now f → Wrote text.old 0 (script_text (script f)) result text.new }
{
    let mut out = Output { list: text, at: 0 };
    write_script(formula, &mut out);
    out.at
}

// Writes the script of the formula that the words spell into a run that is cleared, or leaves zeros where it has no room.
fn write_fitting(formula: &[i32], text: &mut [u8]) -> Result<usize, Refusal>
    requires { Spelled formula.now × (text.old ≡ replicate (length text.old) 0) }
    ensures { (f : Formula) → Spells formula.now f
        → Answered (fit (script_text (script f)) (length text.old)) result text.new }
{
    let used = write_from_start(formula, text);
    if text.len() < used {
        clear(text);
        return Err(Refusal::NoRoom);
    }
    Ok(used)
}

// Writes the condition at an index of a list as a script, with zeros behind it, and gives how many bytes were used.
pub fn write_condition(list: &[i32], index: i32, text: &mut [u8]) -> Result<usize, Refusal>
    ensures number { number_told result ≡ (written list.now index (length text.old)).number }
    ensures used { used_told result ≡ (written list.now index (length text.old)).used }
    ensures text { text.new ≡ (written list.now index (length text.old)).buffer }
{
    clear(text);
    let line = list_reader::line_at(list, index)?;
    write_fitting(&list[line.start..line.end], text)
}
