// The names of variables and marks, and their declarations. Which of them occur is noted in a run of bytes, a byte for each
// name: variables first, then marks.

ghost use Rattle.std.specs.Prelude.{◌≡◌, ◌-◌, ◌≤◌, ◌<◌, eqb, length, set};
ghost use Rattle.script.specs.Syntax.{Formula};
ghost use Rattle.output.specs.Written.{Written};
ghost use Rattle.smt.specs.Translate.{variable, mark, letter, name, references, declared_references};
ghost use Rattle.smt.specs.Pieces.{declaration_text, declarations_text};
ghost use Rattle.smt_writer.specs.Nodes.{Spells, Spelled};
ghost use Rattle.smt_writer.specs.Noted.{names, reference_at, variable_place, mark_place, noted, past, top_of, declared_if, declared_from};

use list_reader::kind_at;
use output::Output;
use script::{Kind, RowNumber, VARIABLES, VariableNumber, field_number};
use text::Text;

// How many names: variables and marks.
const NAMES: usize = VARIABLES + 2048;

fn letter_of(v: VariableNumber) -> u8
    ensures { result ≡ letter (variable v.0) }
{
    if script::is_frozen(v) { b'f' } else { b'v' }
}

pub fn write_variable(v: VariableNumber, out: &mut Output<'_, u8>)
    ensures { Written out.old (name (variable v.0)) out.new }
{
    out.push_byte(letter_of(v));
    out.push_number(v.0);
}

pub fn write_mark(r: RowNumber, out: &mut Output<'_, u8>)
    ensures { Written out.old (name (mark r.0)) out.new }
{
    out.push_byte(b'm');
    out.push_number(r.0);
}

// The places past the last variable and past the last mark that are noted.
#[derive(Clone, Copy)]
pub struct Tops {
    pub variables: usize,
    pub marks: usize,
}

// Notes the name at a place; gives the place past the last one noted.
fn note(flags: &mut [u8], k: usize, top: usize) -> usize
    requires { k < length flags.old }
    ensures flags { flags.new ≡ set flags.old k 1 }
    ensures top { result ≡ past k top }
{
    flags[k] = 1;
    top.max(k + 1)
}

// Notes the names that occur in a formula; gives the places past the last ones noted.
fn note_names(formula: &[i32], flags: &mut [u8]) -> Tops
    requires spelled { Spelled formula.now }
    requires flags_len { length flags.old ≡ names }
    ensures flags { (f : Formula) → Spells formula.now f → flags.new ≡ noted (references f) flags.old }
    ensures variables { (f : Formula) → Spells formula.now f → result.variables ≡ top_of variable_place (references f) 0 }
    ensures marks { (f : Formula) → Spells formula.now f → result.marks ≡ top_of mark_place (references f) 0 }
{
    let mut i = 0;
    let mut variables = 0;
    let mut marks = 0;
    while i < formula.len() {
        match kind_at(formula, i) {
            Kind::Constant => i += 2,
            Kind::Variable => {
                variables = note(flags, field_number(formula[i + 1]), variables);
                i += 2;
            }
            Kind::Mark => {
                marks = note(flags, VARIABLES + field_number(formula[i + 1]), marks);
                i += 2;
            }
            _ => i += 1,
        }
    }
    Tops { variables, marks }
}

// Writes the name at a place of the run.
fn write_name(k: usize, out: &mut Output<'_, u8>)
    ensures { Written out.old (name (reference_at k)) out.new }
{
    if k < VARIABLES {
        write_variable(VariableNumber(k), out);
    } else {
        write_mark(RowNumber(k - VARIABLES), out);
    }
}

fn write_declaration(k: usize, out: &mut Output<'_, u8>)
    ensures { Written out.old (declaration_text (reference_at k)) out.new }
{
    out.push_text(b"(declare-const ");
    write_name(k, out);
    out.push_text(b" Int)\n");
}

// Writes a declaration where the name is noted.
fn declare_noted(k: usize, flag: u8, out: &mut Output<'_, u8>)
    ensures { Written out.old (declared_if (eqb flag 0) k) out.new }
{
    if flag != 0 {
        write_declaration(k, out);
    }
}

// Writes the declarations of the names that are noted from a place to a top.
fn declare_names(flags: &[u8], first: usize, top: usize, out: &mut Output<'_, u8>)
    requires { top ≤ length flags.now }
    ensures { Written out.old (declared_from flags.now first (top - first)) out.new }
{
    for k in first..top {
        declare_noted(k, flags[k], out);
    }
}

// Writes a declaration for each variable, then for each mark, that occurs in a formula, in rising number.
pub fn write_declarations(formula: &[i32], out: &mut Output<'_, u8>)
    requires { Spelled formula.now }
    ensures { (f : Formula) → Spells formula.now f
        → Written out.old (declarations_text (declared_references (references f))) out.new }
{
    let mut flags = [0u8; NAMES];
    let tops = note_names(formula, &mut flags);
    declare_names(&flags, 0, tops.variables, out);
    declare_names(&flags, VARIABLES, tops.marks, out);
}
