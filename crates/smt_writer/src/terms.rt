// Terms: the words of an expression or a formula are read from left to right, and each node's text is written as it is met. The
// last part of a node is a turn of the loop, so the parentheses that close nodes are counted and written at the end; a call is
// for the parts before it. A divisor is written before its dividend, so where it stands is looked for.

ghost use Rattle.std.specs.Prelude.{ℕ, ◌≤◌, ◌≡◌, length};
ghost use Rattle.script.specs.Kinds.{kind_of};
ghost use Rattle.output.specs.Written.{Written};
ghost use Rattle.smt.specs.Pieces.{constant_text};
ghost use Rattle.smt_writer.specs.Shapes.{shape_of};
ghost use Rattle.smt_writer.specs.Openings.{opening, leaf_text, truth_name};
ghost use Rattle.smt_writer.specs.Turns.{Begins, NodeWritten};
ghost use Rattle.smt_writer.specs.Divisions.{DividesBy, ByZero, Divided};

use crate::names::{write_mark, write_variable};
use list_reader::{expression_end, kind_at};
use output::Output;
use script::{Kind, RowNumber, VariableNumber, field_number};
use text::{Text, magnitude};

// What a kind word opens.
#[derive(Clone, Copy)]
pub enum Shape {
    // a constant, a variable or a mark, and its number
    Leaf,
    // true or false
    Truth,
    // one part
    Single,
    // two parts
    Pair,
    // two parts, of which the second is written first
    Division,
    // three parts
    Choice,
}

fn shape_of(kind: Kind) -> Shape
    ensures { (n : ℕ) → kind ≡ kind_of n → result ≡ shape_of n }
{
    match kind {
        Kind::Constant => Shape::Leaf,
        Kind::Variable => Shape::Leaf,
        Kind::Mark => Shape::Leaf,
        Kind::True => Shape::Truth,
        Kind::False => Shape::Truth,
        Kind::Negate => Shape::Single,
        Kind::Not => Shape::Single,
        Kind::Div => Shape::Division,
        Kind::Mod => Shape::Division,
        Kind::Choose => Shape::Choice,
        _ => Shape::Pair,
    }
}

// Writes what stands before the parts of a node.
fn write_opening(kind: Kind, out: &mut Output<'_, u8>)
    ensures { (n : ℕ) → kind ≡ kind_of n → Written out.old (opening n) out.new }
{
    match kind {
        Kind::Plus => out.push_text(b"(+ "),
        Kind::Minus => out.push_text(b"(- "),
        Kind::Times => out.push_text(b"(* "),
        Kind::Negate => out.push_text(b"(- "),
        Kind::Choose => out.push_text(b"(ite "),
        Kind::Less => out.push_text(b"(< "),
        Kind::AtMost => out.push_text(b"(<= "),
        Kind::Equal => out.push_text(b"(= "),
        Kind::Unequal => out.push_text(b"(distinct "),
        Kind::Not => out.push_text(b"(not "),
        Kind::And => out.push_text(b"(and "),
        Kind::Or => out.push_text(b"(or "),
        _ => out.push_text(b"(=> "),
    }
}

// Writes a constant.
fn write_constant(value: i32, out: &mut Output<'_, u8>)
    ensures { Written out.old (constant_text value) out.new }
{
    let n = magnitude(value);
    if value < 0 {
        out.push_text(b"(- ");
        out.push_number(n);
        out.push_byte(b')');
    } else {
        out.push_number(n);
    }
}

// Writes a constant, a variable or a mark, from its two words.
fn write_leaf(kind: Kind, number: i32, out: &mut Output<'_, u8>)
    ensures { (n : ℕ) → kind ≡ kind_of n → Written out.old (leaf_text n number) out.new }
{
    match kind {
        Kind::Constant => write_constant(number, out),
        Kind::Variable => write_variable(VariableNumber(field_number(number)), out),
        _ => write_mark(RowNumber(field_number(number)), out),
    }
}

// Writes true or false.
fn write_truth(kind: Kind, out: &mut Output<'_, u8>)
    ensures { (n : ℕ) → kind ≡ kind_of n → Written out.old (truth_name n) out.new }
{
    match kind {
        Kind::True => out.push_text(b"true"),
        _ => out.push_text(b"false"),
    }
}

// Writes what a division by zero is, then what stands before its dividend. (The quotient is 0, the remainder the dividend.)
#[cycle(write_by_zero_write_division_write_node)]
fn write_by_zero(words: &[i32], at: usize, kind: Kind, out: &mut Output<'_, u8>)
    requires { DividesBy words.now at kind }
    ensures { (n : ℕ) → kind ≡ kind_of n → ByZero words.now at n out.old out.new }
{
    match kind {
        Kind::Div => out.push_text(b"0 (div "),
        _ => {
            write_node(words, at + 1, out);
            out.push_text(b" (mod ");
        }
    }
}

// Writes the division at a place up to its last part, the divisor, and gives the place where that stands.
#[cycle(write_by_zero_write_division_write_node)]
fn write_division(words: &[i32], at: usize, kind: Kind, out: &mut Output<'_, u8>) -> usize
    requires { DividesBy words.now at kind }
    ensures { (n : ℕ) → kind ≡ kind_of n → Divided words.now at n out.old result out.new }
{
    let divisor = expression_end(words, at + 1);
    out.push_text(b"(ite (= ");
    write_node(words, divisor, out);
    out.push_text(b" 0) ");
    write_by_zero(words, at, kind, out);
    write_node(words, at + 1, out);
    out.push_byte(b' ');
    divisor
}

// Writes the expression or formula that begins at a place of the words, and gives the place past it.
#[cycle(write_by_zero_write_division_write_node)]
pub fn write_node(words: &[i32], first: usize, out: &mut Output<'_, u8>) -> usize
    requires { out.old.at ≤ length out.old.list.now → Begins words.now first }
    ensures { NodeWritten words.now first out.old result out.new }
{
    let mut at = first;
    let mut closing = 0;
    while out.fits() {
        let kind = kind_at(words, at);
        match shape_of(kind) {
            Shape::Leaf => {
                write_leaf(kind, words[at + 1], out);
                out.push_repeated(b')', closing);
                return at + 2;
            }
            Shape::Truth => {
                write_truth(kind, out);
                out.push_repeated(b')', closing);
                return at + 1;
            }
            Shape::Single => {
                write_opening(kind, out);
                at += 1;
                closing += 1;
            }
            Shape::Division => {
                at = write_division(words, at, kind, out);
                closing += 2;
            }
            Shape::Choice => {
                write_opening(kind, out);
                let chosen = write_node(words, at + 1, out);
                out.push_byte(b' ');
                at = write_node(words, chosen, out);
                out.push_byte(b' ');
                closing += 1;
            }
            Shape::Pair => {
                write_opening(kind, out);
                at = write_node(words, at + 1, out);
                out.push_byte(b' ');
                closing += 1;
            }
        }
    }
    at
}
