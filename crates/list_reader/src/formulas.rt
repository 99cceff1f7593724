// Where an expression or a formula ends: what a word opens, and the two readers, which call each other.

ghost use Rattle.std.specs.Prelude.{◌≡◌, cond, ◌≤◌, ℤ, pos, ltb, leb, get_or};
ghost use Rattle.script.specs.Rows.{field_number, row_of};
ghost use Rattle.script.specs.Listing.{spelled};
ghost use Rattle.list_reader.specs.Nodes.{number, expression_node, formula_node, Opens};
ghost use Rattle.list_reader.specs.Ends.{NumberEnds, ExpressionEnds, FormulaEnds};
ghost use Rattle.list_reader.specs.Lines.{is_some};

use crate::kinds;

// What a word opens as an expression, with what it takes to read on.
#[derive(Clone, Copy)]
pub enum ExpressionNode {
    // a constant, a variable or a mark, and its number
    Number,
    Negate,
    Arithmetic,
    Choose,
    // no expression
    Nothing,
}

// What a word opens as a formula.
#[derive(Clone, Copy)]
pub enum FormulaNode {
    // true or false
    Truth,
    Comparison,
    Not,
    Junction,
    // no formula
    Nothing,
}

// The word at a place, 0 past the end.
fn word_at(words: &[i32], at: usize) -> i32
    ensures { result ≡ get_or words.now at (pos 0) }
{
    if at < words.len() { words[at] } else { 0 }
}

// A number, where it is in range.
fn number(right: bool) -> ExpressionNode
    ensures { result ≡ number right }
{
    if right {
        ExpressionNode::Number
    } else {
        ExpressionNode::Nothing
    }
}

// The number at a place, where it is below a limit.
fn number_below(words: &[i32], at: usize, limit: usize) -> ExpressionNode
    ensures { result ≡ number (ltb (field_number (get_or words.now at (pos 0))) limit) }
{
    number(script::field_number(word_at(words, at)) < limit)
}

// What a kind opens as an expression, where it is no operator, before the words from a place on.
fn other_node_of(kind: i32, words: &[i32], at: usize) -> ExpressionNode
    requires { 3 ≤ field_number kind → 8 ≤ field_number kind }
    ensures { result ≡ expression_node (row_of (field_number kind) (get_or words.now at (pos 0)) (pos 0) (pos 0)) }
{
    match kind {
        kinds::CONSTANT => ExpressionNode::Number,
        kinds::VARIABLE => number_below(words, at, script::VARIABLES),
        kinds::NEGATE => ExpressionNode::Negate,
        kinds::MARK => number_below(words, at, 2048),
        kinds::CHOOSE => ExpressionNode::Choose,
        _ => ExpressionNode::Nothing,
    }
}

// What a kind opens as an expression, before the words from a place on. An operator is told first, by one comparison.
fn expression_node_of(kind: i32, words: &[i32], at: usize) -> ExpressionNode
    ensures { result ≡ expression_node (row_of (field_number kind) (get_or words.now at (pos 0)) (pos 0) (pos 0)) }
{
    match kind {
        kinds::PLUS..=kinds::MOD => ExpressionNode::Arithmetic,
        _ => other_node_of(kind, words, at),
    }
}

// What a kind opens as a formula.
fn formula_node_of(kind: i32) -> FormulaNode
    ensures { (next : ℤ) → result ≡ formula_node (row_of (field_number kind) next (pos 0) (pos 0)) }
{
    match kind {
        kinds::TRUE..=kinds::FALSE => FormulaNode::Truth,
        kinds::LESS..=kinds::UNEQUAL => FormulaNode::Comparison,
        kinds::NOT => FormulaNode::Not,
        kinds::AND..=kinds::IMPLIES => FormulaNode::Junction,
        _ => FormulaNode::Nothing,
    }
}

// What the word at a place opens as an expression.
fn expression_node_at(words: &[i32], at: usize) -> ExpressionNode
    ensures { Opens expression_node words.now at result }
{
    if at < words.len() {
        expression_node_of(words[at], words, at + 1)
    } else {
        ExpressionNode::Nothing
    }
}

// What the word at a place opens as a formula.
fn formula_node_at(words: &[i32], at: usize) -> FormulaNode
    ensures { Opens formula_node words.now at result }
{
    if at < words.len() {
        formula_node_of(words[at])
    } else {
        FormulaNode::Nothing
    }
}

// Where the number at a place ends; where there is none, one word past the end of all.
fn number_end(words: &[i32], at: usize) -> usize
    ensures { NumberEnds words.now at result }
{
    if at < words.len() {
        at + 1
    } else {
        words.len() + 1
    }
}

// An end that is within the room; past it, one word past the end of all.
fn end_within(room: usize, end: usize, past: usize) -> usize
    ensures { result ≡ cond (leb end room) end past }
{
    if end <= room { end } else { past }
}

// Where the expression that begins at a place ends; where there is none, one word past the end of all. No expression
// begins there, so what follows a part that is missing is missing too. Parts that come after the present one wait. The words
// are lent on as a part of themselves: lent on as they came, their place and length wait in memory at each call.
#[cycle(expression_end_formula_end)]
pub fn expression_end(words: &[i32], first: usize) -> usize
    ensures { ExpressionEnds words.now first result }
{
    let mut at = first;
    let mut waiting: usize = 0;
    loop {
        let node = expression_node_at(words, at);
        match node {
            ExpressionNode::Number => {
                at = number_end(words, at + 1);
                if waiting == 0 {
                    return at;
                }
                waiting -= 1;
            }
            ExpressionNode::Negate => at += 1,
            ExpressionNode::Arithmetic => {
                at += 1;
                waiting += 1;
            }
            ExpressionNode::Choose => {
                at = formula_end(&words[0..words.len()], at + 1);
                waiting += 1;
            }
            ExpressionNode::Nothing => return words.len() + 1,
        }
    }
}

// Where the formula that begins at a place ends; where there is none, one word past the end of all. Parts that come after
// the present one wait. A comparison's first side is read in all the words but the last two, which the second side takes at
// least: so the calls of the two readers nest no deeper than a pair for every four words, whatever the words are.
#[cycle(expression_end_formula_end)]
pub fn formula_end(words: &[i32], first: usize) -> usize
    ensures { FormulaEnds words.now first result }
{
    let all = &words[0..words.len()];
    let mut at = first;
    let mut waiting: usize = 0;
    loop {
        let node = formula_node_at(all, at);
        match node {
            FormulaNode::Truth => {
                at += 1;
                if waiting == 0 {
                    return at;
                }
                waiting -= 1;
            }
            FormulaNode::Comparison => {
                let room = all.len().saturating_sub(2);
                let middle = expression_end(&all[0..room], at + 1);
                at = expression_end(all, end_within(room, middle, all.len() + 1));
                if waiting == 0 {
                    return at;
                }
                waiting -= 1;
            }
            FormulaNode::Not => at += 1,
            FormulaNode::Junction => {
                at += 1;
                waiting += 1;
            }
            FormulaNode::Nothing => return words.len() + 1,
        }
    }
}

// Whether the words spell a formula, all read.
pub fn is_formula(words: &[i32]) -> bool
    ensures { result ≡ is_some (spelled words.now) }
{
    formula_end(words, 0) == words.len()
}
