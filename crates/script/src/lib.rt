// What the code of every layer shares with the definitions in specs/: the numbers of rows and variables, a row taken
// apart, an answer, a line of a list; and the functions that take a row apart.

#![tactic(auto)]

mod kinds; // the kinds, each with its number

ghost use Rattle.std.specs.Prelude.{◌≡◌, ℕ, ◌+◌, ◌*◌, ◌<◌, ◌≤◌, length};
ghost use Rattle.script.specs.Rows.{field_number, row_no, var_no, row_of, row, word, rows};
ghost use Rattle.script.specs.Kinds.{kind_of};
ghost use Rattle.script.specs.Refusals.{frozen};

pub use kinds::Kind;

// A row number and a variable number are both small whole numbers: two types keep them apart.
#[derive(Clone, Copy, PartialEq, Eq, PartialOrd, Ord, Debug)]
pub struct RowNumber(pub usize);

#[derive(Clone, Copy, PartialEq, Eq, PartialOrd, Ord, Debug)]
pub struct VariableNumber(pub usize);

// How many variables there are.
pub const VARIABLES: usize = 1024;

#[derive(Clone, Copy, PartialEq, Eq, Debug)]
pub enum Operator {
    Plus,
    Minus,
    Times,
    Div,
    Mod,
}

#[derive(Clone, Copy, PartialEq, Eq, Debug)]
pub enum Relation {
    Less,
    AtMost,
    Equal,
    Unequal,
}

#[derive(Clone, Copy, PartialEq, Eq, Debug)]
pub enum Connective {
    And,
    Or,
    Implies,
}

// A row taken apart: its sort, then its kind, with what its fields hold.
#[derive(Clone, Copy)]
pub enum Row {
    Expression(ExpressionRow),
    Formula(FormulaRow),
    Statement(StatementRow),
    // invariant, variant
    Note(RowNumber, RowNumber),
    // precondition, statement, postcondition
    Script(RowNumber, RowNumber, RowNumber),
    // a kind that is not listed
    Unknown,
}

#[derive(Clone, Copy)]
pub enum ExpressionRow {
    Constant(i32),
    Variable(VariableNumber),
    Arithmetic(Operator, RowNumber, RowNumber),
    Negate(RowNumber),
    // the row of the loop that it names
    Mark(RowNumber),
    Choose(RowNumber, RowNumber, RowNumber),
}

#[derive(Clone, Copy)]
pub enum FormulaRow {
    True,
    False,
    Comparison(Relation, RowNumber, RowNumber),
    Not(RowNumber),
    Junction(Connective, RowNumber, RowNumber),
}

#[derive(Clone, Copy)]
pub enum StatementRow {
    Skip,
    Assign(VariableNumber, RowNumber),
    Sequence(RowNumber, RowNumber),
    // guard, then, else
    If(RowNumber, RowNumber, RowNumber),
    // guard, note, body
    While(RowNumber, RowNumber, RowNumber),
    Assert(RowNumber),
}

#[derive(Clone, Copy, PartialEq, Eq, Debug)]
pub enum Sort {
    Expression,
    Formula,
    Statement,
    Note,
    Script,
    Unknown,
}

// The rule that a condition comes from, with its number: what 01 calls the condition kind.
#[derive(Clone, Copy, PartialEq, Eq, Debug)]
pub enum Rule {
    Exit = 1,
    Floor = 2,
    Step = 3,
    Main = 4,
    // 02, P5
    Guard = 5,
}

// What a call answers: 0 with the conditions and words of the list, or the number of a refusal with its row.
#[derive(Clone, Copy)]
pub struct Answer {
    pub number: usize,
    pub row: usize,
    pub conditions: usize,
    pub words: usize,
}

// A line of a list: a condition's kind, row and depth, and where its formula starts and ends; or the number of a refusal.
#[derive(Clone, Copy)]
pub struct Line {
    pub number: usize,
    pub kind: usize,
    pub row: usize,
    pub depth: usize,
    pub start: usize,
    pub end: usize,
}

// The number in a field; a negative one is read as one that is beyond every range.
pub fn field_number(w: i32) -> usize
    ensures { result ≡ field_number w }
{
    if w < 0 { 4294967295 } else { w as usize }
}

// Whether a variable is a frozen name.
pub fn is_frozen(v: VariableNumber) -> bool
    ensures { result ≡ frozen v.0 }
{
    128 <= v.0 && v.0 <= 255
}

// The number in field f of row r of a table; field 0 is the kind.
pub fn field(table: &[i32], r: usize, f: usize) -> usize
    requires { (4 * r + 3 < length table.now) × (f < 4) }
    ensures { result ≡ field_number (word table.now r f) }
{
    field_number(table[4 * r + f])
}

// The kind of row r of a table.
pub fn kind_at(table: &[i32], r: usize) -> Kind
    requires { 4 * r + 3 < length table.now }
    ensures { result ≡ kind_of (field_number (word table.now r 0)) }
{
    Kind::from(field(table, r, 0))
}

// How many rows a table has.
pub fn row_count(table: &[i32]) -> usize
    ensures { result ≡ rows table.now }
{
    table.len() / 4
}

fn row_number(w: i32) -> RowNumber
    ensures { result ≡ row_no w }
{
    RowNumber(field_number(w))
}

fn variable_number(w: i32) -> VariableNumber
    ensures { result ≡ var_no w }
{
    VariableNumber(field_number(w))
}

// The row whose first word is n and whose fields are a, b and c.
#[tactic(auto, unfolding(crate::specs::Rows::row_of, crate::specs::Kinds::kind_of))]
pub fn row_of(n: usize, a: i32, b: i32, c: i32) -> Row
    ensures { result ≡ row_of n a b c }
{
    let v = variable_number(a);
    let ra = row_number(a);
    let rb = row_number(b);
    let rc = row_number(c);
    match Kind::from(n) {
        Kind::Constant => Row::Expression(ExpressionRow::Constant(a)),
        Kind::Variable => Row::Expression(ExpressionRow::Variable(v)),
        Kind::Plus => Row::Expression(ExpressionRow::Arithmetic(Operator::Plus, ra, rb)),
        Kind::Minus => Row::Expression(ExpressionRow::Arithmetic(Operator::Minus, ra, rb)),
        Kind::Times => Row::Expression(ExpressionRow::Arithmetic(Operator::Times, ra, rb)),
        Kind::Div => Row::Expression(ExpressionRow::Arithmetic(Operator::Div, ra, rb)),
        Kind::Mod => Row::Expression(ExpressionRow::Arithmetic(Operator::Mod, ra, rb)),
        Kind::Negate => Row::Expression(ExpressionRow::Negate(ra)),
        Kind::Mark => Row::Expression(ExpressionRow::Mark(ra)),
        Kind::Choose => Row::Expression(ExpressionRow::Choose(ra, rb, rc)),
        Kind::True => Row::Formula(FormulaRow::True),
        Kind::False => Row::Formula(FormulaRow::False),
        Kind::Less => Row::Formula(FormulaRow::Comparison(Relation::Less, ra, rb)),
        Kind::AtMost => Row::Formula(FormulaRow::Comparison(Relation::AtMost, ra, rb)),
        Kind::Equal => Row::Formula(FormulaRow::Comparison(Relation::Equal, ra, rb)),
        Kind::Unequal => Row::Formula(FormulaRow::Comparison(Relation::Unequal, ra, rb)),
        Kind::Not => Row::Formula(FormulaRow::Not(ra)),
        Kind::And => Row::Formula(FormulaRow::Junction(Connective::And, ra, rb)),
        Kind::Or => Row::Formula(FormulaRow::Junction(Connective::Or, ra, rb)),
        Kind::Implies => Row::Formula(FormulaRow::Junction(Connective::Implies, ra, rb)),
        Kind::Skip => Row::Statement(StatementRow::Skip),
        Kind::Assign => Row::Statement(StatementRow::Assign(v, rb)),
        Kind::Sequence => Row::Statement(StatementRow::Sequence(ra, rb)),
        Kind::If => Row::Statement(StatementRow::If(ra, rb, rc)),
        Kind::While => Row::Statement(StatementRow::While(ra, rb, rc)),
        Kind::Note => Row::Note(ra, rb),
        Kind::Assert => Row::Statement(StatementRow::Assert(ra)),
        Kind::Script => Row::Script(ra, rb, rc),
        Kind::Unlisted => Row::Unknown,
    }
}

// Row r of a table, taken apart.
pub fn row_at(table: &[i32], r: RowNumber) -> Row
    requires { 4 * r.0 + 3 < length table.now }
    ensures { result ≡ row table.now r.0 }
{
    let at = 4 * r.0;
    let kind = table[at];
    let a = table[at + 1];
    let b = table[at + 2];
    let c = table[at + 3];
    row_of(field_number(kind), a, b, c)
}
