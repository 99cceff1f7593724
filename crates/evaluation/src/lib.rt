// The value of an expression and the truth of a formula, at a row of an accepted table, in 64-bit numbers; or what stops the
// machine there (02, P11). "Operands go left first; in annotations too, choose works out only the branch taken, connectives
// both sides." A row is not taken apart: the two functions go by its kind. A row of another sort has the value 0 and is true, as
// in the definitions.

#![tactic(auto)]

ghost use Rattle.std.specs.Prelude.{◌≡◌, []};
ghost use Rattle.script.specs.Meaning.{takes, relate, connect};
ghost use Rattle.script.specs.Kinds.{number};
ghost use Rattle.script.specs.Trees.{expr_at, formula_at};
ghost use Rattle.stepping.specs.Values.{mode_64, operated, work, judge, got};
ghost use Rattle.stepping.specs.Machine.{state_of};
ghost use Rattle.evaluation.specs.Worked.{worked, opposite, Lent};
ghost use Rattle.evaluation.specs.Kinds.{operator_of, relation_of, connective_of};

use script::{Kind, Operator, field, kind_at};

// What stops the machine.
#[derive(Clone, Copy, PartialEq, Eq, Debug)]
pub enum Stop {
    // a value leaves 64 bits
    Overflow,
    // code divides by zero
    ByZero,
}

// ---- one node

// Both types are `script`'s, so no `From` between them can stand here.
fn operator_of(kind: Kind) -> Operator
    ensures { result ≡ operator_of (number kind) }
{
    match kind {
        Kind::Plus => Operator::Plus,
        Kind::Minus => Operator::Minus,
        Kind::Times => Operator::Times,
        Kind::Div => Operator::Div,
        _ => Operator::Mod,
    }
}

// Whether an operator takes b for its divisor.
fn is_taken(o: Operator, b: i64) -> bool
    ensures { result ≡ takes o b }
{
    match o {
        Operator::Plus | Operator::Minus | Operator::Times => true,
        Operator::Div | Operator::Mod => b != 0,
    }
}

// In code the divisor is looked at before the result.
fn combined(o: Operator, code: bool, a: i64, b: i64) -> Result<i64, Stop>
    ensures { worked result ≡ operated mode_64 (state_of [] []) code o a b }
{
    if code && !is_taken(o, b) {
        return Err(Stop::ByZero);
    }
    arithmetic::operate(o, a, b).ok_or(Stop::Overflow)
}

fn negated(a: i64) -> Result<i64, Stop>
    ensures { worked result ≡ opposite (got a) }
{
    arithmetic::negate(a).ok_or(Stop::Overflow)
}

fn related(kind: Kind, a: i64, b: i64) -> bool
    ensures { result ≡ relate (relation_of (number kind)) a b }
{
    match kind {
        Kind::Less => a < b,
        Kind::AtMost => a <= b,
        Kind::Equal => a == b,
        _ => a != b,
    }
}

fn connected(kind: Kind, a: bool, b: bool) -> bool
    ensures { result ≡ connect (connective_of (number kind)) a b }
{
    match kind {
        Kind::And => a && b,
        Kind::Or => a || b,
        _ => !a || b,
    }
}

// ---- all below a row

// What rows are worked out in: an accepted table, the values of variables and marks, and whether it is code (a guard or an
// assigned expression) or else an annotation.
#[derive(Clone, Copy)]
pub struct State<'a> {
    pub table: &'a [i32],
    pub variables: &'a [i64],
    pub marks: &'a [i64],
    pub code: bool,
}

impl State<'_> {
    // The value of the expression at row r.
    #[cycle(truth_at_value_at)]
    pub fn value_at(&self, r: usize) -> Result<i64, Stop>
        requires { Lent self.now.table.now self.now.variables.now self.now.marks.now r }
        ensures { worked result
            ≡ work mode_64 (state_of self.now.variables.now self.now.marks.now) self.now.code
            (expr_at self.now.table.now r) }
    {
        let kind = kind_at(self.table, r);
        match kind {
            Kind::Constant => Ok(self.table[4 * r + 1] as i64),
            Kind::Variable => Ok(self.variables[field(self.table, r, 1)]),
            Kind::Plus | Kind::Minus | Kind::Times | Kind::Div | Kind::Mod => {
                let a = self.value_at(field(self.table, r, 1))?;
                let b = match self.value_at(field(self.table, r, 2)) {
                    Ok(b) => b,
                    Err(stop) => return Err(stop),
                };
                combined(operator_of(kind), self.code, a, b)
            }
            Kind::Negate => negated(self.value_at(field(self.table, r, 1))?),
            Kind::Mark => Ok(self.marks[field(self.table, r, 1)]),
            Kind::Choose => {
                if self.truth_at(field(self.table, r, 1))? {
                    self.value_at(field(self.table, r, 2))
                } else {
                    self.value_at(field(self.table, r, 3))
                }
            }
            _ => Ok(0),
        }
    }

    // The truth of the formula at row r.
    #[cycle(truth_at_value_at)]
    pub fn truth_at(&self, r: usize) -> Result<bool, Stop>
        requires { Lent self.now.table.now self.now.variables.now self.now.marks.now r }
        ensures { worked result
            ≡ judge mode_64 (state_of self.now.variables.now self.now.marks.now) self.now.code
            (formula_at self.now.table.now r) }
    {
        let kind = kind_at(self.table, r);
        match kind {
            Kind::False => Ok(false),
            Kind::Less | Kind::AtMost | Kind::Equal | Kind::Unequal => {
                let x = self.value_at(field(self.table, r, 1))?;
                let y = self.value_at(field(self.table, r, 2))?;
                Ok(related(kind, x, y))
            }
            Kind::Not => Ok(!self.truth_at(field(self.table, r, 1))?),
            Kind::And | Kind::Or | Kind::Implies => {
                let a = self.truth_at(field(self.table, r, 1))?;
                let b = self.truth_at(field(self.table, r, 2))?;
                Ok(connected(kind, a, b))
            }
            _ => Ok(true),
        }
    }
}
