// The rules of 02, P6, in the order of P10, at a node whose parts are already shortened. A rule looks only at the shapes of the
// parts, and says what becomes of the node.

ghost use Rattle.std.specs.Prelude.{◌≡◌, ℕ};
ghost use Rattle.script.specs.declared.Operator.TheVariants.{Plus, Minus, Times};
ghost use Rattle.script.specs.declared.Connective.TheVariants.{And, Implies};
ghost use Rattle.script.specs.Kinds.{kind_of};
ghost use Rattle.shortening.specs.Simplify.{order, arith_change, join_change};
ghost use Rattle.shortener.specs.Codes.{shaped, change_code, truth_change_code, not_code, pair_code, changed_shape_code};
ghost use Rattle.shortener.specs.Runs.{shape_told, change_told};

use script::Kind;

// What a part is, as far as the rules look.
#[derive(Clone, Copy, PartialEq, Eq, Debug)]
pub enum Shape {
    Zero,
    One,
    True,
    False,
    Other,
}

// What becomes of a node.
#[derive(Clone, Copy, PartialEq, Eq, Debug)]
pub enum Change {
    // it stays: its kind is written, then its parts
    Kept,
    // it stays: a constant, a variable or a mark, of two words
    KeptWithNumber,
    // its first part, and not its second
    First,
    // its second part, and not its first
    Second,
    // its second part, negated
    NegatedSecond,
    // true, and none of its parts
    True,
    // false, and none of its parts
    False,
    // nothing: its parent has dropped it
    Passed,
}

// ---- the rules, in their order; truth values are told by ==, since a match on both parts was tried and is slower

// "E − 0 becomes E"; after it "0 − E becomes negate E"
fn minus_change(x: Shape, y: Shape) -> Change
    ensures { change_told result ≡ change_code (arith_change order Minus (shaped (shape_told x)) (shaped (shape_told y))) }
{
    match (x, y) {
        (_, Shape::Zero) => Change::First,
        (Shape::Zero, _) => Change::NegatedSecond,
        _ => Change::Kept,
    }
}

// "E + 0 and 0 + E become E"
fn plus_change(x: Shape, y: Shape) -> Change
    ensures { change_told result ≡ change_code (arith_change order Plus (shaped (shape_told x)) (shaped (shape_told y))) }
{
    match (x, y) {
        (_, Shape::Zero) => Change::First,
        (Shape::Zero, _) => Change::Second,
        _ => Change::Kept,
    }
}

// "E × 1 and 1 × E become E"
fn times_change(x: Shape, y: Shape) -> Change
    ensures { change_told result ≡ change_code (arith_change order Times (shaped (shape_told x)) (shaped (shape_told y))) }
{
    match (x, y) {
        (_, Shape::One) => Change::First,
        (Shape::One, _) => Change::Second,
        _ => Change::Kept,
    }
}

// "true and F, F and true become F; false and F, F and false become false"
fn and_change(x: Shape, y: Shape) -> Change
    ensures { change_told result ≡ truth_change_code (join_change And (shaped (shape_told x)) (shaped (shape_told y))) }
{
    if x == Shape::True {
        Change::Second
    } else if y == Shape::True {
        Change::First
    } else if x == Shape::False {
        Change::False
    } else if y == Shape::False {
        Change::False
    } else {
        Change::Kept
    }
}

// "true implies F becomes F; false implies F and F implies true become true"
fn implies_change(x: Shape, y: Shape) -> Change
    ensures { change_told result ≡ truth_change_code (join_change Implies (shaped (shape_told x)) (shaped (shape_told y))) }
{
    if x == Shape::True {
        Change::Second
    } else if x == Shape::False {
        Change::True
    } else if y == Shape::True {
        Change::True
    } else {
        Change::Kept
    }
}

// "not true and not false are exchanged for their values"
#[tactic(auto, unfolding(crate::specs::Codes::not_code))]
pub fn not_change(x: Shape) -> Change
    ensures { change_told result ≡ not_code (shape_told x) }
{
    if x == Shape::True {
        Change::False
    } else if x == Shape::False {
        Change::True
    } else {
        Change::Kept
    }
}

// What becomes of a node with two parts.
pub fn pair_change(kind: Kind, x: Shape, y: Shape) -> Change
    ensures { (k : ℕ) → kind ≡ kind_of k → change_told result ≡ pair_code k (shape_told x) (shape_told y) }
{
    match kind {
        Kind::Plus => plus_change(x, y),
        Kind::Minus => minus_change(x, y),
        Kind::Times => times_change(x, y),
        Kind::And => and_change(x, y),
        Kind::Implies => implies_change(x, y),
        _ => Change::Kept,
    }
}

// The shape of what a node becomes.
#[tactic(auto, unfolding(crate::specs::Codes::changed_shape_code))]
pub fn changed_shape(change: Change, x: Shape, y: Shape) -> Shape
    ensures { shape_told result ≡ changed_shape_code (change_told change) (shape_told x) (shape_told y) }
{
    match change {
        Change::First => x,
        Change::Second => y,
        Change::True => Shape::True,
        Change::False => Shape::False,
        _ => Shape::Other,
    }
}
