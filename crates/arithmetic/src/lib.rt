// The operators of 01, "Meaning of a run", on 64-bit numbers: sum, difference, product, opposite, div and mod, none where 64 bits
// do not hold it. "n = d × q + r with 0 ≤ r < |d|. Here n div 0 is 0 and n mod 0 is n."

#![tactic(auto)]

ghost use Rattle.std.specs.Prelude.{◌≡◌, neg_ℤ, ◌+ℤ◌, ◌-ℤ◌, ◌*ℤ◌};
ghost use Rattle.script.specs.Meaning.{divZ, modZ, whole};
ghost use Rattle.arithmetic.specs.Checking.{held};

use script::Operator;

pub fn plus(a: i64, b: i64) -> Option<i64>
    ensures { result ≡ held (a +ℤ b) }
{
    a.checked_add(b)
}

pub fn minus(a: i64, b: i64) -> Option<i64>
    ensures { result ≡ held (a -ℤ b) }
{
    a.checked_sub(b)
}

pub fn negate(z: i64) -> Option<i64>
    ensures { result ≡ held (neg_ℤ z) }
{
    z.checked_neg()
}

pub fn times(a: i64, b: i64) -> Option<i64>
    ensures { result ≡ held (a *ℤ b) }
{
    a.checked_mul(b)
}

pub fn rem(n: i64, d: i64) -> i64
    ensures { result ≡ modZ n d }
{
    if d == 0 { n } else { n.wrapping_rem_euclid(d) }
}

// The one quotient that is too large is that of the least number by -1.
pub fn div(n: i64, d: i64) -> Option<i64>
    ensures { result ≡ held (divZ n d) }
{
    if d == 0 {
        Some(0)
    } else {
        n.checked_div_euclid(d)
    }
}

pub fn operate(o: Operator, a: i64, b: i64) -> Option<i64>
    ensures { result ≡ held (whole.op o a b) }
{
    match o {
        Operator::Plus => plus(a, b),
        Operator::Minus => minus(a, b),
        Operator::Times => times(a, b),
        Operator::Div => div(a, b),
        Operator::Mod => Some(rem(a, b)),
    }
}
