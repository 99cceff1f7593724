// Which sorts fit into a hole.

ghost use Rattle.std.specs.Prelude.{◌≡◌};
ghost use Rattle.parser.specs.Machine.{fits as Machine·fits, begins as Machine·begins, is_value};

use crate::symbols;

fn is_value(sort: usize) -> bool
    ensures { result ≡ is_value sort }
{
    sort == symbols::EXPRESSION || sort == symbols::FORMULA
}

// Whether a hole takes a sort.
pub fn fits(hole: usize, sort: usize) -> bool
    ensures { result ≡ Machine·fits hole sort }
{
    hole == sort || hole == symbols::EITHER && is_value(sort)
}

// Whether a sort may begin what a hole takes.
pub fn begins(hole: usize, sort: usize) -> bool
    ensures { result ≡ Machine·begins hole sort }
{
    fits(hole, sort) || hole == symbols::FORMULA && is_value(sort)
}
