// The loops around a row: the rows of those that the pass is in, the inmost last.

ghost use Rattle.std.specs.Prelude.{◌≡◌, ◌≤◌, ◌<◌, ℕ, List, [], ◌∷◌, length};
ghost use Rattle.grammar.specs.Renamed.{outer, loop_of};
ghost use Rattle.marks.specs.Stack.{stacked};

use script::field_number;
use std::marker::Model;

// A clause sees their rows as a list, the inmost first.
#[derive(Drop)]
pub struct Loops {
    rows: [u16; 2048],
    count: usize,
}

impl Model for Loops {
    ghost Value = { List ℕ };

    ghost view = { λ l. stacked l.rows l.count };

    ghost invariant = { λ l. l.count ≤ 2048 };
}

impl Loops {
    pub fn new() -> Loops
        ensures { result ≡ [] }
    {
        Loops {
            rows: [0; 2048],
            count: 0,
        }
    }

    pub fn enter(&mut self, row: u16)
        requires { length self.old < 2048 }
        ensures { self.new ≡ row ∷ self.old }
    {
        self.rows[self.count] = row;
        self.count += 1;
    }

    // Out of the inmost loop, where there is one.
    pub fn leave(&mut self)
        ensures { self.new ≡ outer self.old }
    {
        self.count = self.count.saturating_sub(1);
    }

    // The row of the loop that mark(k) names; 0 where there is none.
    pub fn named(&self, k: i32) -> i32
        ensures { result ≡ loop_of self.now k }
    {
        let outward = field_number(k).saturating_sub(1);
        if outward < self.count {
            self.rows[self.count - 1 - outward] as i32
        } else {
            0
        }
    }
}
