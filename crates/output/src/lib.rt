// A lent list with the place of its next element, written to by methods, up to the first element that has no room: a writer goes on
// from any place with no test, and the last place tells. Then what formulas are made of, in the words of the papers.

#![tactic(auto)]

ghost use Rattle.std.specs.Prelude.{◌≡◌, true, false, [], ◌∷◌, ◌<◌, ◌≤◌, pos, length};
ghost use Rattle.script.specs.Rows.{variables};
ghost use Rattle.output.specs.Written.{Written};

use script::{Kind, RowNumber, VariableNumber};

#[derive(Drop)]
pub struct Output<'a, T> {
    pub list: &'a mut [T],
    // where the next element goes; past the end of the list it says that there was no room
    pub at: usize,
}

impl<'a, T: Copy> Output<'a, T> {
    // Writes one element. (A slice whose elements have a size has fewer than that.)
    pub fn put(&mut self, element: T)
        requires { length self.old.list.now < 18446744073709551615 }
        ensures { Written self.old (element ∷ []) self.new }
    {
        let at = self.at;
        if at < self.list.len() {
            self.list[at] = element;
            self.at = at + 1;
        } else {
            self.at = self.list.len() + 1;
        }
    }

    // Whether all that was written had room.
    pub fn fits(&self) -> bool
        ensures { (result ≡ true → self.now.at ≤ length self.now.list.now) × (result ≡ false → length self.now.list.now < self.now.at) }
    {
        self.at <= self.list.len()
    }
}

impl<'a> Output<'a, i32> {
    // Writes one word.
    pub fn push(&mut self, word: i32)
        ensures { Written self.old (word ∷ []) self.new }
    {
        self.put(word);
    }

    // Writes two words.
    pub fn push_two(&mut self, first: i32, second: i32)
        ensures { Written self.old (first ∷ second ∷ []) self.new }
    {
        self.push(first);
        self.push(second);
    }

    // Writes a kind.
    pub fn push_kind(&mut self, kind: usize)
        requires { kind < 64 }
        ensures { Written self.old (pos kind ∷ []) self.new }
    {
        self.push(kind as i32);
    }

    // Writes a constant.
    pub fn push_constant(&mut self, value: i32)
        ensures { Written self.old (pos 1 ∷ value ∷ []) self.new }
    {
        self.push_two(Kind::Constant as i32, value);
    }

    // Writes a variable.
    pub fn push_variable(&mut self, v: VariableNumber)
        requires { v.0 < variables }
        ensures { Written self.old (pos 2 ∷ pos v.0 ∷ []) self.new }
    {
        self.push_two(Kind::Variable as i32, v.0 as i32);
    }

    // Writes the mark of the loop at row r.
    pub fn push_mark(&mut self, r: RowNumber)
        requires { r.0 < 2048 }
        ensures { Written self.old (pos 9 ∷ pos r.0 ∷ []) self.new }
    {
        self.push_two(Kind::Mark as i32, r.0 as i32);
    }
}
