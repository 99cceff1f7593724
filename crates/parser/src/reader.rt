// What reads: the state, and the two runs that are lent, of frames and of words.

ghost use Rattle.std.specs.Prelude.{◌≡◌};
ghost use Rattle.parser.specs.Machine.{top_frame};

use crate::{State, frames};

#[derive(Drop)]
pub struct Reader<'a> {
    pub state: State,
    pub stack: &'a mut [u32],
    pub words: &'a mut [i32],
}

impl Reader<'_> {
    // The frame on top.
    pub fn top_frame(&self) -> usize
        ensures { result ≡ top_frame self.now.stack.now self.now.state.top }
    {
        let top = self.state.top;
        frames::top_frame(self.stack, top)
    }
}
