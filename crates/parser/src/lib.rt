// The reader of a script's tokens: an automaton with a stack of frames, which takes one token at a time and writes a row when
// a part is complete, so that parts stand before their parent, left to right. It refuses a token where no text goes on with it.

#![tactic(auto)]

mod symbols; // what is known of frames and of tokens
mod frames; // the stack
mod rows; // the rows
mod sorts; // which sorts fit
mod states; // what a move leaves
mod reader; // what reads
mod begin; // a token where a part begins
mod after; // a token after a part

ghost use Rattle.std.specs.Prelude.{◌≡◌};
ghost use Rattle.parser.specs.Readers.{machine, SameRuns};
ghost use Rattle.parser.specs.Machine.{config, at_post, expect as Machine·expect, take_part, take_after, take as Machine·take};

use reader::Reader;
use scanner::tokens;

// What is due: a part; what goes on after a part; an opening bracket; `:=`; nothing, since a token was refused. No enum, and no Option
// for `FULL` and `NOWHERE`: `take` takes a state with any numbers, and `Control` and `Data` (`Encoding` in `parsing`) speak of these.
pub const PART: usize = 0;

pub const AFTER: usize = 1;

pub const BRACKET: usize = 2;

pub const BECOMES: usize = 3;

pub const REFUSED: usize = 4;

// The count of rows once there is no room for one.
pub const FULL: usize = 4095;

// No place of a text.
pub const NOWHERE: usize = 65535;

#[derive(Clone, Copy)]
pub struct State {
    pub mode: usize,
    // after a part: its sort
    pub sort: usize,
    // after the k of a mark: k
    pub number: usize,
    // loops whose body is open
    pub bodies: usize,
    // rows written
    pub rows: usize,
    // frames on the stack
    pub top: usize,
    // the place of the first number out of range
    pub out: usize,
    // the place of the token that was refused
    pub place: usize,
}

impl Reader<'_> {
    // Post, where the operator that waits is a semicolon: that is given up.
    #[tactic(auto, unfolding(crate::specs::Machine::at_post))]
    fn at_post(&mut self, place: usize)
        ensures moves { machine self.new ≡ at_post (machine self.old) place }
        ensures lent { SameRuns self.old self.new }
    {
        let s = self.state;
        if self.top_frame() % 64 == symbols::SEMICOLON {
            self.state = states::complete(s, symbols::STATEMENT, s.rows, s.top.saturating_sub(1));
            self.after(tokens::POST, place);
        } else {
            self.state = states::refused(s, place);
        }
    }

    // A token of which only one is due.
    #[tactic(auto, unfolding(crate::specs::Machine::expect))]
    fn expect(&mut self, token: usize, due: usize, place: usize)
        ensures moves { machine self.new ≡ Machine·expect (machine self.old) token due place }
        ensures lent { SameRuns self.old self.new }
    {
        let s = self.state;
        self.state = if token == due {
            states::due(s, PART, s.top)
        } else {
            states::refused(s, place)
        };
    }

    #[tactic(auto, unfolding(crate::specs::Machine::take_part))]
    fn take_part(&mut self, token: usize, value: usize, place: usize)
        ensures moves { machine self.new ≡ take_part (machine self.old) token value place }
        ensures lent { SameRuns self.old self.new }
    {
        if token == tokens::POST {
            self.at_post(place);
        } else {
            self.begin(token, value, place);
        }
    }

    #[tactic(auto, unfolding(crate::specs::Machine::take_after))]
    fn take_after(&mut self, token: usize, place: usize)
        ensures moves { machine self.new ≡ take_after (machine self.old) token place }
        ensures lent { SameRuns self.old self.new }
    {
        if token == tokens::POST {
            self.state = states::refused(self.state, place);
        } else {
            self.after(token, place);
        }
    }

    // Once a token was refused, nothing changes.
    #[tactic(auto, unfolding(crate::specs::Machine::take))]
    fn take(&mut self, token: usize, value: usize, place: usize)
        ensures moves { machine self.new ≡ Machine·take (machine self.old) token value place }
        ensures lent { SameRuns self.old self.new }
    {
        match self.state.mode {
            PART => self.take_part(token, value, place),
            AFTER => self.take_after(token, place),
            BRACKET => self.expect(token, tokens::OPEN, place),
            BECOMES => self.expect(token, tokens::BECOMES, place),
            _ => {}
        }
    }
}

// Takes a token with its value, at a place; once one was refused, nothing changes.
pub fn take(
    stack: &mut [u32],
    words: &mut [i32],
    s: State,
    token: usize,
    value: usize,
    place: usize,
) -> State
    ensures state { result ≡ (Machine·take (config s stack.old words.old) token value place).state }
    ensures stack { stack.new ≡ (Machine·take (config s stack.old words.old) token value place).stack }
    ensures words { words.new ≡ (Machine·take (config s stack.old words.old) token value place).words }
{
    let mut reader = Reader {
        state: s,
        stack,
        words,
    };
    reader.take(token, value, place);
    reader.state
}
