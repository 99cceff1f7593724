// A token after a part.

ghost use Rattle.std.specs.Prelude.{◌≡◌};
ghost use Rattle.parser.specs.Readers.{machine, SameRuns};
ghost use Rattle.parser.specs.Machine.{form_kind, bodies_after, close_form, close_mark, open_body, next_place, push_infix, go_on};
ghost use Rattle.parser.specs.Machine.{reduce as Machine·reduce, close as Machine·close, after as Machine·after};

use crate::frames::{first_part, frame, put, second_part, top_frame};
use crate::reader::Reader;
use crate::rows::{write_operator, write_row};
use crate::sorts::{begins, fits};
use crate::states::{complete, due, refused, with_bodies, with_rows};
use crate::symbols::{binding, closing, end_of, hold, hole, maker, operand_sort};
use crate::{PART, symbols};
use script::Kind;

// What is left when operators have taken a part: its sort, rows written, frames.
#[derive(Clone, Copy)]
pub struct Reduction {
    pub sort: usize,
    pub rows: usize,
    pub top: usize,
}

// Operators that hold the part at least so tight take it, and their rows are written. The sort 0 says that one did not fit.
#[tactic(auto, using(crate::proofs::Laws::reducing), unfolding(crate::specs::Machine::reduce))]
fn reduce(stack: &[u32], words: &mut [i32], tight: u8, start: Reduction) -> Reduction
    ensures sort { result.sort ≡ (Machine·reduce stack.now tight start.top start.sort start.rows words.old).sort }
    ensures rows { result.rows ≡ (Machine·reduce stack.now tight start.top start.sort start.rows words.old).rows }
    ensures top { result.top ≡ (Machine·reduce stack.now tight start.top start.sort start.rows words.old).top }
    ensures words { words.new ≡ (Machine·reduce stack.now tight start.top start.sort start.rows words.old).words }
{
    let mut sort = start.sort;
    let mut rows = start.rows;
    let mut top = start.top;
    while 0 < top {
        let f = top_frame(stack, top);
        if hold(f) < tight {
            break;
        }
        if sort != hole(f) {
            return Reduction { sort: 0, rows, top };
        }
        rows = write_operator(words, rows, f);
        sort = maker(f);
        top -= 1;
    }
    Reduction { sort, rows, top }
}

// The kind of the row of a form whose last place this is.
fn form_kind(place: usize) -> usize
    ensures { result ≡ form_kind place }
{
    match place {
        symbols::WHEN_THIRD => Kind::Choose as usize,
        symbols::IF_ELSE => Kind::If as usize,
        symbols::WHILE_BODY => Kind::While as usize,
        _ => Kind::Script as usize,
    }
}

// A body is closed with its loop.
fn bodies_after(place: usize, bodies: usize) -> usize
    ensures { result ≡ bodies_after place bodies }
{
    if place == symbols::WHILE_BODY {
        bodies.saturating_sub(1)
    } else {
        bodies
    }
}

impl Reader<'_> {
    #[tactic(auto, unfolding(crate::specs::Machine::close_form))]
    fn close_form(&mut self, f: usize)
        ensures moves { machine self.new ≡ close_form (machine self.old) f }
        ensures lent { SameRuns self.old self.new }
    {
        let s = self.state;
        let place = f % 64;
        let rows = write_row(
            self.words,
            s.rows,
            form_kind(place),
            first_part(f),
            second_part(f),
            s.rows.saturating_sub(1),
        );
        let next = with_bodies(s, bodies_after(place, s.bodies));
        self.state = complete(next, maker(f), rows, s.top.saturating_sub(1));
    }

    #[tactic(auto, unfolding(crate::specs::Machine::close_mark))]
    fn close_mark(&mut self)
        ensures moves { machine self.new ≡ close_mark (machine self.old) }
        ensures lent { SameRuns self.old self.new }
    {
        let s = self.state;
        let rows = write_row(self.words, s.rows, Kind::Mark as usize, s.number, 0, 0);
        self.state = complete(s, symbols::EXPRESSION, rows, s.top.saturating_sub(1));
    }

    // The note is written, and the body begins.
    #[tactic(auto, unfolding(crate::specs::Machine::open_body))]
    fn open_body(&mut self, f: usize)
        ensures moves { machine self.new ≡ open_body (machine self.old) f }
        ensures lent { SameRuns self.old self.new }
    {
        let s = self.state;
        let rows = write_row(
            self.words,
            s.rows,
            Kind::Note as usize,
            second_part(f),
            s.rows.saturating_sub(1),
            0,
        );
        let top = put(
            self.stack,
            s.top.saturating_sub(1),
            frame(symbols::WHILE_BODY, first_part(f), rows.saturating_sub(1)),
        );
        let next = with_bodies(s, s.bodies % 65536 + 1);
        self.state = due(with_rows(next, rows), PART, top);
    }

    #[tactic(auto, unfolding(crate::specs::Machine::next_place))]
    fn next_place(&mut self, f: usize)
        ensures moves { machine self.new ≡ next_place (machine self.old) f }
        ensures lent { SameRuns self.old self.new }
    {
        let s = self.state;
        let top = put(
            self.stack,
            s.top.saturating_sub(1),
            frame(f % 64 + 1, second_part(f), s.rows.saturating_sub(1)),
        );
        self.state = due(s, PART, top);
    }

    // The part at a place is complete.
    #[tactic(auto, unfolding(crate::specs::Machine::close))]
    fn close(&mut self, f: usize)
        ensures moves { machine self.new ≡ Machine·close (machine self.old) f }
        ensures lent { SameRuns self.old self.new }
    {
        let s = self.state;
        match f % 64 {
            symbols::GROUP | symbols::EXPRESSION_GROUP => {
                self.state = complete(s, s.sort, s.rows, s.top.saturating_sub(1));
            }
            symbols::IN_MARK => self.close_mark(),
            symbols::WHEN_THIRD | symbols::IF_ELSE | symbols::WHILE_BODY | symbols::POSTCONDITION =>
                self.close_form(f),
            symbols::WHILE_FALL => self.open_body(f),
            _ => self.next_place(f),
        }
    }

    #[tactic(auto, unfolding(crate::specs::Machine::push_infix))]
    fn push_infix(&mut self, token: usize)
        ensures moves { machine self.new ≡ push_infix (machine self.old) token }
        ensures lent { SameRuns self.old self.new }
    {
        let s = self.state;
        let top = put(self.stack, s.top, frame(token, s.rows.saturating_sub(1), 0));
        self.state = due(s, PART, top);
    }

    // What the token does to the part that operators have left.
    #[tactic(auto, unfolding(crate::specs::Machine::go_on))]
    fn go_on(&mut self, token: usize, place: usize)
        ensures moves { machine self.new ≡ go_on (machine self.old) token place }
        ensures lent { SameRuns self.old self.new }
    {
        let s = self.state;
        let f = self.top_frame();
        if operand_sort(token) == s.sort {
            if begins(hole(f), maker(token)) {
                self.push_infix(token);
            } else {
                self.state = refused(s, place);
            }
        } else if end_of(f) == closing(token) && fits(hole(f), s.sort) {
            self.close(f);
        } else {
            self.state = refused(s, place);
        }
    }

    #[tactic(auto, unfolding(crate::specs::Machine::after))]
    pub fn after(&mut self, token: usize, place: usize)
        ensures moves { machine self.new ≡ Machine·after (machine self.old) token place }
        ensures lent { SameRuns self.old self.new }
    {
        let s = self.state;
        let part = Reduction {
            sort: s.sort,
            rows: s.rows,
            top: s.top,
        };
        let stack = &mut *self.stack;
        let left = reduce(stack, self.words, binding(token), part);
        self.state = complete(s, left.sort, left.rows, left.top);
        self.go_on(token, place);
    }
}
