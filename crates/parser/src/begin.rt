// A token where a part begins.

ghost use Rattle.std.specs.Prelude.{◌≡◌};
ghost use Rattle.grammar.specs.Ranges.{limit};
ghost use Rattle.parser.specs.Readers.{machine, SameRuns};
ghost use Rattle.parser.specs.Machine.{begin_count, constant_word, begin_constant, begin_numeral, begin_variable, begin_assignment, begin_name, due_after, begin_leaf, begin_form, begin_word};
ghost use Rattle.parser.specs.Machine.{opened as Machine·opened, begin as Machine·begin};

use crate::frames::{frame, put};
use crate::reader::Reader;
use crate::rows::{write_constant, write_row};
use crate::sorts::begins;
use crate::states::{complete, counted, due, kept, noted, refused};
use crate::symbols::{beginning, hole};
use crate::{BECOMES, BRACKET, PART, State, symbols};
use scanner::tokens;
use script::{Kind, VARIABLES};

// The k of a mark, which may be as large as there are bodies around.
#[tactic(auto, unfolding(crate::specs::Machine::begin_count))]
fn begin_count(s: State, k: usize, place: usize) -> State
    ensures { result ≡ begin_count s k place }
{
    let in_range = 1 <= k && k <= s.bodies;
    counted(noted(s, in_range, place), kept(in_range, k))
}

// The largest constant, after a unary minus or elsewhere.
fn largest(minus: bool) -> usize
    ensures { result ≡ limit minus }
{
    if minus { 2147483648 } else { 2147483647 }
}

fn constant_word(minus: bool, n: usize) -> i32
    ensures { result ≡ constant_word minus n }
{
    if largest(minus) < n {
        return 0;
    }
    let value = n as i64;
    (if minus { -value } else { value }) as i32
}

// The frame that a token opens where a part with this letter is due.
fn opened(token: usize, h: usize) -> usize
    ensures { result ≡ Machine·opened token h }
{
    match token {
        tokens::MINUS => symbols::NEGATE,
        tokens::WHEN => symbols::WHEN_FIRST,
        tokens::IF => symbols::IF_GUARD,
        tokens::WHILE => symbols::WHILE_GUARD,
        tokens::PRE => symbols::PRECONDITION,
        tokens::OPEN => {
            if h == symbols::EXPRESSION {
                symbols::EXPRESSION_GROUP
            } else {
                symbols::GROUP
            }
        }
        _ => token,
    }
}

// What is due after a token that opens a form.
fn due_after(token: usize) -> usize
    ensures { result ≡ due_after token }
{
    match token {
        tokens::MARK | tokens::WHEN => BRACKET,
        _ => PART,
    }
}

impl Reader<'_> {
    // A constant; right after a unary minus, whose frame goes.
    #[tactic(auto, unfolding(crate::specs::Machine::begin_constant))]
    fn begin_constant(&mut self, minus: bool, n: usize, place: usize)
        ensures moves { machine self.new ≡ begin_constant (machine self.old) minus n place }
        ensures lent { SameRuns self.old self.new }
    {
        let s = self.state;
        let rows = write_constant(self.words, s.rows, constant_word(minus, n));
        let next = noted(s, n <= largest(minus), place);
        let top = if minus {
            s.top.saturating_sub(1)
        } else {
            s.top
        };
        self.state = complete(next, symbols::EXPRESSION, rows, top);
    }

    #[tactic(auto, unfolding(crate::specs::Machine::begin_numeral))]
    fn begin_numeral(&mut self, n: usize, place: usize)
        ensures moves { machine self.new ≡ begin_numeral (machine self.old) n place }
        ensures lent { SameRuns self.old self.new }
    {
        let s = self.state;
        let top = self.top_frame();
        let h = hole(top);
        if h == symbols::NUMBER {
            self.state = begin_count(s, n, place);
        } else if begins(h, symbols::EXPRESSION) {
            self.begin_constant(top % 64 == symbols::NEGATE, n, place);
        } else {
            self.state = refused(s, place);
        }
    }

    #[tactic(auto, unfolding(crate::specs::Machine::begin_variable))]
    fn begin_variable(&mut self, v: usize, place: usize)
        ensures moves { machine self.new ≡ begin_variable (machine self.old) v place }
        ensures lent { SameRuns self.old self.new }
    {
        let s = self.state;
        let in_range = v < VARIABLES;
        let variable = kept(in_range, v);
        let rows = write_row(self.words, s.rows, Kind::Variable as usize, variable, 0, 0);
        self.state = complete(noted(s, in_range, place), symbols::EXPRESSION, rows, s.top);
    }

    #[tactic(auto, unfolding(crate::specs::Machine::begin_assignment))]
    fn begin_assignment(&mut self, v: usize, place: usize)
        ensures moves { machine self.new ≡ begin_assignment (machine self.old) v place }
        ensures lent { SameRuns self.old self.new }
    {
        let s = self.state;
        let in_range = v < VARIABLES;
        let top = put(
            self.stack,
            s.top,
            frame(symbols::ASSIGN, kept(in_range, v), 0),
        );
        self.state = due(noted(s, in_range, place), BECOMES, top);
    }

    #[tactic(auto, unfolding(crate::specs::Machine::begin_name))]
    fn begin_name(&mut self, v: usize, place: usize)
        ensures moves { machine self.new ≡ begin_name (machine self.old) v place }
        ensures lent { SameRuns self.old self.new }
    {
        let h = hole(self.top_frame());
        if h == symbols::STATEMENT {
            self.begin_assignment(v, place);
        } else if begins(h, symbols::EXPRESSION) {
            self.begin_variable(v, place);
        } else {
            self.state = refused(self.state, place);
        }
    }

    #[tactic(auto, unfolding(crate::specs::Machine::begin_leaf))]
    fn begin_leaf(&mut self, token: usize)
        ensures moves { machine self.new ≡ begin_leaf (machine self.old) token }
        ensures lent { SameRuns self.old self.new }
    {
        let s = self.state;
        let rows = write_row(self.words, s.rows, token, 0, 0, 0);
        self.state = complete(s, beginning(token), rows, s.top);
    }

    #[tactic(auto, unfolding(crate::specs::Machine::begin_form))]
    fn begin_form(&mut self, token: usize)
        ensures moves { machine self.new ≡ begin_form (machine self.old) token }
        ensures lent { SameRuns self.old self.new }
    {
        let s = self.state;
        let h = hole(self.top_frame());
        let top = put(self.stack, s.top, frame(opened(token, h), 0, 0));
        self.state = due(s, due_after(token), top);
    }

    #[tactic(auto, unfolding(crate::specs::Machine::begin_word))]
    fn begin_word(&mut self, token: usize, place: usize)
        ensures moves { machine self.new ≡ begin_word (machine self.old) token place }
        ensures lent { SameRuns self.old self.new }
    {
        let h = hole(self.top_frame());
        if !begins(h, beginning(token)) {
            self.state = refused(self.state, place);
        } else if matches!(token, tokens::TRUE | tokens::FALSE | tokens::SKIP) {
            self.begin_leaf(token);
        } else {
            self.begin_form(token);
        }
    }

    #[tactic(auto, unfolding(crate::specs::Machine::begin))]
    pub fn begin(&mut self, token: usize, value: usize, place: usize)
        ensures moves { machine self.new ≡ Machine·begin (machine self.old) token value place }
        ensures lent { SameRuns self.old self.new }
    {
        match token {
            tokens::NUMERAL => self.begin_numeral(value, place),
            tokens::VARIABLE => self.begin_name(value, place),
            _ => self.begin_word(token, place),
        }
    }
}
