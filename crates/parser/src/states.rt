// What a move leaves of a state.

ghost use Rattle.std.specs.Prelude.{◌≡◌};
ghost use Rattle.parser.specs.Machine.{refused as Machine·refused, complete as Machine·complete, due as Machine·due, noted as Machine·noted, kept as Machine·kept, counted as Machine·counted, with_bodies, with_rows};

use crate::{AFTER, NOWHERE, REFUSED, State, symbols};

pub fn refused(s: State, place: usize) -> State
    ensures { result ≡ Machine·refused s place }
{
    State {
        mode: REFUSED,
        place,
        ..s
    }
}

// A part is complete.
pub fn complete(s: State, sort: usize, rows: usize, top: usize) -> State
    ensures { result ≡ Machine·complete s sort rows top }
{
    State {
        mode: AFTER,
        sort,
        rows,
        top,
        ..s
    }
}

pub fn due(s: State, mode: usize, top: usize) -> State
    ensures { result ≡ Machine·due s mode top }
{
    State { mode, top, ..s }
}

// The place of the first number that is out of range is kept.
pub fn noted(s: State, in_range: bool, place: usize) -> State
    ensures { result ≡ Machine·noted s in_range place }
{
    if in_range || s.out != NOWHERE {
        s
    } else {
        State { out: place, ..s }
    }
}

// A number that is out of range is read as 0: its text has no rows.
pub fn kept(in_range: bool, n: usize) -> usize
    ensures { result ≡ Machine·kept in_range n }
{
    if in_range { n } else { 0 }
}

// The k of a mark is complete.
pub fn counted(s: State, k: usize) -> State
    ensures { result ≡ Machine·counted s k }
{
    State {
        mode: AFTER,
        sort: symbols::NUMBER,
        number: k,
        ..s
    }
}

pub fn with_bodies(s: State, bodies: usize) -> State
    ensures { result ≡ with_bodies s bodies }
{
    State { bodies, ..s }
}

pub fn with_rows(s: State, rows: usize) -> State
    ensures { result ≡ with_rows s rows }
{
    State { rows, ..s }
}
