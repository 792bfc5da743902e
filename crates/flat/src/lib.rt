// The one struct that every call of the C surface answers, and how each answer of the map is written in it. What a case does not name is zero.
#![tactic(auto)]

ghost use Rattle.std.specs.Prelude.{◌≡◌};
ghost use Rattle.rules.specs.Words.{zero_row};
ghost use Rattle.rules.specs.Refusals.{number_of};
ghost use Rattle.rules.specs.Values.{Values, keyed, visited, counted, done, refused, found_by_hop, found_by_drain, answered};
ghost use Rattle.flat.specs.Flat.{flat_of};

use rules::{
    Cursor, DrainAnswer, Handed, HandedRow, Header, HopAnswer, Key, ROW_WORDS, Refusal, Row,
};

// The version of the struct's layout: another one when it grows.
pub const LAYOUT: u32 = 1;

// The kinds, as C reads them.
pub const ANSWER: u32 = 0;

pub const DONE: u32 = 1;

pub const REFUSED: u32 = 2;

#[repr(C)]
#[derive(Drop)]
pub struct Answer {
    pub layout: u32,
    pub kind: u32,
    pub number: u32,
    pub key: Key,
    pub cursor: Cursor,
    pub count: u32,
    pub row: Row,
    pub header: Header,
}

// Every other case is this one with what it names.
fn ended(row: Row, header: Header) -> Answer
    ensures { result ≡ flat_of done row header }
{
    Answer {
        layout: LAYOUT,
        kind: DONE,
        number: 0,
        key: Key {
            index: 0,
            version: 0,
        },
        cursor: 0,
        count: 0,
        row,
        header,
    }
}

fn visiting(key: Key, cursor: Cursor, row: Row, header: Header) -> Answer
    ensures { result ≡ flat_of (visited key cursor) row header }
{
    Answer {
        kind: ANSWER,
        key,
        cursor,
        ..ended(row, header)
    }
}

fn counting(count: u32, row: Row, header: Header) -> Answer
    ensures { result ≡ flat_of (counted count) row header }
{
    Answer {
        kind: ANSWER,
        count,
        ..ended(row, header)
    }
}

fn refusing(refusal: Refusal, row: Row, header: Header) -> Answer
    ensures { result ≡ flat_of (refused (number_of refusal)) row header }
{
    Answer {
        kind: REFUSED,
        number: u32::from(refusal),
        ..ended(row, header)
    }
}

// What a call gives where it is not refused, and how that is written.
pub trait Given {
    ghost values: { Self → Values };

    fn written(self, row: Row, header: Header) -> Answer
        ensures { result ≡ flat_of (values self) row header };
}

impl Given for () {
    ghost values = { λ _. done };

    fn written(self, row: Row, header: Header) -> Answer {
        ended(row, header)
    }
}

impl Given for Key {
    ghost values = { keyed };

    fn written(self, row: Row, header: Header) -> Answer {
        visiting(self, 0, row, header)
    }
}

// A count.
impl Given for u32 {
    ghost values = { counted };

    fn written(self, row: Row, header: Header) -> Answer {
        counting(self, row, header)
    }
}

impl Given for HopAnswer {
    ghost values = { found_by_hop };

    fn written(self, row: Row, header: Header) -> Answer {
        match self {
            HopAnswer::Visited(key, cursor) => visiting(key, cursor, row, header),
            HopAnswer::Done => ended(row, header),
        }
    }
}

impl Given for DrainAnswer {
    ghost values = { found_by_drain };

    fn written(self, row: Row, header: Header) -> Answer {
        match self {
            DrainAnswer::Keyed(key) => visiting(key, 0, row, header),
            DrainAnswer::Done => ended(row, header),
        }
    }
}

impl<T: Given> From<HandedRow<T>> for Answer {
    ghost from_gives = { λ x result. result ≡ flat_of (answered T.values x.answer) x.row x.header };

    fn from(handed: HandedRow<T>) -> Answer {
        let HandedRow {
            answer,
            row,
            header,
        } = handed;
        match answer {
            Ok(given) => given.written(row, header),
            Err(refusal) => refusing(refusal, row, header),
        }
    }
}

impl<T: Given> From<Handed<T>> for Answer {
    ghost from_gives = { λ x result. result ≡ flat_of (answered T.values x.answer) zero_row x.header };

    fn from(handed: Handed<T>) -> Answer {
        let Handed { answer, header } = handed;
        Answer::from(HandedRow {
            answer,
            row: [0; ROW_WORDS],
            header,
        })
    }
}
