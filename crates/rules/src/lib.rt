// The types of the calls, by value: what goes in and what comes back. The rules of the calls are in specs/.
// Header and key have C's layout, since the answers of the C surface hold them.
#![tactic(auto)]

ghost use Rattle.std.specs.Prelude.{◌≡◌, Err};
ghost use Rattle.rules.specs.Words.{zero_row};
ghost use Rattle.rules.specs.Refusals.{number_of};

pub mod steps;

use std::error::Error;
use std::fmt;

// The most slots that may be lent; the link words of a slot; the words of its row.
pub const LIMIT: usize = 4096;

pub const LINK_WORDS: usize = 4;

pub const ROW_WORDS: usize = 8;

// Why a call is turned down, with its number.
#[derive(Clone, Copy, Debug, PartialEq, Eq)]
pub enum Refusal {
    Shape = 1,
    Damaged = 2,
    EvenVersion = 3,
    NotLive = 4,
    Full = 5,
    StaleCursor = 6,
    WrongPresence = 7,
    ZeroOccupied = 8,
    BrokenStream = 9,
}

impl From<Refusal> for u32 {
    ghost from_gives = { λ refusal number. number ≡ number_of refusal };

    fn from(refusal: Refusal) -> u32 {
        refusal as u32
    }
}

impl fmt::Display for Refusal {
    fn fmt<W: fmt::Write>(&self, f: &mut fmt::Formatter<W>) -> fmt::Result {
        f.write_str(match self {
            Refusal::Shape => {
                "the tables do not fit each other, the header or the side buffer: lend 4 link words and 8 row words for each of 1 to 4096 slots"
            }
            Refusal::Damaged => "the table is damaged: read out what is live and rebuild it",
            Refusal::EvenVersion => "the key has an even version: none such is ever handed out",
            Refusal::NotLive =>
                "the key is not live: its row was removed, or it is not of this map",
            Refusal::Full => "no slot is left: remove a row, or lend larger tables",
            Refusal::StaleCursor => {
                "the cursor is stale, since a row was removed during the walk: start it again at 0"
            }
            Refusal::WrongPresence => {
                "a presence byte is not the lowest bit of its slot's version: give 1 for an odd version, 0 for an even one"
            }
            Refusal::ZeroOccupied => {
                "slot 0 was said to be occupied: it heads the chain and never is"
            }
            Refusal::BrokenStream => {
                "the command is unknown or its body was cut short: the program has ended there"
            }
        })
    }
}

impl Error for Refusal {}

// Slots in use, slot 0 included, and rows live.
#[repr(C)]
#[derive(Clone, Copy, Debug, PartialEq, Eq)]
pub struct Header {
    pub used: u32,
    pub live: u32,
}

#[repr(C)]
#[derive(Clone, Copy, Debug, PartialEq, Eq)]
pub struct Key {
    pub index: u32,
    pub version: u32,
}

// Where a walk stands: any number, 0 at its start.
pub type Cursor = u32;

// The eight words of a slot's row, by value.
pub type Row = [u32; ROW_WORDS];

// What the hop step finds: a key with the cursor to go on from, or that the walk is done.
#[derive(Clone, Copy, Debug, PartialEq, Eq)]
pub enum HopAnswer {
    Visited(Key, Cursor),
    Done,
}

// What the drain step finds.
#[derive(Clone, Copy, Debug, PartialEq, Eq)]
pub enum DrainAnswer {
    Keyed(Key),
    Done,
}

// What a call hands back: what it gives or why it is refused, and the header to go on with.
#[derive(Drop)]
pub struct Handed<T> {
    pub answer: Result<T, Refusal>,
    pub header: Header,
}

impl<T> Handed<T> {
    // A refusal hands back the header that it was given.
    pub fn refused(refusal: Refusal, header: Header) -> Self
        ensures { result ≡ record { answer = Err refusal; header = header } }
    {
        Handed {
            answer: Err(refusal),
            header,
        }
    }
}

// The same of a call that takes a row out: the row that was there, zero where none was.
#[derive(Drop)]
pub struct HandedRow<T> {
    pub answer: Result<T, Refusal>,
    pub row: Row,
    pub header: Header,
}

impl<T> HandedRow<T> {
    // A refusal hands back no row, and the header that it was given.
    pub fn refused(refusal: Refusal, header: Header) -> Self
        ensures { result ≡ record { answer = Err refusal; row = zero_row; header = header } }
    {
        HandedRow {
            answer: Err(refusal),
            row: [0; ROW_WORDS],
            header,
        }
    }
}
