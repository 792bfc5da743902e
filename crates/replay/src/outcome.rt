// What a call answers, and how that is told.
ghost use Rattle.std.specs.Prelude.{◌≡◌};

use hop::{Cursor, DrainAnswer, Handed, HandedRow, Header, HopAnswer, Key, Refusal, Row};
use std::fmt;

// What each call gives, or the number that it is refused with.
#[derive(Clone, Copy, Debug, PartialEq, Eq)]
pub(crate) enum Outcome {
    Done,
    Refused(u32),
    Count(u32),
    Key(Key),
    Visit(Key, Cursor),
    Row(Key, Row),
    // look_mut left other rows than it may: no list has it.
    WroteElsewhere,
}

impl From<()> for Outcome {
    fn from(_done: ()) -> Outcome {
        Outcome::Done
    }
}

impl From<u32> for Outcome {
    fn from(count: u32) -> Outcome {
        Outcome::Count(count)
    }
}

impl From<Key> for Outcome {
    fn from(key: Key) -> Outcome {
        Outcome::Key(key)
    }
}

impl From<HopAnswer> for Outcome {
    fn from(answer: HopAnswer) -> Outcome {
        match answer {
            HopAnswer::Visited(key, cursor) => Outcome::Visit(key, cursor),
            HopAnswer::Done => Outcome::Done,
        }
    }
}

impl From<(Key, Row)> for Outcome {
    fn from((key, row): (Key, Row)) -> Outcome {
        Outcome::Row(key, row)
    }
}

impl From<(DrainAnswer, Row)> for Outcome {
    fn from((answer, row): (DrainAnswer, Row)) -> Outcome {
        match answer {
            DrainAnswer::Keyed(key) => Outcome::Row(key, row),
            DrainAnswer::Done => Outcome::Done,
        }
    }
}

impl<T: Into<Outcome>> From<Result<T, Refusal>> for Outcome {
    fn from(answer: Result<T, Refusal>) -> Outcome {
        match answer {
            Ok(given) => given.into(),
            Err(refusal) => Outcome::Refused(u32::from(refusal)),
        }
    }
}

impl fmt::Display for Outcome {
    fn fmt<W: fmt::Write>(&self, f: &mut fmt::Formatter<W>) -> fmt::Result {
        match self {
            Outcome::Done => f.write_str("done"),
            Outcome::Refused(number) => write!(f, "refused{}", Spaced(&[*number])),
            Outcome::Count(count) => write!(f, "count{}", Spaced(&[*count])),
            Outcome::Key(key) => write!(f, "key{}", Spaced(&[key.index, key.version])),
            Outcome::Visit(key, cursor) => {
                write!(f, "visit{}", Spaced(&[key.index, key.version, *cursor]))
            }
            Outcome::Row(key, row) => {
                write!(f, "row{}{}", Spaced(&[key.index, key.version]), Spaced(row))
            }
            Outcome::WroteElsewhere => f.write_str("wrote_elsewhere"),
        }
    }
}

// An outcome, and the header that the call handed back.
#[derive(Clone, Copy, Debug, PartialEq, Eq)]
pub(crate) struct Told {
    pub(crate) outcome: Outcome,
    pub(crate) header: Header,
}

impl Told {
    pub(crate) fn new(outcome: Outcome, header: Header) -> Told
        ensures { result ≡ record { outcome = outcome; header = header } }
    {
        Told { outcome, header }
    }
}

impl<T: Into<Outcome>> From<Handed<T>> for Told {
    fn from(handed: Handed<T>) -> Told {
        let Handed { answer, header } = handed;
        Told::new(Outcome::from(answer), header)
    }
}

// The row goes with what is given.
impl<T> From<HandedRow<T>> for Told
where
    (T, Row): Into<Outcome>,
{
    fn from(handed: HandedRow<T>) -> Told {
        let HandedRow {
            answer,
            row,
            header,
        } = handed;
        Told::new(Outcome::from(answer.map(|given| (given, row))), header)
    }
}

impl fmt::Display for Told {
    fn fmt<W: fmt::Write>(&self, f: &mut fmt::Formatter<W>) -> fmt::Result {
        let Header { used, live } = self.header;
        write!(f, "{} |{}", self.outcome, Spaced(&[used, live]))
    }
}

// Words, each after a space.
#[derive(Clone, Copy)]
pub(crate) struct Spaced<'a>(pub(crate) &'a [u32]);

impl fmt::Display for Spaced<'_> {
    fn fmt<W: fmt::Write>(&self, f: &mut fmt::Formatter<W>) -> fmt::Result {
        for word in self.0 {
            write!(f, " {word}")?;
        }
        Ok(())
    }
}
