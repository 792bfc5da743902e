// The bytes of the command stream: the kinds of commands, words as bytes, and what may be replied, which the crate replies writes.
#![tactic(auto)]

ghost use Rattle.std.specs.Prelude.{◌≡◌};
ghost use Rattle.rules.specs.Refusals.{number_of};
ghost use Rattle.wire.specs.declared.Saying.{Saying};

mod kinds;
pub mod words;

use rules::{Key, Refusal};

// What a command's first byte asks for.
#[derive(Clone, Copy, Debug, PartialEq, Eq)]
pub enum Command {
    Insert,
    Remove,
    Look,
    Clear,
    Walk,
    Unknown,
}

// The bytes of the longest body, a row.
pub const BODY_BYTES: usize = 32;

// The bytes of a command's body, as far as they have come.
pub type Body = [u8; BODY_BYTES];

// The bytes of the longest reply, one with key and row.
pub const LONGEST: usize = 41;

// What a reply's first byte tells.
#[derive(Clone, Copy, Debug, PartialEq, Eq)]
pub enum ReplyKind {
    Key = 129,
    Row = 130,
    Done = 131,
    Refused = 132,
}

// What is replied: nothing, a key, a key with the row that stands beside this, done, or a number.
#[derive(Clone, Copy, Debug, PartialEq, Eq)]
pub enum Saying {
    Silent,
    WithKey(Key),
    WithRow(Key),
    Done,
    Refused(u32),
}

// A refusal is said by its number.
impl From<Refusal> for Saying {
    ghost from_gives = { λ refusal saying. saying ≡ Saying.Refused (number_of refusal) };

    fn from(refusal: Refusal) -> Saying {
        Saying::Refused(u32::from(refusal))
    }
}
