// Words as bytes, low byte first, read out of a body.
ghost use Rattle.std.specs.Prelude.{◌≡◌, ◌+◌, ◌≤◌};
ghost use Rattle.wire.specs.Words.{word_at, key_in, row_in};

use crate::Body;
use rules::{Key, Row};
use std::array;

// The word whose low byte is byte a of the body.
#[tactic(auto, unfolding(crate::specs::Words::word_at))]
fn word(body: &Body, a: usize) -> u32
    requires { a + 4 ≤ 32 }
    ensures { result ≡ word_at body.now a }
{
    u32::from_le_bytes([body[a], body[a + 1], body[a + 2], body[a + 3]])
}

// The key in a body.
#[tactic(auto, unfolding(crate::specs::Words::key_in))]
pub fn key_in(body: &Body) -> Key
    ensures { result ≡ key_in body.now }
{
    Key {
        index: word(body, 0),
        version: word(body, 4),
    }
}

// The row in a body.
#[tactic(auto, unfolding(crate::specs::Words::row_in))]
pub fn row_in(body: &Body) -> Row
    ensures { result ≡ row_in body.now }
{
    array::from_fn(|k| word(body, 4 * k))
}
