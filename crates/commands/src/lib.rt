// The commands of the stream: what each does over the map, and what is said of it.
#![tactic(auto)]

mod turns;

use hop::{Cursor, Header, Row};
pub use turns::{calm, command_turn, walk_turn};
use wire::{Body, Command, Saying};

// Where the stream stands: before a kind; in a body of which so many bytes have come; in a walk, at a cursor; at its end.
#[derive(Clone, Copy)]
pub enum Phase {
    Between,
    Gathering(Command, u32),
    Walking(Cursor),
    Ended,
}

// The state of a stream: all that is kept from one piece to the next, but for the tables.
#[derive(Clone, Copy)]
pub struct Stream {
    pub header: Header,
    pub phase: Phase,
    pub body: Body,
}

// What one turn leaves and says; the row beside it counts where it is said.
#[derive(Drop)]
pub struct Turn {
    pub stream: Stream,
    pub saying: Saying,
    pub row: Row,
}
