// The command stream, fed in pieces of any size: the state goes in and comes back by value, tables, input and output are lent.
#![tactic(auto)]

mod feeding;
mod refusing;

pub use commands::{Phase, Stream};
pub use feeding::{feed, finish};
pub use hearing::opened;
pub use wire::LONGEST;

// What a piece that was fed hands back: the bytes taken of the input and written to the output, and the state to go on with. Waits where something
// is left to do, since fewer than LONGEST bytes of the output are left: another call, with the rest of the input, goes on.
#[derive(Clone, Copy)]
pub struct Fed {
    pub taken: usize,
    pub written: usize,
    pub waits: bool,
    pub stream: Stream,
}
