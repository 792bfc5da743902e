// One byte of the stream: what it does, and the states between two bytes.
#![tactic(auto)]

mod hearing;
mod states;

pub use hearing::{ended, heard};
pub use states::{opened, possible};
