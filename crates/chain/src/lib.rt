// The chain of vacant runs, by its link words: a run loses its back slot to an insert, a removed slot joins it. The rules are those of
// rules/specs/Insert and Remove; that the links lead somewhere was asked before (crate followed).
#![tactic(auto)]

mod freeing;
mod shortening;

pub use freeing::free;
pub use shortening::shorten;
