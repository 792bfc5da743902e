// The leaves of every call: one word of a slot, one row, one header. Each is total: any index and any length is answered.
// A read at or past used gives zero and touches nothing; a write past the end changes nothing.
#![tactic(auto)]

pub mod headers;
pub mod rows;
pub mod words;
