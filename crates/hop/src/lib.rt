// The map under one name: every public call, and every type and number that a caller meets.
#![tactic(auto)]

pub use access::{look, look_mut, replace};
pub use clear::clear;
pub use drain_step::drain_step;
pub use hop_step::hop_step;
pub use insert::insert;
pub use rebuild::rebuild;
pub use refusals::key_number;
pub use remove::remove;
pub use retain::retain;
pub use rules::{
    Cursor, DrainAnswer, Handed, HandedRow, Header, HopAnswer, Key, LIMIT, LINK_WORDS, ROW_WORDS,
    Refusal, Row,
};
pub use sound::sound;
pub use start::{room, start};
