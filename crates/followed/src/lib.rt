// The links that insert and remove follow, and what they must be: document 01's 'Links that are followed', by reading alone.
#![tactic(auto)]

mod inserting;
mod removing;

pub use inserting::{check_insert, insert_links};
pub use removing::check_remove;
