// What makes versions and rows a map, whoever put them in place: the links made anew from the versions, and the rows of vacant slots
// cleared. hop.rs 1417-1472
#![tactic(auto)]

mod clearing;
mod relinking;

pub use clearing::clear_vacant_rows;
pub use relinking::relink;
