// Row access: a look at a live key, to read or to write through or by value, and replace.
#![tactic(auto)]

mod place;
mod reading;
mod replacing;
mod showing;
mod writing;

pub use reading::look;
pub use replacing::replace;
pub use showing::look_row;
pub use writing::look_mut;
