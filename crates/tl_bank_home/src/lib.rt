//! What home holds of one bank beside the clients' part: the directory with home's copies, what passes between home and
//! the memory, and the memory.
#![tactic(auto)]

mod crossings;
mod directory;
mod home;

pub use home::{Home, MOST_CROSSINGS};
