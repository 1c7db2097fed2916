//! The clients' copies of the blocks of one bank: for each client a table of at most so many entries.
#![tactic(auto)]

mod copies;
mod held;
mod table;

pub use copies::Copies;
pub use held::Held;
pub use table::Full;
