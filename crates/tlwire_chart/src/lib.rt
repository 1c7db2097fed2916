//! The chart of the last lines of a block of a record of messages, up to the one that is impossible.
#![tactic(auto)]

mod ends;
mod message;
mod picture;
mod reply;
mod rows;

pub use ends::{broken_at, words_of};
pub use picture::picture_of_ending;
pub use reply::tell_chart;
pub use rows::strip_of;
