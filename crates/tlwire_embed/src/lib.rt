//! A judge of messages beside a bench, at one client's pins: lines in plain numbers, a verdict at once, and after a
//! fault that same fault.
#![tactic(auto)]

mod bench;
mod history;
mod line;
mod room;
mod verdict;

pub use bench::PinsBench;
pub use history::every_judging_at_pins;
pub use line::PinsLine;
pub use room::{PinsNumbers, PinsRoom, opened, see};
pub use verdict::PinsVerdict;
