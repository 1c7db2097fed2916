//! What records of events have reached of the situations of the protocol.
#![tactic(auto)]

mod answer;
mod page;
mod reading;
mod script;
mod tallies;
mod text;

pub use answer::{Form, Number, Way, tell_fault, tell_tables, tell_way};
pub use reading::{Fault, cover};
pub use script::push_script;
pub use tallies::Tallies;
pub use tlcheck_home::{Count, Mark, Tally};
