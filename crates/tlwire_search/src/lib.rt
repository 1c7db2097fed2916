//! Explains what a monitor on the links saw: finds a run of the protocol that has just these messages, loads and
//! stores.
#![tactic(auto)]

mod answer;
mod clients;
mod enabling;
mod hidden;
mod last;
mod marks;
mod preceding;
mod premises;
mod search;
mod seen;
mod sight;
mod sought;
mod target;
mod walk;
mod way;
mod wires;

pub use answer::{Explanation, explain};
pub use hidden::hidden_store;
pub use last::LastAccepts;
pub use premises::{NamedClients, Premises};
pub use search::Limit;
pub use seen::{Seen, Wire};
pub use sight::{seen_of, seen_on};
pub use sought::Sought;
pub use target::{copied, target as event_of, wire_taken};
pub use walk::explained_by;
pub use way::Way;
pub use wires::{block_of, number as wire_number};
