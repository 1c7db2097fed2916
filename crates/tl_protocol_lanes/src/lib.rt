//! The messages of all blocks on the channels of each client, with serials, and how each event moves them.
#![tactic(auto)]

mod laws;

pub use laws::{every_event, every_lawful_log, every_message};
