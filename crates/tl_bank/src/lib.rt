//! One bank of the cache: its type keeps that its log is a run of the protocol, and that the run's end is what the bank
//! holds.
#![tactic(auto)]

mod bank;
mod entry;
mod link;
mod share;

pub use bank::{Bank, BankError};
pub use share::Share;
pub use tl_bank_spec::{Action, Loaded, Refusal, When};
pub use tl_memory::{Burst, Reply};
