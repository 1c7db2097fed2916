//! Runs a script: a thread for each client and one for each bank's home, over inboxes, bells and locked banks. The
//! turns of one client or one home are there for who drives it alone.
#![tactic(auto)]

mod banks;
mod client_worker;
mod course;
mod deal;
mod home_worker;
mod mailbox;
mod mailroom;
mod runner;
mod threads;
mod workers;

pub use client_worker::client_turns;
pub use course::Course;
pub use home_worker::home_turns;
pub use runner::{CAPACITY, run, run_sized};
pub use tl_runner_report::RunError;
pub use workers::{End, Shared};
