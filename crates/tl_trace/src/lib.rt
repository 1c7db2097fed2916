//! Plays the steps of a script over the banks of a cache: one answer for each step, and what each bank holds at the
//! end.
#![tactic(auto)]

mod act;
mod answers;
mod asked;
mod client_steps;
mod closing;
mod home_steps;
mod network;
mod shared_bank;
mod trace;

pub use asked::{bank_asked, client_named};
pub use network::Network;
pub use trace::play;
