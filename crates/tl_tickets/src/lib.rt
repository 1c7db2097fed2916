//! Inboxes, by which many threads hand tickets to one receiver, and bells, which threads ring and hear without waiting;
//! and the shares of a bank, gathered.
#![tactic(auto)]

mod bell;
mod delivery;
mod ends;
mod error;
mod inbox;
mod numbered;
mod ringing;
mod sent;
mod shares;
mod tally;

pub use bell::{Bell, Seat};
pub use ends::{Receiver, Ringer, Sender};
pub use error::{Full, Missing};
pub use inbox::{Inbox, Pass};
pub use sent::Sent;
pub use shares::gather;
