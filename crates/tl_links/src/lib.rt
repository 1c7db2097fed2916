//! The links between home and its clients: for each client and channel a list of messages with serials.
#![tactic(auto)]

mod links;
mod queue;
mod ticket_error;
mod wanted;

pub use links::{Full, Links};
pub use ticket_error::TicketError;
pub use tl_types::Ticket;
pub use wanted::Wanted;
