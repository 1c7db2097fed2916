//! The exchanges of what was seen: a message and the response that it waits for, of one link and one block; which are
//! open at the end, and how long each was open.
#![tactic(auto)]

mod answers;
mod exchange;
mod opened;
mod times;

pub use exchange::{Exchange, Response, answered_by, opened_by};
pub use opened::{Opened, exchanges_of};
pub use times::{cycle_at, first_longer, first_open, longest_closed};
