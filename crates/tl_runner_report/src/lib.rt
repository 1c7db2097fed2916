//! What a run answers, from its script, its banks and the shares that its clients give back.
#![tactic(auto)]

mod banks;
mod compare;
mod conclusion;
mod error;
mod lines;
mod owed;
mod reading;

pub use banks::is_bank_of;
pub use compare::carries_out;
pub use conclusion::conclude;
pub use error::RunError;
