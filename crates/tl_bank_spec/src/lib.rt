//! What a bank promises, without its code: what contracts see of it, the case of each refusal, and each call's cases in
//! order.
#![tactic(auto)]

mod action;
mod laws;
mod refusal;
mod when;

pub use action::Action;
pub use laws::{every_count, every_permission, every_refusal, every_ticket};
pub use refusal::Refusal;
pub use when::{Loaded, When};
