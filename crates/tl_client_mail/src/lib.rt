//! The mail of a client's agent or a bank's home: its inbox, the ways to those that it sends to, the tickets that wait,
//! and its rests.
#![tactic(auto)]

mod links;
mod mail;
mod rest;
mod sending;
mod waiting;

pub use links::Links;
pub use mail::{BATCH, Mail};
pub use rest::Rest;
pub use sending::{BACK, Sending};
pub use waiting::Waiting;
