//! The banks behind their locks, the ports through which agents and homes reach them, and the gate that a caller of a
//! run may hold.
#![tactic(auto)]

mod bank_port;
mod client_port;
mod gate;
mod history;
mod locked;
mod port;

pub use bank_port::BankPort;
pub use client_port::ClientPort;
pub use gate::{Free, Gate, Who};
pub use locked::Locked;
pub use port::{Asked, FirstStep, HomePort, Port, Success};
