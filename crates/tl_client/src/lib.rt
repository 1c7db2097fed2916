//! The turns of a client's agent and of a bank's home, over any port to the banks and any gate.
#![tactic(auto)]

mod agent;
mod carry_out;
mod home;
mod progress;
mod requester;
mod turn;

pub use agent::Agent;
pub use home::Home;
pub use tl_client_mail::Mail;
pub use tl_client_ports::{Asked, FirstStep, Free, Gate, HomePort, Locked, Port, Success, Who};
pub use tl_script_words::Command;
pub use turn::Turn;
