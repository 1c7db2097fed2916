//! The texts of a script: numbers, addresses, bytes, tickets, commands and steps.
#![tactic(auto)]

mod command;
mod error;
mod hex;
mod laws;
mod limits;
mod step;
mod ticket;
mod words;

pub use command::Command;
pub use error::ParseError;
pub use hex::{Address, Carried, Hex, push_address, push_bytes_at, push_hex};
pub use laws::{
    addresses_are_read_back, bytes_are_read_back, numbers_are_printed, tickets_are_read_back,
};
pub use limits::{COMMANDS, STEPS};
pub use step::{BlockCall, Step, TicketCall};
pub use ticket::{parse_grow, parse_prune};
pub use words::{parse_access, parse_address, parse_block, parse_bytes, parse_number, split_words};
