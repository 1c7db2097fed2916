//! The permitted steps of TileLink TL-C on a home and its clients, and what holds of each run of them.
#![tactic(auto)]

mod client;
mod copy;
mod event;
mod home;
mod log;
mod queue;
mod same;
mod shape;
mod theorem;

pub use client::Client;
pub use copy::CachedCopy;
pub use event::{Access, Event};
pub use home::{Accepted, Line, Outward};
pub use log::Log;
pub use queue::{AckCount, Queue};
pub use same::{Same, are_same_bytes};
pub use shape::Shape;
pub use theorem::{
    every_block, every_move, every_run, every_run_ends, every_wait, every_writeback, some_run,
};
