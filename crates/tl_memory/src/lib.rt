//! The memory behind a cache: it serves whole blocks, in beats (TileLink 1.8, TL-UH).
#![tactic(auto)]

mod burst;
mod memory;
mod request;

pub use burst::Burst;
pub use memory::Memory;
pub use request::{Reply, Request};
