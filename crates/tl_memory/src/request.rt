//! What passes between home and the memory (TileLink 1.8, sections 6 and 8).

use crate::burst::Burst;

/// A request on channel A, with the base-2 logarithm of its bytes and the address of the first.
#[derive(Debug, Drop)]
pub enum Request {
    /// Asks for the bytes.
    Get {
        size: u32,
        address: u32,
    },
    /// Writes all of them (PutFullData).
    Put {
        size: u32,
        address: u32,
        burst: Burst,
    },
}

/// The memory's answer on channel D, with the size of the request.
#[derive(Debug, Drop)]
pub enum Reply {
    /// The bytes that a Get asked for.
    AccessAckData { size: u32, burst: Burst },
    /// A Put was done.
    AccessAck { size: u32 },
}
