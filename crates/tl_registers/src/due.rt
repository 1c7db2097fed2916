//! What a register does next.

use tl_types::{BlockNo, ClientId, ProbeCap};

/// An action of home before it is carried out. Grant and Get are of the register's own block.
#[derive(Clone, Copy, Debug, PartialEq, Eq)]
pub enum Due {
    /// Ask the client to give up what it has of the block beyond the cap.
    Probe(ClientId, BlockNo, ProbeCap),
    /// Grant the own block to the client that asked for it.
    Grant(ClientId),
    /// Ask the memory for the own block.
    Get,
    /// Write home's copy of the block, which is dirty, back to the memory, and give it up.
    Put(BlockNo),
    /// Give up home's copy of the block, which is clean.
    Drop(BlockNo),
}
