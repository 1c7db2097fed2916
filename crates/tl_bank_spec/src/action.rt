//! What home did by `advance`.

use tl_types::{BlockNo, Ticket};

/// What a register's next action was. A message that was sent is named by its ticket.
#[derive(Clone, Copy, Debug, PartialEq, Eq)]
pub enum Action {
    /// A ProbeBlock was sent on B.
    Probe(Ticket),
    /// A Grant or GrantData was sent on D.
    Grant(Ticket),
    /// A Get of the register's own block was sent to the memory.
    Get,
    /// A PutFullData of this block was sent to the memory.
    Put(BlockNo),
    /// Home dropped its clean copy.
    Drop,
}
