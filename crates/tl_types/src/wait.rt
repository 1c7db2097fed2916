//! The answer that a client waits for.

/// Which answer of home a client waits for on a block. It waits for one at a time.
#[derive(Clone, Copy, Debug, PartialEq, Eq)]
pub enum Awaited {
    /// None.
    Nothing,
    /// The Grant of its Acquire.
    ForGrant,
    /// The ReleaseAck of its Release.
    ForReleaseAck,
}
