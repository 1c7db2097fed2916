//! A client's copy of a block.
ghost use Rattle.std.specs.Prelude.{◌≡◌, ◌≤◌, ◌+◌, None, Some, length, if◌then◌else◌};
ghost use Rattle.tl_copies.specs.Held.{is_copy, is_renewed, stored, waiting, waits};

use tl_types::{AccessBytes, Awaited, BLOCK_BYTES, BlockBytes, Perm};

/// What a client holds of a block: its permission, whether it stored into it, the bytes, and the answer that it waits
/// for.
#[derive(Debug, Drop)]
pub struct Held {
    pub perm: Perm,
    pub dirty: bool,
    pub bytes: BlockBytes,
    pub wait: Awaited,
}

impl Held {
    /// A copy, with bytes of its own.
    pub fn copied(&self) -> Held
        ensures { result ≡ self.now }
    {
        Held {
            perm: self.perm,
            dirty: self.dirty,
            bytes: self.bytes.copied(),
            wait: self.wait,
        }
    }

    /// Whether there is a copy: the permission is above None.
    pub fn is_copy(&self) -> bool
        ensures { result ≡ is_copy self.now }
    {
        match self.perm {
            Perm::None => false,
            Perm::Branch | Perm::Tip => true,
        }
    }

    /// Whether this waited for a Grant and `next` does not: the Grant came.
    pub(crate) fn is_granted_as(&self, next: &Held) -> bool
        ensures { result ≡ is_renewed self.now next.now }
    {
        matches!(self.wait, Awaited::ForGrant) && !matches!(next.wait, Awaited::ForGrant)
    }

    /// Whether this waited for a Grant and `next` is no Grant: the Grant came.
    pub(crate) fn is_granted_with(&self, next: Awaited) -> bool
        ensures { result ≡ is_renewed self.now (waiting next (Some self.now)) }
    {
        matches!(self.wait, Awaited::ForGrant) && !matches!(next, Awaited::ForGrant)
    }

    /// What a client holds that has no copy, and waits for an answer.
    pub(crate) fn awaiting(wait: Awaited) -> Held
        ensures { result ≡ waiting wait None }
    {
        Held {
            perm: Perm::None,
            dirty: false,
            bytes: BlockBytes::new(),
            wait,
        }
    }

    /// An answer is waited for from then on, or none.
    pub(crate) fn wait_for(&mut self, wait: Awaited)
        ensures { self.new ≡ waiting wait (Some self.old) }
    {
        self.wait = wait;
    }

    /// Whether an answer is waited for.
    pub(crate) fn waits(&self) -> bool
        ensures { result ≡ waits self.now.wait }
    {
        match self.wait {
            Awaited::Nothing => false,
            Awaited::ForGrant | Awaited::ForReleaseAck => true,
        }
    }

    /// What this adds to a number of copies.
    pub(crate) fn copies(&self) -> u32
        ensures { result ≡ (if is_copy self.now then 1 else 0) }
    {
        if self.is_copy() { 1 } else { 0 }
    }

    /// Writes the bytes of a store from `offset` on, which makes it dirty.
    pub(crate) fn store(&mut self, offset: usize, access: &AccessBytes)
        requires { offset + length access.now ≤ BLOCK_BYTES }
        ensures { self.new ≡ stored offset access.now self.old }
    {
        self.bytes.overwrite(offset, access);
        self.dirty = true;
    }
}
