//! What the calls of clients look at, which changes nothing.
ghost use Rattle.std.specs.Prelude.{◌≡◌, ◌<◌, ◌||◌, is_some, nat_le, option_copied};
ghost use Rattle.tl_types.specs.declared.channel.Channel.{Channel};
ghost use Rattle.tl_protocol.specs.Copy.{bytes_of};
ghost use Rattle.tl_bank_laws.specs.Entry.{bytes_in, copy_in, perm_in, wait_in};
ghost use Rattle.tl_bank_spec.specs.Cases.{no_client, no_block, bad_access, bad_share, elsewhere, link_full, clock_full};
ghost use Rattle.tl_bank_spec.specs.View.{client_at, perm_at};
ghost use Rattle.tl_bank_spec.specs.Tables.{has_entry, entries_at, copies_at};

use crate::bank::Bank;
use crate::entry;
use crate::share::Share;
use tl_copies::Held;
use tl_protocol::CachedCopy;
use tl_types::{ACCESS_BYTES, BlockNo, Channel, ClientId, MESSAGES, Perm};

impl Bank {
    /// What a client's table has of a block.
    pub(super) fn entry(&self, client: ClientId, block: BlockNo) -> Option<&Held>
        requires client { client < self.now.geometry.clients }
        requires block { block < self.now.geometry.memory_blocks }
        ensures copy { copy_in (option_copied result) ≡ (client_at self.now client block).held }
        ensures perm { perm_in (option_copied result) ≡ perm_at self.now client block }
        ensures wait { wait_in (option_copied result) ≡ (client_at self.now client block).wait }
        ensures bytes { bytes_in (option_copied result) ≡ bytes_of (client_at self.now client block).held }
        ensures has { is_some (option_copied result) ≡ has_entry (client_at self.now client block) }
    {
        self.copies.held(client, block)
    }

    /// Where a client's table has its entry of a block. Without one it may do nothing.
    pub(super) fn place(&self, client: ClientId, block: BlockNo) -> Option<usize>
        requires client { client < self.now.geometry.clients }
        requires block { block < self.now.geometry.memory_blocks }
        ensures { result ≡ None → perm_at self.now client block ≡ Perm.None }
    {
        self.copies.place(client, block)
    }

    /// What a client may do with a block, whose entry is looked for at `place` first.
    pub(super) fn perm_near(&self, client: ClientId, block: BlockNo, place: usize) -> Perm
        requires client { client < self.now.geometry.clients }
        requires block { block < self.now.geometry.memory_blocks }
        ensures { result ≡ perm_at self.now client block }
    {
        entry::perm_in(self.copies.near(client, block, place))
    }

    /// A client's copy of a block.
    pub(super) fn copy_of(&self, client: ClientId, block: BlockNo) -> CachedCopy
        requires client { client < self.now.geometry.clients }
        requires block { block < self.now.geometry.memory_blocks }
        ensures { result ≡ (client_at self.now client block).held }
    {
        entry::copy_in(self.copies.held(client, block))
    }

    /// What a client may do with a block.
    pub(super) fn perm_of(&self, client: ClientId, block: BlockNo) -> Perm
        requires client { client < self.now.geometry.clients }
        requires block { block < self.now.geometry.memory_blocks }
        ensures { result ≡ perm_at self.now client block }
    {
        entry::perm_in(self.copies.held(client, block))
    }

    /// How many copies a client has.
    pub(super) fn count(&self, client: ClientId) -> u32
        requires { client < self.now.geometry.clients }
        ensures { result ≡ copies_at self.now client }
    {
        self.copies.count(client)
    }

    /// How many entries a client's table has.
    pub(super) fn entries(&self, client: ClientId) -> u32
        requires { client < self.now.geometry.clients }
        ensures { result ≡ entries_at self.now client }
    {
        self.copies.entries(client)
    }

    /// Whether an access is of a client that is not there, or of bytes that are not there.
    pub(super) fn is_bad_access(&self, client: ClientId, address: u32, len: usize) -> bool
        ensures { result ≡ (no_client self.now client || bad_access self.now address len) }
    {
        client.number() >= self.geometry.clients()
            || len == 0
            || len > ACCESS_BYTES
            || !self.geometry.has_bytes(address, len)
    }

    /// Whether a block is of another bank.
    pub(super) fn is_elsewhere(&self, block: BlockNo) -> bool
        requires { block < self.now.geometry.memory_blocks }
        ensures { result ≡ elsewhere self.now block }
    {
        self.geometry.bank(block) != self.number
    }

    /// Whether the clocks stand at their end.
    pub(super) fn is_clock_full(&self, clock: u64) -> bool
        ensures { result ≡ clock_full self.now clock }
    {
        self.clock.max(clock) == u64::MAX
    }

    /// Whether a block is not of the memory, or its client is not there.
    pub(super) fn is_absent(&self, client: ClientId, block: BlockNo) -> bool
        ensures { result ≡ (no_client self.now client || no_block self.now block) }
    {
        client.number() >= self.geometry.clients() || !self.geometry.has(block)
    }

    /// Whether a client's table has as many entries as it may have.
    pub(super) fn is_table_full(&self, client: ClientId) -> bool
        requires { client < self.now.geometry.clients }
        ensures { result ≡ nat_le self.now.geometry.copies (entries_at self.now client) }
    {
        self.entries(client) >= self.geometry.copies()
    }

    /// Whether `MESSAGES` messages are on a channel.
    pub(super) fn is_link_full(&self, client: ClientId, channel: Channel) -> bool
        requires { client < self.now.geometry.clients }
        ensures { result ≡ link_full self.now client channel }
    {
        self.links.waiting(client, channel) >= MESSAGES
    }

    /// Whether a share is of another client, or of this bank with another count than the client's copies.
    pub(super) fn is_bad_share(&self, client: ClientId, share: &Share) -> bool
        requires { client < self.now.geometry.clients }
        ensures { result ≡ bad_share self.now client share.now }
    {
        share.client() != client
            || share.bank() == self.number && share.count() != self.count(client)
    }
}
