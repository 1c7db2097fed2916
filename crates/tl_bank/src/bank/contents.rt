//! What a bank shows of the clients' copies of a block, of home's copy and of the memory's bytes, and of the messages
//! that wait. No view takes memory.
ghost use Rattle.std.specs.Prelude.{◌≡◌};
ghost use Rattle.tl_bank.specs.Contents.{copy_at, wait_at, line_at, memory_at, message_waiting};

use crate::bank::Bank;
use crate::entry;
use tl_protocol::{CachedCopy, Line};
use tl_types::{Awaited, BlockBytes, BlockNo, Channel, ClientId, Message, Ticket};

impl Bank {
    /// A client's copy of a block: its permission, its bytes, and whether they are dirty. None just where there is no
    /// such client, or the block is not of the memory or of another bank.
    pub fn copy(&self, client: ClientId, block: BlockNo) -> Option<CachedCopy>
        ensures { result ≡ copy_at self.now client block }
    {
        if self.has_no_part(client, block) {
            return None;
        }
        Some(self.copy_of(client, block))
    }

    /// The answer that a client waits for about a block. None just where there is no such client, or the block is not
    /// of the memory or of another bank.
    pub fn waits_for(&self, client: ClientId, block: BlockNo) -> Option<Awaited>
        ensures { result ≡ wait_at self.now client block }
    {
        if self.has_no_part(client, block) {
            return None;
        }
        Some(entry::wait_in(self.entry(client, block)))
    }

    /// Home's copy of a block, where home has one. None also where the block is not of the memory or of another bank.
    pub fn line(&self, block: BlockNo) -> Option<Line>
        ensures { result ≡ line_at self.now block }
    {
        if self.is_not_own(block) {
            return None;
        }
        let dirty = self.home.is_dirty(block)?;
        let bytes = self.home.bytes(block)?.copied();
        Some(Line { bytes, dirty })
    }

    /// The memory's bytes of a block. None where the block is not of the memory or of another bank.
    pub fn memory(&self, block: BlockNo) -> Option<BlockBytes>
        ensures { result ≡ memory_at self.now block }
    {
        if self.is_not_own(block) {
            return None;
        }
        Some(self.home.in_memory(block))
    }

    /// The message at a place among those that wait on a channel, oldest first, with its ticket. None past the last,
    /// and of a client that is not there.
    pub fn waiting(
        &self,
        client: ClientId,
        channel: Channel,
        place: usize,
    ) -> Option<(Ticket, Message)>
        ensures { result ≡ message_waiting self.now client channel place }
    {
        if client.number() >= self.geometry.clients()
            || place >= self.links.waiting(client, channel)
        {
            return None;
        }
        // For the prover: a serial past the last message's fits.
        let _sent = self.links.sent(client, channel);
        let ticket = Ticket {
            bank: self.number,
            client,
            channel,
            serial: self.links.taken(client, channel) + place as u64,
        };
        let named = ticket;
        Some((ticket, self.links.message(named)?.copied()))
    }
}
