//! A bank with its clients' shares, as tests ask it.
use arrayvec::ArrayVec;
use std::alloc::{AllocError, Global};
use std::default::Default;
use std::marker::Model;
use std::test::Fail;
use tl_bank::{Action, Bank, Refusal, Share, When};
use tl_bank_rest::{Receiving, drain, flush, image_of, next_call};
use tl_map::{Geometry, GeometryNumbers};
use tl_protocol::CachedCopy;
use tl_types::{Awaited, BankNo, BlockNo, CLIENTS, Channel, ClientId, Grow, Perm, Prune, Ticket};

/// What a call answers: the ticket of the message that it sent, if it sent one.
pub type Answer = Result<Option<Ticket>, Refusal>;

/// The permission of a copy, its first byte if it has any, and whether it is dirty.
pub type Copied = (Perm, Option<u8>, bool);

/// A bank and its clients' shares. Its model says nothing, so that a test of many calls has their answers alone to
/// carry along.
#[derive(Drop)]
pub struct Session {
    bank: Bank,
    shares: ArrayVec<Share, CLIENTS>,
}

impl Model for Session {
    ghost Value = { Unit {0} };

    ghost view = { λ _. tt };
}

/// The calls.
impl Session {
    /// Bank 0 of a geometry at reset, over a memory of zeros. The errors are those of `of`.
    pub fn new(alloc: Global, numbers: GeometryNumbers) -> Result<Session, Fail> {
        Session::of(alloc, numbers, 0, &[])
    }

    /// A bank of a geometry at reset, over a memory that holds an image. The error says that the numbers make no
    /// geometry, that there is no such bank or no room for the image, or want of memory.
    pub fn of(
        alloc: Global,
        numbers: GeometryNumbers,
        number: u32,
        image: &[u8],
    ) -> Result<Session, Fail> {
        let geometry = Geometry::new(numbers)?;
        if number >= geometry.banks() || image.len() > geometry.memory_bytes() as usize {
            return Err("no such bank".into());
        }
        let (bank, shares) = Bank::new(alloc, geometry, BankNo::new(number), image)?;
        Ok(Session { bank, shares })
    }

    /// Makes room for so many steps. The errors are those of `Bank::reserve_steps`.
    pub fn reserve_steps(&mut self, count: usize) -> Result<(), Refusal> {
        self.bank.reserve_steps(count)
    }

    /// Forgets the log so far.
    pub fn forget_log(&mut self) {
        self.bank.forget();
    }

    /// Loads bytes, and answers the stamp. The errors are those of `Bank::load`.
    pub fn load(
        &mut self,
        client: ClientId,
        address: u32,
        len: usize,
        when: When,
    ) -> Result<u64, Refusal> {
        let loaded = self.bank.load(client, address, len, when)?;
        Ok(loaded.stamp)
    }

    /// Stores bytes, and answers the stamp. The errors are those of `Bank::store`.
    pub fn store(
        &mut self,
        client: ClientId,
        address: u32,
        bytes: &[u8],
        when: When,
    ) -> Result<u64, Refusal> {
        self.bank.store(client, address, bytes, when)
    }

    /// Asks for a block. The errors are those of `Bank::acquire`.
    pub fn acquire(
        &mut self,
        client: ClientId,
        block: BlockNo,
        grow: Grow,
    ) -> Result<Ticket, Refusal> {
        self.bank.acquire(client, block, grow)
    }

    /// Asks the call that takes a message of the ticket's channel: on D, a Grant.
    pub fn take(&mut self, ticket: Ticket) -> Answer {
        match ticket.channel {
            Channel::A => self.accept(ticket),
            Channel::B => self.answer_probe(ticket, ticket.client).map(Some),
            Channel::C => self.bank.take_c(ticket),
            Channel::D => self.take_grant(ticket, ticket.client).map(Some),
            Channel::E => self.take_grant_ack(ticket),
        }
    }

    fn accept(&mut self, ticket: Ticket) -> Answer {
        self.bank.accept(ticket)?;
        Ok(None)
    }

    fn take_grant_ack(&mut self, ticket: Ticket) -> Answer {
        self.bank.take_grant_ack(ticket)?;
        Ok(None)
    }

    /// Answers a Probe, with the share of a client. The errors are those of `Bank::answer_probe`, and `OutOfRange`
    /// where that client has no share.
    pub fn answer_probe(&mut self, ticket: Ticket, holder: ClientId) -> Result<Ticket, Refusal> {
        let Some(share) = self.shares.as_mut_slice().get_mut(holder.number() as usize) else {
            return Err(Refusal::OutOfRange);
        };
        self.bank.answer_probe(ticket, share)
    }

    /// Takes a Grant, with the share of a client. The errors are those of `Bank::take_grant`, and `OutOfRange` where
    /// that client has no share.
    pub fn take_grant(&mut self, ticket: Ticket, holder: ClientId) -> Result<Ticket, Refusal> {
        let Some(share) = self.shares.as_mut_slice().get_mut(holder.number() as usize) else {
            return Err(Refusal::OutOfRange);
        };
        self.bank.take_grant(ticket, share)
    }

    /// Gives up a part of a client's copy, with the share of a client. The errors are those of `Bank::release`, and
    /// `OutOfRange` where that client has no share.
    pub fn release(
        &mut self,
        client: ClientId,
        block: BlockNo,
        prune: Prune,
        holder: ClientId,
    ) -> Result<Ticket, Refusal> {
        let Some(share) = self.shares.as_mut_slice().get_mut(holder.number() as usize) else {
            return Err(Refusal::OutOfRange);
        };
        self.bank.release(client, block, prune, share)
    }

    /// Puts a share of no client in place of a client's.
    pub fn forget_share(&mut self, holder: ClientId) {
        if let Some(share) = self.shares.as_mut_slice().get_mut(holder.number() as usize) {
            *share = Share::default();
        }
    }

    /// Takes a ReleaseAck. The errors are those of `Bank::take_release_ack`.
    pub fn take_release_ack(&mut self, ticket: Ticket) -> Result<(), Refusal> {
        self.bank.take_release_ack(ticket)
    }

    /// Does the next action of a block's register. The errors are those of `Bank::advance`.
    pub fn advance(&mut self, block: BlockNo) -> Result<Action, Refusal> {
        self.bank.advance(block)
    }

    /// Starts to evict a block. The errors are those of `Bank::evict`.
    pub fn evict(&mut self, block: BlockNo) -> Result<(), Refusal> {
        self.bank.evict(block)
    }

    /// The memory serves a request of a block. The errors are those of `Bank::serve_memory`.
    pub fn serve_memory(&mut self, block: BlockNo) -> Result<(), Refusal> {
        let _reply = self.bank.serve_memory(block)?;
        Ok(())
    }

    /// Home takes what the memory replied. The errors are those of `Bank::take_memory`.
    pub fn take_memory(&mut self, block: BlockNo) -> Result<(), Refusal> {
        self.bank.take_memory(block)
    }
}

/// What moves the bank on, and its rest.
impl Session {
    /// The call that moves the bank on.
    pub fn next_call(&self) -> Option<Receiving> {
        next_call(&self.bank)
    }

    /// Drains the bank. The errors are those of `drain`.
    pub fn drain(&mut self) -> Result<u64, Refusal> {
        drain(&mut self.bank, self.shares.as_mut_slice())
    }

    /// Flushes the bank. The errors are those of `flush`.
    pub fn flush(&mut self) -> Result<u64, Refusal> {
        flush(&mut self.bank, self.shares.as_mut_slice())
    }

    /// The bytes of the bank's memory. The error is want of memory for them.
    pub fn image_of(&self, alloc: Global) -> Result<Vec<u8>, AllocError> {
        image_of(&self.bank, alloc)
    }
}

/// What is shown.
impl Session {
    /// How many events were logged.
    pub fn events(&self) -> usize {
        self.bank.events()
    }

    /// How many events were logged that are not forgotten.
    pub fn kept(&self) -> usize {
        self.bank.log().len()
    }

    /// For how many steps there is room.
    pub fn room(&self) -> usize {
        self.bank.room()
    }

    /// The image of the memory at reset.
    pub fn image(&self) -> &[u8] {
        self.bank.image()
    }

    /// A client's copy of a block.
    pub fn perm(&self, client: ClientId, block: BlockNo) -> Perm {
        self.bank.perm(client, block)
    }

    /// What home records of a client and a block.
    pub fn directory(&self, client: ClientId, block: BlockNo) -> Perm {
        self.bank.directory(client, block)
    }

    /// The number of the client that may write a block, if one may.
    pub fn writer_of(&self, block: u32) -> Option<u32> {
        let writer = self.bank.writer(BlockNo::new(block))?;
        Some(writer.number())
    }

    /// A client's copy of a block: its permission, its first byte if it has any, and whether it is dirty.
    pub fn copy(&self, client: ClientId, block: BlockNo) -> Option<Copied> {
        match self.bank.copy(client, block) {
            Some(CachedCopy::Absent) => Some((Perm::None, None, false)),
            Some(CachedCopy::Readable(bytes)) => {
                Some((Perm::Branch, bytes.as_slice().first().copied(), false))
            }
            Some(CachedCopy::Writable(bytes, dirty)) => {
                Some((Perm::Tip, bytes.as_slice().first().copied(), dirty))
            }
            None => None,
        }
    }

    /// What a client waits for about a block.
    pub fn waits_for(&self, client: ClientId, block: BlockNo) -> Option<Awaited> {
        self.bank.waits_for(client, block)
    }

    /// How many copies a client has.
    pub fn copies_of(&self, client: ClientId) -> Option<u64> {
        self.bank.copies_of(client)
    }

    /// A client's byte at an address.
    pub fn peek(&self, client: ClientId, address: u32) -> Option<u8> {
        self.bank.peek(client, address)
    }

    /// The block that a client was granted longest ago.
    pub fn oldest_copy(&self, client: ClientId) -> Option<BlockNo> {
        self.bank.oldest_copy(client)
    }

    /// Whether home's copy of a block is dirty, if home has one.
    pub fn home(&self, block: BlockNo) -> Option<bool> {
        self.bank.home(block)
    }

    /// Whether something of a block is under way between home and memory.
    pub fn is_outward(&self, block: BlockNo) -> bool {
        self.bank.outward(block).is_some()
    }

    /// How many blocks have an open register.
    pub fn open_blocks(&self) -> usize {
        self.bank.open_blocks().as_slice().len()
    }

    /// Whether nothing is under way.
    pub fn is_quiet(&self) -> bool {
        self.bank.is_quiet()
    }

    /// How many copies the clients have, and how many are recorded.
    pub fn copies(&self) -> (u64, u64) {
        (self.bank.held(), self.bank.outstanding())
    }

    /// How many copies the shares count.
    pub fn shared(&self) -> u64 {
        let mut counts = 0u64;
        for share in self.shares.as_slice() {
            counts = counts.saturating_add(u64::from(share.count()));
        }
        counts
    }

    /// The client, the bank and the count of each share.
    pub fn shares(&self) -> ArrayVec<(u32, u32, u32), CLIENTS> {
        let mut shown = ArrayVec::new();
        for share in self.shares.as_slice() {
            let shares = (
                share.client().number(),
                share.bank().number(),
                share.count(),
            );
            let _ = shown.try_push(shares);
        }
        shown
    }
}
