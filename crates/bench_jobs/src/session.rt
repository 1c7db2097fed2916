//! A bank between clients, home and memory that each do what comes to their mind.

use crate::numbers::{Digest, Numbers};
use crate::results::{with_action, with_end, with_reply, with_ticket};
use crate::sight::{Sights, Way};
use arrayvec::ArrayVec;
use std::alloc::{AllocError, Global};
use std::marker::Model;
use tl_bank::{Action, Bank, Refusal, Share, When};
use tl_map::{Geometry, GeometryNumbers};
use tl_protocol::Event;
use tl_types::{BankNo, BlockNo, CLIENTS, Channel, ClientId, Grow, Perm, Prune, Ticket};

/// How large a session is.
#[derive(Clone, Copy)]
pub(crate) struct Sizes {
    pub(crate) clients: u32,
    pub(crate) blocks: u32,
    /// How many of the blocks are asked for often.
    pub(crate) hot: u32,
    pub(crate) block_bytes: u32,
    pub(crate) sets: u32,
    pub(crate) ways: u32,
    pub(crate) registers: u32,
    pub(crate) copies: u32,
}

/// A bank with its shares, the clocks of its clients, and the messages and memory accesses under way. Its model says
/// nothing, so that many calls have their answers alone to carry along.
#[derive(Drop)]
pub(crate) struct Session {
    sizes: Sizes,
    bank: Bank,
    shares: ArrayVec<Share, CLIENTS>,
    clocks: ArrayVec<u64, CLIENTS>,
    tickets: Vec<Ticket>,
    outward: Vec<BlockNo>,
    sights: Option<Sights>,
    digest: Digest,
    index: u32,
}

impl Model for Session {
    ghost Value = { Unit {0} };

    ghost view = { λ _. tt };
}

fn geometry_of(sizes: Sizes) -> Option<Geometry> {
    Geometry::new(GeometryNumbers {
        version: 2,
        clients: i64::from(sizes.clients),
        banks: 1,
        block_bytes: i64::from(sizes.block_bytes),
        sets: i64::from(sizes.sets),
        ways: i64::from(sizes.ways),
        registers: i64::from(sizes.registers),
        copies: i64::from(sizes.copies),
        memory_blocks: i64::from(sizes.blocks),
    })
    .ok()
}

fn zeros() -> ArrayVec<u64, CLIENTS> {
    let mut clocks = ArrayVec::new();
    for _ in 0..CLIENTS {
        let _ = clocks.try_push(0);
    }
    clocks
}

impl Session {
    /// A bank at reset over a memory of zeros; its messages are noted where that is asked for.
    pub(crate) fn new(alloc: Global, sizes: Sizes, sights: Option<Sights>) -> Option<Session> {
        let geometry = geometry_of(sizes)?;
        if geometry.banks() == 0 {
            return None;
        }
        let (bank, shares) = Bank::new(alloc, geometry, BankNo::new(0), &[]).ok()?;
        Some(Session {
            sizes,
            bank,
            shares,
            clocks: zeros(),
            tickets: Vec::new(alloc),
            outward: Vec::new(alloc),
            sights,
            digest: Digest::new(),
            index: 0,
        })
    }

    /// Makes room for so many events, where there is memory for them.
    pub(crate) fn reserve(&mut self, events: usize) {
        let _ = self.bank.reserve_steps(events);
    }

    /// Forgets the log so far where it has no room for a step.
    pub(crate) fn forget_if_full(&mut self) {
        if self.bank.room() < 4 {
            self.bank.forget();
        }
    }

    /// What happened, without what is forgotten.
    pub(crate) fn log(&self) -> &[Event] {
        self.bank.log()
    }

    /// What each call so far answered, and what the bank holds now.
    pub(crate) fn digest(&self) -> Digest {
        with_end(self.digest, &self.bank)
    }

    /// What was seen of the messages so far.
    pub(crate) fn into_sights(self) -> Option<Sights> {
        self.sights
    }

    fn any_client(&self, numbers: &mut Numbers) -> ClientId {
        ClientId::new(numbers.below(self.sizes.clients.max(1)))
    }

    /// A block: mostly one of the client's favourites, else one that all ask for, or any.
    fn any_block(&self, client: ClientId, numbers: &mut Numbers) -> BlockNo {
        let blocks = self.sizes.blocks.max(1);
        match numbers.below(8) {
            0 => BlockNo::new(numbers.below(blocks)),
            1 | 2 => BlockNo::new(numbers.below(self.sizes.hot.max(1))),
            _ => {
                let first = client.number().wrapping_mul(3);
                BlockNo::new(first.wrapping_add(numbers.below(4)) % blocks)
            }
        }
    }

    /// Whether fewer messages are under way than there are clients.
    fn is_calm(&self) -> bool {
        self.tickets.len() < self.sizes.clients as usize
    }

    /// What is seen of a message, where that is noted.
    fn see(&mut self, ticket: &Ticket) -> Result<(), AllocError> {
        let Some(message) = self.bank.in_flight(*ticket) else {
            return Ok(());
        };
        match &mut self.sights {
            Some(sights) => sights.message(ticket, &message),
            None => Ok(()),
        }
    }

    /// A call was refused.
    fn refused(&mut self, refusal: Refusal) {
        self.digest = self.digest.with(u64::from(refusal.number()));
    }

    /// A message was sent.
    fn sent(&mut self, ticket: Ticket) -> Result<(), AllocError> {
        self.digest = with_ticket(self.digest, ticket);
        if self.sights.is_some() {
            self.see(&ticket)?;
        }
        self.tickets.push(ticket)?;
        Ok(())
    }

    /// Something happened between home and the memory.
    fn passed(&mut self, block: BlockNo, way: Way) -> Result<(), AllocError> {
        if let Some(sights) = &mut self.sights {
            if let Some(outward) = self.bank.outward(block) {
                sights.memory(block, way, &outward)?;
            }
        }
        Ok(())
    }

    fn when(&self, client: ClientId) -> When {
        let clock = self.clocks.as_slice().get(client.index());
        When {
            clock: clock.copied().unwrap_or(0),
            index: self.index,
        }
    }

    fn set_clock(&mut self, client: ClientId, stamp: u64) {
        self.index = self.index.wrapping_add(1);
        if let Some(clock) = self.clocks.as_mut_slice().get_mut(client.index()) {
            *clock = stamp;
        }
    }

    fn load(&mut self, client: ClientId, address: u32, len: usize) -> Result<(), AllocError> {
        let when = self.when(client);
        let loaded = match self.bank.load(client, address, len, when) {
            Ok(loaded) => loaded,
            Err(refusal) => {
                self.refused(refusal);
                return Ok(());
            }
        };
        self.digest = self
            .digest
            .with_bytes(loaded.bytes.as_slice())
            .with(loaded.stamp);
        self.set_clock(client, loaded.stamp);
        match &mut self.sights {
            Some(sights) => sights.access("load", client, address, loaded.bytes.as_slice()),
            None => Ok(()),
        }
    }

    fn store(&mut self, client: ClientId, address: u32, value: u64) -> Result<(), AllocError> {
        let bytes = (value & 0xffff_ffff).to_le_bytes();
        let given = &bytes[..4];
        let when = self.when(client);
        let stamp = match self.bank.store(client, address, given, when) {
            Ok(stamp) => stamp,
            Err(refusal) => {
                self.refused(refusal);
                return Ok(());
            }
        };
        self.digest = self.digest.with(stamp);
        self.set_clock(client, stamp);
        match &mut self.sights {
            Some(sights) => sights.access("store", client, address, given),
            None => Ok(()),
        }
    }

    fn acquire(
        &mut self,
        client: ClientId,
        block: BlockNo,
        grow: Grow,
    ) -> Result<bool, AllocError> {
        match self.bank.acquire(client, block, grow) {
            Ok(ticket) => {
                self.sent(ticket)?;
                Ok(true)
            }
            Err(refusal) => {
                self.refused(refusal);
                Ok(false)
            }
        }
    }

    fn release(
        &mut self,
        client: ClientId,
        block: BlockNo,
        prune: Prune,
    ) -> Result<(), AllocError> {
        let Some(share) = self.shares.as_mut_slice().get_mut(client.index()) else {
            return Ok(());
        };
        match self.bank.release(client, block, prune, share) {
            Ok(ticket) => self.sent(ticket),
            Err(refusal) => {
                self.refused(refusal);
                Ok(())
            }
        }
    }

    /// A client gives up the copy that it has had longest.
    fn make_place(&mut self, client: ClientId) -> Result<(), AllocError> {
        let Some(block) = self.bank.oldest_copy(client) else {
            return Ok(());
        };
        match self.bank.perm(client, block) {
            Perm::Tip => self.release(client, block, Prune::TtoN),
            Perm::Branch => self.release(client, block, Prune::BtoN),
            Perm::None => Ok(()),
        }
    }

    /// A client asks for a copy, or gives one up where it has no place for it.
    fn fetch(&mut self, client: ClientId, block: BlockNo, writes: bool) -> Result<(), AllocError> {
        let grow = if writes { Grow::NtoT } else { Grow::NtoB };
        if !self.is_calm() || self.acquire(client, block, grow)? {
            return Ok(());
        }
        self.make_place(client)
    }

    /// An address of four bytes in a block.
    fn any_address(&self, block: BlockNo, numbers: &mut Numbers) -> u32 {
        let words = (self.sizes.block_bytes / 4).max(1);
        let offset = numbers.below(words).wrapping_mul(4);
        block
            .number()
            .wrapping_mul(self.sizes.block_bytes)
            .wrapping_add(offset)
    }

    /// A client that may write a block does something with it.
    fn write(
        &mut self,
        client: ClientId,
        block: BlockNo,
        numbers: &mut Numbers,
    ) -> Result<(), AllocError> {
        let address = self.any_address(block, numbers);
        match numbers.below(16) {
            0 => self.release(client, block, Prune::TtoB),
            1 => self.release(client, block, Prune::TtoN),
            2..9 => self.store(client, address, numbers.next()),
            _ => self.load(client, address, 4),
        }
    }

    /// A client that may read a block does something with it.
    fn read(
        &mut self,
        client: ClientId,
        block: BlockNo,
        numbers: &mut Numbers,
    ) -> Result<(), AllocError> {
        let address = self.any_address(block, numbers);
        match numbers.below(16) {
            0 => self.release(client, block, Prune::BtoN),
            1 | 2 => {
                let _ = self.acquire(client, block, Grow::BtoT)?;
                Ok(())
            }
            _ => self.load(client, address, 4),
        }
    }

    /// A client does something.
    fn of_client(&mut self, numbers: &mut Numbers) -> Result<(), AllocError> {
        let client = self.any_client(numbers);
        let block = self.any_block(client, numbers);
        match self.bank.perm(client, block) {
            Perm::Tip => self.write(client, block, numbers),
            Perm::Branch => self.read(client, block, numbers),
            Perm::None => self.fetch(client, block, numbers.below(3) == 0),
        }
    }

    /// A client answers a Probe; whether it could.
    fn answer(&mut self, probe: Ticket) -> Result<bool, AllocError> {
        let Some(share) = self.shares.as_mut_slice().get_mut(probe.client.index()) else {
            return Ok(false);
        };
        match self.bank.answer_probe(probe, share) {
            Ok(answer) => {
                self.sent(answer)?;
                Ok(true)
            }
            Err(refusal) => {
                self.refused(refusal);
                Ok(false)
            }
        }
    }

    /// Home takes what a client sent on C; whether it could.
    fn take_c(&mut self, ticket: Ticket) -> Result<bool, AllocError> {
        match self.bank.take_c(ticket) {
            Ok(Some(answer)) => {
                self.sent(answer)?;
                Ok(true)
            }
            Ok(None) => Ok(true),
            Err(refusal) => {
                self.refused(refusal);
                Ok(false)
            }
        }
    }

    /// A client takes a Grant; whether it could.
    fn take_grant(&mut self, grant: Ticket) -> Result<bool, AllocError> {
        let Some(share) = self.shares.as_mut_slice().get_mut(grant.client.index()) else {
            return Ok(false);
        };
        match self.bank.take_grant(grant, share) {
            Ok(acknowledged) => {
                self.sent(acknowledged)?;
                Ok(true)
            }
            Err(refusal) => {
                self.refused(refusal);
                Ok(false)
            }
        }
    }

    /// Whether a call that answers nothing was done.
    fn is_done(&mut self, answer: Result<(), Refusal>) -> bool {
        match answer {
            Ok(()) => true,
            Err(refusal) => {
                self.refused(refusal);
                false
            }
        }
    }

    /// A client takes what home sent on D; whether it could.
    fn take_d(&mut self, ticket: &Ticket) -> Result<bool, AllocError> {
        if self.take_grant(*ticket)? {
            return Ok(true);
        }
        let taken = self.bank.take_release_ack(*ticket);
        Ok(self.is_done(taken))
    }

    /// A message is taken; whether it could be.
    fn take(&mut self, ticket: Ticket) -> Result<bool, AllocError> {
        match ticket.channel {
            Channel::A => {
                let accepted = self.bank.accept(ticket);
                Ok(self.is_done(accepted))
            }
            Channel::B => self.answer(ticket),
            Channel::C => self.take_c(ticket),
            Channel::D => self.take_d(&ticket),
            Channel::E => {
                let taken = self.bank.take_grant_ack(ticket);
                Ok(self.is_done(taken))
            }
        }
    }

    /// One of the messages under way is taken, if it can be.
    fn deliver(&mut self, numbers: &mut Numbers) -> Result<(), AllocError> {
        let waiting = self.tickets.len().min(1_000_000) as u32;
        if waiting == 0 {
            return Ok(());
        }
        let place = numbers.below(waiting) as usize;
        let Some(ticket) = self.tickets.get(place).copied() else {
            return Ok(());
        };
        if self.take(ticket)? && place < self.tickets.len() {
            let _ = self.tickets.swap_remove(place);
        }
        Ok(())
    }

    /// Home goes on with a block.
    fn advance(&mut self, block: BlockNo) -> Result<(), AllocError> {
        let action = match self.bank.advance(block) {
            Ok(action) => action,
            Err(refusal) => {
                self.refused(refusal);
                return Ok(());
            }
        };
        self.digest = with_action(self.digest, &action);
        match action {
            Action::Get => {
                self.passed(block, Way::Asked)?;
                self.outward.push(block)?;
                Ok(())
            }
            Action::Put(victim) => {
                self.passed(victim, Way::Asked)?;
                self.outward.push(victim)?;
                Ok(())
            }
            Action::Drop => Ok(()),
            Action::Probe(ticket) | Action::Grant(ticket) => self.sent(ticket),
        }
    }

    /// The memory answers what home asked about a block; whether it could.
    fn serve(&mut self, block: BlockNo) -> bool {
        match self.bank.serve_memory(block) {
            Ok(reply) => {
                self.digest = with_reply(self.digest, &reply);
                true
            }
            Err(refusal) => {
                self.refused(refusal);
                false
            }
        }
    }

    /// One of the blocks that wait for the memory is served, or home takes its answer.
    fn of_memory(&mut self, numbers: &mut Numbers) -> Result<(), AllocError> {
        let waiting = self.outward.len().min(1_000_000) as u32;
        if waiting == 0 {
            return Ok(());
        }
        let place = numbers.below(waiting) as usize;
        let Some(block) = self.outward.get(place).copied() else {
            return Ok(());
        };
        if self.serve(block) {
            return self.passed(block, Way::Answered);
        }
        let taken = self.bank.take_memory(block);
        if self.is_done(taken) && place < self.outward.len() {
            let _ = self.outward.swap_remove(place);
        }
        Ok(())
    }

    /// Home does something.
    fn of_home(&mut self, numbers: &mut Numbers) -> Result<(), AllocError> {
        let open = self.bank.open_blocks();
        let count = open.len().min(64) as u32;
        if count == 0 {
            return Ok(());
        }
        let place = numbers.below(count) as usize;
        match open.as_slice().get(place) {
            Some(block) => self.advance(*block),
            None => Ok(()),
        }
    }

    /// Somebody does something.
    pub(crate) fn step(&mut self, numbers: &mut Numbers) -> Result<(), AllocError> {
        match numbers.below(16) {
            0..5 => self.of_client(numbers),
            5..11 => self.deliver(numbers),
            11..14 => self.of_home(numbers),
            _ => self.of_memory(numbers),
        }
    }
}
