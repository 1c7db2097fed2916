//! A bank that is driven by its calls.
use arrayvec::ArrayVec;
use std::alloc::Global;
use std::marker::Model;
use tl_bank::{Action, Bank, Share, When};
use tl_map::Geometry;
use tl_protocol::Event;
use tl_types::{BankNo, BlockNo, CLIENTS, ClientId, Grow, Perm, Prune, Ticket};

/// A bank with its shares and the clocks of its clients. Its model says nothing, so that a cycle of many calls has
/// their answers alone to carry along.
#[derive(Drop)]
pub(crate) struct Driven {
    bank: Bank,
    shares: ArrayVec<Share, CLIENTS>,
    clocks: ArrayVec<u64, CLIENTS>,
}

impl Model for Driven {
    ghost Value = { Unit {0} };

    ghost view = { λ _. tt };
}

impl Driven {
    /// Bank 0 of a geometry at reset, over a memory of zeros.
    pub(crate) fn new(alloc: Global, geometry: Geometry) -> Option<Driven> {
        if geometry.banks() == 0 {
            return None;
        }
        let (bank, shares) = Bank::new(alloc, geometry, BankNo::new(0), &[]).ok()?;
        let mut clocks = ArrayVec::new();
        for _ in 0..CLIENTS {
            let _ = clocks.try_push(0);
        }
        Some(Driven {
            bank,
            shares,
            clocks,
        })
    }

    /// Makes room for so many events, where there is memory for them.
    pub(crate) fn reserve(&mut self, events: usize) {
        let _ = self.bank.reserve_steps(events);
    }

    /// Forgets the log so far where it has no room for a cycle.
    pub(crate) fn forget_if_full(&mut self) {
        if self.bank.room() < 32 {
            self.bank.forget();
        }
    }

    /// Forgets the log so far.
    pub(crate) fn forget(&mut self) {
        self.bank.forget();
    }

    /// How many events happened.
    pub(crate) fn events(&self) -> usize {
        self.bank.events()
    }

    /// What happened, without what is forgotten.
    pub(crate) fn log(&self) -> &[Event] {
        self.bank.log()
    }

    /// A client asks for a copy, and home takes up what it asked.
    fn ask(&mut self, client: ClientId, block: BlockNo, grow: Grow) -> Option<()> {
        let asked = self.bank.acquire(client, block, grow).ok()?;
        self.bank.accept(asked).ok()
    }

    /// Home goes on with a block.
    fn advance(&mut self, block: BlockNo) -> Option<Action> {
        self.bank.advance(block).ok()
    }

    /// Home is asked to go on with a block that no register has.
    pub(crate) fn refuse(&mut self, block: BlockNo) -> Option<()> {
        match self.advance(block) {
            None => Some(()),
            Some(_) => None,
        }
    }

    /// What a client may do with a block, of which it has a copy.
    pub(crate) fn view(&self, client: ClientId, block: BlockNo) -> Option<()> {
        match self.bank.perm(client, block) {
            Perm::Tip => Some(()),
            _ => None,
        }
    }

    /// The memory answers.
    fn serve(&mut self, block: BlockNo) -> Option<()> {
        let _ = self.bank.serve_memory(block).ok()?;
        self.bank.take_memory(block).ok()
    }

    /// A client answers a Probe, and home takes the answer.
    fn answer(&mut self, probe: Ticket) -> Option<()> {
        let share = self.shares.as_mut_slice().get_mut(probe.client.index())?;
        let answer = self.bank.answer_probe(probe, share).ok()?;
        let _ = self.bank.take_c(answer).ok()?;
        Some(())
    }

    /// A client takes a Grant, and home takes the word that it did.
    fn take_grant(&mut self, client: ClientId, grant: Ticket) -> Option<()> {
        let share = self.shares.as_mut_slice().get_mut(client.index())?;
        let acknowledged = self.bank.take_grant(grant, share).ok()?;
        self.bank.take_grant_ack(acknowledged).ok()
    }

    /// A client gets a copy.
    pub(crate) fn fetch(&mut self, client: ClientId, block: BlockNo, grow: Grow) -> Option<()> {
        self.ask(client, block, grow)?;
        for _ in 0..64 {
            match self.advance(block)? {
                Action::Get => self.serve(block)?,
                Action::Put(victim) => self.serve(victim)?,
                Action::Drop => {}
                Action::Probe(probe) => self.answer(probe)?,
                Action::Grant(grant) => return self.take_grant(client, grant),
            }
        }
        None
    }

    /// A client gives up a part of its copy: what home answers.
    fn release(&mut self, client: ClientId, block: BlockNo, prune: Prune) -> Option<Ticket> {
        let share = self.shares.as_mut_slice().get_mut(client.index())?;
        let given = self.bank.release(client, block, prune, share).ok()?;
        self.bank.take_c(given).ok()?
    }

    /// A client gives its copy up.
    pub(crate) fn give_up(&mut self, client: ClientId, block: BlockNo, prune: Prune) -> Option<()> {
        let answer = self.release(client, block, prune)?;
        self.bank.take_release_ack(answer).ok()
    }

    /// A client loads four bytes at its own clock.
    pub(crate) fn load(&mut self, client: ClientId, address: u32, index: u32) -> Option<()> {
        let clock = self.clocks.as_mut_slice().get_mut(client.index())?;
        let when = When {
            clock: *clock,
            index,
        };
        let loaded = self.bank.load(client, address, 4, when).ok()?;
        *clock = loaded.stamp;
        Some(())
    }

    /// A client stores four bytes at its own clock.
    pub(crate) fn store(
        &mut self,
        client: ClientId,
        address: u32,
        index: u32,
        i: u32,
    ) -> Option<()> {
        let clock = self.clocks.as_mut_slice().get_mut(client.index())?;
        let when = When {
            clock: *clock,
            index,
        };
        let value = i.to_le_bytes();
        *clock = self.bank.store(client, address, &value, when).ok()?;
        Some(())
    }
}
