//! A client's port to no bank, at which tests see what an agent asks.
ghost use Rattle.std.specs.Prelude.{◌≡◌, ◌++◌, ◌∷◌, [], MatchResult};
ghost use Rattle.tl_bank_spec.specs.declared.refusal.Refusal.TheVariants.{Memory as NoMemory};
ghost use Rattle.tl_client_ports.specs.Ports.{Asks, asked};

use crate::counts::count;
use std::alloc::Global;
use std::cell::Cell;
use tl_bank::{Loaded, Refusal, Share, When};
use tl_client::{Asked, Port, Success};
use tl_types::{BankNo, BlockNo, Channel, ClientId, Grow, Perm, Prune, Ticket};

/// A port to no bank: it counts its calls, and refuses all of them, an acquire and a release as it is told. The tickets
/// that it is asked it keeps, and what was to grow and to be pruned. It serves Grants and Probes once it is told to.
#[derive(Drop)]
pub struct Recorder {
    pub calls: Cell<u32>,
    pub asked: Vec<Asked>,
    pub refuses: bool,
    pub grows: Vec<Grow>,
    pub prunes: Vec<Prune>,
    /// Why it refuses an acquire and a release.
    pub why: Refusal,
    /// What each client may do with each block, as it says.
    pub perm: Perm,
    /// Whether it sends an Acquire that it is asked for.
    pub acquires: bool,
    /// How many loads it was asked for.
    pub loads: u32,
}

impl Recorder {
    /// A port that refuses, and was not called.
    pub fn new(alloc: Global) -> Recorder {
        Recorder {
            calls: Cell::new(0),
            asked: Vec::new(alloc),
            refuses: true,
            grows: Vec::new(alloc),
            prunes: Vec::new(alloc),
            why: Refusal::NotYet,
            perm: Perm::None,
            acquires: false,
            loads: 0,
        }
    }

    /// Keeps a ticket that was asked, and whether it was served; want of memory is a refusal.
    fn note(&mut self, ticket: Ticket, served: bool) -> Result<(), Refusal>
        ensures { MatchResult result
            (λ _. self.new.asked.items ≡ self.old.asked.items ++ asked ticket served ∷ [])
            (λ refusal. refusal ≡ NoMemory) }
    {
        count(&self.calls);
        if self.asked.push(Asked { ticket, served }).is_err() {
            return Err(Refusal::Memory);
        }
        Ok(())
    }

    /// Answers a ticket on a channel, or refuses.
    fn answer(&mut self, ticket: Ticket, channel: Channel) -> Result<Ticket, Refusal>
        ensures { Asks ticket result self.old.asked.items self.new.asked.items }
    {
        if self.refuses {
            self.note(ticket, false)?;
            return Err(Refusal::NotYet);
        }
        let mut sent = ticket;
        sent.channel = channel;
        self.note(ticket, true)?;
        Ok(sent)
    }
}

impl Port for Recorder {
    ghost use Rattle.std.specs.Prelude.{[]};

    ghost successes = { λ p. [] };

    ghost asked = { λ p. p.asked.items };

    fn begin(&mut self) {
        self.asked.clear();
    }

    fn successes(&self) -> &[Success] {
        &[]
    }

    fn load(
        &mut self,
        _client: ClientId,
        _address: u32,
        _len: usize,
        _when: When,
    ) -> Result<Loaded, Refusal> {
        count(&self.calls);
        self.loads = self.loads.saturating_add(1);
        Err(Refusal::NoPermission)
    }

    fn store(
        &mut self,
        _client: ClientId,
        _address: u32,
        _bytes: &[u8],
        _when: When,
    ) -> Result<u64, Refusal> {
        count(&self.calls);
        Err(Refusal::NoPermission)
    }

    fn acquire(
        &mut self,
        client: ClientId,
        _block: BlockNo,
        grow: Grow,
    ) -> Result<Ticket, Refusal> {
        count(&self.calls);
        let _ = self.grows.push(grow);
        if !self.acquires {
            return Err(self.why);
        }
        Ok(Ticket {
            bank: BankNo::new(0),
            client,
            channel: Channel::A,
            serial: 0,
        })
    }

    fn release(
        &mut self,
        _client: ClientId,
        _block: BlockNo,
        prune: Prune,
        _share: &mut Share,
    ) -> Result<Ticket, Refusal> {
        count(&self.calls);
        let _ = self.prunes.push(prune);
        Err(self.why)
    }

    fn answer_probe(&mut self, ticket: Ticket, _share: &mut Share) -> Result<Ticket, Refusal> {
        self.answer(ticket, Channel::C)
    }

    fn take_grant(&mut self, ticket: Ticket, _share: &mut Share) -> Result<Ticket, Refusal> {
        self.answer(ticket, Channel::E)
    }

    fn take_release_ack(&mut self, ticket: Ticket) -> Result<(), Refusal> {
        self.note(ticket, false)?;
        Err(Refusal::NotHead)
    }

    fn perm(&self, _client: ClientId, _block: BlockNo) -> Perm {
        count(&self.calls);
        self.perm
    }

    fn oldest_copy(&self, _client: ClientId, _bank: BankNo) -> Option<BlockNo> {
        count(&self.calls);
        None
    }
}
