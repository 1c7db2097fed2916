//! A client's port to the locked banks.
ghost use Rattle.std.specs.Prelude.{◌≡◌, ◌<◌, ◌++◌, ◌∷◌, [], length, IfErr, OnOk};
ghost use Rattle.tl_bank_spec.specs.declared.refusal.Refusal.TheVariants.{Memory as NoMemory};
ghost use Rattle.tl_client_ports.specs.Ports.{asked};

use crate::gate::{Gate, Who};
use crate::history::History;
use crate::locked::Locked;
use crate::port::{Asked, Port, Success};
use std::alloc::Global;
use std::marker::Model;
use std::sync::{MutexGuard, Wait};
use tl_bank::{Bank, Loaded, Refusal, Share, When};
use tl_types::{AccessBytes, BankNo, BlockNo, ClientId, Grow, Perm, Prune, Ticket};

/// A client's port: each call locks the bank that it asks, and no other. It keeps the loads and stores that succeeded,
/// oldest first; where there is no room for one more, a load or a store is refused `Memory`, and no bank is asked.
/// Contracts also see the tickets that were asked in this turn.
#[derive(Drop)]
pub struct ClientPort<'a, R: Wait, G: Gate> {
    rt: &'a R,
    locked: &'a Locked,
    gate: &'a G,
    client: ClientId,
    successes: Vec<Success>,
    asked: History<Asked>,
}

impl<'a, R: Wait, G: Gate> Model for ClientPort<'a, R, G> {
    ghost use Rattle.std.specs.Prelude.{vec_capacity};
    ghost use Rattle.tl_client_ports.specs.Ports.{OfClient};

    ghost Value = { OfClient };

    ghost view = { λ p.
        record { client = p.client; successes = p.successes.items; room = vec_capacity p.successes; asked = p.asked } };
}

impl<'a, R: Wait, G: Gate> ClientPort<'a, R, G> {
    /// A port at which nothing has succeeded and nothing was asked yet.
    pub(crate) fn new(
        rt: &'a R,
        alloc: Global,
        locked: &'a Locked,
        gate: &'a G,
        client: ClientId,
    ) -> ClientPort<'a, R, G>
        ensures { result ≡ record { client = client; successes = []; room = 0; asked = [] } }
    {
        ClientPort {
            rt,
            locked,
            gate,
            client,
            successes: Vec::new(alloc),
            asked: History::new(),
        }
    }

    /// Notes a ticket that was asked, and whether it was served.
    fn note(&mut self, ticket: Ticket, served: bool)
        ensures { self.new ≡ record self.old { asked = self.old.asked ++ asked ticket served ∷ [] } }
    {
        self.asked.push(Asked { ticket, served });
    }

    /// Makes room for one more success. Want of memory is the only refusal.
    fn make_room(&mut self) -> Result<(), Refusal>
        ensures room { OnOk result (length self.new.successes < self.new.room) }
        ensures memory { IfErr result (λ refusal. refusal ≡ NoMemory) }
        ensures same { self.new ≡ record self.old { room = self.new.room } }
    {
        if self.successes.reserve(1).is_err() {
            return Err(Refusal::Memory);
        }
        Ok(())
    }

    /// Takes the lock of a bank, if there is one with this number.
    fn enter(&self, number: BankNo) -> Result<MutexGuard<'a, Bank>, Refusal> {
        let locked = self.locked.bank(number).ok_or(Refusal::OutOfRange)?;
        let bank = locked.lock(self.rt);
        self.gate.locked(number, Who::Client(self.client));
        Ok(bank)
    }

    /// Gives the lock of a bank back.
    fn leave(&self, number: BankNo, bank: MutexGuard<'_, Bank>) {
        drop(bank);
        self.gate.left(number, Who::Client(self.client));
    }

    /// Asks the bank of an address for a load, where a success can be kept.
    fn ask_load(
        &self,
        client: ClientId,
        address: u32,
        len: usize,
        when: When,
    ) -> Result<Loaded, Refusal>
        requires { length self.now.successes < self.now.room }
    {
        let number = self.locked.bank_at(address);
        let mut bank = self.enter(number)?;
        let answer = bank.load(client, address, len, when);
        self.leave(number, bank);
        answer
    }

    /// Asks the bank of an address for a store, where a success can be kept.
    fn ask_store(
        &self,
        client: ClientId,
        address: u32,
        bytes: &[u8],
        when: When,
    ) -> Result<u64, Refusal>
        requires { length self.now.successes < self.now.room }
    {
        let number = self.locked.bank_at(address);
        let mut bank = self.enter(number)?;
        let answer = bank.store(client, address, bytes, when);
        self.leave(number, bank);
        answer
    }

    /// Asks a Probe's bank to take its answer.
    fn ask_probe(&self, ticket: Ticket, share: &mut Share) -> Result<Ticket, Refusal> {
        let number = ticket.bank;
        let mut bank = self.enter(number)?;
        let answer = bank.answer_probe(ticket, share);
        self.leave(number, bank);
        answer
    }

    /// Asks a Grant's bank for the Grant.
    fn ask_grant(&self, ticket: Ticket, share: &mut Share) -> Result<Ticket, Refusal> {
        let number = ticket.bank;
        let mut bank = self.enter(number)?;
        let answer = bank.take_grant(ticket, share);
        self.leave(number, bank);
        answer
    }

    /// Asks a ReleaseAck's bank for the ReleaseAck.
    fn ask_release_ack(&self, ticket: Ticket) -> Result<(), Refusal> {
        let number = ticket.bank;
        let mut bank = self.enter(number)?;
        let answer = bank.take_release_ack(ticket);
        self.leave(number, bank);
        answer
    }
}

impl<'a, R: Wait, G: Gate> Port for ClientPort<'a, R, G> {
    ghost successes = { λ p. p.successes };

    ghost asked = { λ p. p.asked };

    fn begin(&mut self) {
        self.asked = History::new();
    }

    fn successes(&self) -> &[Success] {
        &self.successes
    }

    fn load(
        &mut self,
        client: ClientId,
        address: u32,
        len: usize,
        when: When,
    ) -> Result<Loaded, Refusal> {
        self.make_room()?;
        let loaded = self.ask_load(client, address, len, when)?;
        self.successes.push_reserved(Success::Loaded {
            client,
            address,
            len,
            bytes: loaded.access(),
            when,
            stamp: loaded.stamp,
        });
        Ok(loaded)
    }

    fn store(
        &mut self,
        client: ClientId,
        address: u32,
        bytes: &[u8],
        when: When,
    ) -> Result<u64, Refusal> {
        self.make_room()?;
        let Some(stored) = AccessBytes::from_slice(bytes) else {
            return Err(Refusal::OutOfRange);
        };
        let stamp = self.ask_store(client, address, bytes, when)?;
        self.successes.push_reserved(Success::Stored {
            client,
            address,
            bytes: stored,
            when,
            stamp,
        });
        Ok(stamp)
    }

    fn acquire(&mut self, client: ClientId, block: BlockNo, grow: Grow) -> Result<Ticket, Refusal> {
        let number = self.locked.bank_of(block);
        let mut bank = self.enter(number)?;
        let answer = bank.acquire(client, block, grow);
        self.leave(number, bank);
        answer
    }

    fn release(
        &mut self,
        client: ClientId,
        block: BlockNo,
        prune: Prune,
        share: &mut Share,
    ) -> Result<Ticket, Refusal> {
        let number = self.locked.bank_of(block);
        let mut bank = self.enter(number)?;
        let answer = bank.release(client, block, prune, share);
        self.leave(number, bank);
        answer
    }

    fn answer_probe(&mut self, ticket: Ticket, share: &mut Share) -> Result<Ticket, Refusal> {
        let again = ticket;
        let answer = self.ask_probe(ticket, share);
        self.note(again, answer.is_ok());
        answer
    }

    fn take_grant(&mut self, ticket: Ticket, share: &mut Share) -> Result<Ticket, Refusal> {
        let again = ticket;
        let answer = self.ask_grant(ticket, share);
        self.note(again, answer.is_ok());
        answer
    }

    fn take_release_ack(&mut self, ticket: Ticket) -> Result<(), Refusal> {
        let again = ticket;
        let answer = self.ask_release_ack(ticket);
        self.note(again, answer.is_ok());
        answer
    }

    fn perm(&self, client: ClientId, block: BlockNo) -> Perm {
        let number = self.locked.bank_of(block);
        let Ok(bank) = self.enter(number) else {
            return Perm::None;
        };
        let perm = bank.perm(client, block);
        self.leave(number, bank);
        perm
    }

    fn oldest_copy(&self, client: ClientId, number: BankNo) -> Option<BlockNo> {
        let bank = self.enter(number).ok()?;
        let oldest = bank.oldest_copy(client);
        self.leave(number, bank);
        oldest
    }
}
