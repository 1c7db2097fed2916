//! A home's port to its bank.
ghost use Rattle.std.specs.Prelude.{◌≡◌, ◌++◌, ◌∷◌, []};
ghost use Rattle.tl_client_ports.specs.Ports.{asked};

use crate::gate::{Gate, Who};
use crate::history::History;
use crate::locked::LockedBank;
use crate::port::{Asked, FirstStep, HomePort};
use arrayvec::ArrayVec;
use std::marker::Model;
use std::sync::{MutexGuard, Wait};
use tl_bank::{Action, Bank, Refusal, Reply};
use tl_types::{BlockNo, Ticket};

/// A home's port: each call locks its bank. Contracts see the number of the bank, and the tickets that were asked in
/// this turn.
#[derive(Drop)]
pub struct BankPort<'a, R: Wait, G: Gate> {
    rt: &'a R,
    locked: &'a LockedBank,
    gate: &'a G,
    asked: History<Asked>,
}

impl<'a, R: Wait, G: Gate> Model for BankPort<'a, R, G> {
    ghost use Rattle.tl_client_ports.specs.Ports.{BankPortView};

    ghost Value = { BankPortView };

    ghost view = { λ p. record { bank = p.locked.now.number; asked = p.asked } };
}

impl<'a, R: Wait, G: Gate> BankPort<'a, R, G> {
    /// A port to a bank, at which nothing was asked yet.
    pub(crate) fn new(rt: &'a R, locked: &'a LockedBank, gate: &'a G) -> BankPort<'a, R, G>
        ensures { (result.bank ≡ locked.now.number) × (result.asked ≡ []) }
    {
        BankPort {
            rt,
            locked,
            gate,
            asked: History::new(),
        }
    }

    /// Notes a ticket that was asked, and whether it was served.
    fn note(&mut self, ticket: Ticket, served: bool)
        ensures { self.new ≡ record self.old { asked = self.old.asked ++ asked ticket served ∷ [] } }
    {
        self.asked.push(Asked { ticket, served });
    }

    /// Takes the bank's lock.
    fn enter(&self) -> MutexGuard<'a, Bank> {
        let bank = self.locked.lock(self.rt);
        self.gate.locked(self.locked.number, Who::Home);
        bank
    }

    /// Gives the bank's lock back.
    fn leave(&self, bank: MutexGuard<'_, Bank>) {
        drop(bank);
        self.gate.left(self.locked.number, Who::Home);
    }
}

impl<'a, R: Wait, G: Gate> HomePort for BankPort<'a, R, G> {
    ghost asked = { λ p. p.asked };

    fn begin(&mut self) {
        self.asked = History::new();
    }

    fn accept(&mut self, ticket: Ticket) -> Result<(), Refusal> {
        let again = ticket;
        let mut bank = self.enter();
        let answer = bank.accept(ticket);
        self.leave(bank);
        self.note(again, answer.is_ok());
        answer
    }

    fn take_c(&mut self, ticket: Ticket) -> Result<Option<Ticket>, Refusal> {
        let again = ticket;
        let mut bank = self.enter();
        let answer = bank.take_c(ticket);
        self.leave(bank);
        self.note(again, answer.is_ok());
        answer
    }

    fn take_grant_ack(&mut self, ticket: Ticket) -> Result<(), Refusal> {
        let again = ticket;
        let mut bank = self.enter();
        let answer = bank.take_grant_ack(ticket);
        self.leave(bank);
        self.note(again, answer.is_ok());
        answer
    }

    fn advance(&mut self, block: BlockNo) -> Result<Action, Refusal> {
        let mut bank = self.enter();
        let answer = bank.advance(block);
        self.leave(bank);
        answer
    }

    fn evict(&mut self, block: BlockNo) -> Result<(), Refusal> {
        let mut bank = self.enter();
        let answer = bank.evict(block);
        self.leave(bank);
        answer
    }

    fn serve_memory(&mut self, block: BlockNo) -> Result<Reply, Refusal> {
        let mut bank = self.enter();
        let answer = bank.serve_memory(block);
        self.leave(bank);
        answer
    }

    fn take_memory(&mut self, block: BlockNo) -> Result<(), Refusal> {
        let mut bank = self.enter();
        let answer = bank.take_memory(block);
        self.leave(bank);
        answer
    }

    fn open_blocks(&self) -> ArrayVec<BlockNo, 8> {
        let bank = self.enter();
        let blocks = bank.open_blocks();
        self.leave(bank);
        blocks
    }

    fn advance_first(&mut self) -> FirstStep {
        let mut bank = self.enter();
        let open = bank.open_blocks();
        let answer = match open.as_slice().first() {
            Some(block) => Some(bank.advance(*block)),
            None => None,
        };
        self.leave(bank);
        FirstStep { open, answer }
    }

    fn pass_memory(&mut self, block: BlockNo) -> Result<(), Refusal> {
        let mut bank = self.enter();
        let answer = match bank.serve_memory(block) {
            Ok(_) => bank.take_memory(block),
            Err(refusal) => Err(refusal),
        };
        self.leave(bank);
        answer
    }

    fn is_quiet(&self) -> bool {
        let bank = self.enter();
        let is_quiet = bank.is_quiet();
        self.leave(bank);
        is_quiet
    }
}
