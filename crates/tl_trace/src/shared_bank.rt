//! A bank with its clients' shares.
ghost use Rattle.std.specs.Prelude.{◌≡◌, ℕ, ◌<◌, ◌≤◌, ◌*◌, List, IfErr, IfOk, MatchResult, OnErr, OnOk, length};
ghost use Rattle.tl_protocol.specs.declared.event.Event.{Event};
ghost use Rattle.tl_bank_spec.specs.Steps.{Forgets};
ghost use Rattle.tl_bank_spec.specs.Views.{IsQuiet};
ghost use Rattle.tl_trace.specs.Rests.{IsAway, Takes};
ghost use Rattle.tl_trace.specs.NetworkSteps.{IsRefusedAt, IsStarvedAt, IsStepAt};
ghost use Rattle.tl_types.specs.declared.message.Body.{Body};
ghost use Rattle.tl_script_words.specs.declared.step.TicketCall.{TicketCall};
ghost use Rattle.tl_trace.specs.NetworkState.{HasRoom, IsFresh, share_place};
ghost use Rattle.tl_trace.specs.Would.{WouldRefuseAt, WouldSendAt};

use crate::act::act;
use crate::asked::client_named;
use crate::client_steps::{load_bytes, store_bytes};
use arrayvec::ArrayVec;
use std::alloc::{AllocError, Global};
use std::marker::Model;
use tl_bank::{Bank, Refusal, Share};
use tl_bank_rest::{drain, flush};
use tl_map::Geometry;
use tl_script_words::Step;
use tl_text::Answer;
use tl_types::{
    AccessBytes, BankNo, BlockNo, Body, CLIENTS, ClientId, Message, Prune, Ticket, Upward,
};

/// A bank, and the share of each client in it.
#[derive(Drop)]
pub(crate) struct SharedBank {
    bank: Bank,
    shares: ArrayVec<Share, CLIENTS>,
}

impl Model for SharedBank {
    ghost use Rattle.std.specs.Prelude.{◌<◌, length};
    ghost use Rattle.tl_bank_rest.specs.Shares.{AreShares};
    ghost use Rattle.tl_trace.specs.NetworkState.{SharedBankState};

    ghost Value = { SharedBankState };

    ghost view = { λ s. record { bank = s.bank; shares = s.shares.items } };

    ghost invariant = { λ s. (0 < length s.shares.items) × AreShares s.bank s.shares.items };
}

impl SharedBank {
    /// A bank at reset over an image that is no longer than the memory.
    pub(crate) fn new(
        alloc: Global,
        geometry: Geometry,
        number: BankNo,
        image: &[u8],
    ) -> Result<SharedBank, AllocError>
        requires number { number < geometry.banks }
        requires image { length image.now ≤ geometry.memory_blocks * geometry.block_bytes }
        ensures { IfOk result (IsFresh geometry image.now number) }
    {
        // For the prover: a geometry has a client.
        let _clients = geometry.clients();
        let (bank, shares) = Bank::new(alloc, geometry, number, image)?;
        Ok(SharedBank { bank, shares })
    }

    /// The bank.
    pub(crate) fn bank(&self) -> &Bank
        ensures { result.now ≡ self.now.bank }
    {
        &self.bank
    }

    /// A step, asked of the bank, with the clock of the client that it names.
    pub(crate) fn ask(
        &mut self,
        clock: &mut u64,
        index: u32,
        step: &Step,
        answer: &mut Answer,
    ) -> Result<(), AllocError>
        ensures memory { OnErr result (IsStarvedAt self.old self.new clock.old clock.new) }
        ensures answer { OnOk result (IsStepAt index step.now self.old self.new clock.old clock.new answer.new) }
    {
        let place = self.share_place(client_named(step));
        let share = &mut self.shares[place];
        let done = act(&mut self.bank, share, clock, index, step, answer);
        // For the prover: the log is a run, so the shares are the clients' own.
        let _log = self.bank.log();
        done
    }

    /// A load, asked of the bank with the clock of the client, which becomes the stamp of the access.
    pub(crate) fn load(
        &mut self,
        clock: &mut u64,
        index: u32,
        client: ClientId,
        address: u32,
        len: u8,
    ) -> Result<AccessBytes, Refusal>
        ensures refused { IfErr result
            (IsRefusedAt index (Step.Load client address len) self.old self.new clock.old clock.new) }
        ensures done { IfOk result
            (λ bytes. IsStepAt index (Step.Load client address len) self.old self.new clock.old clock.new
            (Answer.Loaded bytes)) }
    {
        // For the prover: the client has a share here, which an access leaves as it is.
        let _place = self.share_place(client);
        let loaded = load_bytes(&mut self.bank, clock, index, client, address, len);
        // For the prover: the log is a run.
        let _log = self.bank.log();
        loaded
    }

    /// A store, asked of the bank with the clock of the client, which becomes the stamp of the access.
    pub(crate) fn store(
        &mut self,
        clock: &mut u64,
        index: u32,
        client: ClientId,
        address: u32,
        bytes: &[u8],
    ) -> Result<(), Refusal>
        ensures refused { IfErr result
            (IsRefusedAt index (Step.Store client address bytes.now) self.old self.new clock.old clock.new) }
        ensures done { IfOk result
            (λ _. IsStepAt index (Step.Store client address bytes.now)
            self.old self.new clock.old clock.new Answer.Done) }
    {
        // For the prover: the client has a share here, which an access leaves as it is.
        let _place = self.share_place(client);
        let stored = store_bytes(&mut self.bank, clock, index, client, address, bytes);
        // For the prover: the log is a run.
        let _log = self.bank.log();
        stored
    }

    /// What a Release would send, or the first refusal that stands against it, but for want of memory.
    pub(crate) fn would_release(
        &self,
        client: ClientId,
        block: BlockNo,
        prune: Prune,
    ) -> Result<Message, Refusal>
        ensures { MatchResult result
            (λ message. (clock : ℕ) → WouldSendAt self.now clock (Step.Release client block prune) message)
            (λ refusal. (clock : ℕ) → WouldRefuseAt self.now clock (Step.Release client block prune) refusal) }
    {
        let share = &self.shares[self.share_place(client)];
        match self.bank.would_release(client, block, prune, share) {
            Ok(given) => Ok(on_c(block, Upward::Release(given))),
            Err(refusal) => Err(refusal),
        }
    }

    /// What the answer to a Probe would send, or the first refusal that stands against it, but for want of memory.
    pub(crate) fn would_answer(&self, ticket: Ticket) -> Result<Message, Refusal>
        ensures { MatchResult result
            (λ message. (clock : ℕ) → WouldSendAt self.now clock (Step.Ticket TicketCall.AnswerProbe ticket) message)
            (λ refusal. (clock : ℕ)
            → WouldRefuseAt self.now clock (Step.Ticket TicketCall.AnswerProbe ticket) refusal) }
    {
        let share = &self.shares[self.share_place(ticket.client)];
        match self.bank.would_answer(ticket, share) {
            Ok(found) => Ok(on_c(found.0, Upward::ProbeAck(found.1))),
            Err(refusal) => Err(refusal),
        }
    }

    /// Makes room in the bank's log for `count` more events. It is refused only for want of memory, and then nothing
    /// changed.
    pub(crate) fn reserve_steps(&mut self, count: usize) -> Result<(), Refusal>
        ensures unchanged { OnErr result (self.new ≡ self.old) }
        ensures short { OnErr result (self.old.bank.room < count) }
        ensures room { OnOk result (HasRoom count self.old self.new) }
    {
        self.bank.reserve_steps(count)
    }

    /// Forgets the bank's log so far.
    pub(crate) fn forget(&mut self)
        ensures shares { self.new.shares ≡ self.old.shares }
        ensures forgets { Forgets self.old.bank self.new.bank }
    {
        self.bank.forget();
    }

    /// Takes what is under way in the bank until it is quiet. How many events came; the error is `Memory` where there
    /// was none for one more, and what was received before that stays.
    pub(crate) fn drain(&mut self) -> Result<u64, Refusal>
        ensures takes { (events : List Event) × Takes self.old self.new events
            × IfOk result (λ count. length events ≡ count) }
        ensures short { IfErr result (λ refusal. (refusal ≡ Refusal.Memory) × (self.new.bank.room ≡ 0)) }
        ensures quiet { OnOk result (IsQuiet self.new.bank) }
    {
        drain(&mut self.bank, &mut self.shares)
    }

    /// Does that, and then sends each block away of which home has a copy.
    pub(crate) fn flush(&mut self) -> Result<u64, Refusal>
        ensures takes { (events : List Event) × Takes self.old self.new events
            × IfOk result (λ count. length events ≡ count) }
        ensures short { IfErr result (λ refusal. (refusal ≡ Refusal.Memory) × (self.new.bank.room ≡ 0)) }
        ensures away { OnOk result (IsAway self.new.bank) }
    {
        flush(&mut self.bank, &mut self.shares)
    }

    /// The place of a client's share; that of client 0's for a client that is not there.
    fn share_place(&self, client: ClientId) -> usize
        ensures is { result ≡ share_place self.now.shares client }
        ensures inside { result < length self.now.shares }
    {
        if client.index() < self.shares.len() {
            client.index()
        } else {
            0
        }
    }
}

/// A message on C.
fn on_c(block: BlockNo, message: Upward) -> Message
    ensures { result ≡ record { block = block; body = Body.Upward message } }
{
    Message {
        block,
        body: Body::Upward(message),
    }
}
