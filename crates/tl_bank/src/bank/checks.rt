//! What the calls of clients check before they change anything: the first reason to refuse them, but for want of
//! memory, or all that they need to know.
ghost use Rattle.std.specs.Prelude.{◌≡◌, ◌+◌, None, Some, IfErr, IfOk, OnOk, slice_range};
ghost use Rattle.tl_types.specs.Message.{surrender};
ghost use Rattle.tl_types.specs.Permission.{prune_to};
ghost use Rattle.tl_types.specs.declared.channel.Channel.{Channel};
ghost use Rattle.tl_types.specs.declared.message.Body.{Body};
ghost use Rattle.tl_map.specs.Places.{block_of_address, offset_of};
ghost use Rattle.tl_protocol.specs.Copy.{bytes_of, dirty_bytes, reduced};
ghost use Rattle.tl_bank_laws.specs.Settled.{FindsGrant, FindsProbe, IsFirstOn};
ghost use Rattle.tl_bank_spec.specs.Calls.{load_cases, store_cases, acquire_cases, release_cases, answer_probe_cases, take_grant_cases, take_release_ack_cases};
ghost use Rattle.tl_bank_spec.specs.Cases.{block_named};
ghost use Rattle.tl_bank_spec.specs.Refusal.{first_of};
ghost use Rattle.tl_bank_spec.specs.View.{client_at, perm_at};

use crate::bank::Bank;
use crate::bank::tickets::{grant_in, is_release_ack};
use crate::entry;
use crate::share::Share;
use tl_bank_spec::Refusal;
use tl_protocol::CachedCopy;
use tl_types::{
    AccessBytes, Awaited, BlockNo, Body, Channel, ClientId, Grow, Message, Perm, ProbeAnswer,
    ProbeCap, Prune, Surrender, Ticket,
};

/// What a client gives up by a Release, what it is left with, and what it had.
#[derive(Drop)]
pub(super) struct PlannedRelease {
    pub(super) before: Perm,
    pub(super) copy: CachedCopy,
    pub(super) given: Surrender,
}

/// What a client answers to a Probe of a block, what it is left with, what it waits for, and what it had.
#[derive(Drop)]
pub(super) struct PlannedAnswer {
    pub(super) block: BlockNo,
    pub(super) before: Perm,
    pub(super) copy: CachedCopy,
    pub(super) wait: Awaited,
    pub(super) answer: ProbeAnswer,
}

/// What a Grant of a block makes of a client's copy, and what it had.
#[derive(Drop)]
pub(super) struct PlannedGrant {
    pub(super) block: BlockNo,
    pub(super) before: Perm,
    pub(super) copy: CachedCopy,
}

impl Bank {
    /// The bytes of a load.
    pub(super) fn check_load(
        &self,
        client: ClientId,
        address: u32,
        len: usize,
        clock: u64,
    ) -> Result<AccessBytes, Refusal>
        ensures refused { IfErr result (λ r. first_of (load_cases self.now client address len clock) ≡ Some r) }
        ensures permitted { OnOk result (first_of (load_cases self.now client address len clock) ≡ None) }
        ensures bytes { IfOk result
            (λ bytes. bytes
            ≡ slice_range (bytes_of (client_at self.now client (block_of_address self.now.geometry address)).held)
            (offset_of self.now.geometry address) (offset_of self.now.geometry address + len)) }
    {
        if self.is_bad_access(client, address, len) {
            return Err(Refusal::OutOfRange);
        }
        let block = self.geometry.block_at(address);
        if self.is_elsewhere(block) {
            return Err(Refusal::WrongBank);
        }
        let held = self.entry(client, block);
        if entry::perm_in(held) == Perm::None {
            return Err(Refusal::NoPermission);
        }
        if self.is_clock_full(clock) {
            return Err(Refusal::ClockFull);
        }
        let bytes = entry::read_in(held, self.geometry.offset(address), len as u32);
        Ok(bytes)
    }

    /// Where the copy is that a store writes.
    pub(super) fn check_store(
        &self,
        client: ClientId,
        address: u32,
        len: usize,
        clock: u64,
    ) -> Result<usize, Refusal>
        ensures refused { IfErr result (λ r. first_of (store_cases self.now client address len clock) ≡ Some r) }
        ensures permitted { OnOk result (first_of (store_cases self.now client address len clock) ≡ None) }
    {
        if self.is_bad_access(client, address, len) {
            return Err(Refusal::OutOfRange);
        }
        let block = self.geometry.block_at(address);
        if self.is_elsewhere(block) {
            return Err(Refusal::WrongBank);
        }
        let Some(place) = self.place(client, block) else {
            return Err(Refusal::NoPermission);
        };
        if self.perm_near(client, block, place) != Perm::Tip {
            return Err(Refusal::NoPermission);
        }
        if self.is_clock_full(clock) {
            return Err(Refusal::ClockFull);
        }
        Ok(place)
    }

    /// Why a client may not ask for more of a block. Want of memory is asked after this.
    pub(super) fn check_acquire(
        &self,
        client: ClientId,
        block: BlockNo,
        grow: Grow,
    ) -> Result<(), Refusal>
        ensures refused { IfErr result (λ r. first_of (acquire_cases self.now client block grow) ≡ Some r) }
        ensures permitted { OnOk result (first_of (acquire_cases self.now client block grow) ≡ None) }
    {
        if self.is_absent(client, block) {
            return Err(Refusal::OutOfRange);
        }
        if self.is_elsewhere(block) {
            return Err(Refusal::WrongBank);
        }
        let held = self.entry(client, block);
        if entry::waits_in(held) {
            return Err(Refusal::Waiting);
        }
        if entry::perm_in(held) != grow.from() {
            return Err(Refusal::WrongFrom);
        }
        if held.is_none() && self.is_table_full(client) {
            return Err(Refusal::CopiesFull);
        }
        if self.is_link_full(client, Channel::A) {
            return Err(Refusal::LinkFull);
        }
        Ok(())
    }

    /// What a Release gives up.
    pub(super) fn check_release(
        &self,
        client: ClientId,
        block: BlockNo,
        prune: Prune,
        share: &Share,
    ) -> Result<PlannedRelease, Refusal>
        ensures refused { IfErr result (λ r. first_of (release_cases self.now client block prune share.now) ≡ Some r) }
        ensures permitted { OnOk result (first_of (release_cases self.now client block prune share.now) ≡ None) }
        ensures before { IfOk result (λ g. g.before ≡ perm_at self.now client block) }
        ensures copy { IfOk result (λ g. g.copy ≡ reduced (client_at self.now client block).held (prune_to prune)) }
        ensures given { IfOk result
            (λ g. g.given ≡ surrender prune (dirty_bytes (client_at self.now client block).held)) }
    {
        if self.is_absent(client, block) || self.is_bad_share(client, share) {
            return Err(Refusal::OutOfRange);
        }
        if self.is_elsewhere(block) || share.bank() != self.number {
            return Err(Refusal::WrongBank);
        }
        let held = self.entry(client, block);
        if entry::waits_in(held) {
            return Err(Refusal::Waiting);
        }
        let before = entry::perm_in(held);
        if before != prune.from() {
            return Err(Refusal::WrongFrom);
        }
        if self.is_link_full(client, Channel::C) {
            return Err(Refusal::LinkFull);
        }
        Ok(PlannedRelease {
            before,
            copy: entry::reduced_in(held, prune.to()),
            given: Surrender::of(prune, entry::dirty_in(held)),
        })
    }

    /// The block that a ReleaseAck is of.
    pub(super) fn check_release_ack(&self, ticket: &Ticket) -> Result<BlockNo, Refusal>
        ensures refused { IfErr result (λ r. first_of (take_release_ack_cases self.now ticket.now) ≡ Some r) }
        ensures permitted { OnOk result (first_of (take_release_ack_cases self.now ticket.now) ≡ None) }
        ensures block { IfOk result (λ block. block ≡ block_named self.now ticket.now Channel.D) }
    {
        let message = self.ticket_message(ticket, Channel::D)?;
        if !is_release_ack(&message.body) {
            return Err(Refusal::NotHead);
        }
        Ok(message.block)
    }

    /// The answer to a Probe.
    pub(super) fn check_answer(
        &self,
        ticket: &Ticket,
        share: &Share,
    ) -> Result<PlannedAnswer, Refusal>
        ensures refused { IfErr result (λ r. first_of (answer_probe_cases self.now ticket.now share.now) ≡ Some r) }
        ensures permitted { OnOk result (first_of (answer_probe_cases self.now ticket.now share.now) ≡ None) }
        ensures finds { IfOk result
            (λ p. FindsProbe self.now ticket.now.client p.block p.copy p.wait p.before p.answer) }
    {
        let message = self.shared_message(ticket, share, Channel::B)?;
        let held = self.entry(ticket.client, message.block);
        let wait = entry::wait_in(held);
        if wait == Awaited::ForReleaseAck {
            return Err(Refusal::ReleasePending);
        }
        if self.is_link_full(ticket.client, Channel::C) {
            return Err(Refusal::LinkFull);
        }
        let cap = self.probe_cap(ticket.client, message);
        let before = entry::perm_in(held);
        Ok(PlannedAnswer {
            block: message.block,
            before,
            copy: entry::reduced_in(held, cap.perm()),
            wait,
            answer: ProbeAnswer::of(before, cap, entry::dirty_in(held)),
        })
    }

    /// What the first message on its way to a client on channel B, which is a Probe, leaves at most.
    fn probe_cap(&self, client: ClientId, message: &Message) -> ProbeCap
        requires { IsFirstOn self.now client Channel.B message.now }
        ensures { message.now.body ≡ Body.ProbeBlock result }
    {
        // For the prover: the clauses alone name the client, and the bank's layers say that the message is a Probe.
        let _ = (client, self.geometry);
        let Body::ProbeBlock(cap) = message.body else {
            unreachable!()
        };
        cap
    }

    /// What a Grant makes of a client's copy.
    pub(super) fn check_grant(
        &self,
        ticket: &Ticket,
        share: &Share,
    ) -> Result<PlannedGrant, Refusal>
        ensures refused { IfErr result (λ r. first_of (take_grant_cases self.now ticket.now share.now) ≡ Some r) }
        ensures permitted { OnOk result (first_of (take_grant_cases self.now ticket.now share.now) ≡ None) }
        ensures finds { IfOk result (λ g. FindsGrant self.now ticket.now.client g.block g.before g.copy) }
    {
        let message = self.shared_message(ticket, share, Channel::D)?;
        let Some((cap, bytes)) = grant_in(&message.body) else {
            return Err(Refusal::NotHead);
        };
        if self.is_link_full(ticket.client, Channel::E) {
            return Err(Refusal::LinkFull);
        }
        let held = self.entry(ticket.client, message.block);
        Ok(PlannedGrant {
            block: message.block,
            before: entry::perm_in(held),
            copy: entry::granted_in(held, cap, bytes),
        })
    }
}
