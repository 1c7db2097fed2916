//! The judge of a record.
ghost use Rattle.std.specs.Prelude.{◌≡◌, ◌↔◌, ◌<◌, ◌≤◌, ◌∷◌, ◌++◌, ℕ, List, [], drop, IsTrue, IfOk, IfErr, OnOk, MatchOption};
ghost use Rattle.std.specs.Option.{option_map};
ghost use Rattle.tl_protocol.specs.declared.event.Event.{Event};
ghost use Rattle.tl_protocol.specs.declared.shape.Shape.{Shape};
ghost use Rattle.tlcheck_rules.specs.Judged.{EveryLawfulRecordIsALawfulLog, EveryLawfulRecordIsARun, EveryRecordInOrderIsLawful, NoBrokenEntryIsPermitted};
ghost use Rattle.tlcheck_rules.specs.declared.judge.Refusal.TheVariants.{Broken, Memory};
ghost use Rattle.tlcheck_rules.specs.declared.judge.Breach.{Breach};
ghost use Rattle.tlcheck_rules.specs.declared.order.ChannelOrder.{ChannelOrder};

use crate::difference::{Difference, difference_of};
use crate::entry::Entry;
use crate::keeps::broken_rule;
use crate::order::{ChannelOrder, Waiting};
use crate::rule::{Rule, client_of};
use crate::sent::{sent_by, taken_channel};
use std::alloc::{AllocError, Global};
use std::marker::Model;
use tl_rules::{Event, Plain, Shape};
use tl_types::{BLOCK_BYTES, BLOCKS, BlockNo, Body, Channel, ClientId};

/// What an entry of a record breaks.
#[derive(Debug, Drop)]
pub enum Breach {
    /// A rule of the protocol.
    NotPermitted(Rule),
    /// Another message is first on the channel.
    OutOfOrder,
    /// The event sends another message than the record shows, or none.
    NotAsShown(Difference),
}

/// Why a judge goes no further.
#[derive(Debug, Drop)]
pub enum Refusal {
    /// The entry breaks this.
    Broken(Breach),
    /// A request for memory was refused.
    Memory,
}

impl From<AllocError> for Refusal {
    ghost from_gives = { λ _ refusal. refusal ≡ Memory };

    fn from(_error: AllocError) -> Refusal {
        Refusal::Memory
    }
}

/// Where the entries so far lead. It takes memory for blocks, clients and the messages that wait, and none for the
/// entries.
#[derive(Drop)]
pub struct Judge {
    plain: Plain,
    waiting: Waiting,
    order: ChannelOrder,
}

impl Model for Judge {
    ghost use Rattle.std.specs.Prelude.{◌≡◌};
    ghost use Rattle.tlcheck_rules.specs.Judged.{JudgeState};

    ghost Value = { JudgeState };

    ghost view = { λ j. record { plain = j.plain; waiting = j.waiting; order = j.order } };

    ghost invariant = { λ j. j.waiting.clients ≡ j.plain.shape.clients };
}

impl Judge {
    ghost use Rattle.tlcheck_rules.specs.Differs.{Differs};
    ghost use Rattle.tlcheck_rules.specs.Judged.{Allows, Breaks, Carries, Follows, IsPermitted, IsShown, Rejects, own_block};
    ghost use Rattle.tlcheck_rules.specs.Order.{Asks, IsNextIn, post_at, waiting_in};
    ghost use Rattle.tlcheck_rules.specs.Rules.{client_of};
    ghost use Rattle.tl_protocol.specs.Protocol.{May, block_of};
    ghost use Rattle.tl_protocol_lanes.specs.Lanes.{post_of, take_of};

    /// A judge of a record from reset over an image, in an order of the channels. The error is want of memory.
    pub fn new(
        alloc: Global,
        order: ChannelOrder,
        shape: Shape,
        image: &[u8],
    ) -> Result<Judge, AllocError>
        requires bytes { (0 < shape.block_bytes) × (shape.block_bytes ≤ BLOCK_BYTES) }
        requires blocks { shape.blocks ≤ BLOCKS }
        ensures { IfOk result (λ j. Follows order shape image.now [] j) }
    {
        let plain = Plain::new(alloc, shape, image)?;
        let waiting = Waiting::new(alloc, plain.shape().clients)?;
        Ok(Judge {
            plain,
            waiting,
            order,
        })
    }

    /// The state where the entries so far lead.
    pub fn plain(&self) -> &Plain
        ensures { result.now ≡ self.now.plain }
    {
        &self.plain
    }

    /// The block of the message that is first on a channel.
    pub fn first_on(&self, client: ClientId, channel: Channel) -> Option<BlockNo>
        ensures { MatchOption result (waiting_in self.now.waiting client channel ≡ [])
            (λ block. waiting_in self.now.waiting client channel
            ≡ block ∷ drop 1 (waiting_in self.now.waiting client channel)) }
    {
        self.waiting.first(client, channel)
    }

    /// Whether the event takes no message, or its block's is the first on the channel.
    fn takes_first(&self, event: &Event) -> bool
        ensures { IsTrue result
            ↔ IsNextIn self.now.waiting (block_of self.now.plain.shape event.now) (take_of event.now) }
    {
        match taken_channel(event) {
            None => true,
            Some(channel) => match self.waiting.first(client_of(event), channel) {
                None => false,
                Some(first) => first.number() == event.block(self.plain.shape()),
            },
        }
    }

    /// Whether the event takes a message in the order that is asked for.
    fn keeps_order(&self, event: &Event) -> bool
        ensures { IsTrue result
            ↔ Asks self.now.order (IsNextIn self.now.waiting (block_of self.now.plain.shape event.now)
            (take_of event.now)) }
    {
        match self.order {
            ChannelOrder::Whole => self.takes_first(event),
            ChannelOrder::EachBlock => true,
        }
    }

    /// What an event that may come next sends on a link, with its channel.
    pub fn sent(&self, event: &Event) -> Option<(Channel, Body)>
        requires { May self.now.plain.shape (own_block self.now event.now) event.now }
        ensures { option_map (λ sent. post_at (client_of event.now) sent.0 sent.1) result
            ≡ post_of self.now.plain.shape (own_block self.now event.now) event.now }
    {
        let shape = self.plain.shape();
        let block = self.plain.block(event.block(shape))?;
        sent_by(block, shape, event)
    }

    /// How what is shown, if something is, differs from what the event sends.
    fn difference(&self, entry: &Entry) -> Option<Difference>
        requires { May self.now.plain.shape (own_block self.now entry.now.event) entry.now.event }
        ensures { let post = post_of self.now.plain.shape (own_block self.now entry.now.event) entry.now.event in
            MatchOption result (IsShown post entry.now.shown) (λ d. Differs post entry.now.shown d) }
    {
        difference_of(&self.sent(&entry.event), &entry.shown)
    }

    /// What is left to test of an entry that shows something. It stands apart, since what it gives is large.
    #[inline(never)]
    fn breach_of_shown(&self, entry: &Entry) -> Option<Breach>
        requires may { May self.now.plain.shape (own_block self.now entry.now.event) entry.now.event }
        requires first { let event = entry.now.event in
            Asks self.now.order (IsNextIn self.now.waiting (block_of self.now.plain.shape event) (take_of event)) }
        ensures { MatchOption result (Allows self.now entry.now) (λ breach. Rejects self.now entry.now breach) }
    {
        match self.difference(entry) {
            Some(difference) => Some(Breach::NotAsShown(difference)),
            None => None,
        }
    }

    /// The first test that an entry does not meet. It and `take_allowed` stand apart, so that what they call is laid
    /// into them.
    #[inline(never)]
    pub fn breach(&self, entry: &Entry) -> Option<Breach>
        ensures { MatchOption result (Allows self.now entry.now) (λ breach. Rejects self.now entry.now breach) }
    {
        if let Some(rule) = broken_rule(&self.plain, &entry.event) {
            return Some(Breach::NotPermitted(rule));
        }
        if !self.keeps_order(&entry.event) {
            return Some(Breach::OutOfOrder);
        }
        if entry.shown.is_none() {
            return None;
        }
        self.breach_of_shown(entry)
    }

    /// Carries out an event that may come next.
    fn carry_out(&mut self, event: &Event) -> Result<(), AllocError>
        requires { May self.old.plain.shape (own_block self.old event.now) event.now }
        ensures { OnOk result (Carries self.old self.new event.now) }
    {
        let sent = self.sent(event);
        let block = BlockNo::new(event.block(self.plain.shape()));
        self.plain.carry_out(event)?;
        let client = client_of(event);
        self.waiting.leave(client, taken_channel(event));
        self.waiting.join(client, &sent, block)
    }

    /// Takes an entry against which `breach` has nothing. The error is want of memory; nothing is claimed of the judge
    /// then.
    #[inline(never)]
    pub fn take_allowed(&mut self, entry: &Entry) -> Result<(), AllocError>
        requires { Allows self.old entry.now }
        ensures { OnOk result
            ((order : ChannelOrder) (shape : Shape) (image : List ℕ) (log : List Event)
            → Follows order shape image log self.old
            → IsPermitted order shape image log entry.now
            × Follows order shape image (log ++ entry.now.event ∷ []) self.new) }
    {
        self.carry_out(&entry.event)?;
        Ok(())
    }

    /// Takes the next entry of a record, if it is permitted after those before it. `Broken` where it is not, with what
    /// it breaks, and the judge stays as it was; `Memory` where memory is refused, and nothing is claimed of the judge
    /// then.
    pub fn step(&mut self, entry: &Entry) -> Result<(), Refusal>
        ensures ok { OnOk result
            ((order : ChannelOrder) (shape : Shape) (image : List ℕ) (log : List Event)
            → Follows order shape image log self.old
            → IsPermitted order shape image log entry.now
            × Follows order shape image (log ++ entry.now.event ∷ []) self.new) }
        ensures broken { IfErr result
            (λ refusal. (breach : Breach) → refusal ≡ Broken breach
            → (order : ChannelOrder) (shape : Shape) (image : List ℕ) (log : List Event)
            → Follows order shape image log self.old → Breaks order shape image log entry.now breach) }
        ensures unchanged { IfErr result
            (λ refusal. (breach : Breach) → refusal ≡ Broken breach → self.new ≡ self.old) }
    {
        if let Some(breach) = self.breach(entry) {
            return Err(Refusal::Broken(breach));
        }
        match self.take_allowed(entry) {
            Ok(()) => Ok(()),
            Err(_) => Err(Refusal::Memory),
        }
    }
}

/// A record whose entries are each permitted after those before it is a run, which takes each channel's messages in
/// order where the order of whole channels was asked for; then it is permitted in that of each block, too. And an entry
/// that breaks something is not permitted.
pub fn every_record()
    ensures lawful { EveryLawfulRecordIsALawfulLog }
    ensures run { EveryLawfulRecordIsARun }
    ensures blocks { EveryRecordInOrderIsLawful }
    ensures broken { NoBrokenEntryIsPermitted }
{}
