//! The messages that wait on the channels of a record, by their numbers.
ghost use Rattle.std.specs.Prelude.{◌≡◌, ◌<◌, ◌+◌, ◌*◌, ◌^◌, ℕ, IfOk, MatchOption, OnOk, if◌then◌else◌, length};
ghost use Rattle.std.specs.Option.{option_map};
ghost use Rattle.tl_types.specs.Channel.{channel_index};
ghost use Rattle.tl_types.specs.Lane.{is_here};
ghost use Rattle.tl_types.specs.declared.channel.Channel.{Channel};
ghost use Rattle.tlcheck_chart.specs.Serials.{HasNoneOf, IsFirstAt, empty_lane, first_of, lane_at, ticket_at, with_sent, with_taken};

use std::alloc::{AllocError, Global};
use std::marker::Model;
use tl_types::{BankNo, BlockNo, Channel, ClientId, Ticket};

/// A message that waits: its block, and how many were sent on its channel before it.
#[derive(Clone, Copy, Drop)]
pub(crate) struct Sent {
    pub(crate) block: BlockNo,
    pub(crate) serial: u64,
}

/// A channel of a client: how many messages were sent on it, and those that wait, oldest first.
#[derive(Drop)]
struct Lane {
    count: u64,
    waiting: Vec<Sent>,
}

impl Model for Lane {
    ghost use Rattle.tlcheck_chart.specs.Lanes.{LaneState};

    ghost Value = { LaneState };

    ghost view = { λ lane. record { count = lane.count; waiting = lane.waiting.items } };
}

/// The place of the first of some messages that is of a block.
fn place_in(block: BlockNo, waiting: &[Sent]) -> Option<usize>
    ensures { MatchOption result (HasNoneOf block waiting.now) (IsFirstAt block waiting.now) }
{
    for (place, sent) in waiting.iter().enumerate() {
        if sent.block == block {
            return Some(place);
        }
    }
    None
}

impl Lane {
    /// Nothing was sent yet.
    fn new(alloc: Global) -> Lane
        ensures { result ≡ empty_lane }
    {
        Lane {
            count: 0,
            waiting: Vec::new(alloc),
        }
    }

    /// A message of a block is sent, and gets the next number. The error is want of memory, or of numbers.
    fn send(&mut self, block: BlockNo) -> Result<u64, AllocError>
        ensures number { IfOk result (λ serial. serial ≡ self.old.count) }
        ensures after { OnOk result (self.new ≡ with_sent block self.old) }
    {
        let serial = self.count;
        let Some(count) = serial.checked_add(1) else {
            return Err(AllocError);
        };
        self.waiting.push(Sent { block, serial })?;
        self.count = count;
        Ok(serial)
    }

    /// The first message that waits of a block is taken, if one does: its number.
    fn take(&mut self, block: BlockNo) -> Option<u64>
        ensures number { result ≡ first_of block self.old.waiting }
        ensures after { self.new ≡ with_taken block self.old }
    {
        let place = place_in(block, &self.waiting)?;
        let sent = self.waiting.remove(place);
        Some(sent.serial)
    }
}

/// The messages that wait on each channel of each client, each with its number on its channel.
#[derive(Drop)]
pub struct Serials {
    lanes: Vec<Lane>,
}

impl Serials {
    /// Those of a record that begins: none.
    #[tactic(auto, unfolding(crate::specs::Serials::lane_at))]
    pub fn new(alloc: Global) -> Serials
        ensures { (x : ℕ) (k : Channel) → lane_at result x k ≡ empty_lane }
    {
        Serials {
            lanes: Vec::new(alloc),
        }
    }

    /// Has a channel at a place, where nothing was sent if there was none. The error is want of memory.
    #[tactic(auto, unfolding(crate::specs::Serials::lane_at))]
    fn reach(&mut self, place: usize) -> Result<(), AllocError>
        requires { place < 2 ^ 40 }
        ensures there { OnOk result (place < length self.new.lanes.items) }
        ensures same { OnOk result ((x : ℕ) (k : Channel) → lane_at self.new x k ≡ lane_at self.old x k) }
    {
        let alloc = *self.lanes.allocator();
        for _ in self.lanes.len()..place + 1 {
            self.lanes.push(Lane::new(alloc))?;
        }
        Ok(())
    }

    /// The ticket of a message of a block that is sent. The error is want of memory, or of numbers.
    #[tactic(auto, unfolding(crate::specs::Serials::lane_at))]
    pub(crate) fn send(
        &mut self,
        client: ClientId,
        channel: Channel,
        block: BlockNo,
    ) -> Result<Ticket, AllocError>
        ensures ticket { IfOk result
            (λ ticket. ticket ≡ ticket_at client channel (lane_at self.old client channel).count) }
        ensures after { OnOk result
            ((x : ℕ) (k : Channel)
            → lane_at self.new x k
            ≡ (if is_here client channel x k then with_sent block (lane_at self.old x k) else lane_at self.old x k)) }
    {
        let place = place_of(client, channel);
        self.reach(place)?;
        let serial = self.lanes[place].send(block)?;
        Ok(ticket(client, channel, serial))
    }

    /// The ticket of the first message of a channel that is of a block, which is taken; None where none waits.
    #[tactic(auto, unfolding(crate::specs::Serials::lane_at))]
    pub(crate) fn take(
        &mut self,
        client: ClientId,
        channel: Channel,
        block: BlockNo,
    ) -> Option<Ticket>
        ensures ticket { result
            ≡ option_map (ticket_at client channel) (first_of block (lane_at self.old client channel).waiting) }
        ensures after { (x : ℕ) (k : Channel)
            → lane_at self.new x k
            ≡ (if is_here client channel x k then with_taken block (lane_at self.old x k) else lane_at self.old x k) }
    {
        let place = place_of(client, channel);
        if place >= self.lanes.len() {
            return None;
        }
        let serial = self.lanes[place].take(block)?;
        Some(ticket(client, channel, serial))
    }
}

/// A client's channel among all channels.
fn place_of(client: ClientId, channel: Channel) -> usize
    ensures value { result ≡ client * 5 + channel_index channel }
    ensures small { result < 2 ^ 40 }
{
    client.number() as usize * Channel::ALL.len() + channel.index()
}

/// The ticket of a message on a link with the home of a record, which has one.
fn ticket(client: ClientId, channel: Channel, serial: u64) -> Ticket
    ensures { result ≡ ticket_at client channel serial }
{
    Ticket {
        bank: BankNo::new(0),
        client,
        channel,
        serial,
    }
}
