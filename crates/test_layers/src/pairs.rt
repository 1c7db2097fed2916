//! An inbox with two senders, and a bell with two seats, each with what belongs to it. Their models say nothing, so
//! that a test of many calls has their answers alone to carry along.
use crate::tickets::{open_bell, open_two};
use std::alloc::Global;
use std::marker::Model;
use std::sync::Wait;
use tl_tickets::{Bell, Full, Inbox, Missing, Pass, Seat};
use tl_types::Ticket;

/// An inbox with room for two tickets, its receiver's pass and two senders'.
#[derive(Drop)]
struct TwoSenders {
    inbox: Inbox,
    receiver: Pass,
    first: Pass,
    second: Pass,
}

impl Model for TwoSenders {
    ghost use Rattle.tl_tickets.specs.Inbox.{IsSenderOf, IsReceiverOf};

    ghost Value = { Unit {0} };

    ghost view = { λ _. tt };

    ghost invariant = { λ t. IsReceiverOf t.inbox t.receiver × IsSenderOf t.inbox t.first
        × IsSenderOf t.inbox t.second };
}

/// A call of an inbox.
#[derive(Clone, Copy)]
pub(crate) enum Call {
    /// The first sender puts a ticket.
    First(Ticket),
    /// The second sender puts a ticket.
    Second(Ticket),
    /// The receiver takes a ticket.
    Take,
}

/// What a call answers: the ticket that was taken, or the one that was handed back.
pub(crate) type Answer = Result<Option<Ticket>, Full>;

impl TwoSenders {
    /// Makes a call.
    fn ask<R: Wait>(&mut self, rt: &R, call: Call) -> Answer {
        let put = match call {
            Call::First(ticket) => self.inbox.put(rt, &mut self.first, ticket),
            Call::Second(ticket) => self.inbox.put(rt, &mut self.second, ticket),
            Call::Take => return Ok(self.inbox.take(rt, &mut self.receiver)),
        };
        match put {
            Ok(()) => Ok(None),
            Err(full) => Err(full),
        }
    }

    /// Makes these calls. The place of the first that answers otherwise, if there is one.
    fn first_other<R: Wait>(&mut self, rt: &R, calls: &[(Call, Answer)]) -> Option<usize> {
        for (place, (call, answer)) in calls.iter().enumerate() {
            if self.ask(rt, *call) != *answer {
                return Some(place);
            }
        }
        None
    }

    /// Settles the inbox with its passes.
    fn settle(self, alloc: Global) -> Option<Result<u64, Missing>> {
        let passes = Vec::from_array(alloc, [self.second, self.first, self.receiver]).ok()?;
        Some(self.inbox.settle(passes))
    }
}

/// Makes these calls of a new inbox, and settles it: the place of the first call that answers otherwise, if there is
/// one, and how many tickets are left. `None` is want of memory.
pub(crate) fn settled_after<R: Wait>(
    rt: &R,
    alloc: Global,
    calls: &[(Call, Answer)],
) -> Option<(Option<usize>, Result<u64, Missing>)> {
    let (inbox, receiver, first, second) = open_two(alloc)?;
    let mut pair = TwoSenders {
        inbox,
        receiver,
        first,
        second,
    };
    let other = pair.first_other(rt, calls);
    beside(other, pair.settle(alloc))
}

/// Both together.
fn beside(
    other: Option<usize>,
    total: Option<Result<u64, Missing>>,
) -> Option<(Option<usize>, Result<u64, Missing>)> {
    Some((other, total?))
}

/// A bell, and its two seats.
#[derive(Drop)]
struct TwoSeats {
    bell: Bell,
    first: Seat,
    second: Seat,
}

impl Model for TwoSeats {
    ghost use Rattle.tl_tickets.specs.Bell.{IsSeatOf};

    ghost Value = { Unit {0} };

    ghost view = { λ _. tt };

    ghost invariant = { λ t. IsSeatOf t.bell t.first × IsSeatOf t.bell t.second };
}

/// A call of a bell.
#[derive(Clone, Copy)]
pub(crate) enum BellCall {
    /// The first seat rings.
    RingFirst,
    /// The second seat rings.
    RingSecond,
    /// The first seat hears.
    HearFirst,
    /// The second seat hears.
    HearSecond,
}

impl TwoSeats {
    /// Makes a call: how often it rang, once or not at all, or what was heard.
    fn ask(&mut self, call: BellCall) -> u64 {
        match call {
            BellCall::RingFirst => u64::from(self.bell.ring(&mut self.first)),
            BellCall::RingSecond => u64::from(self.bell.ring(&mut self.second)),
            BellCall::HearFirst => self.bell.heard(&mut self.first),
            BellCall::HearSecond => self.bell.heard(&mut self.second),
        }
    }

    /// Makes these calls. The place of the first that answers otherwise, if there is one.
    fn first_other(&mut self, calls: &[(BellCall, u64)]) -> Option<usize> {
        for (place, (call, answer)) in calls.iter().enumerate() {
            if self.ask(*call) != *answer {
                return Some(place);
            }
        }
        None
    }

    /// How often both seats rang, once they are back.
    fn total(self, alloc: Global) -> Option<Result<u64, Missing>> {
        let seats = Vec::from_array(alloc, [self.second, self.first]).ok()?;
        Some(self.bell.total(seats))
    }
}

/// Makes these calls of a new bell: the place of the first that answers otherwise, if there is one, and the total.
/// `None` is want of memory.
pub(crate) fn total_after(
    alloc: Global,
    calls: &[(BellCall, u64)],
) -> Option<(Option<usize>, Result<u64, Missing>)> {
    let (bell, first, second) = open_bell(alloc).ok()?;
    let mut pair = TwoSeats {
        bell,
        first,
        second,
    };
    let other = pair.first_other(calls);
    beside(other, pair.total(alloc))
}
