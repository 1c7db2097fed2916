//! What threads carry: a reference to an inbox or a bell, with a pass or a seat of its own. That the one belongs to the
//! other is kept by the type, so the ends need no `requires` where they are used, in whatever thread.
ghost use Rattle.std.specs.Prelude.{◌≡◌, ◌+◌, ◌<◌, ◌≤◌, ℕ, MatchBool, MatchOption, MatchResult};
ghost use Rattle.tl_tickets.specs.Inbox.{IsSenderOf, IsReceiverOf, after_put, after_take, WasFull};
ghost use Rattle.tl_tickets.specs.Bell.{IsSeatOf, most_rings, after_ring, after_hearing};

use crate::bell::{Bell, Seat};
use crate::error::Full;
use crate::inbox::{Inbox, Pass};
use std::marker::Model;
use std::sync::Wait;
use tl_types::Ticket;

/// An inbox, with the pass of one of its senders.
#[derive(Drop)]
pub struct Sender<'a> {
    inbox: &'a Inbox,
    pass: Pass,
}

impl<'a> Model for Sender<'a> {
    ghost use Rattle.tl_tickets.specs.Inbox.{IsSenderOf};
    ghost use Rattle.tl_tickets.specs.Ends.{InboxEnd};

    ghost Value = { InboxEnd };

    ghost view = { λ s. record { inbox = s.inbox.now; pass = s.pass } };

    ghost invariant = { λ s. IsSenderOf s.inbox.now s.pass };
}

impl<'a> Sender<'a> {
    /// The two as one.
    pub fn new(inbox: &'a Inbox, pass: Pass) -> Sender<'a>
        requires { IsSenderOf inbox.now pass }
        ensures { result ≡ record { inbox = inbox.now; pass = pass } }
    {
        Sender { inbox, pass }
    }

    /// Puts a ticket. `Full`, with the ticket, where the inbox was full at that step; nothing changes then.
    pub fn put<R: Wait>(&mut self, rt: &R, ticket: Ticket) -> Result<(), Full>
        ensures { MatchResult result
            (λ _. self.new ≡ record self.old { pass = after_put self.old.pass ticket })
            (λ full. (full.0 ≡ ticket) × (self.new ≡ self.old) × WasFull self.old.inbox self.old.pass) }
    {
        self.inbox.put(rt, &mut self.pass, ticket)
    }

    /// The pass, for `settle`.
    pub fn into_pass(self) -> Pass
        ensures pass { result ≡ self.entry.pass }
        ensures own { IsSenderOf self.entry.inbox result }
    {
        self.pass
    }
}

/// An inbox, with the pass of its receiver.
#[derive(Drop)]
pub struct Receiver<'a> {
    inbox: &'a Inbox,
    pass: Pass,
}

impl<'a> Model for Receiver<'a> {
    ghost use Rattle.tl_tickets.specs.Inbox.{IsReceiverOf};
    ghost use Rattle.tl_tickets.specs.Ends.{InboxEnd};

    ghost Value = { InboxEnd };

    ghost view = { λ r. record { inbox = r.inbox.now; pass = r.pass } };

    ghost invariant = { λ r. IsReceiverOf r.inbox.now r.pass };
}

impl<'a> Receiver<'a> {
    /// The two as one.
    pub fn new(inbox: &'a Inbox, pass: Pass) -> Receiver<'a>
        requires { IsReceiverOf inbox.now pass }
        ensures { result ≡ record { inbox = inbox.now; pass = pass } }
    {
        Receiver { inbox, pass }
    }

    /// Takes the ticket that waited longest. `None` only where nothing waited at one moment of the call.
    pub fn take<R: Wait>(&mut self, rt: &R) -> Option<Ticket>
        ensures { MatchOption result ((self.new ≡ self.old) × (self.old.pass.behind ≡ 0))
            (λ ticket. (sender rest : ℕ) × (0 < sender) × (sender ≤ self.old.inbox.senders)
            × (self.old.pass.behind ≤ rest + 1)
            × (self.new ≡ record self.old { pass = after_take self.old.pass sender ticket rest })) }
    {
        self.inbox.take(rt, &mut self.pass)
    }

    /// The pass, for `settle`.
    pub fn into_pass(self) -> Pass
        ensures pass { result ≡ self.entry.pass }
        ensures own { IsReceiverOf self.entry.inbox result }
    {
        self.pass
    }
}

/// A bell, with one of its seats.
#[derive(Drop)]
pub struct Ringer<'a> {
    bell: &'a Bell,
    seat: Seat,
}

impl<'a> Model for Ringer<'a> {
    ghost use Rattle.tl_tickets.specs.Bell.{IsSeatOf};
    ghost use Rattle.tl_tickets.specs.Ends.{BellEnd};

    ghost Value = { BellEnd };

    ghost view = { λ r. record { bell = r.bell.now; seat = r.seat } };

    ghost invariant = { λ r. IsSeatOf r.bell.now r.seat };
}

impl<'a> Ringer<'a> {
    /// The two as one.
    pub fn new(bell: &'a Bell, seat: Seat) -> Ringer<'a>
        requires { IsSeatOf bell.now seat }
        ensures { result ≡ record { bell = bell.now; seat = seat } }
    {
        Ringer { bell, seat }
    }

    /// Rings once. `false` where this seat has rung 2^40 times.
    pub fn ring(&mut self) -> bool
        ensures { MatchBool result
            ((self.old.seat.rung < most_rings) × (self.new ≡ record self.old { seat = after_ring self.old.seat }))
            ((self.old.seat.rung ≡ most_rings) × (self.new ≡ self.old)) }
    {
        self.bell.ring(&mut self.seat)
    }

    /// How often the bell was rung, at one moment of the call.
    pub fn heard(&mut self) -> u64
        ensures seen { self.old.seat.seen ≤ result }
        ensures rung { self.old.seat.rung ≤ result }
        ensures now { self.new ≡ record self.old { seat = after_hearing self.old.seat result } }
    {
        self.bell.heard(&mut self.seat)
    }

    /// The seat, for `total`.
    pub fn into_seat(self) -> Seat
        ensures seat { result ≡ self.entry.seat }
        ensures own { IsSeatOf self.entry.bell result }
    {
        self.seat
    }
}
