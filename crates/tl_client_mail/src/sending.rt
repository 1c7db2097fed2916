//! The way to one receiver.
ghost use Rattle.std.specs.Prelude.{◌≡◌, ◌++◌, ◌∷◌, ◌<◌, [], length, IfOk, MatchOption, OnOk};
ghost use Rattle.tl_client_mail.specs.Ways.{HasRoom, RingsAsItPuts, has_none_back, sent_on};

use crossbeam_utils::sync::Unparker;
use std::alloc::{AllocError, Global};
use std::collections::VecDeque;
use std::marker::Model;
use std::sync::Wait;
use tl_tickets::{Ringer, Sender};
use tl_types::Ticket;

/// For how many tickets that are handed back a way has room from its making. An inbox hands back only what it has no
/// room for.
pub const BACK: usize = 8;

/// The way to one receiver: its inbox, its bell, what ends its rest, and the tickets that the inbox handed back, oldest
/// first.
#[derive(Drop)]
pub struct Sending<'a> {
    inbox: Sender<'a>,
    bell: Ringer<'a>,
    rest: Unparker,
    back: VecDeque<Ticket>,
}

impl<'a> Model for Sending<'a> {
    ghost use Rattle.std.specs.VecDeque.{deque_capacity};
    ghost use Rattle.tl_client_mail.specs.Ways.{Way};

    ghost Value = { Way };

    ghost view = { λ s. record { inbox = s.inbox; bell = s.bell; back = s.back.items; room = deque_capacity s.back } };
}

impl<'a> Sending<'a> {
    /// A way on which nothing was handed back. Room for more than so many tickets is made before they are sent. The
    /// error is want of memory.
    pub fn new(
        alloc: Global,
        inbox: Sender<'a>,
        bell: Ringer<'a>,
        rest: Unparker,
    ) -> Result<Sending<'a>, AllocError>
        ensures { IfOk result (λ way. way ≡ record { inbox = inbox.entry; bell = bell.entry; back = []; room = BACK }) }
    {
        Ok(Sending {
            inbox,
            bell,
            rest,
            back: VecDeque::with_capacity(alloc, BACK)?,
        })
    }

    /// Whether a ticket that was handed back waits.
    pub(crate) fn has_back(&self) -> bool {
        !self.back.is_empty()
    }

    /// Whether no ticket that was handed back waits.
    pub(crate) fn has_none_back(&self) -> bool
        ensures { result ≡ has_none_back self.now }
    {
        self.back.is_empty()
    }

    /// Makes room for one more ticket that may be handed back. The error is want of memory; no ticket is lost then.
    pub fn make_room(&mut self) -> Result<(), AllocError>
        ensures room { OnOk result (HasRoom self.new) }
        ensures same { self.new ≡ record self.old { room = self.new.room } }
    {
        if self.back.len() < self.back.capacity() {
            return Ok(());
        }
        self.back.reserve(1)
    }

    /// Ends the receiver's rest, if it rests.
    pub(crate) fn wake(&self) {
        self.rest.unpark();
    }

    /// Puts a ticket and then rings, or hands it back where the inbox was full.
    fn put<R: Wait>(&mut self, rt: &R, ticket: Ticket) -> Option<Ticket>
        ensures put { MatchOption result
            (self.new.inbox.pass.put ≡ self.old.inbox.pass.put ++ ticket ∷ [])
            (λ back. (back ≡ ticket) × (self.new.inbox ≡ self.old.inbox)) }
        ensures rings { RingsAsItPuts self.old self.new }
        ensures back { (self.new.back ≡ self.old.back) × (self.new.room ≡ self.old.room) }
    {
        match self.inbox.put(rt, ticket) {
            Ok(()) => {
                self.bell.ring();
                self.wake();
                None
            }
            Err(full) => Some(full.0),
        }
    }

    /// Sends a ticket behind those that were handed back, and keeps it among them where the inbox is full. Each ticket
    /// that is put is followed by a ring.
    pub fn send<R: Wait>(&mut self, rt: &R, ticket: Ticket)
        requires { HasRoom self.old }
        ensures sent { sent_on self.new ≡ sent_on self.old ++ ticket ∷ [] }
        ensures room { self.new.room ≡ self.old.room }
        ensures rings { RingsAsItPuts self.old self.new }
    {
        let back = if self.back.is_empty() {
            self.put(rt, ticket)
        } else {
            Some(ticket)
        };
        if let Some(ticket) = back {
            self.back.push_back_reserved(ticket);
        }
    }

    /// Puts the tickets that were handed back, as long as there is room. None is lost.
    pub fn send_again<R: Wait>(&mut self, rt: &R)
        ensures sent { sent_on self.new ≡ sent_on self.old }
        ensures rings { RingsAsItPuts self.old self.new }
    {
        while let Some(ticket) = self.back.front().copied() {
            if self.put(rt, ticket).is_some() {
                return;
            }
            self.back.pop_front();
        }
    }
}
