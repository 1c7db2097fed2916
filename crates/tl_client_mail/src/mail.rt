//! The inboxes and bells that one worker uses.
ghost use Rattle.std.specs.Prelude.{◌≡◌, ◌++◌, ◌∷◌, ◌+◌, ◌≤◌, [], length, slice_index_or, slice_set, vec_len, vec_capacity, OnOk};
ghost use Rattle.std.specs.List.{All, list_all};
ghost use Rattle.tl_client_mail.specs.Inbox.{Took};
ghost use Rattle.tl_client_mail.specs.Ways.{HasRoom, RingsOnce, has_none_back, sent_by};

use crate::links::Links;
use crate::sending::Sending;
use crossbeam_utils::sync::Parker;
use std::alloc::AllocError;
use std::marker::Model;
use std::sync::Wait;
use tl_tickets::{Receiver, Ringer};
use tl_types::Ticket;

/// How many tickets a turn takes at most.
pub const BATCH: usize = 64;

/// What a worker uses: its own inbox and bell, the way to each of those that it sends to, by number, the done bell, and
/// what it rests at.
#[derive(Drop)]
pub struct Mail<'a> {
    inbox: Receiver<'a>,
    bell: Ringer<'a>,
    sending: Vec<Sending<'a>>,
    done: Ringer<'a>,
    parker: Parker,
    heard: u64,
    /// Whether a ticket may have been handed back.
    has_back: bool,
    /// Whether each way is known to have room for one more ticket that is handed back.
    has_room: bool,
}

impl<'a> Model for Mail<'a> {
    ghost use Rattle.tl_client_mail.specs.Ways.{Post};

    ghost Value = { Post };

    ghost view = { λ m. record { inbox = m.inbox; bell = m.bell; ways = m.sending.items; done = m.done } };

    ghost use Rattle.std.specs.Prelude.{◌≡◌, true};
    ghost use Rattle.std.specs.List.{All};
    ghost use Rattle.tl_client_mail.specs.Ways.{HasRoom};

    ghost invariant = { λ m. m.has_room ≡ true → All HasRoom m.sending.items };
}

impl<'a> Mail<'a> {
    /// A worker's inboxes and bells. A client sends to homes, in the order of the banks; a home to clients, in their
    /// order.
    pub fn new(
        inbox: Receiver<'a>,
        bell: Ringer<'a>,
        sending: Vec<Sending<'a>>,
        done: Ringer<'a>,
        parker: Parker,
    ) -> Mail<'a>
        ensures { result
            ≡ record { inbox = inbox.entry; bell = bell.entry; ways = sending.entry.items; done = done.entry } }
    {
        Mail {
            inbox,
            bell,
            sending,
            done,
            parker,
            heard: 0,
            has_back: false,
            has_room: false,
        }
    }

    /// The worker's own inbox, for its pass.
    pub fn into_receiver(self) -> Receiver<'a>
        ensures { result ≡ self.entry.inbox }
    {
        self.inbox
    }

    /// Whether a ticket that an inbox handed back waits.
    pub fn has_back(&self) -> bool {
        self.has_back
    }

    /// Whether no ticket that an inbox handed back waits, on any way.
    pub fn has_put_all(&self) -> bool
        ensures { result ≡ list_all has_none_back self.now.ways }
    {
        self.sending.iter().all(|way| way.has_none_back())
    }

    /// Puts the tickets that inboxes handed back, as long as there is room. None is lost.
    pub fn send_again<R: Wait>(&mut self, rt: &R)
        ensures sent { sent_by self.new ≡ sent_by self.old }
        ensures inbox { self.new.inbox ≡ self.old.inbox }
        ensures done { self.new.done ≡ self.old.done }
    {
        if !self.has_back {
            return;
        }
        self.has_back = false;
        self.has_room = false;
        for to in 0..self.sending.len() {
            self.sending[to].send_again(rt);
            self.has_back = self.has_back || self.sending[to].has_back();
        }
    }

    /// Makes room for one more ticket to each receiver, which any inbox may hand back. The error is want of memory; no
    /// ticket is lost then.
    pub fn make_room(&mut self) -> Result<(), AllocError>
        ensures room { OnOk result (All HasRoom self.new.ways) }
        ensures sent { sent_by self.new ≡ sent_by self.old }
        ensures inbox { self.new.inbox ≡ self.old.inbox }
        ensures done { self.new.done ≡ self.old.done }
    {
        if self.has_room {
            return Ok(());
        }
        for to in 0..self.sending.len() {
            self.sending[to].make_room()?;
        }
        self.has_room = true;
        Ok(())
    }

    /// Sends a ticket to the receiver with this number, if there is one.
    pub fn send<R: Wait>(&mut self, rt: &R, to: usize, ticket: Ticket)
        requires { All HasRoom self.old.ways }
        ensures sent { sent_by self.new
            ≡ slice_set (sent_by self.old) to (slice_index_or (sent_by self.old) to [] ++ ticket ∷ []) }
        ensures inbox { self.new.inbox ≡ self.old.inbox }
        ensures done { self.new.done ≡ self.old.done }
    {
        if to >= self.sending.len() {
            return;
        }
        self.sending[to].send(rt, ticket);
        if !self.sending[to].has_none_back() {
            self.has_back = true;
            self.has_room = false;
        }
    }

    /// Whether the worker's own bell rang since it was last read.
    pub fn is_rung(&mut self) -> bool
        ensures sent { sent_by self.new ≡ sent_by self.old }
        ensures inbox { self.new.inbox ≡ self.old.inbox }
        ensures done { self.new.done ≡ self.old.done }
    {
        let heard = self.bell.heard();
        let is_rung = heard != self.heard;
        self.heard = heard;
        is_rung
    }

    /// Takes tickets of the worker's own inbox, at most `BATCH`, and lays those of its links behind the others; the
    /// rest are dropped. Whether it took `BATCH`.
    pub fn take_tickets<R: Wait>(&mut self, rt: &R, links: &Links, taken: &mut Vec<Ticket>) -> bool
        requires { vec_len taken.old + BATCH ≤ vec_capacity taken.old }
        ensures taken { Took links.now self.old.inbox taken.old.items self.new.inbox taken.new.items }
        ensures few { length taken.new.items ≤ length taken.old.items + BATCH }
        ensures sent { sent_by self.new ≡ sent_by self.old }
        ensures done { self.new.done ≡ self.old.done }
    {
        for _ in 0..BATCH {
            let Some(ticket) = self.inbox.take(rt) else {
                return false;
            };
            if links.bring(&ticket) {
                taken.push_reserved(ticket);
            }
        }
        true
    }

    /// How often the done bell was rung.
    pub fn done(&mut self) -> u64
        ensures seen { result ≡ self.new.done.seat.seen }
        ensures rung { self.new.done.seat.rung ≡ self.old.done.seat.rung }
        ensures sent { sent_by self.new ≡ sent_by self.old }
        ensures inbox { self.new.inbox ≡ self.old.inbox }
    {
        self.done.heard()
    }

    /// Rings the done bell once, and ends the receivers' rests.
    pub fn ring_done(&mut self)
        ensures inbox { self.new.inbox ≡ self.old.inbox }
        ensures ways { self.new.ways ≡ self.old.ways }
        ensures rings { RingsOnce self.old.done self.new.done }
    {
        self.done.ring();
        self.wake_all();
    }

    /// Ends the rests of all receivers, so that they hear a bell of which no ticket tells them.
    pub fn wake_all(&self) {
        for way in self.sending.iter() {
            way.wake();
        }
    }

    /// What this worker rests at: its senders end the rest.
    pub fn parker(&self) -> &Parker {
        &self.parker
    }
}
