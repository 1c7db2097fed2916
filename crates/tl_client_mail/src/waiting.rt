//! Tickets that wait to be served.
ghost use Rattle.std.specs.Prelude.{◌≡◌, ◌++◌, ◌∷◌, ◌+◌, ◌≤◌, ◌==◌, [], false, drop, filter, length, take, IfOk, MatchOption, OnOk, List};
ghost use Rattle.tl_types.specs.Channel.{channel_index};
ghost use Rattle.tl_types.specs.declared.ticket.Ticket.{Ticket};
ghost use Rattle.tl_client_mail.specs.Rounds.{AreBarred, all_of, is_barred, is_on, is_same_lane, once_asked};

use std::alloc::{AllocError, Global};
use std::collections::VecDeque;
use std::marker::Model;
use tl_types::{Channel, Ticket};

/// Tickets of one worker that wait to be served, in order. A round comes to each of them once; what was refused is
/// kept, and no later ticket of its bank, client and channel comes next in that round.
#[derive(Drop)]
pub struct Waiting {
    kept: VecDeque<Ticket>,
    rest: VecDeque<Ticket>,
}

impl Model for Waiting {
    ghost use Rattle.std.specs.Prelude.{◌+◌, ◌≤◌, min};
    ghost use Rattle.std.specs.VecDeque.{deque_len, deque_capacity};
    ghost use Rattle.tl_client_mail.specs.Rounds.{Round};

    ghost Value = { Round };

    ghost view = { λ w.
        record { kept = w.kept.items; rest = w.rest.items; room = min (deque_capacity w.kept) (deque_capacity w.rest) } };

    ghost invariant = { λ w. (deque_len w.kept + deque_len w.rest ≤ deque_capacity w.kept)
        × (deque_len w.kept + deque_len w.rest ≤ deque_capacity w.rest) };
}

/// Whether two tickets are of one channel of one link.
fn is_same_lane(one: &Ticket, other: &Ticket) -> bool
    ensures { result ≡ is_same_lane one.now other.now }
{
    one.bank == other.bank && one.client == other.client && one.channel == other.channel
}

impl Waiting {
    /// No tickets, and room for so many. The error is want of memory.
    pub fn new(alloc: Global, room: usize) -> Result<Waiting, AllocError>
        ensures { IfOk result (λ w. w ≡ record { kept = []; rest = []; room = room }) }
    {
        Ok(Waiting {
            kept: VecDeque::with_capacity(alloc, room)?,
            rest: VecDeque::with_capacity(alloc, room)?,
        })
    }

    /// How many tickets wait.
    pub fn len(&self) -> usize
        ensures { result ≡ length self.now.kept + length self.now.rest }
    {
        self.kept.len() + self.rest.len()
    }

    /// Whether no ticket waits.
    pub fn is_empty(&self) -> bool
        ensures { result ≡ (length self.now.kept + length self.now.rest == 0) }
    {
        self.kept.is_empty() && self.rest.is_empty()
    }

    /// Makes room for so many more tickets. The error is want of memory; no ticket is lost then.
    pub fn make_room(&mut self, count: usize) -> Result<(), AllocError>
        requires { count ≤ 4096 }
        ensures room { OnOk result (length self.new.kept + length self.new.rest + count ≤ self.new.room) }
        ensures same { self.new ≡ record self.old { room = self.new.room } }
    {
        if self.kept.capacity() < self.len() + count {
            self.kept.reserve(self.rest.len() + count)?;
        }
        if self.rest.capacity() < self.len() + count {
            self.rest.reserve(self.kept.len() + count)?;
        }
        Ok(())
    }

    /// The tickets of a channel join them, in order, behind all that wait.
    pub fn push_all(&mut self, tickets: &[Ticket], channel: Channel)
        requires { length self.old.kept + length self.old.rest + length tickets.now ≤ self.old.room }
        ensures rest { self.new.rest ≡ self.old.rest ++ filter (λ t. is_on (channel_index channel) t) tickets.now }
        ensures kept { self.new.kept ≡ self.old.kept }
        ensures room { (self.new.room ≡ self.old.room)
            × (length self.new.rest ≤ length self.old.rest + length tickets.now) }
    {
        for ticket in tickets {
            if ticket.channel == channel {
                self.rest.push_back_reserved(*ticket);
            }
        }
    }

    /// A round begins: it comes to all tickets, in order.
    pub fn begin(&mut self)
        ensures { self.new ≡ record self.old { kept = []; rest = all_of self.old } }
    {
        while let Some(ticket) = self.kept.pop_back() {
            self.rest.push_front_reserved(ticket);
        }
    }

    /// The ticket that comes next in this round, of whose channel and link the round has kept none. It stays until it
    /// is `served`, `refused` or `answered`; those before it are kept, each barred by one that was kept before. None is
    /// lost.
    pub fn next(&mut self) -> Option<Ticket>
        ensures order { all_of self.new ≡ all_of self.old }
        ensures next { MatchOption result (self.new.rest ≡ [])
            (λ t. (is_barred self.new.kept t ≡ false) × ((later : List Ticket) × (self.new.rest ≡ t ∷ later))) }
        ensures barred { (passed : List Ticket) × (self.new.kept ≡ self.old.kept ++ passed)
            × AreBarred self.old.kept passed }
        ensures room { self.new.room ≡ self.old.room }
    {
        while let Some(ticket) = self.rest.front().copied() {
            if !self.is_barred(&ticket) {
                return Some(ticket);
            }
            self.refused();
        }
        None
    }

    /// The next ticket was served.
    pub fn served(&mut self)
        ensures { self.new ≡ record self.old { rest = drop 1 self.old.rest } }
    {
        self.rest.pop_front();
    }

    /// The next ticket was refused, and is kept.
    pub fn refused(&mut self)
        ensures { self.new
            ≡ record self.old { kept = self.old.kept ++ take 1 self.old.rest; rest = drop 1 self.old.rest } }
    {
        if let Some(ticket) = self.rest.pop_front() {
            self.kept.push_back_reserved(ticket);
        }
    }

    /// The next ticket was served, or it was refused and is kept.
    pub fn answered(&mut self, served: bool)
        ensures { self.new ≡ once_asked served self.old }
    {
        if served {
            self.served();
        } else {
            self.refused();
        }
    }

    /// Whether this round has kept a ticket of the same channel of the same link.
    fn is_barred(&self, ticket: &Ticket) -> bool
        ensures { result ≡ is_barred self.now.kept ticket.now }
    {
        self.kept.iter().any(|kept| is_same_lane(kept, ticket))
    }
}
