//! A bounded inbox: each sender puts tickets with a pass of its own, and one receiver takes them.
ghost use Rattle.std.specs.Prelude.{◌≡◌, ◌+◌, ◌<◌, ◌≤◌, ℕ, [], length, IfOk, MatchResult, MatchOption};
ghost use Rattle.std.specs.List.{All};
ghost use Rattle.crossbeam_queue.specs.Passes.{view as learned, IsPassOf as IsQueuePassOf};
ghost use Rattle.tl_tickets.specs.Inbox.{IsPassOf, IsSenderOf, IsReceiverOf, IsSamePass, after_put, after_take, WasFull, IsEachOnce, Settles, fresh_passes};
ghost use Rattle.tl_tickets.specs.Delivery.{gathered, known, pass_with, first_tickets, IsTotal, receiver as receiver_of};

use crate::delivery::{Counted, Delivery, OneMore, PutOne, TakeOne, Together};
use crate::error::{Full, Missing};
use crate::numbered::{Numbered, is_each_once};
use crate::sent::{Known, Sent};
use crossbeam_queue::RuledArrayQueue;
use std::alloc::{AllocError, Global};
use std::marker::Model;
use std::sync::Wait;
use tl_types::Ticket;

type Queue = RuledArrayQueue<Sent, Known, Delivery>;

type QueuePass = crossbeam_queue::Pass<Sent, Known>;

/// A bounded inbox for 1 to 64 senders and one receiver.
#[derive(Drop)]
pub struct Inbox {
    queue: Queue,
    senders: usize,
}

impl Model for Inbox {
    ghost use Rattle.std.specs.Prelude.{◌≤◌};
    ghost use Rattle.crossbeam_queue.specs.Passes.{ruled_capacity};
    ghost use Rattle.tl_tickets.specs.Inbox.{InboxView};

    ghost Value = { InboxView };

    ghost view = { λ i.
        record { table = i.queue.table.shared.table_id; capacity = ruled_capacity i.queue; senders = i.senders } };

    ghost invariant = { λ i. (ruled_capacity i.queue ≤ 4096) × (i.senders ≤ 64) };
}

/// One sender's right to put, or the receiver's right to take.
#[derive(Drop)]
pub struct Pass {
    seat: QueuePass,
    senders: usize,
    number: usize,
    // How many tickets were put less how many were taken, below 2^64.
    balance: u64,
}

impl Model for Pass {
    ghost use Rattle.std.specs.Prelude.{◌≡◌, []};
    ghost use Rattle.crossbeam_queue.specs.Passes.{view as learned};
    ghost use Rattle.tl_tickets.specs.Inbox.{PassView};
    ghost use Rattle.tl_tickets.specs.Delivery.{pass_with, known, IsBalance};

    ghost Value = { PassView };

    ghost view = { λ p. pass_with p.seat.table_id p.senders p.number (learned p.seat) };

    ghost invariant = { λ p. let pass = pass_with p.seat.table_id p.senders p.number (learned p.seat) in
        (p.seat.me.1 ≡ [])
        × (known pass ≡ learned p.seat) × IsBalance p.balance pass };
}

impl Pass {
    fn new(seat: QueuePass, senders: usize, number: usize) -> Pass
        requires seat { (seat.me.1 ≡ [])
            × (learned seat ≡ known (pass_with seat.table_id senders number (learned seat))) }
        requires fresh { (first_tickets (learned seat).puts ≡ []) × ((learned seat).taken ≡ [])
            × ((learned seat).behind ≡ 0) }
        ensures { result
            ≡ record { table = seat.table_id; senders = senders; number = number; put = []; taken = []; behind = 0 } }
    {
        Pass {
            seat,
            senders,
            number,
            balance: 0,
        }
    }

    /// Whose pass it is: 0 the receiver's, and from 1 on a sender's.
    pub fn number(&self) -> usize
        ensures { result ≡ self.now.number }
    {
        self.number
    }
}

impl Numbered for Pass {
    ghost number_of = { λ p. p.number };

    fn number(&self) -> usize {
        self.number
    }
}

// All passes made one, and the total of their balances.
fn gather(queue: &Queue, mut passes: Vec<Pass>) -> (QueuePass, u64)
    requires some { 0 < length passes.items }
    requires queue { All (λ p. p.table ≡ queue.now.table.shared.table_id) passes.items }
    ensures pass { IsQueuePassOf queue.now result.0 × (learned result.0 ≡ gathered passes.items) }
    ensures total { IsTotal result.1 passes.items }
{
    let Some(last) = passes.pop() else {
        unreachable!()
    };
    let Pass {
        seat: mut all,
        balance: mut total,
        ..
    } = last;
    while let Some(next) = passes.pop() {
        let Pass { seat, balance, .. } = next;
        queue.absorb::<Together>(&mut all, seat);
        total = total.wrapping_add(balance);
    }
    (all, total)
}

// Counts all senders before the first has its pass, so that each pass knows how many there are. It is for the proof
// alone: the passes that come of it know nothing.
fn count_senders(queue: &Queue, receiver: &mut QueuePass, senders: usize)
    requires queue { IsQueuePassOf queue.now receiver.old }
    requires none { learned receiver.old ≡ receiver_of 0 0 0 [] }
    ensures queue { IsQueuePassOf queue.now receiver.new × (receiver.new.me.1 ≡ receiver.old.me.1) }
    ensures all { learned receiver.new ≡ receiver_of senders 0 0 [] }
{
    for _counted in 0..senders {
        let _nothing = queue.another::<Counted>(receiver);
    }
}

impl Inbox {
    /// An inbox with room for this many tickets, 1 to 4,096, and the passes: first the receiver's, then each sender's.
    /// The error is want of memory.
    pub fn new(
        alloc: Global,
        capacity: usize,
        senders: usize,
    ) -> Result<(Inbox, Vec<Pass>), AllocError>
        requires capacity { (0 < capacity) × (capacity ≤ 4096) }
        requires senders { (0 < senders) × (senders ≤ 64) }
        ensures { IfOk result
            (λ made. (made.0.capacity ≡ capacity) × (made.0.senders ≡ senders) × (made.1.items ≡ fresh_passes made.0)) }
    {
        let (queue, mut receiver) = Queue::ruled(alloc, capacity)?;
        count_senders(&queue, &mut receiver, senders);
        let mut passes = Vec::with_capacity(alloc, senders + 1)?;
        for earlier in 0..senders {
            let seat = queue.another::<OneMore>(&mut receiver);
            passes.push(Pass::new(seat, senders, earlier + 1))?;
        }
        passes.insert(0, Pass::new(receiver, senders, 0))?;
        Ok((Inbox { queue, senders }, passes))
    }

    /// Puts a ticket behind those that wait. `Full`, with the ticket, where the inbox was full at that step; nothing
    /// changes then. It takes no memory, and waits for no room: only for a step of another thread that is under way.
    pub fn put<R: Wait>(&self, rt: &R, pass: &mut Pass, ticket: Ticket) -> Result<(), Full>
        requires { IsSenderOf self.now pass.old }
        ensures pass { IsSamePass pass.old pass.new }
        ensures put { MatchResult result
            (λ _. pass.new ≡ after_put pass.old ticket)
            (λ full. (full.0 ≡ ticket) × (pass.new ≡ pass.old) × WasFull self.now pass.old) }
    {
        let sent = Sent {
            sender: pass.number,
            ticket,
        };
        match self.queue.push_as::<PutOne, R>(rt, &mut pass.seat, sent) {
            Ok(()) => {
                pass.balance = pass.balance.wrapping_add(1);
                Ok(())
            }
            Err(back) => Err(Full(back.ticket)),
        }
    }

    /// Takes the ticket that waited longest. `None` only where nothing waited at one moment of the call. It takes no
    /// memory, and waits only for a step of another thread that is under way.
    pub fn take<R: Wait>(&self, rt: &R, pass: &mut Pass) -> Option<Ticket>
        requires { IsReceiverOf self.now pass.old }
        ensures pass { IsSamePass pass.old pass.new }
        ensures taken { MatchOption result ((pass.new ≡ pass.old) × (pass.old.behind ≡ 0))
            (λ ticket. (sender rest : ℕ) × (0 < sender) × (sender ≤ self.now.senders) × (pass.old.behind ≤ rest + 1)
            × (pass.new ≡ after_take pass.old sender ticket rest)) }
    {
        let sent = self.queue.pop_as::<TakeOne, R>(rt, &mut pass.seat)?;
        pass.balance = pass.balance.wrapping_sub(1);
        Some(sent.ticket)
    }

    /// How many tickets wait, once all passes are back. `Missing` exactly where not each pass is there once. The inbox
    /// and the passes are used up either way.
    pub fn settle(self, passes: Vec<Pass>) -> Result<u64, Missing>
        requires { All (IsPassOf self) passes.items }
        ensures { MatchResult result
            (λ waiting. IsEachOnce self.senders passes.items × Settles self.senders passes.items waiting)
            (λ _. ¬ IsEachOnce self.senders passes.items) }
    {
        if !is_each_once(&passes, self.senders + 1) {
            return Err(Missing);
        }
        let (mut all, waiting) = gather(&self.queue, passes);
        self.queue.learn_as::<TakeOne>(&mut all);
        Ok(waiting)
    }
}
