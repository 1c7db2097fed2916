//! A receiver's inbox and bell, and the passes and seats that belong to them.
ghost use Rattle.std.specs.Prelude.{◌≡◌, ◌+◌, ◌<◌, ◌≤◌, IfOk, vec_len};
ghost use Rattle.std.specs.List.{All};
ghost use Rattle.tl_tickets.specs.Inbox.{IsReceiverOf, IsSenderOf};
ghost use Rattle.tl_tickets.specs.Bell.{IsSeatOf};
ghost use Rattle.tl_runner_threads.specs.Keys.{Fits, FitEach};

use std::alloc::{AllocError, Global};
use tl_tickets::{Bell, Inbox, Pass, Seat};
use tl_types::CLIENTS;

/// A receiver's inbox, and the bell that its senders ring.
#[derive(Drop)]
pub(crate) struct Mailbox {
    pub(crate) inbox: Inbox,
    pub(crate) bell: Bell,
}

/// The passes and seats of a mailbox: its receiver's, and one of each for each sender.
#[derive(Drop)]
pub(crate) struct Keys {
    pub(crate) receiver: Pass,
    pub(crate) senders: Vec<Pass>,
    pub(crate) own: Seat,
    pub(crate) seats: Vec<Seat>,
}

/// An inbox, its receiver's pass and its senders' passes.
fn open_inbox(
    alloc: Global,
    capacity: usize,
    senders: usize,
) -> Result<(Inbox, Pass, Vec<Pass>), AllocError>
    requires capacity { (0 < capacity) × (capacity ≤ 4096) }
    requires senders { (0 < senders) × (senders ≤ 64) }
    ensures receiver { IfOk result (λ made. IsReceiverOf made.0 made.1) }
    ensures senders { IfOk result (λ made. All (IsSenderOf made.0) made.2.items) }
    ensures count { IfOk result (λ made. vec_len made.2 ≡ senders) }
    ensures room { IfOk result (λ made. made.0.capacity ≡ capacity) }
{
    let (inbox, mut passes) = Inbox::new(alloc, capacity, senders)?;
    let receiver = passes.remove(0);
    Ok((inbox, receiver, passes))
}

/// A bell and its seats.
pub(crate) fn open_bell(alloc: Global, seats: usize) -> Result<(Bell, Vec<Seat>), AllocError>
    requires { (0 < seats) × (seats ≤ 64) }
    ensures seats { IfOk result (λ made. All (IsSeatOf made.0) made.1.items) }
    ensures count { IfOk result (λ made. vec_len made.1 ≡ seats) }
{
    let made = Bell::new(alloc, seats)?;
    Ok(made)
}

/// A mailbox for so many senders, whose inbox holds so many tickets, and its passes and seats.
fn open_mailbox(
    alloc: Global,
    capacity: usize,
    senders: usize,
) -> Result<(Mailbox, Keys), AllocError>
    requires capacity { (0 < capacity) × (capacity ≤ 4096) }
    requires senders { (0 < senders) × (senders ≤ CLIENTS) }
    ensures fits { IfOk result (λ made. Fits senders made.0 made.1) }
    ensures room { IfOk result (λ made. made.0.inbox.capacity ≡ capacity) }
{
    let (inbox, receiver, passes) = open_inbox(alloc, capacity, senders)?;
    let (bell, mut seats) = open_bell(alloc, senders + 1)?;
    let own = seats.remove(0);
    let mailbox = Mailbox { inbox, bell };
    let keys = Keys {
        receiver,
        senders: passes,
        own,
        seats,
    };
    Ok((mailbox, keys))
}

/// So many mailboxes, each for so many senders and with an inbox that holds so many tickets, and the passes and seats
/// of each.
pub(crate) fn open_mailboxes(
    alloc: Global,
    count: u32,
    capacity: usize,
    senders: u32,
) -> Result<(Vec<Mailbox>, Vec<Keys>), AllocError>
    requires capacity { (0 < capacity) × (capacity ≤ 4096) }
    requires senders { (0 < senders) × (senders ≤ CLIENTS) }
    ensures each { IfOk result (λ made. FitEach senders made.0.items made.1.items) }
    ensures count { IfOk result (λ made. vec_len made.1 ≡ count) }
    ensures room { IfOk result (λ made. All (λ mailbox. mailbox.inbox.capacity ≡ capacity) made.0.items) }
{
    let mut mailboxes = Vec::new(alloc);
    let mut rows = Vec::new(alloc);
    for _ in 0..count {
        let (mailbox, keys) = open_mailbox(alloc, capacity, senders as usize)?;
        mailboxes.push(mailbox)?;
        rows.push(keys)?;
    }
    Ok((mailboxes, rows))
}
