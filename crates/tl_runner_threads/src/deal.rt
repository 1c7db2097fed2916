//! Mailboxes and bells, dealt out with their passes and seats: each worker gets its own mailbox, a way to each of those
//! that it sends to, and a seat at the done bell and at the stop bell.
ghost use Rattle.std.specs.Prelude.{◌≡◌, ◌+◌, ◌<◌, ◌≤◌, IfOk, length, vec_len};
ghost use Rattle.std.specs.List.{All};
ghost use Rattle.tl_tickets.specs.Inbox.{IsSenderOf};
ghost use Rattle.tl_tickets.specs.Bell.{IsSeatOf};
ghost use Rattle.tl_runner_threads.specs.Keys.{Fits, FitEach};

use crate::mailbox::{Keys, Mailbox};
use crossbeam_utils::sync::{Parker, Unparker};
use std::alloc::{AllocError, Global};
use tl_client_mail::{Mail, Sending};
use tl_tickets::{Bell, Inbox, Pass, Receiver, Ringer, Seat, Sender};

/// A mailbox as its receiver uses it, and what the receiver rests at.
#[derive(Drop)]
pub(crate) struct Receiving<'x> {
    inbox: Receiver<'x>,
    bell: Ringer<'x>,
    parker: Parker,
}

/// Mailboxes as their receivers use them, and for each the ways of its senders.
#[derive(Drop)]
pub(crate) struct Ends<'x> {
    pub(crate) receiving: Vec<Receiving<'x>>,
    pub(crate) sending: Vec<Vec<Sending<'x>>>,
}

/// What a worker uses: its mail, and its seat at the stop bell.
#[derive(Drop)]
pub(crate) struct Post<'x> {
    pub(crate) mail: Mail<'x>,
    pub(crate) stop: Ringer<'x>,
}

/// A bell with each of its seats.
pub(crate) fn ringers<'x>(
    alloc: Global,
    bell: &'x Bell,
    seats: Vec<Seat>,
) -> Result<Vec<Ringer<'x>>, AllocError>
    requires { All (IsSeatOf bell.now) seats.items }
    ensures { IfOk result (λ ringers. vec_len ringers ≡ vec_len seats) }
{
    let mut ringers = Vec::with_capacity(alloc, seats.len())?;
    for seat in seats {
        ringers.push(Ringer::new(bell, seat))?;
    }
    Ok(ringers)
}

/// The ways of a mailbox's senders.
fn ways_to<'x>(
    alloc: Global,
    inbox: &'x Inbox,
    bell: &'x Bell,
    passes: Vec<Pass>,
    mut seats: Vec<Seat>,
    rest: &Unparker,
) -> Result<Vec<Sending<'x>>, AllocError>
    requires passes { All (IsSenderOf inbox.now) passes.items }
    requires seats { All (IsSeatOf bell.now) seats.items }
    requires count { vec_len seats ≡ vec_len passes }
    ensures { IfOk result (λ ways. vec_len ways ≡ vec_len passes) }
{
    let mut ways = Vec::with_capacity(alloc, passes.len())?;
    for pass in passes {
        let Some(seat) = seats.pop() else {
            unreachable!()
        };
        let way = Sending::new(
            alloc,
            Sender::new(inbox, pass),
            Ringer::new(bell, seat),
            rest.clone()?,
        )?;
        ways.push(way)?;
    }
    Ok(ways)
}

/// A mailbox with its passes and seats.
fn ends_of<'x>(
    alloc: Global,
    mailbox: &'x Mailbox,
    keys: Keys,
    senders: usize,
) -> Result<(Receiving<'x>, Vec<Sending<'x>>), AllocError>
    requires { Fits senders mailbox.now keys }
    ensures { IfOk result (λ made. vec_len made.1 ≡ senders) }
{
    // For the prover: the clauses alone name it.
    let _ = senders;
    let Keys {
        receiver,
        senders: passes,
        own,
        seats,
    } = keys;
    let parker = Parker::new(alloc)?;
    let ways = ways_to(
        alloc,
        &mailbox.inbox,
        &mailbox.bell,
        passes,
        seats,
        parker.unparker(),
    )?;
    let receiving = Receiving {
        inbox: Receiver::new(&mailbox.inbox, receiver),
        bell: Ringer::new(&mailbox.bell, own),
        parker,
    };
    Ok((receiving, ways))
}

/// Each mailbox with its passes and seats, for so many senders.
pub(crate) fn deal<'x>(
    alloc: Global,
    mailboxes: &'x [Mailbox],
    rows: Vec<Keys>,
    senders: usize,
) -> Result<Ends<'x>, AllocError>
    requires { FitEach senders mailboxes.now rows.items }
    ensures receiving { IfOk result (λ ends. vec_len ends.receiving ≡ vec_len rows) }
    ensures sending { IfOk result (λ ends. All (λ ways. vec_len ways ≡ senders) ends.sending.items) }
{
    let mut receiving = Vec::with_capacity(alloc, rows.len())?;
    let mut sending = Vec::with_capacity(alloc, rows.len())?;
    let mut rest = mailboxes;
    for keys in rows {
        let Some((mailbox, others)) = rest.split_first() else {
            unreachable!()
        };
        let (own, ways) = ends_of(alloc, mailbox, keys, senders)?;
        receiving.push(own)?;
        sending.push(ways)?;
        rest = others;
    }
    Ok(Ends { receiving, sending })
}

/// One way to each receiver, and the ways that are left.
fn one_of_each<'x>(
    alloc: Global,
    sending: Vec<Vec<Sending<'x>>>,
    left: usize,
) -> Result<(Vec<Sending<'x>>, Vec<Vec<Sending<'x>>>), AllocError>
    requires some { 0 < left }
    requires each { All (λ ways. vec_len ways ≡ left) sending.items }
    ensures rest { IfOk result (λ made. All (λ ways. vec_len ways + 1 ≡ left) made.1.items) }
{
    // For the prover: the clauses alone name it.
    let _ = left;
    let mut taken = Vec::with_capacity(alloc, sending.len())?;
    let mut rest = Vec::with_capacity(alloc, sending.len())?;
    for mut ways in sending {
        taken.push(ways.remove(0))?;
        rest.push(ways)?;
    }
    Ok((taken, rest))
}

/// What a worker uses.
fn post_of<'x>(
    own: Receiving<'x>,
    ways: Vec<Sending<'x>>,
    done: Ringer<'x>,
    stop: Ringer<'x>,
) -> Post<'x> {
    let Receiving {
        inbox,
        bell,
        parker,
    } = own;
    Post {
        mail: Mail::new(inbox, bell, ways, done, parker),
        stop,
    }
}

/// What each worker uses: its mailbox, one way to each of its receivers, and a seat at each of the two bells.
pub(crate) fn posts<'x>(
    alloc: Global,
    receiving: Vec<Receiving<'x>>,
    mut sending: Vec<Vec<Sending<'x>>>,
    mut done: Vec<Ringer<'x>>,
    mut stop: Vec<Ringer<'x>>,
) -> Result<Vec<Post<'x>>, AllocError>
    requires ways { All (λ ways. vec_len ways ≡ vec_len receiving) sending.items }
    requires done { vec_len done ≡ vec_len receiving }
    requires stop { vec_len stop ≡ vec_len receiving }
    ensures { IfOk result (λ made. vec_len made ≡ vec_len receiving.entry) }
{
    let mut posts = Vec::with_capacity(alloc, receiving.len())?;
    for own in receiving {
        let (ways, rest) = one_of_each(alloc, sending, done.len())?;
        sending = rest;
        posts.push(post_of(own, ways, done.remove(0), stop.remove(0)))?;
    }
    Ok(posts)
}
