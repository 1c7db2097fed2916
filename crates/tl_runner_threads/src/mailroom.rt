//! The mailboxes and bells of a run.
ghost use Rattle.std.specs.Prelude.{◌≡◌, ◌+◌, ◌<◌, ◌≤◌, IfOk, vec_len};
ghost use Rattle.tl_runner_threads.specs.Opens.{HoldsEach, Opens};

use crate::deal::{Post, deal, posts, ringers};
use crate::mailbox::{Keys, Mailbox, open_bell, open_mailboxes};
use std::alloc::{AllocError, Global};
use tl_map::Geometry;
use tl_tickets::{Bell, Ringer, Seat};

/// The mailboxes of clients and homes, by number, the done bell and the stop bell.
#[derive(Drop)]
pub(crate) struct Mailroom {
    clients: Vec<Mailbox>,
    homes: Vec<Mailbox>,
    done: Bell,
    stop: Bell,
}

/// The passes and seats of a mailroom, which are to be dealt out.
#[derive(Drop)]
pub(crate) struct AllKeys {
    clients: Vec<Keys>,
    homes: Vec<Keys>,
    done: Vec<Seat>,
    stop: Vec<Seat>,
}

/// What each worker uses, by number, and the runner's seat at the stop bell.
#[derive(Drop)]
pub(crate) struct Posts<'x> {
    pub(crate) clients: Vec<Post<'x>>,
    pub(crate) homes: Vec<Post<'x>>,
    pub(crate) stop: Ringer<'x>,
}

/// The mailboxes and bells for the clients and banks of a geometry, and for a runner. Each inbox holds so many tickets.
pub(crate) fn open_mailroom(
    alloc: Global,
    geometry: Geometry,
    capacity: usize,
) -> Result<(Mailroom, AllKeys), AllocError>
    requires { (0 < capacity) × (capacity ≤ 4096) }
    ensures opens { IfOk result (λ made. Opens geometry made.0 made.1) }
    ensures room { IfOk result (λ made. HoldsEach capacity made.0) }
{
    let clients = geometry.clients();
    let banks = geometry.banks();
    let (client_boxes, client_keys) = open_mailboxes(alloc, clients, capacity, banks)?;
    let (home_boxes, home_keys) = open_mailboxes(alloc, banks, capacity, clients)?;
    let threads = (clients + banks) as usize;
    let (done, done_seats) = open_bell(alloc, threads)?;
    let (stop, stop_seats) = open_bell(alloc, threads + 1)?;
    let mailroom = Mailroom {
        clients: client_boxes,
        homes: home_boxes,
        done,
        stop,
    };
    let keys = AllKeys {
        clients: client_keys,
        homes: home_keys,
        done: done_seats,
        stop: stop_seats,
    };
    Ok((mailroom, keys))
}

/// What each worker uses of a mailroom, and the runner's seat at the stop bell.
pub(crate) fn deal_out<'x>(
    alloc: Global,
    geometry: Geometry,
    mailroom: &'x Mailroom,
    keys: AllKeys,
) -> Result<Posts<'x>, AllocError>
    requires { Opens geometry mailroom.now keys }
    ensures clients { IfOk result (λ posts. vec_len posts.clients ≡ geometry.clients) }
    ensures homes { IfOk result (λ posts. vec_len posts.homes ≡ geometry.banks) }
{
    let clients = geometry.clients() as usize;
    let banks = geometry.banks() as usize;
    let client_ends = deal(alloc, &mailroom.clients, keys.clients, banks)?;
    let home_ends = deal(alloc, &mailroom.homes, keys.homes, clients)?;
    let mut client_done = ringers(alloc, &mailroom.done, keys.done)?;
    let home_done = client_done.split_off(clients)?;
    let mut client_stop = ringers(alloc, &mailroom.stop, keys.stop)?;
    let stop = client_stop.remove(0);
    let home_stop = client_stop.split_off(clients)?;
    Ok(Posts {
        clients: posts(
            alloc,
            client_ends.receiving,
            home_ends.sending,
            client_done,
            client_stop,
        )?,
        homes: posts(
            alloc,
            home_ends.receiving,
            client_ends.sending,
            home_done,
            home_stop,
        )?,
        stop,
    })
}
