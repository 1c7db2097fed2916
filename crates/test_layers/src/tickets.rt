ghost use Rattle.std.specs.Prelude.{◌≡◌, ◌<◌, ◌≤◌, IfOk, IfSome};
ghost use Rattle.std.specs.List.{All};
ghost use Rattle.tl_tickets.specs.Inbox.{IsPassOf, IsSenderOf, IsReceiverOf};
ghost use Rattle.tl_tickets.specs.Bell.{IsSeatOf};

use crate::pairs::{BellCall, Call, settled_after, total_after};
use std::alloc::{AllocError, Global};
use std::marker::Model;
use std::sync::Wait;
use std::thread;
use std::thread::Threads;
use tl_tickets::{Bell, Full, Inbox, Missing, Pass, Receiver, Ringer, Seat, Sender};
use tl_types::{BankNo, Channel, ClientId, Ticket};

// A ticket of this client, on channel A of bank 0.
fn ticket(client: u32, serial: u64) -> Ticket {
    Ticket {
        bank: BankNo::new(0),
        client: ClientId::new(client),
        channel: Channel::A,
        serial,
    }
}

// An inbox, its receiver's pass and its senders'.
fn open(
    alloc: Global,
    capacity: usize,
    senders: usize,
) -> Result<(Inbox, Pass, Vec<Pass>), AllocError>
    requires capacity { (0 < capacity) × (capacity ≤ 4096) }
    requires senders { (0 < senders) × (senders ≤ 64) }
    ensures { IfOk result (λ made. IsReceiverOf made.0 made.1 × All (IsSenderOf made.0) made.2.items) }
{
    let (inbox, mut passes) = Inbox::new(alloc, capacity, senders)?;
    let receiver = passes.remove(0);
    Ok((inbox, receiver, passes))
}

// The last of the senders' passes.
fn next_sender(inbox: &Inbox, senders: &mut Vec<Pass>) -> Option<Pass>
    requires { All (IsSenderOf inbox.now) senders.old.items }
    ensures pass { IfSome result (IsSenderOf inbox.now) }
    ensures others { All (IsSenderOf inbox.now) senders.new.items }
{
    let _ = inbox;
    senders.pop()
}

// An inbox with room for two, the receiver's pass and two senders'.
pub(crate) fn open_two(alloc: Global) -> Option<(Inbox, Pass, Pass, Pass)>
    ensures { IfSome result (λ made. IsReceiverOf made.0 made.1 × IsSenderOf made.0 made.2 × IsSenderOf made.0 made.3) }
{
    let (inbox, receiver, mut senders) = open(alloc, 2, 2).ok()?;
    let second = next_sender(&inbox, &mut senders)?;
    let first = next_sender(&inbox, &mut senders)?;
    Some((inbox, receiver, first, second))
}

// Settles an inbox with all senders' passes and the receiver's. `None` is want of memory.
fn settle_all(
    inbox: Inbox,
    senders: Result<Vec<Pass>, AllocError>,
    receiver: Pass,
) -> Option<Result<u64, Missing>>
    requires { IfOk senders (λ v. All (IsPassOf inbox) v.items) × IsPassOf inbox receiver }
{
    let mut passes = senders.ok()?;
    passes.push(receiver).ok()?;
    Some(inbox.settle(passes))
}

// Puts this many tickets of one client, each again until there is room.
fn put_all<R: Wait>(rt: &R, mut sender: Sender<'_>, client: u32, count: u64) -> Pass
    ensures { IsSenderOf sender.entry.inbox result }
{
    let mut serial = 0;
    for _ in rt.forever() {
        if serial >= count {
            break;
        }
        match sender.put(rt, ticket(client, serial)) {
            Ok(()) => serial += 1,
            Err(_) => thread::yield_now(),
        }
    }
    sender.into_pass()
}

// Each sender puts this many tickets in a thread of its own, as the client of its number, and then the bell is rung.
fn put_each<R: Threads + Wait + Sync>(
    rt: &R,
    inbox: &Inbox,
    mut done: Ringer<'_>,
    senders: Vec<Pass>,
    count: u64,
) -> Result<Vec<Pass>, AllocError>
    requires { All (IsSenderOf inbox.now) senders.items }
    ensures { IfOk result (λ v. All (IsPassOf inbox.now) v.items) }
{
    let passes = thread::map_vec(
        rt,
        senders,
        &|pass| -> Pass
            requires { IsSenderOf inbox.now pass }
            ensures { IsPassOf inbox.entry.now result }
        {
            let client = u32::try_from(pass.number()).unwrap_or(0);
            put_all(rt, Sender::new(inbox, pass), client, count)
        },
    );
    done.ring();
    passes
}

// Takes tickets until the bell was rung and nothing waits.
fn take_all<R: Wait>(
    rt: &R,
    mut receiver: Receiver<'_>,
    mut done: Ringer<'_>,
    mut tickets: Vec<Ticket>,
) -> (Pass, Vec<Ticket>)
    ensures { IsReceiverOf receiver.entry.inbox result.0 }
{
    for _ in rt.forever() {
        let is_done = done.heard() > 0;
        match receiver.take(rt) {
            Some(taken) => {
                let _ = tickets.push(taken);
            }
            None if is_done => break,
            None => thread::yield_now(),
        }
    }
    (receiver.into_pass(), tickets)
}

// A bell with two seats.
pub(crate) fn open_bell(alloc: Global) -> Result<(Bell, Seat, Seat), AllocError>
    ensures { IfOk result (λ made. IsSeatOf made.0 made.1 × IsSeatOf made.0 made.2) }
{
    let (bell, mut seats) = Bell::new(alloc, 2)?;
    let (Some(second), Some(first)) = (seats.pop(), seats.pop()) else {
        unreachable!()
    };
    Ok((bell, first, second))
}

#[test]
fn a_full_inbox_hands_back(rt: HostRuntime) {
    let settled = settled_after(
        &rt,
        rt.alloc(),
        &[
            (Call::First(ticket(1, 0)), Ok(None)),
            (Call::First(ticket(1, 1)), Ok(None)),
            (Call::First(ticket(1, 2)), Err(Full(ticket(1, 2)))),
            (Call::Take, Ok(Some(ticket(1, 0)))),
            (Call::First(ticket(1, 2)), Ok(None)),
            (Call::Second(ticket(2, 3)), Err(Full(ticket(2, 3)))),
            (Call::Take, Ok(Some(ticket(1, 1)))),
            (Call::Take, Ok(Some(ticket(1, 2)))),
            (Call::Take, Ok(None)),
        ],
    );
    assert_eq!(rt; settled, Some((None, Ok(0))));
}

#[test]
fn one_ticket_is_left(rt: HostRuntime) {
    let settled = settled_after(
        &rt,
        rt.alloc(),
        &[
            (Call::First(ticket(1, 0)), Ok(None)),
            (Call::First(ticket(1, 1)), Ok(None)),
            (Call::Take, Ok(Some(ticket(1, 0)))),
        ],
    );
    assert_eq!(rt; settled, Some((None, Ok(1))));
}

// An inbox settled without its receiver's pass. `None` is want of memory.
fn settle_without_receiver(alloc: Global) -> Option<Result<u64, Missing>> {
    let (inbox, _receiver, senders) = open(alloc, 2, 2).ok()?;
    Some(inbox.settle(senders))
}

// An inbox settled without passes. `None` is want of memory.
fn settle_without_passes(alloc: Global) -> Option<Result<u64, Missing>> {
    let (inbox, _passes) = Inbox::new(alloc, 1, 1).ok()?;
    Some(inbox.settle(Vec::new(alloc)))
}

#[test]
fn a_pass_is_missing(rt: HostRuntime) {
    assert_eq!(rt;
        [
            settle_without_receiver(rt.alloc()),
            settle_without_passes(rt.alloc()),
        ],
        [Some(Err(Missing)), Some(Err(Missing))]
    );
}

// The senders put and the receiver takes, beside each other: the passes, and what was taken.
fn exchange<R: Threads + Wait + Sync>(
    rt: &R,
    inbox: &Inbox,
    receiver: Pass,
    senders: Vec<Pass>,
    bell: &Bell,
    heard: Seat,
    rung: Seat,
    tickets: Vec<Ticket>,
) -> (Result<Vec<Pass>, AllocError>, (Pass, Vec<Ticket>))
    requires receiver { IsReceiverOf inbox.now receiver }
    requires senders { All (IsSenderOf inbox.now) senders.items }
    requires seats { IsSeatOf bell.now heard × IsSeatOf bell.now rung }
    ensures senders { IfOk result.0 (λ v. All (IsPassOf inbox.now) v.items) }
    ensures receiver { IsPassOf inbox.now result.1.0 }
{
    thread::join(
        rt,
        move || -> Result<Vec<Pass>, AllocError>
            requires { All (IsSenderOf inbox.now) senders.items × IsSeatOf bell.now rung }
            ensures { IfOk result (λ v. All (IsPassOf inbox.entry.now) v.items) }
        { put_each(rt, inbox, Ringer::new(bell, rung), senders, 1000) },
        move || -> (Pass, Vec<Ticket>)
            requires { IsReceiverOf inbox.now receiver × IsSeatOf bell.now heard }
            ensures { IsPassOf inbox.entry.now result.0 }
        {
            let (receiver, heard) = (Receiver::new(inbox, receiver), Ringer::new(bell, heard));
            take_all(rt, receiver, heard, tickets)
        },
    )
}

// An inbox and a bell with what belongs to them, and room for what is taken.
#[derive(Drop)]
struct Opened {
    inbox: Inbox,
    receiver: Pass,
    senders: Vec<Pass>,
    bell: Bell,
    heard: Seat,
    rung: Seat,
    tickets: Vec<Ticket>,
}

impl Model for Opened {
    ghost use Rattle.std.specs.List.{All};
    ghost use Rattle.tl_tickets.specs.Inbox.{IsSenderOf, IsReceiverOf};
    ghost use Rattle.tl_tickets.specs.Bell.{IsSeatOf};

    ghost Value = { Unit {0} };

    ghost view = { λ _. tt };

    ghost invariant = { λ o. IsReceiverOf o.inbox o.receiver × All (IsSenderOf o.inbox) o.senders.items
        × IsSeatOf o.bell o.heard × IsSeatOf o.bell o.rung };
}

// Opens them for this many senders, with room for so many tickets to wait and to be taken.
fn open_all(
    alloc: Global,
    capacity: usize,
    senders: usize,
    taken: usize,
) -> Result<Opened, AllocError>
    requires capacity { (0 < capacity) × (capacity ≤ 4096) }
    requires senders { (0 < senders) × (senders ≤ 64) }
{
    let (inbox, receiver, senders) = open(alloc, capacity, senders)?;
    let (bell, heard, rung) = open_bell(alloc)?;
    let tickets = Vec::with_capacity(alloc, taken)?;
    Ok(Opened {
        inbox,
        receiver,
        senders,
        bell,
        heard,
        rung,
        tickets,
    })
}

// What `settle` gives once all have put beside the receiver, and what it took.
fn exchanged<R: Threads + Wait + Sync>(
    rt: &R,
    opened: Opened,
) -> (Option<Result<u64, Missing>>, Vec<Ticket>) {
    let Opened {
        inbox,
        receiver,
        senders,
        bell,
        heard,
        rung,
        tickets,
    } = opened;
    let (senders, (receiver, tickets)) = exchange(
        rt, &inbox, receiver, senders, &bell, heard, rung, tickets,
    );
    (settle_all(inbox, senders, receiver), tickets)
}

// How many tickets of a client there are. `None` where one of them is not the next of that client.
fn count_in_order(tickets: &[Ticket], client: u32) -> Option<u64> {
    let mut next = 0u64;
    for taken in tickets {
        if taken.client == ClientId::new(client) {
            if *taken != ticket(client, next) {
                return None;
            }
            next = next.wrapping_add(1);
        }
    }
    Some(next)
}

// What `settle` gives, how many tickets were taken, and how many of each client 1 to 4, in order.
type Exchanged = (Option<Result<u64, Missing>>, usize, [Option<u64>; 4]);

// The same of four senders. `None` is want of memory.
fn exchanged_by_four<R: Threads + Wait + Sync>(rt: &R, alloc: Global) -> Option<Exchanged> {
    let opened = open_all(alloc, 16, 4, 4000).ok()?;
    let (settled, tickets) = exchanged(rt, opened);
    let counts = [
        count_in_order(&tickets, 1),
        count_in_order(&tickets, 2),
        count_in_order(&tickets, 3),
        count_in_order(&tickets, 4),
    ];
    Some((settled, tickets.len(), counts))
}

#[test]
fn four_senders_in_threads(rt: HostRuntime) {
    assert_eq!(rt;
        exchanged_by_four(&rt, rt.alloc()),
        Some((Some(Ok(0)), 4000, [Some(1000); 4]))
    );
}

// What `settle` gives once all have put a ticket and the receiver has taken them, and what it took.
fn sent_and_taken<R: Threads + Wait + Sync>(
    rt: &R,
    opened: Opened,
) -> (Option<Result<u64, Missing>>, Vec<Ticket>) {
    let Opened {
        inbox,
        receiver,
        senders,
        bell,
        heard,
        rung,
        tickets,
    } = opened;
    let (heard, rung) = (Ringer::new(&bell, heard), Ringer::new(&bell, rung));
    let passes = put_each(rt, &inbox, rung, senders, 1);
    let (receiver, tickets) = take_all(rt, Receiver::new(&inbox, receiver), heard, tickets);
    (settle_all(inbox, passes, receiver), tickets)
}

// How many of these tickets are a client's first.
fn count_firsts(tickets: &[Ticket], client: u32) -> usize {
    tickets.iter().filter(|t| **t == ticket(client, 0)).count()
}

// Whether each client 1 to 64 has one ticket, its first.
fn have_one_each(tickets: &[Ticket]) -> bool {
    for client in 1..65u32 {
        if count_firsts(tickets, client) != 1 {
            return false;
        }
    }
    true
}

// What `settle` gives once 64 senders have put a ticket each, and whether each was taken. `None` is want of memory.
fn sent_by_sixty_four<R: Threads + Wait + Sync>(
    rt: &R,
    alloc: Global,
) -> Option<(Option<Result<u64, Missing>>, bool)> {
    let opened = open_all(alloc, 4096, 64, 64).ok()?;
    let (settled, tickets) = sent_and_taken(rt, opened);
    Some((settled, have_one_each(&tickets)))
}

#[test]
fn sixty_four_senders(rt: HostRuntime) {
    assert_eq!(rt;
        sent_by_sixty_four(&rt, rt.alloc()),
        Some((Some(Ok(0)), true))
    );
}

#[test]
fn a_bell_is_heard_from_both_seats(rt: HostRuntime) {
    let total = total_after(
        rt.alloc(),
        &[
            (BellCall::RingFirst, 1),
            (BellCall::RingFirst, 1),
            (BellCall::RingFirst, 1),
            (BellCall::HearSecond, 3),
            (BellCall::RingSecond, 1),
            (BellCall::HearSecond, 4),
            (BellCall::HearFirst, 4),
        ],
    );
    assert_eq!(rt; total, Some((None, Ok(4))));
}

// The total of a bell with one of its two seats. `None` is want of memory.
fn total_of_one(alloc: Global) -> Option<Result<u64, Missing>> {
    let (bell, _first, second) = open_bell(alloc).ok()?;
    let seats = Vec::from_array(alloc, [second]).ok()?;
    Some(bell.total(seats))
}

#[test]
fn a_seat_is_missing(rt: HostRuntime) {
    let total = total_of_one(rt.alloc());
    assert_eq!(rt; total, Some(Err(Missing)));
}

// A bell and its seats.
fn open_seats(alloc: Global, seats: usize) -> Result<(Bell, Vec<Seat>), AllocError>
    requires { (0 < seats) × (seats ≤ 64) }
    ensures { IfOk result (λ made. All (IsSeatOf made.0) made.1.items) }
{
    let made = Bell::new(alloc, seats)?;
    Ok(made)
}

// Rings this often, and hears.
fn ring_often(mut ringer: Ringer<'_>, times: u64) -> Seat
    ensures { IsSeatOf ringer.entry.bell result }
{
    for _ in 0..times {
        ringer.ring();
    }
    ringer.heard();
    ringer.into_seat()
}

// The total of a bell whose seats each rang so often in a thread of its own. `None` is want of memory.
fn total_in_threads<R: Threads + Sync>(
    rt: &R,
    alloc: Global,
    seats: usize,
    times: u64,
) -> Option<Result<u64, Missing>>
    requires { (0 < seats) × (seats ≤ 64) }
{
    let (bell, seats) = open_seats(alloc, seats).ok()?;
    let shared = &bell;
    let seats = thread::map_vec(
        rt,
        seats,
        &|seat| -> Seat
            requires { IsSeatOf shared.now seat }
            ensures { IsSeatOf shared.entry.now result }
        { ring_often(Ringer::new(shared, seat), times) },
    );
    Some(bell.total(seats.ok()?))
}

#[test]
fn sixty_four_seats_ring_in_threads(rt: HostRuntime) {
    let total = total_in_threads(&rt, rt.alloc(), 64, 1000);
    assert_eq!(rt; total, Some(Ok(64_000)));
}

// Whether one of two inboxes is made.
fn makes_an_inbox(alloc: Global) -> bool {
    let (first, second) = (open(alloc, 2, 3), open(alloc, 2, 3));
    first.is_ok() || second.is_ok()
}

// Whether one of two bells is made.
fn makes_a_bell(alloc: Global) -> bool {
    let (first, second) = (open_seats(alloc, 3), open_seats(alloc, 3));
    first.is_ok() || second.is_ok()
}

// Where one request for memory is refused, the call that made it says so, and the next one makes what it is asked.
#[test]
fn memory_is_refused_once(rt: HostRuntime) {
    for _ in 0..2 {
        assert!(rt; makes_an_inbox(rt.alloc()));
        assert!(rt; makes_a_bell(rt.alloc()));
    }
}
