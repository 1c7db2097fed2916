//! The inboxes and bells of one client and one bank.
ghost use Rattle.std.specs.Prelude.{◌≡◌, ◌<◌, ◌≤◌, IfSome};
ghost use Rattle.std.specs.List.{All};
ghost use Rattle.tl_tickets.specs.Inbox.{IsReceiverOf, IsSenderOf};
ghost use Rattle.tl_tickets.specs.Bell.{IsSeatOf};

use crossbeam_utils::sync::{Parker, Unparker};
use std::alloc::Global;
use tl_client_mail::{Mail, Sending};
use tl_tickets::{Bell, Inbox, Pass, Receiver, Ringer, Seat, Sender};

/// A worker's inbox and bell. Its ends lend them.
#[derive(Drop)]
pub struct Room {
    pub inbox: Inbox,
    pub bell: Bell,
}

/// A pass of a room's inbox and a seat at its bell.
#[derive(Drop)]
pub struct Key {
    pub pass: Pass,
    pub seat: Seat,
}

/// One of a bell's seats.
fn next_seat(bell: &Bell, seats: &mut Vec<Seat>) -> Option<Seat>
    requires { All (IsSeatOf bell.now) seats.old.items }
    ensures seat { IfSome result (IsSeatOf bell.now) }
    ensures others { All (IsSeatOf bell.now) seats.new.items }
{
    let _ = bell;
    seats.pop()
}

/// A bell and its two seats.
pub fn open_bell(alloc: Global) -> Option<(Bell, Seat, Seat)>
    ensures { IfSome result (λ made. IsSeatOf made.0 made.1 × IsSeatOf made.0 made.2) }
{
    let (bell, mut seats) = Bell::new(alloc, 2).ok()?;
    let one = next_seat(&bell, &mut seats)?;
    let other = next_seat(&bell, &mut seats)?;
    Some((bell, one, other))
}

/// An inbox and its two passes.
fn open_inbox(alloc: Global, capacity: usize) -> Option<(Inbox, Pass, Pass)>
    requires { (0 < capacity) × (capacity ≤ 4096) }
    ensures { IfSome result (λ made. IsReceiverOf made.0 made.1 × IsSenderOf made.0 made.2) }
{
    let (inbox, mut passes) = Inbox::new(alloc, capacity, 1).ok()?;
    let receiver = passes.remove(0);
    let sender = passes.remove(0);
    Some((inbox, receiver, sender))
}

/// A room with an inbox of eight tickets, the key of its own worker, and that of the one who sends to it.
fn open(alloc: Global) -> Option<(Room, Key, Key)>
    ensures own { IfSome result (λ made. IsReceiverOf made.0.inbox made.1.pass × IsSeatOf made.0.bell made.1.seat) }
    ensures other { IfSome result (λ made. IsSenderOf made.0.inbox made.2.pass × IsSeatOf made.0.bell made.2.seat) }
{
    let (inbox, receiver, sender) = open_inbox(alloc, 8)?;
    let (bell, own, other) = open_bell(alloc)?;
    Some((
        Room { inbox, bell },
        Key {
            pass: receiver,
            seat: own,
        },
        Key {
            pass: sender,
            seat: other,
        },
    ))
}

/// A room in which nobody is, and the key of the one who sends to it.
pub fn open_outside(alloc: Global) -> Option<(Room, Key)>
    ensures { IfSome result (λ made. IsSenderOf made.0.inbox made.1.pass × IsSeatOf made.0.bell made.1.seat) }
{
    let (room, _own, other) = open(alloc)?;
    Some((room, other))
}

/// The rooms of two workers who send to one another, and the bell that tells that all clients are done.
#[derive(Drop)]
pub struct Rooms {
    pub one: Room,
    pub other: Room,
    pub done: Bell,
}

/// The keys to two workers' rooms: of each room's own worker and of the one who sends to it, and both seats at the done
/// bell.
#[derive(Drop)]
pub struct Keys {
    pub one: Key,
    pub to_one: Key,
    pub other: Key,
    pub to_other: Key,
    pub rings: Seat,
    pub hears: Seat,
}

/// Two rooms with inboxes of eight tickets, a done bell, and all keys. `None` where a request for memory was refused.
pub fn open_two(alloc: Global) -> Option<(Rooms, Keys)>
    ensures one { IfSome result (λ v. IsReceiverOf v.0.one.inbox v.1.one.pass × IsSeatOf v.0.one.bell v.1.one.seat) }
    ensures to_one { IfSome result
        (λ v. IsSenderOf v.0.one.inbox v.1.to_one.pass × IsSeatOf v.0.one.bell v.1.to_one.seat) }
    ensures other { IfSome result
        (λ v. IsReceiverOf v.0.other.inbox v.1.other.pass × IsSeatOf v.0.other.bell v.1.other.seat) }
    ensures to_other { IfSome result
        (λ v. IsSenderOf v.0.other.inbox v.1.to_other.pass × IsSeatOf v.0.other.bell v.1.to_other.seat) }
    ensures done { IfSome result (λ v. IsSeatOf v.0.done v.1.rings × IsSeatOf v.0.done v.1.hears) }
{
    let (one, one_key, to_one) = open(alloc)?;
    let (other, other_key, to_other) = open(alloc)?;
    let (done, rings, hears) = open_bell(alloc)?;
    let rooms = Rooms { one, other, done };
    let keys = Keys {
        one: one_key,
        to_one,
        other: other_key,
        to_other,
        rings,
        hears,
    };
    Some((rooms, keys))
}

/// The ends of a room's own worker.
pub fn inside<'a>(room: &'a Room, key: Key) -> (Receiver<'a>, Ringer<'a>)
    requires { IsReceiverOf room.now.inbox key.pass × IsSeatOf room.now.bell key.seat }
    ensures { result.0.inbox ≡ room.now.inbox }
{
    let Key { pass, seat } = key;
    (
        Receiver::new(&room.inbox, pass),
        Ringer::new(&room.bell, seat),
    )
}

/// The ends of the one who sends to a room.
pub fn outside<'a>(room: &'a Room, key: Key) -> (Sender<'a>, Ringer<'a>)
    requires { IsSenderOf room.now.inbox key.pass × IsSeatOf room.now.bell key.seat }
    ensures { result.0.inbox ≡ room.now.inbox }
{
    let Key { pass, seat } = key;
    (
        Sender::new(&room.inbox, pass),
        Ringer::new(&room.bell, seat),
    )
}

/// The way to one other.
pub fn way<'a>(
    alloc: Global,
    to: (Sender<'a>, Ringer<'a>),
    rest: &Unparker,
) -> Option<Sending<'a>> {
    let rest = rest.clone().ok()?;
    Sending::new(alloc, to.0, to.1, rest).ok()
}

/// The only way of a worker that sends to one other.
fn only_way<'a>(
    alloc: Global,
    to: (Sender<'a>, Ringer<'a>),
    rest: &Unparker,
) -> Option<Vec<Sending<'a>>> {
    let way = way(alloc, to, rest)?;
    Vec::from_array(alloc, [way]).ok()
}

/// The same, and where the worker rests.
fn only_way_and_rest<'a>(
    alloc: Global,
    to: (Sender<'a>, Ringer<'a>),
) -> Option<(Vec<Sending<'a>>, Parker)> {
    let parker = Parker::new(alloc).ok()?;
    only_way(alloc, to, parker.unparker()).zip(Some(parker))
}

/// The mail of a worker with these ways, which rests there, where there are any.
pub fn mail_of<'a>(
    own: (Receiver<'a>, Ringer<'a>),
    ways: Option<(Vec<Sending<'a>>, Parker)>,
    done: Ringer<'a>,
) -> Option<Mail<'a>>
    ensures { IfSome result (λ mail. mail.inbox.inbox ≡ own.entry.0.inbox) }
{
    let (ways, parker) = ways?;
    Some(Mail::new(own.0, own.1, ways, done, parker))
}

/// The mail of a worker that sends to one other. One thread plays all workers, so that a ring need wake nobody: each
/// way wakes the sender.
pub fn mail<'a>(
    alloc: Global,
    own: (Receiver<'a>, Ringer<'a>),
    to: (Sender<'a>, Ringer<'a>),
    done: Ringer<'a>,
) -> Option<Mail<'a>>
    ensures { IfSome result (λ mail. mail.inbox.inbox ≡ own.entry.0.inbox) }
{
    mail_of(own, only_way_and_rest(alloc, to), done)
}

/// The mails of two workers who send to one another. `None` where a request for memory was refused.
pub fn two_mails<'a>(
    alloc: Global,
    rooms: &'a Rooms,
    keys: Keys,
) -> (Option<Mail<'a>>, Option<Mail<'a>>)
    requires one { IsReceiverOf rooms.now.one.inbox keys.one.pass × IsSeatOf rooms.now.one.bell keys.one.seat }
    requires to_one { IsSenderOf rooms.now.one.inbox keys.to_one.pass × IsSeatOf rooms.now.one.bell keys.to_one.seat }
    requires other { IsReceiverOf rooms.now.other.inbox keys.other.pass
        × IsSeatOf rooms.now.other.bell keys.other.seat }
    requires to_other { IsSenderOf rooms.now.other.inbox keys.to_other.pass
        × IsSeatOf rooms.now.other.bell keys.to_other.seat }
    requires done { IsSeatOf rooms.now.done keys.rings × IsSeatOf rooms.now.done keys.hears }
{
    let first = mail(
        alloc,
        inside(&rooms.one, keys.one),
        outside(&rooms.other, keys.to_other),
        Ringer::new(&rooms.done, keys.rings),
    );
    let second = mail(
        alloc,
        inside(&rooms.other, keys.other),
        outside(&rooms.one, keys.to_one),
        Ringer::new(&rooms.done, keys.hears),
    );
    (first, second)
}

/// The mail of the first worker, the ends of the one who sends to it, and an end of the done bell.
pub fn first_mail<'a>(
    alloc: Global,
    rooms: &'a Rooms,
    keys: Keys,
) -> (Option<Mail<'a>>, (Sender<'a>, Ringer<'a>), Ringer<'a>)
    requires one { IsReceiverOf rooms.now.one.inbox keys.one.pass × IsSeatOf rooms.now.one.bell keys.one.seat }
    requires to_one { IsSenderOf rooms.now.one.inbox keys.to_one.pass × IsSeatOf rooms.now.one.bell keys.to_one.seat }
    requires to_other { IsSenderOf rooms.now.other.inbox keys.to_other.pass
        × IsSeatOf rooms.now.other.bell keys.to_other.seat }
    requires done { IsSeatOf rooms.now.done keys.rings × IsSeatOf rooms.now.done keys.hears }
    ensures own { IfSome result.0 (λ mail. mail.inbox.inbox ≡ rooms.now.one.inbox) }
    ensures put { result.1.0.inbox ≡ rooms.now.one.inbox }
{
    let hears = Ringer::new(&rooms.done, keys.hears);
    let own = inside(&rooms.one, keys.one);
    let mail = mail(alloc, own, outside(&rooms.other, keys.to_other), hears);
    let put = outside(&rooms.one, keys.to_one);
    (mail, put, Ringer::new(&rooms.done, keys.rings))
}
