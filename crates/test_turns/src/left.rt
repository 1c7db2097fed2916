//! An idle turn leaves a ticket that was put without a ring: the inbox has it once it is settled.
ghost use Rattle.std.specs.Prelude.{◌≡◌, IfSome, IsTrue};
ghost use Rattle.tl_tickets.specs.Bell.{IsSeatOf};
ghost use Rattle.tl_tickets.specs.Inbox.{IsPassOf, IsReceiverOf, IsSenderOf};

use crate::mails::{Keys, Room, Rooms, first_mail, open_two};
use crate::order::{Recorder, refusing_port};
use std::alloc::Global;
use std::sync::Wait;
use std::time::Clock;
use tl_client::{Free, Home, Mail, Turn};
use tl_tickets::{Missing, Pass, Sender};
use tl_types::{BankNo, Channel, ClientId, Ticket};

/// A turn of a home. Whether it worked.
fn works<R: Wait + Clock>(rt: &R, home: &mut Home, port: &mut Recorder, mail: &mut Mail<'_>) -> bool
    ensures { IsTrue result → mail.new.inbox.inbox ≡ mail.old.inbox.inbox }
{
    match home.turn(rt, port, &Free, 1, mail) {
        Turn::Worked => true,
        _ => false,
    }
}

/// A turn of a home. Whether it was idle.
fn idles<R: Wait + Clock>(rt: &R, home: &mut Home, port: &mut Recorder, mail: &mut Mail<'_>) -> bool
    ensures { IsTrue result → mail.new.inbox.inbox ≡ mail.old.inbox.inbox }
{
    match home.turn(rt, port, &Free, 1, mail) {
        Turn::Idle => true,
        _ => false,
    }
}

/// Puts a ticket that nobody rings for. Whether there was room.
fn put_request<R: Wait>(rt: &R, put: &mut Sender<'_>) -> bool
    ensures { put.new.inbox ≡ put.old.inbox }
{
    let request = Ticket {
        bank: BankNo::new(0),
        client: ClientId::new(0),
        channel: Channel::A,
        serial: 0,
    };
    put.put(rt, request).is_ok()
}

/// Two turns of a home, and before the second a ticket that nobody rings for. Whether the first worked and the second
/// was idle.
fn works_then_idles<R: Wait + Clock>(
    rt: &R,
    home: &mut Home,
    port: &mut Recorder,
    mail: &mut Mail<'_>,
    put: &mut Sender<'_>,
) -> bool
    ensures mail { IsTrue result → mail.new.inbox.inbox ≡ mail.old.inbox.inbox }
    ensures put { put.new.inbox ≡ put.old.inbox }
{
    works(rt, home, port, mail) && put_request(rt, put) && idles(rt, home, port, mail)
}

/// The passes of an inbox, of its receiver and of the one who sends to it.
fn passes_of(mail: Mail<'_>, put: Sender<'_>) -> (Pass, Pass)
    ensures { IsReceiverOf mail.entry.inbox.inbox result.0 × IsSenderOf put.entry.inbox result.1 }
{
    (mail.into_receiver().into_pass(), put.into_pass())
}

/// The passes of a home's inbox after these turns, where they were so.
fn two_turns<R: Wait + Clock>(
    rt: &R,
    alloc: Global,
    mut home: Home,
    mut mail: Mail<'_>,
    mut put: Sender<'_>,
) -> Option<(Pass, Pass)>
    ensures { IfSome result
        (λ passes. IsReceiverOf mail.entry.inbox.inbox passes.0 × IsSenderOf put.entry.inbox passes.1) }
{
    let mut port = refusing_port(alloc);
    let went = works_then_idles(rt, &mut home, &mut port, &mut mail, &mut put);
    let passes = passes_of(mail, put);
    went.then_some(passes)
}

/// The same at a new home, where there is a mail.
fn passes_at<R: Wait + Clock>(
    rt: &R,
    alloc: Global,
    mail: Option<Mail<'_>>,
    put: Sender<'_>,
) -> Option<(Pass, Pass)>
    requires { IfSome mail (λ m. m.inbox.inbox ≡ put.inbox) }
    ensures { IfSome result (λ passes. IsPassOf put.entry.inbox passes.0 × IsPassOf put.entry.inbox passes.1) }
{
    let mail = mail?;
    let home = Home::new(alloc, BankNo::new(0)).ok()?;
    two_turns(rt, alloc, home, mail, put)
}

/// The same with the mail of the first of two workers.
fn passes_after<R: Wait + Clock>(
    rt: &R,
    alloc: Global,
    rooms: &Rooms,
    keys: Keys,
) -> Option<(Pass, Pass)>
    requires one { IsReceiverOf rooms.now.one.inbox keys.one.pass × IsSeatOf rooms.now.one.bell keys.one.seat }
    requires to_one { IsSenderOf rooms.now.one.inbox keys.to_one.pass × IsSeatOf rooms.now.one.bell keys.to_one.seat }
    requires to_other { IsSenderOf rooms.now.other.inbox keys.to_other.pass
        × IsSeatOf rooms.now.other.bell keys.to_other.seat }
    requires done { IsSeatOf rooms.now.done keys.rings × IsSeatOf rooms.now.done keys.hears }
    ensures { IfSome result (λ passes. IsPassOf rooms.now.one.inbox passes.0 × IsPassOf rooms.now.one.inbox passes.1) }
{
    let (mail, (put, _bell), _done) = first_mail(alloc, rooms, keys);
    passes_at(rt, alloc, mail, put)
}

/// How many tickets wait in the inbox then. `None` where a turn was another one, or a request for memory was refused.
fn left<R: Wait + Clock>(rt: &R, alloc: Global) -> Option<Result<u64, Missing>> {
    let (rooms, keys) = open_two(alloc)?;
    let (receiver, sender) = passes_after(rt, alloc, &rooms, keys)?;
    let passes = Vec::from_array(alloc, [receiver, sender]).ok()?;
    let Rooms { one, .. } = rooms;
    let Room { inbox, .. } = one;
    Some(inbox.settle(passes))
}

#[test]
fn an_idle_home_leaves_a_ticket_without_a_ring(rt: HostRuntime) {
    assert_eq!(rt; left(&rt, rt.alloc()), Some(Ok(1)));
}
