//! A search for a run that has what was seen. Nothing rests on it: what it finds is walked along.
ghost use Rattle.std.specs.Prelude.{◌<◌, ◌≤◌, IfOk};
ghost use Rattle.tl_protocol.specs.Protocol.{May};
ghost use Rattle.tlwire_search.specs.Led.{own_block};

use crate::clients::{Which, in_way};
use crate::enabling::{Preferred, enabling_event};
use crate::last::LastAccepts;
use crate::preceding::preceding_event;
use crate::premises::Premises;
use crate::seen::{Seen, Wire};
use crate::sight::seen_of;
use crate::target::{target, wire_of};
use crate::wires::Wires;
use std::alloc::{AllocError, Global};
use tl_rules::{Client, Event, Outward, Plain, Shape};
use tl_types::{BLOCK_BYTES, BLOCKS, BlockNo, Channel, ClientId, Downward, Upward};
use tlcheck_rules::{broken_rule, client_of};

/// How many events may come before one that something seen stands for.
const EVENTS: u32 = 4096;

/// How many events in a row may each ask for another one first.
const DEPTH: u32 = 96;

/// Why an attempt went no further.
#[derive(Clone, Copy, PartialEq, Eq)]
pub enum Limit {
    /// No event that was tried leads on.
    NoWay,
    /// Each of a long row of events asks for another one first.
    Depth,
    /// So many events came, and it was not reached.
    Events,
}

/// A run so far, and where it leads.
#[derive(Drop)]
struct Attempt<'a> {
    plain: Plain,
    wires: Wires<'a>,
    run: Vec<Event>,
}

/// What a search found, and the first place that it did not reach.
#[derive(Drop)]
pub(crate) struct Found {
    pub(crate) run: Vec<Event>,
    pub(crate) place: usize,
    pub(crate) limit: Limit,
    /// The client that the attempt held up there.
    held_up: Option<ClientId>,
}

/// What was seen, and how.
#[derive(Clone, Copy)]
struct Record<'a> {
    premises: &'a Premises,
    seen: &'a [Seen],
}

/// Whether home answers a Release if it takes the first message of C.
fn acknowledges(plain: &Plain, event: &Event) -> bool {
    let Event::TakeC(client, block) = event else {
        return false;
    };
    match plain.block(block.number()) {
        Some(state) => match state.client(*client) {
            Some(k) => matches!(k.c.as_slice(), [Upward::Release(_), ..]),
            None => false,
        },
        None => false,
    }
}

/// The event that is next on the wire of this one, itself where it sends nothing, or where more may have been sent
/// there than was seen.
fn in_order(plain: &Plain, wires: &Wires<'_>, record: Record<'_>, event: Event) -> Option<Event> {
    let wire = if acknowledges(plain, &event) {
        Some(Wire::Link(client_of(&event), Channel::D))
    } else {
        wire_of(&event)
    };
    let Some(wire) = wire else {
        return Some(event);
    };
    match wires.next(wire) {
        Some(place) => target(record.seen.get(place)?),
        None if record.premises.may_have_more(wire) => Some(event),
        None => None,
    }
}

/// Whether what is seen of an event that may come next is next on its wire.
fn is_next(plain: &Plain, wires: &Wires<'_>, record: Record<'_>, event: &Event) -> bool
    requires { May plain.now.shape (own_block plain.now event.now) event.now }
{
    let Some(shown) = seen_of(plain, event) else {
        return true;
    };
    let Some(place) = wires.next(shown.wire()) else {
        return record.premises.may_have_more(shown.wire());
    };
    match record.seen.get(place) {
        Some(next) => next.is_same(&shown),
        None => false,
    }
}

/// An event that may come next, for one that is wanted: itself, or one that has to come before it.
fn ready_for(
    plain: &Plain,
    wires: &Wires<'_>,
    record: Record<'_>,
    wanted: Event,
    preferred: &Preferred<'_>,
) -> Result<Event, Limit>
    ensures { IfOk result (λ event. May plain.now.shape (own_block plain.now event) event) }
{
    let seen = record.seen;
    let mut event = wanted;
    for _ in 0..DEPTH {
        event = in_order(plain, wires, record, event).ok_or(Limit::NoWay)?;
        if let Some(first) = preceding_event(plain, wires, seen, &event) {
            event = first;
            continue;
        }
        let broken = broken_rule(plain, &event);
        if broken.is_none() && is_next(plain, wires, record, &event) {
            return Ok(event);
        }
        event = enabling_event(
            plain,
            wires,
            record.premises,
            seen,
            &event,
            broken,
            preferred,
        )
        .ok_or(Limit::NoWay)?;
    }
    Err(Limit::Depth)
}

/// The event that takes what waits first on a client's channel.
fn taking(k: &Client, client: ClientId, block: BlockNo, channel: Channel) -> Option<Event> {
    match channel {
        Channel::A if k.may_take_a() => Some(Event::AcceptAcquire(client, block)),
        Channel::C if k.may_take_c() => Some(Event::TakeC(client, block)),
        Channel::D => match k.d.as_slice() {
            [Downward::Grant(_, _), ..] => Some(Event::TakeGrant(client, block)),
            [Downward::ReleaseAck, ..] => Some(Event::TakeReleaseAck(client, block)),
            [] => None,
        },
        Channel::E if k.may_take_grant_ack() => Some(Event::TakeGrantAck(client, block)),
        Channel::A | Channel::B | Channel::C | Channel::E => None,
    }
}

/// Whether a message on a client's channel is taken as it is seen: D at the client's pins, A, C and E at home's.
fn is_taken_as_seen(record: Record<'_>, client: ClientId, channel: Channel) -> bool {
    match channel {
        Channel::D => record.premises.is_seen_at_pins(client),
        Channel::A | Channel::C | Channel::E => record.premises.at_home,
        Channel::B => false,
    }
}

/// The event that takes what the memory answered of a block, where it waits.
fn taking_answer(plain: &Plain, block: BlockNo) -> Option<Event> {
    match plain.block(block.number())?.outward() {
        Outward::Data(_) => Some(Event::TakeData(block)),
        Outward::PutAck => Some(Event::TakePutAck(block)),
        Outward::Quiet | Outward::Get | Outward::Put(_) => None,
    }
}

/// The event that takes a message, where it waits and is taken as it is seen.
fn untaken(plain: &Plain, record: Record<'_>, line: &Seen) -> Option<Event> {
    match line {
        Seen::OnLink(client, block, message) => {
            let channel = message.kind.channel();
            if !is_taken_as_seen(record, *client, channel) {
                return None;
            }
            let k = plain.block(block.number())?.client(*client)?;
            taking(k, *client, *block, channel)
        }
        Seen::OnMemory(block, message)
            if message.kind.channel() == Channel::D && record.premises.at_home => {
            taking_answer(plain, *block)
        }
        _ => None,
    }
}

impl<'a> Attempt<'a> {
    fn new(
        alloc: Global,
        shape: Shape,
        image: &[u8],
        seen: &'a [Seen],
    ) -> Result<Attempt<'a>, AllocError>
        requires bytes { (0 < shape.block_bytes) × (shape.block_bytes ≤ BLOCK_BYTES) }
        requires blocks { shape.blocks ≤ BLOCKS }
    {
        Ok(Attempt {
            plain: Plain::new(alloc, shape, image)?,
            wires: Wires::new(alloc, shape, seen)?,
            run: Vec::new(alloc),
        })
    }

    /// Takes an event that may come next.
    fn take(&mut self, event: Event) -> Result<(), AllocError>
        requires { May self.old.plain.shape (own_block self.old.plain event) event }
    {
        let wire = if acknowledges(&self.plain, &event) {
            Some(Wire::Link(client_of(&event), Channel::D))
        } else {
            wire_of(&event)
        };
        self.plain.carry_out(&event)?;
        if let Some(wire) = wire {
            self.wires.advance(wire);
        }
        self.run.push(event)?;
        Ok(())
    }

    /// What leads on to what was seen at a place; None where it is reached.
    fn wanted(&self, record: Record<'_>, line: &Seen, place: usize) -> Option<Event> {
        if self.wires.is_sent(place) {
            return untaken(&self.plain, record, line);
        }
        target(line)
    }

    /// Takes events until what was seen at a place is sent, and taken where it was seen as it was taken; what ended the
    /// attempt, if something did.
    fn reach(
        &mut self,
        record: Record<'_>,
        preferred: &Preferred<'_>,
        place: usize,
    ) -> Result<Option<Limit>, AllocError> {
        let Some(line) = record.seen.get(place) else {
            return Ok(None);
        };
        for _ in 0..EVENTS {
            let Some(wanted) = self.wanted(record, line, place) else {
                return Ok(None);
            };
            let event = match ready_for(&self.plain, &self.wires, record, wanted, preferred) {
                Ok(event) => event,
                Err(limit) => return Ok(Some(limit)),
            };
            self.take(event)?;
        }
        Ok(Some(Limit::Events))
    }
}

/// A client that waits for home to accept the Acquire which a line comes of: its own, or one of its block.
fn held_up(plain: &Plain, line: &Seen) -> Option<ClientId> {
    match line {
        Seen::OnLink(client, _, _) | Seen::Load(client, _, _) | Seen::Store(client, _, _) => {
            Some(*client)
        }
        Seen::OnMemory(block, _) => {
            let clients = plain.shape().clients;
            in_way(plain.block(block.number())?, clients, Which::Asking)
        }
    }
}

/// Looks for a run that has what was seen, line by line: again for the client that was held up, as long as that leads
/// further on.
pub(crate) fn search(
    alloc: Global,
    shape: Shape,
    premises: &Premises,
    image: &[u8],
    seen: &[Seen],
) -> Result<Found, AllocError>
    requires bytes { (0 < shape.block_bytes) × (shape.block_bytes ≤ BLOCK_BYTES) }
    requires blocks { shape.blocks ≤ BLOCKS }
{
    let last = LastAccepts::of(alloc, shape, seen)?;
    let nobody = Preferred {
        last: &last,
        client: None,
    };
    let mut found = search_once(alloc, shape, premises, image, seen, &nobody)?;
    for _ in 0..shape.clients {
        let client = found.held_up;
        if client.is_none() {
            return Ok(found);
        }
        let preferred = Preferred {
            last: &last,
            client,
        };
        let other = search_once(alloc, shape, premises, image, seen, &preferred)?;
        if other.place <= found.place {
            return Ok(found);
        }
        found = other;
    }
    Ok(found)
}

/// Looks for a run line by line, once.
fn search_once(
    alloc: Global,
    shape: Shape,
    premises: &Premises,
    image: &[u8],
    seen: &[Seen],
    preferred: &Preferred<'_>,
) -> Result<Found, AllocError>
    requires bytes { (0 < shape.block_bytes) × (shape.block_bytes ≤ BLOCK_BYTES) }
    requires blocks { shape.blocks ≤ BLOCKS }
{
    let record = Record { premises, seen };
    let mut attempt = Attempt::new(alloc, shape, image, seen)?;
    for place in 0..seen.len() {
        if let Some(limit) = attempt.reach(record, preferred, place)? {
            let held_up = held_up(&attempt.plain, &seen[place]);
            return Ok(Found {
                run: attempt.run,
                place,
                limit,
                held_up,
            });
        }
    }
    Ok(Found {
        run: attempt.run,
        place: seen.len(),
        limit: Limit::NoWay,
        held_up: None,
    })
}
