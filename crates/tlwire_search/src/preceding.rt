//! What has to come before an event that may come, by what is seen later.
use crate::clients::{Which, in_way};
use crate::seen::{Seen, Wire};
use crate::wires::Wires;
use tl_rules::{BlockState, Client, Event, Plain};
use tl_types::{Awaited, BlockNo, Channel, ClientId, GrantCap, Grow, Kind, Perm, ProbeCap, Upward};

/// What is next of a block on a client's channel, where it is seen.
fn kind_next(
    wires: &Wires<'_>,
    seen: &[Seen],
    c: ClientId,
    channel: Channel,
    block: BlockNo,
) -> Option<Kind> {
    let place = wires.next_of(Wire::Link(c, channel), block)?;
    match seen.get(place)? {
        Seen::OnLink(_, _, message) => Some(message.kind),
        _ => None,
    }
}

/// Home accepts the Acquires of a block in the order of their Grants; and it has given its copy up where a Get is seen
/// before the Grant.
fn before_accepting(
    wires: &Wires<'_>,
    state: &BlockState,
    c: ClientId,
    block: BlockNo,
) -> Option<Event> {
    match wires.granted_first(block) {
        Some(other) => {
            if other != c {
                return Some(Event::TakeGrantAck(other, block));
            }
        }
        None => {}
    }
    if !state.is_at_home() {
        return None;
    }
    let get = wires.next_get(block)?;
    match wires.next_grant(c, block) {
        Some(grant) if grant < get => None,
        _ => Some(Event::Drop(block)),
    }
}

/// A client that asks for Tip from Branch does so before it loses its copy.
fn before_answering(
    wires: &Wires<'_>,
    seen: &[Seen],
    k: &Client,
    c: ClientId,
    block: BlockNo,
) -> Option<Event> {
    if k.wait != Awaited::Nothing
        || k.held.perm() != Perm::Branch
        || k.b.first()? != ProbeCap::ToN
    {
        return None;
    }
    match kind_next(wires, seen, c, Channel::A, block)? {
        Kind::AcquireBlock(Grow::BtoT) => Some(Event::SendAcquire(c, block, Grow::BtoT)),
        _ => None,
    }
}

/// The Probe that home may send next to a client, where it is seen before a Grant to it.
fn crossing(
    wires: &Wires<'_>,
    seen: &[Seen],
    k: &Client,
    c: ClientId,
    block: BlockNo,
) -> Option<ProbeCap> {
    if !k.has_no_probe() {
        return None;
    }
    let probe = wires.next_of(Wire::Link(c, Channel::B), block)?;
    if let Some(grant) = wires.next_grant(c, block) {
        if grant < probe {
            return None;
        }
    }
    match kind_next(wires, seen, c, Channel::B, block)? {
        Kind::ProbeBlock(cap) => Some(cap),
        _ => None,
    }
}

/// Before home takes a Release, it sends the Probe that crosses it, which asks for no less than the Release leaves; and
/// the Grant toB that needs the record which the Release ends.
fn before_taking(
    plain: &Plain,
    wires: &Wires<'_>,
    seen: &[Seen],
    state: &BlockState,
    c: ClientId,
    block: BlockNo,
) -> Option<Event> {
    let k = state.client(c)?;
    let [Upward::Release(given), ..] = k.c.as_slice() else {
        return None;
    };
    let left = given.prune().to();
    if let Some(cap) = crossing(wires, seen, k, c, block) {
        if left <= cap.perm() {
            return Some(Event::SendProbe(c, block, cap));
        }
    }
    if left == Perm::None {
        grant_before(plain, wires, seen, state, c, block)
    } else {
        None
    }
}

/// The Grant toB to another client, where no third one is recorded.
fn grant_before(
    plain: &Plain,
    wires: &Wires<'_>,
    seen: &[Seen],
    state: &BlockState,
    c: ClientId,
    block: BlockNo,
) -> Option<Event> {
    let clients = plain.shape().clients;
    let other = wires.granted_first(block)?;
    if other == c || in_way(state, clients, Which::NeitherOf(c, other)).is_some() {
        return None;
    }
    match seen.get(wires.next_grant(other, block)?)? {
        Seen::OnLink(_, _, message) => match message.kind {
            Kind::Grant(GrantCap::ToB) | Kind::GrantData(GrantCap::ToB) => Some(Event::SendGrant(
                other, block,
            )),
            _ => None,
        },
        _ => None,
    }
}

/// An event that has to come before this one, if one has.
pub(crate) fn preceding_event(
    plain: &Plain,
    wires: &Wires<'_>,
    seen: &[Seen],
    event: &Event,
) -> Option<Event> {
    let state = plain.block(event.block(plain.shape()))?;
    match event {
        Event::AcceptAcquire(c, block) => { before_accepting(wires, state, *c, *block) }
        Event::AnswerProbe(c, block) => {
            before_answering(wires, seen, state.client(*c)?, *c, *block)
        }
        Event::TakeC(c, block) => before_taking(plain, wires, seen, state, *c, *block),
        _ => None,
    }
}
