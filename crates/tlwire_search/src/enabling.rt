//! What has to come before an event that may not come yet.
use crate::clients::{Which, in_way};
use crate::hidden::hidden_store;
use crate::last::LastAccepts;
use crate::premises::Premises;
use crate::seen::{Seen, Wire};
use crate::target::target;
use crate::wires::Wires;
use tl_rules::{BlockState, Client, Event, Outward, Plain};
use tl_types::{Awaited, BlockNo, Channel, ClientId, GrantCap};
use tlcheck_rules::{Rule, client_of};

/// Whose Acquire home accepts first where no Grant says whose.
#[derive(Clone, Copy)]
pub(crate) struct Preferred<'a> {
    /// Of each block that home serves last without a Grant.
    pub(crate) last: &'a LastAccepts,
    /// This client's before others.
    pub(crate) client: Option<ClientId>,
}

/// What takes the next step between home and the memory.
fn outward_step(state: &BlockState, block: BlockNo) -> Option<Event> {
    match state.outward() {
        Outward::Quiet => None,
        Outward::Get | Outward::Put(_) => Some(Event::Serve(block)),
        Outward::Data(_) => Some(Event::TakeData(block)),
        Outward::PutAck => Some(Event::TakePutAck(block)),
    }
}

/// The event of what is next of a block on a wire.
fn next_of(wires: &Wires<'_>, seen: &[Seen], wire: Wire, block: BlockNo) -> Option<Event> {
    let place = wires.next_of(wire, block)?;
    target(seen.get(place)?)
}

/// What is next of a block on a client's channel.
fn on_channel(
    wires: &Wires<'_>,
    seen: &[Seen],
    c: ClientId,
    channel: Channel,
    block: BlockNo,
) -> Option<Event> {
    next_of(wires, seen, Wire::Link(c, channel), block)
}

/// What a client does next that needs more of its copy, or waits for an answer.
fn client_step(
    wires: &Wires<'_>,
    seen: &[Seen],
    k: &Client,
    c: ClientId,
    block: BlockNo,
) -> Option<Event> {
    match k.wait {
        Awaited::Nothing => on_channel(wires, seen, c, Channel::A, block),
        Awaited::ForGrant => Some(Event::TakeGrant(c, block)),
        Awaited::ForReleaseAck => Some(Event::TakeReleaseAck(c, block)),
    }
}

/// The client whose Acquire home accepts last of a block, where it waits.
fn last_of(state: &BlockState, block: BlockNo, preferred: &Preferred<'_>) -> Option<ClientId> {
    let c = preferred.last.client(block)?;
    if state.client(c)?.may_take_a() {
        Some(c)
    } else {
        None
    }
}

/// The client whose Acquire home accepts where no Grant says whose: the one that it is known to serve last, else the
/// preferred one, else any that has one on A.
fn asking(
    state: &BlockState,
    clients: u32,
    block: BlockNo,
    preferred: &Preferred<'_>,
) -> Option<ClientId> {
    if let Some(c) = last_of(state, block, preferred) {
        return Some(c);
    }
    if let Some(c) = preferred.client {
        if state.client(c)?.may_take_a() {
            return Some(c);
        }
    }
    in_way(state, clients, Which::Asking)
}

/// What a client does first.
fn client_before(
    plain: &Plain,
    wires: &Wires<'_>,
    seen: &[Seen],
    event: &Event,
    k: &Client,
    rule: Rule,
) -> Option<Event> {
    let c = client_of(event);
    let block = BlockNo::new(event.block(plain.shape()));
    match rule {
        Rule::NoAcquireUnanswered
        | Rule::NoReleaseBesideAcquire
        | Rule::CopyIsReadable
        | Rule::CopyIsWritable => client_step(wires, seen, k, c, block),
        Rule::LoadHasItsBytes => on_channel(wires, seen, c, Channel::C, block),
        Rule::StartsFromItsCopy => match event {
            Event::SendRelease(_, _, _) => on_channel(wires, seen, c, Channel::A, block),
            _ => on_channel(wires, seen, c, Channel::C, block),
        },
        Rule::ProbeWaits => on_channel(wires, seen, c, Channel::B, block),
        Rule::NoReleaseUnanswered => Some(Event::TakeReleaseAck(c, block)),
        Rule::GrantIsFirst if k.may_take_release_ack() => Some(Event::TakeReleaseAck(c, block)),
        Rule::ReleaseAckIsFirst if k.may_take_grant() => Some(Event::TakeGrant(c, block)),
        Rule::GrantIsFirst | Rule::ReleaseAckIsFirst | Rule::RecordIsAbove => {
            on_channel(wires, seen, c, Channel::D, block)
        }
        Rule::AcquireWaits => on_channel(wires, seen, c, Channel::A, block),
        Rule::ClientHasNoProbe => Some(Event::TakeC(c, block)),
        Rule::MessageIsOnC => on_channel(wires, seen, c, Channel::C, block),
        Rule::GrantAckWaits => Some(Event::TakeGrant(c, block)),
        _ => None,
    }
}

/// What home and the memory do first.
fn home_before(
    plain: &Plain,
    wires: &Wires<'_>,
    seen: &[Seen],
    event: &Event,
    state: &BlockState,
    rule: Rule,
    preferred: &Preferred<'_>,
) -> Option<Event> {
    let clients = plain.shape().clients;
    let c = client_of(event);
    let block = BlockNo::new(event.block(plain.shape()));
    match rule {
        Rule::ServesNoAcquire => Some(Event::TakeGrantAck(state.accepted()?.client, block)),
        Rule::NoGrantIsPending | Rule::OneGrantIsPending => Some(Event::TakeGrantAck(
            in_way(state, clients, Which::Granted)?,
            block,
        )),
        Rule::NoProbeIsPending => Some(Event::TakeC(in_way(state, clients, Which::Probed)?, block)),
        Rule::NothingIsPending => match in_way(state, clients, Which::Probed) {
            Some(probed) => Some(Event::TakeC(probed, block)),
            None => Some(Event::TakeGrantAck(in_way(state, clients, Which::Granted)?, block)),
        },
        Rule::NobodyIsRecorded | Rule::CopyIsDirty => {
            Some(Event::TakeC(in_way(state, clients, Which::Recorded)?, block))
        }
        Rule::OthersLeaveRoom => room_for(state, clients, c, block),
        Rule::ServesThisClient => match state.accepted() {
            Some(acquire) => Some(Event::TakeGrantAck(acquire.client, block)),
            None => Some(Event::AcceptAcquire(c, block)),
        },
        Rule::ServesAnAcquire => {
            if state.is_at_home() {
                Some(Event::Drop(block))
            } else {
                Some(Event::AcceptAcquire(
                    match wires.granted_first(block) {
                        Some(first) => first,
                        None => asking(state, clients, block, preferred)?,
                    },
                    block,
                ))
            }
        }
        Rule::HomeHasTheBlock => match state.outward() {
            Outward::Quiet => Some(Event::SendGet(block)),
            _ => outward_step(state, block),
        },
        Rule::HomeLacksTheBlock => Some(Event::Drop(block)),
        Rule::CopyIsClean => Some(Event::SendPut(block)),
        Rule::NothingIsOutward => outward_step(state, block),
        Rule::RequestIsOutward => match state.outward() {
            Outward::Quiet => next_of(wires, seen, Wire::Memory(Channel::A), block),
            _ => outward_step(state, block),
        },
        _ => None,
    }
}

/// The client that is to give up before a Grant of the Acquire that home serves.
fn room_for(state: &BlockState, clients: u32, c: ClientId, block: BlockNo) -> Option<Event> {
    let which = match state.granted(state.accepted()?) {
        GrantCap::ToT => Which::OtherThan(c),
        GrantCap::ToB => Which::AtTip,
    };
    Some(Event::TakeC(in_way(state, clients, which)?, block))
}

/// A store that nobody saw, where the next message on C has other bytes than the copy.
fn unseen_store(
    plain: &Plain,
    wires: &Wires<'_>,
    premises: &Premises,
    seen: &[Seen],
    k: &Client,
    c: ClientId,
    block: BlockNo,
) -> Option<Event> {
    let core = Wire::Core(c);
    if wires.next(core).is_some() || !premises.may_have_more(core) {
        return None;
    }
    match seen.get(wires.next(Wire::Link(c, Channel::C))?)? {
        Seen::OnLink(_, _, message) => match &message.bytes {
            Some(given) => hidden_store(plain.shape(), k, c, block, given),
            None => None,
        },
        _ => None,
    }
}

/// What comes first where an event may come, but is not seen as it would be: a store before a copy is given up, and
/// what others give up before a Grant.
fn unlike(
    plain: &Plain,
    wires: &Wires<'_>,
    premises: &Premises,
    seen: &[Seen],
    event: &Event,
    state: &BlockState,
) -> Option<Event> {
    let c = client_of(event);
    let block = BlockNo::new(event.block(plain.shape()));
    match event {
        Event::AnswerProbe(_, _) | Event::SendRelease(_, _, _) => {
            match next_of(wires, seen, Wire::Core(c), block) {
                Some(first) => Some(first),
                None => unseen_store(plain, wires, premises, seen, state.client(c)?, c, block),
            }
        }
        Event::SendGrant(_, _) => {
            let clients = plain.shape().clients;
            let other = in_way(state, clients, Which::Giving(c));
            Some(Event::TakeC(other.unwrap_or(c), block))
        }
        _ => None,
    }
}

/// An event that has to come before one that breaks a rule, or that is not seen as it would be.
pub(crate) fn enabling_event(
    plain: &Plain,
    wires: &Wires<'_>,
    premises: &Premises,
    seen: &[Seen],
    event: &Event,
    broken: Option<Rule>,
    preferred: &Preferred<'_>,
) -> Option<Event> {
    let state = plain.block(event.block(plain.shape()))?;
    match broken {
        None => unlike(plain, wires, premises, seen, event, state),
        Some(rule) => match home_before(plain, wires, seen, event, state, rule, preferred) {
            Some(first) => Some(first),
            None => client_before(
                plain,
                wires,
                seen,
                event,
                state.client(client_of(event))?,
                rule,
            ),
        },
    }
}
