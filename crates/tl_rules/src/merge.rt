//! Whether the accesses of several logs have one order.
ghost use Rattle.std.specs.Prelude.{◌≡◌, ◌↔◌, ◌+◌, ◌^◌, ◌<◌, ◌≤◌, [], All, IfNone, IfSome, IsTrue, drop, length, slice_index_or};
ghost use Rattle.tl_protocol.specs.OneMemory.{access_of};
ghost use Rattle.tl_rules.specs.Certified.{accesses_of, all_accesses, events_of, logs_of, IsEarlier, IsCertified};
ghost use Rattle.tl_rules.specs.Left.{Pairwise};
ghost use Rattle.tl_rules.specs.Left.{left, stamp_in, AreOrdered, FollowsMark, IsNext, earlier};
ghost use Rattle.std.specs.Option.{option_copied};

use arrayvec::ArrayVec;
use tl_protocol::{Access, Event, Log};
use tl_types::{BANKS, CLIENTS};

/// Whether the clients of a log are known, and its stamps rise.
fn is_lawful(log: &[Event]) -> bool
    ensures { IsTrue result
        ↔ ((All (λ a. a.client < CLIENTS) (accesses_of log.now)) × Pairwise IsEarlier (accesses_of log.now)) }
{
    let mut last = None;
    for event in log {
        if let Some(access) = event.access() {
            if access.client.index() >= CLIENTS {
                return false;
            }
            if let Some(stamp) = last {
                if access.stamp <= stamp {
                    return false;
                }
            }
            last = Some(access.stamp);
        }
    }
    true
}

/// The stamp and the index of an access.
#[derive(Clone, Copy)]
pub(crate) struct Mark {
    stamp: u64,
    index: u32,
}

/// Whether an access has a greater stamp and a greater index than the last one of its client, where there is one.
fn follows(last: Option<Mark>, access: &Access) -> bool
    ensures { IsTrue result ↔ FollowsMark last access.now }
{
    match last {
        None => true,
        Some(mark) => mark.stamp < access.stamp && mark.index < access.index,
    }
}

/// The stamp of an event that is an access, else 0.
fn stamp_in(event: &Event) -> u64
    ensures { result ≡ stamp_in (access_of event.now) }
{
    match event.access() {
        Some(access) => access.stamp,
        None => 0,
    }
}

/// A log, and the stamp at its cursor.
#[derive(Clone, Copy)]
pub(crate) struct Next {
    place: usize,
    stamp: u64,
}

/// The log whose next event has the least stamp; an event that is no access counts as one of stamp 0. None where no
/// event is left.
fn next_log(logs: &[&[Event]], cursors: &[usize; BANKS]) -> Option<usize>
    requires few { length logs.now ≤ BANKS }
    requires rising { All (λ log. Pairwise IsEarlier (accesses_of log)) (events_of logs.now) }
    ensures none { IfNone result (all_accesses (left (events_of logs.now) cursors.now) ≡ []) }
    ensures some { IfSome result (IsNext (events_of logs.now) cursors.now) }
{
    let mut next: Option<Next> = None;
    for (place, log) in logs.iter().enumerate() {
        let cursor = cursors[place];
        if cursor < log.len() {
            let stamp = stamp_in(&log[cursor]);
            next = earlier(next, Next { place, stamp });
        }
    }
    match next {
        Some(next) => Some(next.place),
        None => None,
    }
}

/// The one of two with the lower stamp.
fn earlier(next: Option<Next>, other: Next) -> Option<Next>
    ensures { result ≡ earlier next other }
{
    match next {
        Some(next) if next.stamp <= other.stamp => Some(next),
        _ => Some(other),
    }
}

/// The event of a log at a cursor.
fn event_at(log: &[Event], cursor: usize) -> &Event
    requires { cursor < length log.now }
    ensures is { result.now ≡ slice_index_or log.now cursor result.now }
    ensures small { cursor + 1 < 2 ^ 64 }
{
    &log[cursor]
}

/// The place of the next access of a log from a cursor on; the log's length where there is none.
fn next_access(log: &[Event], cursor: usize) -> usize
    requires { cursor ≤ length log.now }
    ensures accesses { accesses_of (drop result log.now) ≡ accesses_of (drop cursor log.now) }
    ensures later { (cursor ≤ result) × (result ≤ length log.now) }
{
    for place in cursor..log.len() {
        if log[place].access().is_some() {
            return place;
        }
    }
    log.len()
}

/// Whether the clients of all logs are known, and the stamps of each log rise.
fn are_lawful(logs: &[&[Event]]) -> bool
    ensures { IsTrue result
        ↔ ((All (λ a. a.client < CLIENTS) (all_accesses (events_of logs.now)))
        × (All (λ log. Pairwise IsEarlier (accesses_of log)) (events_of logs.now))) }
{
    for log in logs {
        if !is_lawful(log) {
            return false;
        }
    }
    true
}

/// Whether the accesses of some logs have one order by stamp and then by client, in which the indexes of each client
/// rise. It takes the logs' events in the order of their stamps, and keeps the last access of each client.
pub fn certify_events(logs: &[&[Event]]) -> bool
    ensures { IsTrue result ↔ IsCertified (events_of logs.now) }
{
    if logs.len() > BANKS {
        return false;
    }
    if !are_lawful(logs) {
        return false;
    }
    let mut cursors = [0; BANKS];
    let mut last = [None; CLIENTS];
    while let Some(place) = next_log(logs, &cursors) {
        let cursor = cursors[place];
        let log = logs[place];
        let event = event_at(log, cursor);
        if let Some(access) = event.access() {
            let client = access.client.number() as usize;
            if !follows(last[client], access) {
                return false;
            }
            last[client] = Some(Mark {
                stamp: access.stamp,
                index: access.index,
            });
        }
        cursors[place] = next_access(log, cursor + 1);
    }
    true
}

/// Whether the accesses that some logs keep have one order by stamp and then by client, in which the indexes of each
/// client rise: at most 8 logs, clients below `CLIENTS`, stamps that rise strictly in each log, and no two accesses of
/// one stamp and client.
pub fn certify(logs: &[&Log]) -> bool
    ensures { IsTrue result ↔ IsCertified (logs_of logs.now) }
{
    if logs.len() > BANKS {
        return false;
    }
    let mut events: ArrayVec<&[Event], BANKS> = ArrayVec::new();
    for log in logs {
        events.push(log.events());
    }
    certify_events(events.as_slice())
}
