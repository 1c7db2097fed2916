//! Whether an event keeps a rule, and the first that it breaks.
ghost use Rattle.std.specs.Prelude.{◌≡◌, ◌≢◌, ◌↔◌, ◌<◌, ◌≤◌, IsTrue, None, Some, IfSome, length};
ghost use Rattle.tl_types.specs.Permission.{probe_perm, rank};
ghost use Rattle.tl_types.specs.declared.permission.Grow.{Grow};
ghost use Rattle.tl_protocol.specs.Access.{FitsBlock, MayLoad};
ghost use Rattle.tl_protocol.specs.Copy.{perm_of};
ghost use Rattle.tl_protocol.specs.Protocol.{May, RoomFor, block_of, granted};
ghost use Rattle.tl_protocol.specs.declared.home.Line.{Line};
ghost use Rattle.tl_rules.specs.Plain.{block_state, state_of_plain};
ghost use Rattle.tlcheck_rules.specs.Rules.{IsFirstBroken, Keeps};

use crate::rule::{Rule, access_of, cap_of, client_of, from_of, rules_of};
use tl_rules::{Access, BlockState, Client, Event, Plain, Shape};
use tl_types::{Awaited, BLOCK_BYTES, ClientId, Perm, ProbeCap};

/// Whether the access, if there is one, is of 1 to 8 bytes in one block.
fn fits(shape: Shape, access: Option<&Access>) -> bool
    requires { (0 < shape.block_bytes) × (shape.block_bytes ≤ BLOCK_BYTES) }
    ensures { IsTrue result ↔ IfSome access.entry (λ a. FitsBlock shape a.now.address a.now.bytes) }
{
    match access {
        None => true,
        Some(access) => access.fits_block(shape),
    }
}

fn has_its_bytes(client: &Client, shape: Shape, access: Option<&Access>) -> bool
    requires { (0 < shape.block_bytes) × (shape.block_bytes ≤ BLOCK_BYTES) }
    ensures { IsTrue result ↔ IfSome access.entry (λ a. MayLoad shape client.now a.now) }
{
    match access {
        None => true,
        Some(access) => client.may_load(shape, access),
    }
}

fn starts_from(client: &Client, from: Option<Perm>) -> bool
    ensures { IsTrue result ↔ IfSome from (λ p. perm_of client.now.held ≡ p) }
{
    match from {
        None => true,
        Some(perm) => client.held.perm() == perm,
    }
}

fn is_above(client: &Client, cap: Option<ProbeCap>) -> bool
    ensures { IsTrue result ↔ IfSome cap (λ x. rank (probe_perm x) < rank client.now.recorded) }
{
    match cap {
        None => true,
        Some(cap) => cap.perm() < client.recorded,
    }
}

/// Whether home serves an Acquire of this client.
fn serves(block: &BlockState, c: ClientId) -> bool
    ensures { IsTrue result ↔ ((grow : Grow) × (block.now.accepted ≡ Some (record { client = c; grow = grow }))) }
{
    match block.accepted() {
        Some(acquire) => acquire.client == c,
        None => false,
    }
}

/// Whether home serves an Acquire of this client, and the other records leave room for its Grant.
fn leaves_room(block: &BlockState, shape: Shape, c: ClientId) -> bool
    requires { length block.now.clients ≡ shape.clients }
    ensures { IsTrue result ↔ ((grow : Grow) × (block.now.accepted ≡ Some (record { client = c; grow = grow }))
        × RoomFor shape (block_state block.now) c
        (granted shape (block_state block.now) (record { client = c; grow = grow }))) }
{
    match block.accepted() {
        Some(acquire) => {
            acquire.client == c && block.has_room_for(shape, c, block.granted(acquire))
        }
        None => false,
    }
}

/// Whether home has a copy that is dirty, or one that is clean.
fn has_copy(block: &BlockState, dirty: bool) -> bool
    ensures { IsTrue result ↔ ((line : Line) × (block.now.home ≡ Some line) × (line.dirty ≡ dirty)) }
{
    match block.home() {
        Some(line) => line.dirty == dirty,
        None => false,
    }
}

/// Whether an event on a block of the memory keeps a rule.
fn keeps(block: &BlockState, shape: Shape, event: &Event, rule: Rule) -> bool
    requires size { length block.now.clients ≡ shape.clients }
    requires bytes { (0 < shape.block_bytes) × (shape.block_bytes ≤ BLOCK_BYTES) }
    requires there { block_of shape event.now < shape.blocks }
    ensures { IsTrue result ↔ Keeps shape (block_state block.now) event.now rule }
{
    let c = client_of(event);
    let is_there = c.number() < shape.clients;
    match rule {
        Rule::BlockIsThere => true,
        Rule::ClientIsThere => is_there,
        Rule::AccessFits => fits(shape, access_of(event)),
        Rule::CopyIsReadable => is_there && block.the_client(c).held.perm() != Perm::None,
        Rule::LoadHasItsBytes => {
            is_there && has_its_bytes(block.the_client(c), shape, access_of(event))
        }
        Rule::CopyIsWritable => is_there && block.the_client(c).held.perm() == Perm::Tip,
        Rule::NoAcquireUnanswered | Rule::NoReleaseBesideAcquire => {
            is_there && block.the_client(c).wait != Awaited::ForGrant
        }
        Rule::StartsFromItsCopy => is_there && starts_from(block.the_client(c), from_of(event)),
        Rule::ProbeWaits => is_there && block.the_client(c).b.has_first(),
        Rule::NoReleaseUnanswered => is_there && block.the_client(c).wait != Awaited::ForReleaseAck,
        Rule::GrantIsFirst => is_there && block.the_client(c).may_take_grant(),
        Rule::ReleaseAckIsFirst => is_there && block.the_client(c).may_take_release_ack(),
        Rule::AcquireWaits => is_there && block.the_client(c).may_take_a(),
        Rule::ServesNoAcquire => block.accepted().is_none(),
        Rule::RecordIsAbove => is_there && is_above(block.the_client(c), cap_of(event)),
        Rule::ClientHasNoProbe => is_there && block.the_client(c).has_no_probe(),
        Rule::NoGrantIsPending | Rule::OneGrantIsPending => block.has_no_grant(shape),
        Rule::MessageIsOnC => is_there && block.the_client(c).may_take_c(),
        Rule::ServesThisClient => serves(block, c),
        Rule::OthersLeaveRoom => leaves_room(block, shape, c),
        Rule::HomeHasTheBlock => block.is_at_home(),
        Rule::NoProbeIsPending => block.has_no_probe(shape),
        Rule::NothingIsPending => block.has_no_probe(shape) && block.has_no_grant(shape),
        Rule::GrantAckWaits => is_there && block.the_client(c).may_take_grant_ack(),
        Rule::ServesAnAcquire => block.accepted().is_some(),
        Rule::HomeLacksTheBlock => !block.is_at_home(),
        Rule::NothingIsOutward => block.outward().is_quiet(),
        Rule::RequestIsOutward => block.outward().may_serve(),
        Rule::DataIsOutward => block.outward().is_data(),
        Rule::PutAckIsOutward => block.outward().is_put_ack(),
        Rule::CopyIsClean => has_copy(block, false),
        Rule::CopyIsDirty => has_copy(block, true),
        Rule::NobodyIsRecorded => block.has_nobody_recorded(shape),
    }
}

/// The first rule that an event on a block of the memory breaks, in the order of the protocol's tests.
pub fn broken_rule_on(block: &BlockState, shape: Shape, event: &Event) -> Option<Rule>
    requires size { length block.now.clients ≡ shape.clients }
    requires bytes { (0 < shape.block_bytes) × (shape.block_bytes ≤ BLOCK_BYTES) }
    requires there { block_of shape event.now < shape.blocks }
{
    rules_of(event)
        .iter()
        .find(|rule| !keeps(block, shape, event, **rule))
        .copied()
}

/// Whether rules of an event ask each client of its block: then they are asked once, and not all of them first.
fn asks_each_client(event: &Event) -> bool {
    matches!(
        event,
        Event::SendProbe(_, _, _) | Event::SendGrant(_, _) | Event::Drop(_) | Event::SendPut(_)
    )
}

/// The first rule that an event breaks, in the order of the protocol's tests; none exactly where the event is
/// permitted.
#[inline]
pub fn broken_rule(plain: &Plain, event: &Event) -> Option<Rule>
    ensures first { IsFirstBroken plain.now.shape (state_of_plain plain.now (block_of plain.now.shape event.now))
        event.now result }
    ensures permitted { (result ≡ None)
        ↔ May plain.now.shape (state_of_plain plain.now (block_of plain.now.shape event.now)) event.now }
{
    let shape = plain.shape();
    let Some(block) = plain.block(event.block(shape)) else {
        return Some(Rule::BlockIsThere);
    };
    if !asks_each_client(event) && block.may_follow(shape, event) {
        return None;
    }
    for rule in rules_of(event) {
        if !keeps(block, shape, event, *rule) {
            return Some(*rule);
        }
    }
    None
}
