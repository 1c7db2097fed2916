//! What is seen of an event.
ghost use Rattle.std.specs.Prelude.{◌≡◌, ◌<◌, Some, length};
ghost use Rattle.tl_protocol_lanes.specs.Lanes.{post_of};
ghost use Rattle.tl_protocol.specs.Protocol.{May, MayOn, block_of, home_bytes};
ghost use Rattle.tl_rules.specs.Plain.{block_state};
ghost use Rattle.tlwire_search.specs.Explained.{answer_seen, link_seen, memory_seen, seen_of};
ghost use Rattle.tlwire_search.specs.Led.{own_block};

use crate::seen::Seen;
use tl_rules::{BlockState, Event, Outward, Plain, Shape};
use tl_types::{BlockBytes, BlockNo, Kind};
use tlcheck_rules::{Shown, client_of, sent_by};

fn on_memory(block: BlockNo, kind: Kind, bytes: Option<BlockBytes>) -> Option<Seen>
    ensures { result ≡ memory_seen block kind bytes }
{
    Some(Seen::OnMemory(block, Shown { kind, bytes }))
}

/// The memory's answer.
fn memory_answer(block: BlockNo, state: &BlockState) -> Option<Seen>
    ensures { result ≡ answer_seen block state.now.memory state.now.outward }
{
    match state.outward() {
        Outward::Get => on_memory(block, Kind::AccessAckData, Some(state.memory().copied())),
        Outward::Put(_) => on_memory(block, Kind::AccessAck, None),
        Outward::Quiet | Outward::Data(_) | Outward::PutAck => None,
    }
}

/// What home writes back.
fn written_back(block: BlockNo, state: &BlockState) -> Option<Seen>
    ensures { result ≡ memory_seen block Kind.PutFullData (Some (home_bytes state.now.home)) }
{
    let bytes = match state.home() {
        Some(line) => line.bytes.copied(),
        None => BlockBytes::new(),
    };
    on_memory(block, Kind::PutFullData, Some(bytes))
}

/// What an event sends on a link.
fn on_link(state: &BlockState, shape: Shape, event: &Event) -> Option<Seen>
    requires size { length state.now.clients ≡ shape.clients }
    requires bytes { 0 < shape.block_bytes }
    requires may { MayOn shape (block_state state.now) event.now }
    ensures { result ≡ link_seen (block_of shape event.now) (post_of shape (block_state state.now) event.now) }
{
    let (_, body) = sent_by(state, shape, event)?;
    let bytes = match body.bytes() {
        Some(bytes) => Some(bytes.copied()),
        None => None,
    };
    let message = Shown {
        kind: body.kind(),
        bytes,
    };
    let block = BlockNo::new(event.block(shape));
    Some(Seen::OnLink(client_of(event), block, message))
}

/// What is seen of an event that the block may take next.
pub fn seen_on(state: &BlockState, shape: Shape, event: &Event) -> Option<Seen>
    requires size { length state.now.clients ≡ shape.clients }
    requires bytes { 0 < shape.block_bytes }
    requires may { MayOn shape (block_state state.now) event.now }
    ensures { result ≡ seen_of shape (block_state state.now) event.now }
{
    match event {
        Event::Load(access) => Some(Seen::Load(
            access.client,
            access.address,
            access.bytes.copied(),
        )),
        Event::Store(access) => Some(Seen::Store(
            access.client,
            access.address,
            access.bytes.copied(),
        )),
        Event::SendGet(block) => on_memory(*block, Kind::Get, None),
        Event::SendPut(block) => written_back(*block, state),
        Event::Serve(block) => memory_answer(*block, state),
        _ => on_link(state, shape, event),
    }
}

/// What is seen of an event that may come next.
pub fn seen_of(plain: &Plain, event: &Event) -> Option<Seen>
    requires { May plain.now.shape (own_block plain.now event.now) event.now }
    ensures { result ≡ seen_of plain.now.shape (own_block plain.now event.now) event.now }
{
    let shape = plain.shape();
    seen_on(plain.block(event.block(shape))?, shape, event)
}
