//! What is seen of a run at the pins of its clients.
ghost use Rattle.std.specs.Prelude.{◌≡◌, ◌<◌, ◌≤◌, [], ◌∷◌, ◌++◌, ℕ, List, IfOk, IfSome, IsTrue, length};
ghost use Rattle.tl_protocol.specs.Protocol.{Block, May};
ghost use Rattle.tl_protocol.specs.Runs.{at_reset};
ghost use Rattle.tl_protocol.specs.declared.event.Event.{Event};
ghost use Rattle.tl_protocol.specs.declared.shape.Shape.{Shape};
ghost use Rattle.tl_rules.specs.Plain.{plain_client};
ghost use Rattle.tlwire_pins.specs.Pins.{line_of, lines_from, taken_seen};
ghost use Rattle.tlwire_pins.specs.Walk.{IsReplayed};
ghost use Rattle.tlwire_search.specs.Led.{own_block};

use std::alloc::{AllocError, Global};
use tl_rules::{BlockState, Event, Plain, Shape, may_follow};
use tl_types::{BLOCK_BYTES, BLOCKS, BlockNo, Body, ClientId, Downward};
use tlcheck_rules::Shown;
use tlwire_search::{Seen, seen_of};

/// The first message of D, as a client takes it.
fn taken_seen(client: ClientId, block: BlockNo, waiting: &[Downward]) -> Option<Seen>
    ensures { result ≡ taken_seen client block waiting.now }
{
    let body = Body::Downward(waiting.first()?.copied());
    let bytes = match body.bytes() {
        Some(bytes) => Some(bytes.copied()),
        None => None,
    };
    let kind = body.kind();
    Some(Seen::OnLink(client, block, Shown { kind, bytes }))
}

/// The first message of D of a block, as a client takes it.
fn taken_of(client: ClientId, block: BlockNo, state: &BlockState) -> Option<Seen>
    requires { client < length state.now.clients }
    ensures { result ≡ taken_seen client block (plain_client state.now client).d }
{
    taken_seen(client, block, state.the_client(client).d.as_slice())
}

/// What is seen at its client's pins of an event that may come next.
fn line_of(plain: &Plain, event: &Event) -> Option<Seen>
    requires { May plain.now.shape (own_block plain.now event.now) event.now }
    ensures { result ≡ line_of plain.now.shape (own_block plain.now event.now) event.now }
{
    match event {
        Event::Load(_)
        | Event::Store(_)
        | Event::SendAcquire(_, _, _)
        | Event::SendRelease(_, _, _)
        | Event::AnswerProbe(_, _) => seen_of(plain, event),
        Event::TakeGrant(c, block) => taken_of(*c, *block, plain.block(block.number())?),
        Event::TakeReleaseAck(c, block) => taken_of(*c, *block, plain.block(block.number())?),
        _ => None,
    }
}

/// The events of a run so far, and what is seen of them at the pins of their clients.
#[derive(Drop)]
struct Replay {
    plain: Plain,
    lines: Vec<Seen>,
}

impl Replay {
    fn new(alloc: Global, shape: Shape, image: &[u8]) -> Result<Replay, AllocError>
        requires bytes { (0 < shape.block_bytes) × (shape.block_bytes ≤ BLOCK_BYTES) }
        requires blocks { shape.blocks ≤ BLOCKS }
        ensures { IfOk result (λ replay. IsReplayed shape image.now [] replay.plain replay.lines.items) }
    {
        let plain = Plain::new(alloc, shape, image)?;
        let lines = Vec::new(alloc);
        Ok(Replay { plain, lines })
    }
}

/// Takes one event more, where it is permitted.
fn take(plain: &mut Plain, lines: &mut Vec<Seen>, event: &Event) -> Result<bool, AllocError>
    ensures { IfOk result (λ yes. IsTrue yes → (shape : Shape) (image : List ℕ) (run : List Event)
        → IsReplayed shape image run plain.old lines.old.items
        → IsReplayed shape image (run ++ event.now ∷ []) plain.new lines.new.items) }
{
    if !may_follow(plain, event) {
        return Ok(false);
    }
    if let Some(line) = line_of(plain, event) {
        lines.push(line)?;
    }
    plain.carry_out(event)?;
    Ok(true)
}

/// What is seen of a run at the pins of its clients, in order of time; None where an event is not permitted. The error
/// is want of memory.
pub fn lines_at_pins(
    alloc: Global,
    shape: Shape,
    image: &[u8],
    run: &[Event],
) -> Result<Option<Vec<Seen>>, AllocError>
    requires bytes { (0 < shape.block_bytes) × (shape.block_bytes ≤ BLOCK_BYTES) }
    requires blocks { shape.blocks ≤ BLOCKS }
    ensures { IfOk result
        (λ found. IfSome found (λ lines. lines.items ≡ lines_from shape (at_reset shape image.now) run.now)) }
{
    let mut replay = Replay::new(alloc, shape, image)?;
    for event in run {
        if !take(&mut replay.plain, &mut replay.lines, event)? {
            return Ok(None);
        }
    }
    Ok(Some(replay.lines))
}
