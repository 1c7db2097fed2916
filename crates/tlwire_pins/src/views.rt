//! What a client holds of each block, as its lines so far tell.
ghost use Rattle.std.specs.Prelude.{◌≡◌, ◌==◌, ◌<◌, ◌≤◌, ℕ, false, IfOk, IfSome, IsNone, OnOk};
ghost use Rattle.tl_protocol.specs.Copy.{perm_of};
ghost use Rattle.tlwire_pins.specs.Judged.{held_in};
ghost use Rattle.tlwire_pins.specs.Pins.{is_own, is_told};
ghost use Rattle.tlwire_pins.specs.Walk.{BreaksNext, Steps, is_at};

use crate::view::{Tap, View};
use std::alloc::{AllocError, Global};
use std::collections::HashMap;
use tl_rules::Shape;
use tl_types::{Awaited, BLOCK_BYTES, BlockNo, Channel, ClientId, Perm};
use tlcheck_rules::Breach;
use tlwire_search::Seen;

/// A client sends on A and C, and takes from D.
pub(crate) fn is_told(channel: Channel) -> bool
    ensures { result ≡ is_told channel }
{
    matches!(channel, Channel::A | Channel::C | Channel::D)
}

/// The block of a line that is seen at a client's pins, if it is one.
fn block_at_pins(shape: Shape, c: ClientId, line: &Seen) -> Option<BlockNo>
    requires { 0 < shape.block_bytes }
    ensures { (block : ℕ) → is_own shape c block line.now ≡ is_at result block }
{
    match line {
        Seen::OnLink(x, block, message) if *x == c && is_told(message.kind.channel()) => {
            Some(*block)
        }
        Seen::Load(x, address, _) | Seen::Store(x, address, _) if *x == c => {
            Some(BlockNo::new(*address / shape.block_bytes))
        }
        _ => None,
    }
}

/// What a line breaks that may not be seen next.
#[derive(Drop)]
pub struct Broken {
    /// The block that the line is of.
    pub block: BlockNo,
    /// What the client holds of the block there, and waits for. Where nobody watched its core, a Tip is as the line
    /// shows it.
    pub view: View,
    /// What the line breaks.
    pub breach: Breach,
}

/// What a client holds of each block, as its lines so far tell. It takes memory for the blocks that they are of.
pub(crate) type Views = HashMap<u32, View>;

fn take(views: &mut Views, block: BlockNo) -> View
    ensures view { result ≡ held_in views.old block }
    ensures others { (b : ℕ) → (block == b) ≡ false → held_in views.new b ≡ held_in views.old b }
{
    match views.remove(&block.number()) {
        Some(view) => view,
        None => View::fresh(),
    }
}

fn put(views: &mut Views, block: BlockNo, view: View) -> Result<(), AllocError>
    ensures here { OnOk result (held_in views.new block ≡ view) }
    ensures others { OnOk result ((b : ℕ) → (block == b) ≡ false → held_in views.new b ≡ held_in views.old b) }
{
    views.insert(block.number(), view)?;
    Ok(())
}

/// What the client may do with a block, and which answer it waits for.
pub(crate) fn state_in(views: &Views, block: BlockNo) -> (Perm, Awaited)
    ensures { result ≡ (perm_of (held_in views.now block).held, (held_in views.now block).wait) }
{
    match views.get(&block.number()) {
        Some(view) => (view.held.perm(), view.wait),
        None => (Perm::None, Awaited::Nothing),
    }
}

/// Takes a line, where it is not of the client's pins or may be seen there next; else what it breaks.
pub(crate) fn step(
    views: &mut Views,
    shape: Shape,
    c: ClientId,
    tap: Tap,
    line: &Seen,
) -> Result<Option<Broken>, AllocError>
    requires { (0 < shape.block_bytes) × (shape.block_bytes ≤ BLOCK_BYTES) }
    ensures steps { IfOk result
        (λ found. IsNone found → Steps tap shape c line.now (held_in views.old) (held_in views.new)) }
    ensures broken { IfOk result (λ found. IfSome found (BreaksNext tap shape c line.now (held_in views.old))) }
{
    let Some(block) = block_at_pins(shape, c, line) else {
        return Ok(None);
    };
    let mut view = take(views, block);
    view.pass_unseen(tap, line);
    if let Some(breach) = view.breach(shape, line) {
        return Ok(Some(Broken {
            block,
            view,
            breach,
        }));
    }
    view.line(shape, line);
    put(views, block, view)?;
    Ok(None)
}
