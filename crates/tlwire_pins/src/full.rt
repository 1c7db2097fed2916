//! A record in full: with the Releases that nobody saw of the clean copies that clients drop.
ghost use Rattle.std.specs.Prelude.{◌≡◌, ◌<◌, ◌≤◌, ◌++◌, IfOk, IfSome, OnOk, None};
ghost use Rattle.tl_types.specs.declared.limits.TheConstants.{BLOCK_BYTES};
ghost use Rattle.tl_types.specs.Permission.{prune_to};
ghost use Rattle.tlwire_search.specs.Premises.{drops};
ghost use Rattle.tlwire_pins.specs.Drops.{IsBehindDrop, IsInFull, told_behind};
ghost use Rattle.tlwire_search.specs.declared.seen.Seen.TheVariants.{OnLink};

use crate::tap::tap_of;
use crate::view::{Cores, View, has_nothing};
use crate::views::is_told;
use std::alloc::{AllocError, Global};
use std::collections::HashMap;
use tl_rules::Shape;
use tl_types::{BLOCK_BYTES, BlockNo, ClientId, Kind, Perm, Prune};
use tlcheck_rules::Shown;
use tlwire_search::{Premises, Seen};

/// What each client holds of each block, as its lines so far tell.
type Copies = HashMap<(u32, u32), View>;

/// A line again.
fn copied(line: &Seen) -> Seen
    ensures { result ≡ line.now }
{
    match line {
        Seen::OnLink(client, block, message) => Seen::OnLink(*client, *block, shown(message)),
        Seen::OnMemory(block, message) => Seen::OnMemory(*block, shown(message)),
        Seen::Load(client, address, bytes) => Seen::Load(*client, *address, bytes.copied()),
        Seen::Store(client, address, bytes) => Seen::Store(*client, *address, bytes.copied()),
    }
}

/// A message again.
fn shown(message: &Shown) -> Shown
    ensures { result ≡ message.now }
{
    let bytes = match &message.bytes {
        Some(bytes) => Some(bytes.copied()),
        None => None,
    };
    Shown {
        kind: message.kind,
        bytes,
    }
}

/// A message without bytes.
fn bare(client: ClientId, block: BlockNo, kind: Kind) -> Seen
    ensures { result ≡ OnLink client block (record { kind = kind; bytes = None }) }
{
    Seen::OnLink(client, block, Shown { kind, bytes: None })
}

/// The client and the block of a line that is seen at a client's pins, if it is one.
fn place_of(shape: Shape, line: &Seen) -> Option<(ClientId, BlockNo)>
    requires { 0 < shape.block_bytes }
{
    match line {
        Seen::OnLink(client, block, message) if is_told(message.kind.channel()) => {
            Some((*client, *block))
        }
        Seen::Load(client, address, _) | Seen::Store(client, address, _) => {
            Some((*client, BlockNo::new(*address / shape.block_bytes)))
        }
        _ => None,
    }
}

/// What the Release of all of a copy prunes.
fn all_of(held: Perm) -> Prune
    ensures { prune_to result ≡ Perm.None }
{
    match held {
        Perm::Tip => Prune::TtoN,
        Perm::Branch | Perm::None => Prune::BtoN,
    }
}

/// The Release of a clean copy that nobody saw before a line, where its client drops such copies and holds this.
fn release_before(premises: &Premises, view: &View, cores: Cores, line: &Seen) -> Option<Prune>
    ensures { IfSome result (λ prune. IsBehindDrop (drops premises.now) prune line.now) }
{
    match line {
        Seen::OnLink(client, _, message) => {
            if premises.drops(*client) && has_nothing(message.kind) && view.may_drop(cores) {
                Some(all_of(view.held.perm()))
            } else {
                None
            }
        }
        Seen::OnMemory(_, _) | Seen::Load(_, _, _) | Seen::Store(_, _, _) => None,
    }
}

/// The same, where the lines so far lead. The line is passed, where it may be seen.
fn release_at(
    copies: &mut Copies,
    shape: Shape,
    premises: &Premises,
    line: &Seen,
) -> Result<Option<Prune>, AllocError>
    requires { (0 < shape.block_bytes) × (shape.block_bytes ≤ BLOCK_BYTES) }
    ensures { IfOk result (λ found. IfSome found (λ prune. IsBehindDrop (drops premises.now) prune line.now)) }
{
    let Some((client, block)) = place_of(shape, line) else {
        return Ok(None);
    };
    let at = (client.number(), block.number());
    let mut view = match copies.remove(&at) {
        Some(view) => view,
        None => View::fresh(),
    };
    let tap = tap_of(premises, client);
    let release = release_before(premises, &view, tap.cores, line);
    view.pass_unseen(tap, line);
    if view.breach(shape, line).is_none() {
        view.line(shape, line);
    }
    copies.insert(at, view)?;
    Ok(release)
}

/// A line more, with the Release and the ReleaseAck before it that nobody saw.
fn tell(full: &mut Vec<Seen>, release: Option<Prune>, line: &Seen) -> Result<(), AllocError>
    ensures { OnOk result (full.new.items ≡ full.old.items ++ told_behind release line.now) }
{
    if let (Some(prune), Seen::OnLink(client, block, _)) = (release, line) {
        full.push(bare(*client, *block, Kind::Release(prune)))?;
        full.push(bare(*client, *block, Kind::ReleaseAck))?;
    }
    full.push(copied(line))?;
    Ok(())
}

/// A record in full, where some clients drop clean copies: with the Release and the ReleaseAck of each drop, which
/// nobody saw, before the line that shows that its client has nothing of the block, where the lines before it say that
/// it has a clean copy. The error is want of memory.
pub fn in_full(
    alloc: Global,
    shape: Shape,
    premises: &Premises,
    seen: &[Seen],
) -> Result<Vec<Seen>, AllocError>
    requires { (0 < shape.block_bytes) × (shape.block_bytes ≤ BLOCK_BYTES) }
    ensures { IfOk result (λ full. IsInFull (drops premises.now) seen.now full.items) }
{
    let mut copies = HashMap::new(alloc);
    let mut full = Vec::new(alloc);
    for line in seen {
        let release = release_at(&mut copies, shape, premises, line)?;
        tell(&mut full, release, line)?;
    }
    Ok(full)
}
