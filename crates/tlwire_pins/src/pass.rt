//! A pass over a record: the first line that may not be seen at a client's pins.
ghost use Rattle.std.specs.Prelude.{◌≡◌, ◌<◌, ◌≤◌, IfOk, IfSome, IsNone, IsSome, take};
ghost use Rattle.tlwire_pins.specs.Impossible.{IsImpossible};
ghost use Rattle.tlwire_pins.specs.Judged.{EachMay};
ghost use Rattle.tlwire_pins.specs.Walk.{IsWrong};

use crate::view::{Tap, View};
use crate::views::{Broken, step};
use std::alloc::{AllocError, Global};
use std::collections::HashMap;
use tl_rules::Shape;
use tl_types::{BLOCK_BYTES, BlockNo, ClientId};
use tlcheck_rules::Breach;
use tlwire_search::Seen;

/// The first line of a record that may not be seen at a client's pins.
#[derive(Drop)]
pub struct Wrong {
    /// The line's place in the record, from 0 on.
    pub place: usize,
    /// The client at whose pins it is seen.
    pub client: ClientId,
    /// The block that it is of.
    pub block: BlockNo,
    /// What the client holds of the block there, and waits for. Where nobody watched its core, a Tip is as the line
    /// shows it.
    pub view: View,
    /// What the line breaks.
    pub breach: Breach,
}

fn at_place(place: usize, client: ClientId, broken: Broken) -> Wrong
    ensures { result
        ≡ record { place = place; client = client; block = broken.block; view = broken.view; breach = broken.breach } }
{
    let Broken {
        block,
        view,
        breach,
    } = broken;
    Wrong {
        place,
        client,
        block,
        view,
        breach,
    }
}

/// Looks for the first line of a record that may not be seen at a client's pins: each line before it may. Where there
/// is one, no lawful run is seen so there, whatever clean copies the client gave up without a word, where it may. Where
/// nobody watched its core, only its permission and what it waits for count. It takes time by lines, and memory by the
/// blocks that they are of. The error is want of memory.
pub fn first_wrong(
    alloc: Global,
    shape: Shape,
    client: ClientId,
    tap: Tap,
    seen: &[Seen],
) -> Result<Option<Wrong>, AllocError>
    requires { (0 < shape.block_bytes) × (shape.block_bytes ≤ BLOCK_BYTES) }
    ensures wrong { IfOk result (λ found. IfSome found (IsWrong tap shape client seen.now)) }
    ensures impossible { IfOk result (λ found. IsSome found → IsImpossible tap shape client seen.now) }
    ensures first { IfOk result (λ found. IfSome found (λ w. EachMay tap shape client (take w.place seen.now))) }
    ensures none { IfOk result (λ found. IsNone found → EachMay tap shape client seen.now) }
{
    let mut views = HashMap::new(alloc);
    for place in 0..seen.len() {
        if let Some(broken) = step(&mut views, shape, client, tap, &seen[place])? {
            return Ok(Some(at_place(place, client, broken)));
        }
    }
    Ok(None)
}
