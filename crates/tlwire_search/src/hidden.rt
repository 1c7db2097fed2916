//! Stores that nobody saw, where dirty data shows them.
ghost use Rattle.std.specs.Prelude.{◌<◌};

use tl_rules::{Access, CachedCopy, Client, Event, Shape};
use tl_types::{AccessBytes, BlockBytes, BlockNo, ClientId};

/// How many bytes such a store writes.
const BYTES: u32 = 8;

/// A store of these bytes of a block, from one of its bytes on.
fn store(
    shape: Shape,
    client: ClientId,
    block: BlockNo,
    offset: u32,
    bytes: AccessBytes,
) -> Option<Event> {
    let first = block.number().checked_mul(shape.block_bytes)?;
    let address = first.checked_add(offset)?;
    Some(Event::Store(Access::bare(client, address, bytes)))
}

/// The next store that makes a client's copy at Tip what the client gives up: where the two differ, or anywhere where
/// the copy is clean.
pub fn hidden_store(
    shape: Shape,
    k: &Client,
    client: ClientId,
    block: BlockNo,
    given: &BlockBytes,
) -> Option<Event>
    requires { 0 < shape.block_bytes }
{
    let CachedCopy::Writable(held, is_dirty) = &k.held else {
        return None;
    };
    for part in 0..shape.block_bytes / BYTES {
        let bytes = given.access_at(part * BYTES, BYTES)?;
        if held.access_at(part * BYTES, BYTES)?.as_slice() != bytes.as_slice() {
            return store(shape, client, block, part * BYTES, bytes);
        }
    }
    if *is_dirty {
        return None;
    }
    store(shape, client, block, 0, given.access_at(0, BYTES)?)
}
