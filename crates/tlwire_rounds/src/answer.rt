//! An explanation of what was seen, by the search in rounds.
ghost use Rattle.std.specs.Prelude.{◌<◌, ◌≤◌, IfOk, IfSome};
ghost use Rattle.tlwire_search.specs.Explained.{Explains};

use crate::tries::search_rounds;
use std::alloc::{AllocError, Global};
use tl_rules::{Event, Shape};
use tl_types::{BLOCK_BYTES, BLOCKS};
use tlwire_search::{Premises, Seen, explained_by};

/// Looks for a run as `explain` does, in rounds: first one for which the lines stand in order of time, then one for
/// which lines may stand some way behind later ones. It finds runs that `explain` does not find, and takes longer. What
/// is not explained may still be lawful. The error is want of memory.
pub fn explain_in_rounds(
    alloc: Global,
    shape: Shape,
    premises: &Premises,
    image: &[u8],
    seen: &[Seen],
) -> Result<Option<Vec<Event>>, AllocError>
    requires bytes { (0 < shape.block_bytes) × (shape.block_bytes ≤ BLOCK_BYTES) }
    requires blocks { shape.blocks ≤ BLOCKS }
    ensures { IfOk result (λ found. IfSome found (λ run. Explains premises.now shape image.now seen.now run.items)) }
{
    let run = search_rounds(alloc, shape, premises, image, seen)?;
    explained_by(alloc, shape, premises, image, seen, run)
}
