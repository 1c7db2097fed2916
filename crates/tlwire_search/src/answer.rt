//! An explanation of what was seen.
ghost use Rattle.std.specs.Prelude.{◌<◌, ◌≤◌, IfOk};
ghost use Rattle.tlwire_search.specs.Explained.{IsExplanation};

use crate::premises::Premises;
use crate::search::{Limit, search};
use crate::seen::Seen;
use crate::walk::explained_by;
use std::alloc::{AllocError, Global};
use tl_rules::{Event, Shape};
use tl_types::{BLOCK_BYTES, BLOCKS};

/// What is said of what was seen.
#[derive(Drop)]
pub enum Explanation {
    /// This run has just these messages, loads and stores. The stamps and indexes of its loads and stores are 0, since
    /// no monitor sees any.
    Explained(Vec<Event>),
    /// No run was found; at this place stands the first thing seen that no attempt reached, and this ended the attempt.
    NotExplained(usize, Limit),
}

/// Looks for a run from reset over an image that has just what was seen: on each channel, and at each core, that and in
/// that order, and what was sent there later only where the header's lines allow it. What is not explained may still be
/// lawful. The error is want of memory.
pub fn explain(
    alloc: Global,
    shape: Shape,
    premises: &Premises,
    image: &[u8],
    seen: &[Seen],
) -> Result<Explanation, AllocError>
    requires bytes { (0 < shape.block_bytes) × (shape.block_bytes ≤ BLOCK_BYTES) }
    requires blocks { shape.blocks ≤ BLOCKS }
    ensures { IfOk result (IsExplanation premises.now shape image.now seen.now) }
{
    if seen.len() == 0 {
        return Ok(Explanation::Explained(Vec::new(alloc)));
    }
    let found = search(alloc, shape, premises, image, seen)?;
    match explained_by(alloc, shape, premises, image, seen, found.run)? {
        Some(run) => Ok(Explanation::Explained(run)),
        None => Ok(Explanation::NotExplained(found.place.min(seen.len() - 1), found.limit)),
    }
}
