//! A whole trace.
ghost use Rattle.std.specs.Prelude.{◌≤◌, ◌*◌, IfOk, length};
ghost use Rattle.tl_trace.specs.NetworkSteps.{IsTrace};

use crate::network::Network;
use std::alloc::{AllocError, Global};
use tl_map::Geometry;
use tl_script_words::{STEPS, Step};
use tl_text::Trace;

/// Plays steps, at most `STEPS`, over all banks of a geometry at reset over an image that is no longer than the memory:
/// what each step answers, with its index as the index of its access, and what each bank shows at the end. A refused
/// step is answered with its refusal. The error is want of memory, also in a step.
pub fn play(
    alloc: Global,
    geometry: Geometry,
    image: &[u8],
    steps: &[Step],
) -> Result<Trace, AllocError>
    requires image { length image.now ≤ geometry.memory_blocks * geometry.block_bytes }
    requires few { length steps.now ≤ STEPS }
    ensures { IfOk result (IsTrace geometry image.now steps.now) }
{
    let mut network = Network::new(alloc, geometry, image)?;
    let answers = network.steps(alloc, steps)?;
    let banks = network.closings(alloc)?;
    Ok(Trace { answers, banks })
}
