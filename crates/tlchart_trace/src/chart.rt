//! The chart of a trace.
ghost use Rattle.std.specs.Prelude.{IfOk};
ghost use Rattle.tlchart_trace.specs.Chart.{IsChart};

use crate::turn::turns;
use std::alloc::{AllocError, Global};
use tl_map::Geometry;
use tl_script_words::Step;
use tl_text::Trace;
use tl_types::BlockNo;
use tlchart_model::{Chart, chart_of_turns};

/// The chart of the trace of some steps, with the permissions to the block that is asked for, or else to that of the
/// first message. The error is want of memory.
pub fn chart_of(
    alloc: Global,
    geometry: Geometry,
    steps: &[Step],
    trace: &Trace,
    block: Option<BlockNo>,
) -> Result<Chart, AllocError>
    ensures { IfOk result (IsChart geometry steps.now trace.now block) }
{
    let turns = turns(alloc, geometry, steps, &trace.answers)?;
    chart_of_turns(alloc, geometry.clients(), geometry.banks(), turns, block)
}
