//! What a chart has.
ghost use Rattle.std.specs.Prelude.{◌≡◌, IfOk};
ghost use Rattle.tlchart_model.specs.Chart.{IsChartOf, chosen};

use crate::arrow::{Arrow, arrows};
use crate::change::{Change, changes};
use crate::turn::Turn;
use std::alloc::{AllocError, Global};
use tl_types::BlockNo;

/// What is drawn of a trace: what each step did, a row a step; an arrow for each message; and where clients gain and
/// lose permissions to one block.
#[derive(Debug, Drop)]
pub struct Chart {
    pub clients: u32,
    pub banks: u32,
    pub block: BlockNo,
    pub turns: Vec<Turn>,
    pub arrows: Vec<Arrow>,
    pub changes: Vec<Change>,
}

/// The block that was asked for, or else that of the first message; block 0 where there is none.
fn chosen(block: Option<BlockNo>, arrows: &[Arrow]) -> BlockNo
    ensures { result ≡ chosen block arrows.now }
{
    match (block, arrows) {
        (Some(block), _) => block,
        (None, [first, ..]) => first.message.block,
        (None, []) => BlockNo::new(0),
    }
}

/// The chart of what was done in turns between so many clients and banks, with the permissions to the block that is
/// asked for, or else to that of the first message. The error is want of memory.
pub fn chart_of_turns(
    alloc: Global,
    clients: u32,
    banks: u32,
    turns: Vec<Turn>,
    block: Option<BlockNo>,
) -> Result<Chart, AllocError>
    ensures { IfOk result (IsChartOf clients banks turns.items block) }
{
    let arrows = arrows(alloc, &turns)?;
    let block = chosen(block, &arrows);
    let changes = changes(alloc, block, &arrows)?;
    Ok(Chart {
        clients,
        banks,
        block,
        turns,
        arrows,
        changes,
    })
}
