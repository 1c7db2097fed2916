//! The lines of a record and the events of a run, block by block.
ghost use Rattle.std.specs.Prelude.{◌≡◌, ◌<◌, ◌==◌, ◌++◌, ◌∷◌, ℕ, [], IfOk, IfSome, OnOk, if◌then◌else◌, slice_index_or, vec_len};
ghost use Rattle.tl_protocol.specs.Merges.{on_block};
ghost use Rattle.tlwire_closed.specs.Blocks.{lines_at};

use std::alloc::{AllocError, Global};
use tl_protocol::Queue;
use tl_rules::{Event, Shape};
use tlwire_search::{Seen, Wire, block_of, copied};

/// A line of a block: its place in the record, and its wire.
#[derive(Drop)]
pub(crate) struct LineOn {
    pub(crate) place: usize,
    pub(crate) wire: Wire,
}

/// No line of each of so many blocks.
fn no_lines(alloc: Global, blocks: u32) -> Result<Vec<Queue<LineOn>>, AllocError>
    ensures none { IfOk result (λ groups. (block : ℕ) → slice_index_or groups.items block [] ≡ []) }
    ensures size { IfOk result (λ groups. vec_len groups ≡ blocks) }
{
    let mut groups = Vec::new(alloc);
    for number in 0..blocks {
        groups.push(Queue::new(alloc))?;
    }
    Ok(groups)
}

/// One more line of a block.
fn join_line(
    groups: &mut Vec<Queue<LineOn>>,
    block: usize,
    place: usize,
    wire: Wire,
) -> Result<(), AllocError>
    requires { block < vec_len groups.old }
    ensures joins { OnOk result ((b : ℕ) → slice_index_or groups.new.items b []
        ≡ (if block == b
        then slice_index_or groups.old.items b [] ++ (record { place = place; wire = wire }) ∷ []
        else slice_index_or groups.old.items b [])) }
    ensures size { vec_len groups.new ≡ vec_len groups.old }
{
    groups[block].push(LineOn { place, wire })
}

/// The lines of each block, in order; none where one is of a block that is not there.
pub(crate) fn lines_by_block(
    alloc: Global,
    shape: Shape,
    seen: &[Seen],
) -> Result<Option<Vec<Queue<LineOn>>>, AllocError>
    requires { 0 < shape.block_bytes }
    ensures lines { IfOk result
        (λ found. IfSome found
        (λ groups. (block : ℕ) → slice_index_or groups.items block [] ≡ lines_at shape block 0 seen.now)) }
    ensures size { IfOk result (λ found. IfSome found (λ groups. vec_len groups ≡ shape.blocks)) }
{
    let mut groups = no_lines(alloc, shape.blocks)?;
    for place in 0..seen.len() {
        let line = &seen[place];
        let block = block_of(shape, line) as usize;
        if block >= groups.len() {
            return Ok(None);
        }
        let wire = line.wire();
        join_line(&mut groups, block, place, wire)?;
    }
    Ok(Some(groups))
}

/// No event of each of so many blocks.
fn no_events(alloc: Global, blocks: u32) -> Result<Vec<Queue<Event>>, AllocError>
    ensures none { IfOk result (λ groups. (block : ℕ) → slice_index_or groups.items block [] ≡ []) }
    ensures size { IfOk result (λ groups. vec_len groups ≡ blocks) }
{
    let mut groups = Vec::new(alloc);
    for number in 0..blocks {
        groups.push(Queue::new(alloc))?;
    }
    Ok(groups)
}

/// One more event of a block.
fn join_event(groups: &mut Vec<Queue<Event>>, block: usize, event: Event) -> Result<(), AllocError>
    requires { block < vec_len groups.old }
    ensures joins { OnOk result ((b : ℕ) → slice_index_or groups.new.items b []
        ≡ (if block == b
        then slice_index_or groups.old.items b [] ++ event ∷ []
        else slice_index_or groups.old.items b [])) }
    ensures size { vec_len groups.new ≡ vec_len groups.old }
{
    groups[block].push(event)
}

/// The events of each block, in order; none where one is of a block that is not there.
pub(crate) fn events_by_block(
    alloc: Global,
    shape: Shape,
    run: &[Event],
) -> Result<Option<Vec<Queue<Event>>>, AllocError>
    requires { 0 < shape.block_bytes }
    ensures events { IfOk result
        (λ found. IfSome found
        (λ groups. (block : ℕ) → slice_index_or groups.items block [] ≡ on_block shape block run.now)) }
    ensures size { IfOk result (λ found. IfSome found (λ groups. vec_len groups ≡ shape.blocks)) }
{
    let mut groups = no_events(alloc, shape.blocks)?;
    for place in 0..run.len() {
        let event = &run[place];
        let block = event.block(shape) as usize;
        if block >= groups.len() {
            return Ok(None);
        }
        join_event(&mut groups, block, copied(event))?;
    }
    Ok(Some(groups))
}
