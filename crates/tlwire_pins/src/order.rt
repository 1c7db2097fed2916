//! Whether a run is seen at a client's pins as a record says.
ghost use Rattle.std.specs.Prelude.{◌≡◌, ◌<◌, ◌==◌, ◌++◌, ◌∷◌, ℕ, [], filter, map, length, if◌then◌else◌, slice_index_or, vec_len, IfOk, IfSome, OnOk, IsTrue};
ghost use Rattle.tlwire_pins.specs.Pins.{KeepsOrder, is_core_told, is_of_client};
ghost use Rattle.tlwire_pins.specs.Walk.{IsBeginning, is_in};

use crate::view::Cores;
use crate::views::is_told;
use std::alloc::{AllocError, Global};
use tl_protocol::Queue;
use tl_rules::Shape;
use tl_types::ClientId;
use tlwire_search::{Seen, block_of};

/// Whether a load or a store of a client is told at its pins.
fn is_core_told(cores: Cores, client: ClientId, c: ClientId) -> bool
    ensures { result ≡ is_core_told cores client c }
{
    match cores {
        Cores::Watched => c == client,
        Cores::Unseen => false,
    }
}

/// Whether a line is told at a client's pins.
fn is_of_client(cores: Cores, client: ClientId, line: &Seen) -> bool
    ensures { result ≡ is_of_client cores client line.now }
{
    match line {
        Seen::OnLink(c, _, message) => *c == client && is_told(message.kind.channel()),
        Seen::OnMemory(_, _) => false,
        Seen::Load(c, _, _) | Seen::Store(c, _, _) => is_core_told(cores, client, *c),
    }
}

/// The lines that are told at a client's pins.
fn of_client(
    alloc: Global,
    cores: Cores,
    client: ClientId,
    lines: &[Seen],
) -> Result<Vec<&Seen>, AllocError>
    ensures { IfOk result (λ found. map (λ x. x.now) found.items ≡ filter (is_of_client cores client) lines.now) }
{
    lines
        .iter()
        .filter(|line| is_of_client(cores, client, line))
        .collect(alloc)
}

/// Whether some lines are the beginning of others.
fn is_beginning(some: &[&Seen], all: &[&Seen]) -> bool
    ensures { IsTrue result → IsBeginning (map (λ x. x.now) some.now) (map (λ x. x.now) all.now) }
{
    if all.len() < some.len() {
        return false;
    }
    for (place, line) in some.iter().enumerate() {
        if !line.is_same(all[place]) {
            return false;
        }
    }
    true
}

/// No line of each of so many blocks.
fn no_lines<'a>(alloc: Global, blocks: u32) -> Result<Vec<Queue<&'a Seen>>, AllocError>
    ensures none { IfOk result (λ groups. (block : ℕ) → slice_index_or groups.items block [] ≡ []) }
    ensures size { IfOk result (λ groups. vec_len groups ≡ blocks) }
{
    let mut groups = Vec::new(alloc);
    for number in 0..blocks {
        groups.push(Queue::new(alloc))?;
    }
    Ok(groups)
}

/// One more line of a block.
fn join<'a>(
    groups: &mut Vec<Queue<&'a Seen>>,
    block: usize,
    line: &'a Seen,
) -> Result<(), AllocError>
    requires { block < vec_len groups.old }
    ensures joins { OnOk result ((b : ℕ) → slice_index_or groups.new.items b []
        ≡ (if block == b
        then slice_index_or groups.old.items b [] ++ line.entry ∷ []
        else slice_index_or groups.old.items b [])) }
    ensures size { vec_len groups.new ≡ vec_len groups.old }
{
    groups[block].push(line)
}

/// The lines of each block, in order; none where one is of a block that is not there.
fn by_block<'a>(
    alloc: Global,
    shape: Shape,
    lines: &[&'a Seen],
) -> Result<Option<Vec<Queue<&'a Seen>>>, AllocError>
    requires { 0 < shape.block_bytes }
    ensures lines { IfOk result
        (λ found. IfSome found (λ groups. (block : ℕ)
        → map (λ x. x.now) (slice_index_or groups.items block [])
        ≡ filter (is_in shape block) (map (λ x. x.now) lines.now))) }
    ensures size { IfOk result (λ found. IfSome found (λ groups. vec_len groups ≡ shape.blocks)) }
{
    let mut groups = no_lines(alloc, shape.blocks)?;
    for place in 0..lines.len() {
        let line = lines[place];
        let block = block_of(shape, line) as usize;
        if block >= groups.len() {
            return Ok(None);
        }
        join(&mut groups, block, line)?;
    }
    Ok(Some(groups))
}

/// Whether of each block some lines are the beginning of others.
fn are_beginnings(some: &[Queue<&Seen>], all: &[Queue<&Seen>]) -> bool
    requires { length all.now ≡ length some.now }
    ensures { IsTrue result
        → (block : ℕ) → block < length some.now
        → IsBeginning (map (λ x. x.now) (slice_index_or some.now block []))
        (map (λ x. x.now) (slice_index_or all.now block [])) }
{
    for block in 0..some.len() {
        if !is_beginning(some[block].as_slice(), all[block].as_slice()) {
            return false;
        }
    }
    true
}

/// Whether lines that are seen at the pins of clients have, of one client and of each block, the record's lines in their
/// order, and maybe more behind them; where nobody watched its core, without its loads and stores. The error is want of
/// memory.
pub fn keeps_order(
    alloc: Global,
    shape: Shape,
    cores: Cores,
    client: ClientId,
    lines: &[Seen],
    seen: &[Seen],
) -> Result<bool, AllocError>
    requires { 0 < shape.block_bytes }
    ensures { IfOk result (λ yes. IsTrue yes → KeepsOrder cores shape client lines.now seen.now) }
{
    let all = of_client(alloc, cores, client, lines)?;
    let some = of_client(alloc, Cores::Watched, client, seen)?;
    let Some(all) = by_block(alloc, shape, &all)? else {
        return Ok(false);
    };
    let Some(some) = by_block(alloc, shape, &some)? else {
        return Ok(false);
    };
    Ok(are_beginnings(&some, &all))
}
