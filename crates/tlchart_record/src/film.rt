//! The states of a record, told as changes.
ghost use Rattle.std.specs.Prelude.{◌≡◌, ◌≢◌, ◌<◌, ◌++◌, ℕ, List, IfOk, OnOk, [], is_ok, length, map, slice_index_or, slice_set, string_bytes, vec_items};
ghost use Rattle.tl_protocol.specs.Protocol.{block_of};
ghost use Rattle.tl_protocol.specs.declared.event.Event.{Event};
ghost use Rattle.tlcheck_rules.specs.Judged.{Follows};
ghost use Rattle.tlcheck_record.specs.State.{state_lines};
ghost use Rattle.tlcheck_record.specs.declared.header.Head.{Head};
ghost use Rattle.tlchart_page.specs.Film.{changed};
ghost use Rattle.tlchart_page.specs.Told.{IsToldOn};
ghost use Rattle.tlchart_record.specs.Film.{Filmed, IsLonger, IsRecordFilm, IsShownBut, IsSomewhere, Plays, blocks_shown, entries_of, is_settled};

use crate::window::Written;
use std::alloc::{AllocError, Global};
use tlchart_model::Turn;
use tlchart_page::{Change, tell};
use tlcheck_chart::{Serials, turn_of};
use tlcheck_record::push_state;
use tlcheck_rules::{Entry, Judge, Refusal};

/// What each block shows at the start, as `tlcheck` writes its state; and for each entry what it did, and which blocks
/// show another state after it.
#[derive(Drop)]
pub struct RecordFilm {
    pub start: Vec<String>,
    pub turns: Vec<Turn>,
    pub changes: Vec<Vec<Change>>,
}

/// What an entry did, and which blocks show another state after it.
#[derive(Drop)]
pub(crate) struct Frame {
    pub(crate) turn: Turn,
    pub(crate) changes: Vec<Change>,
}

/// The state of a block.
fn text_of(alloc: Global, judge: &Judge, block: u32) -> Result<String, AllocError>
    ensures { IfOk result (λ text. string_bytes text ≡ state_lines judge.now.plain block) }
{
    let mut text = String::new(alloc);
    push_state(&mut text, judge.plain(), block)?;
    Ok(text)
}

/// The state of each block.
fn state_of(alloc: Global, judge: &Judge, blocks: &[u32]) -> Result<Vec<String>, AllocError>
    ensures { IfOk result (λ state. map string_bytes state.items ≡ blocks_shown judge.now.plain blocks.now) }
{
    let mut state = Vec::new(alloc);
    for block in blocks {
        state.push(text_of(alloc, judge, *block)?)?;
    }
    Ok(state)
}

/// Shows the state of a block anew where it is this one; another is as it was.
fn look(
    alloc: Global,
    judge: &Judge,
    number: u32,
    block: u32,
    place: usize,
    state: &mut [String],
    changes: &mut Vec<Change>,
) -> Result<(), AllocError>
    requires inside { place < length state.old }
    requires same { number ≢ block
        → slice_index_or (map string_bytes state.old) place [] ≡ state_lines judge.now.plain number }
    ensures shown { OnOk result
        (map string_bytes state.new
        ≡ slice_set (map string_bytes state.old) place (state_lines judge.now.plain number)) }
    ensures told { OnOk result
        (IsToldOn changes.old.items (map string_bytes state.old) changes.new.items (map string_bytes state.new)) }
{
    if number == block {
        let text = text_of(alloc, judge, number)?;
        tell(alloc, state, place, text, changes)?;
    }
    Ok(())
}

/// The changes of an entry of a block. `state` is what the blocks show before it, and then what they show after it.
fn changes_in(
    alloc: Global,
    judge: &Judge,
    blocks: &[u32],
    block: u32,
    state: &mut [String],
) -> Result<Vec<Change>, AllocError>
    requires { IsShownBut judge.now.plain blocks.now block (map string_bytes state.old) }
    ensures shown { OnOk result (map string_bytes state.new ≡ blocks_shown judge.now.plain blocks.now) }
    ensures changes { IfOk result
        (λ changes. changed (map string_bytes state.old) changes.items ≡ map string_bytes state.new) }
{
    let mut changes = Vec::new(alloc);
    for (place, number) in blocks.iter().enumerate() {
        look(alloc, judge, *number, block, place, state, &mut changes)?;
    }
    Ok(changes)
}

/// An entry that breaks something ends nothing here; a refused request for memory does.
fn settle(done: Result<(), Refusal>) -> Result<(), AllocError>
    ensures { is_ok result ≡ is_settled done }
{
    match done {
        Ok(()) => Ok(()),
        Err(Refusal::Broken(_)) => Ok(()),
        Err(Refusal::Memory) => Err(AllocError),
    }
}

/// Takes an entry, where it is permitted; the judge stays where it is not.
pub(crate) fn play(judge: &mut Judge, entry: &Entry) -> Result<(), AllocError>
    ensures { OnOk result (Plays entry.now judge.old judge.new) }
{
    let done = judge.step(entry);
    settle(done)
}

/// The block that an entry is of.
fn block_of(judge: &Judge, entry: &Entry) -> u32
    ensures { result ≡ block_of judge.now.plain.shape entry.now.event }
{
    entry.event.block(judge.plain().shape())
}

/// An entry's frame. `state` is what the blocks show before the entry, and then what they show after it.
fn frame_of(
    alloc: Global,
    judge: &mut Judge,
    serials: &mut Serials,
    entry: &Entry,
    blocks: &[u32],
    state: &mut [String],
) -> Result<Frame, AllocError>
    requires somewhere { IsSomewhere judge.old }
    requires shown { map string_bytes state.old ≡ blocks_shown judge.old.plain blocks.now }
    ensures plays { OnOk result (Plays entry.now judge.old judge.new) }
    ensures shown { OnOk result (map string_bytes state.new ≡ blocks_shown judge.new.plain blocks.now) }
    ensures changes { IfOk result
        (λ frame. changed (blocks_shown judge.old.plain blocks.now) frame.changes.items
        ≡ blocks_shown judge.new.plain blocks.now) }
{
    let turn = turn_of(judge, serials, entry)?;
    let block = block_of(judge, entry);
    play(judge, entry)?;
    let changes = changes_in(alloc, judge, blocks, block, state)?;
    Ok(Frame { turn, changes })
}

/// One more frame at the end of a film.
fn push_frame(film: &mut RecordFilm, frame: Frame) -> Result<(), AllocError>
    ensures { OnOk result (IsLonger film.old frame film.new) }
{
    film.turns.push(frame.turn)?;
    film.changes.push(frame.changes)?;
    Ok(())
}

/// Films each entry. `state` is what the blocks show before the first entry, and then what they show after the last.
fn film_each(
    alloc: Global,
    judge: &mut Judge,
    serials: &mut Serials,
    entries: &[Written],
    blocks: &[u32],
    state: &mut [String],
    film: &mut RecordFilm,
) -> Result<(), AllocError>
    requires somewhere { IsSomewhere judge.old }
    requires shown { map string_bytes state.old ≡ blocks_shown judge.old.plain blocks.now }
    requires empty { film.old.changes.items ≡ [] }
    ensures start { OnOk result (film.new.start ≡ film.old.start) }
    ensures filmed { OnOk result
        (Filmed judge.old judge.new blocks.now (entries_of entries.now) (map vec_items film.new.changes.items)) }
{
    for written in entries {
        let frame = frame_of(alloc, judge, serials, &written.entry, blocks, state)?;
        push_frame(film, frame)?;
    }
    Ok(())
}

/// Films entries, each from the state that the entries before it left. An entry that is not permitted changes nothing.
/// The error is want of memory.
pub fn film_entries(
    alloc: Global,
    judge: &mut Judge,
    serials: &mut Serials,
    entries: &[Written],
    blocks: &[u32],
) -> Result<RecordFilm, AllocError>
    requires { IsSomewhere judge.old }
    ensures { IfOk result
        (λ film. (head : Head) (image : List ℕ) (log : List Event)
        → Follows head.order head.shape image log judge.old
        → IsRecordFilm head image log blocks.now (entries_of entries.now) film) }
{
    let start = state_of(alloc, judge, blocks)?;
    let mut state = state_of(alloc, judge, blocks)?;
    let mut film = RecordFilm {
        start,
        turns: Vec::new(alloc),
        changes: Vec::new(alloc),
    };
    film_each(
        alloc,
        judge,
        serials,
        entries,
        blocks,
        state.as_mut_slice(),
        &mut film,
    )?;
    Ok(film)
}
