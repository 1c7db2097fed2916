//! The states of a trace, told as changes.
ghost use Rattle.std.specs.Prelude.{◌≡◌, ◌<◌, ◌≤◌, ◌*◌, ◌++◌, [], IfOk, OnOk, Some, false, length, map, option_to_list, slice_get, slice_index_or, slice_set, string_bytes, vec_items};
ghost use Rattle.tlchart_page.specs.Film.{AreFrames, IsFilm, IsFrame, IsLonger, changed};
ghost use Rattle.tlchart_page.specs.Parts.{cell_text, state_shown};
ghost use Rattle.tlchart_page.specs.Reach.{IsShownBut, may_change};
ghost use Rattle.tlchart_page.specs.Told.{IsChange, IsToldOn};

use crate::parts::{Cell, push_cell};
use crate::reach::Reach;
use std::alloc::{AllocError, Global};
use tl_map::Geometry;
use tl_script_words::{STEPS, Step};
use tl_text::Answer;
use tl_trace::Network;

/// A cell shows another text, from here on.
#[derive(Debug, Drop)]
pub struct Change {
    pub place: usize,
    pub text: String,
}

/// What a step leaves: its answer, and which cells show another text after it.
#[derive(Drop)]
pub(crate) struct Frame {
    pub(crate) answer: Answer,
    pub(crate) changes: Vec<Change>,
}

/// What each cell shows at reset; and for each step its answer, and which cells show another text after it.
#[derive(Debug, Drop)]
pub struct Film {
    pub start: Vec<String>,
    pub answers: Vec<Answer>,
    pub changes: Vec<Vec<Change>>,
}

/// What a cell shows.
fn text_of(alloc: Global, network: &Network, cell: &Cell) -> Result<String, AllocError>
    ensures { IfOk result (λ text. string_bytes text ≡ cell_text network.now cell.now) }
{
    let mut text = String::new(alloc);
    push_cell(&mut text, network, cell)?;
    Ok(text)
}

/// What each cell shows.
fn state_of(alloc: Global, network: &Network, cells: &[Cell]) -> Result<Vec<String>, AllocError>
    ensures { IfOk result (λ state. map string_bytes state.items ≡ state_shown network.now cells.now) }
{
    let mut state = Vec::new(alloc);
    for cell in cells {
        state.push(text_of(alloc, network, cell)?)?;
    }
    Ok(state)
}

/// The change of a cell, where it shows another text than before.
fn change_at(
    alloc: Global,
    place: usize,
    before: &str,
    text: &str,
) -> Result<Option<Change>, AllocError>
    ensures { IfOk result (λ change. IsChange place before.now text.now change) }
{
    if before == text {
        return Ok(None);
    }
    let text = String::from_str(alloc, text)?;
    Ok(Some(Change { place, text }))
}

/// Shows a text at a place. The change, where that is another text than before.
fn show(
    alloc: Global,
    state: &mut [String],
    place: usize,
    text: String,
) -> Result<Option<Change>, AllocError>
    requires { place < length state.old }
    ensures shown { OnOk result
        (map string_bytes state.new ≡ slice_set (map string_bytes state.old) place (string_bytes text)) }
    ensures change { IfOk result
        (IsChange place (slice_index_or (map string_bytes state.old) place []) (string_bytes text)) }
{
    let before = state[place].as_str();
    let change = change_at(alloc, place, before, text.as_str())?;
    state[place] = text;
    Ok(change)
}

/// A change, where there is one, at the end of some. The error is want of memory.
fn push_change(changes: &mut Vec<Change>, change: Option<Change>) -> Result<(), AllocError>
    ensures { OnOk result (changes.new.items ≡ changes.old.items ++ option_to_list change) }
{
    match change {
        Some(change) => Ok(changes.push(change)?),
        None => Ok(()),
    }
}

/// Shows a text at a place, and tells that among some changes where another text was shown there. The error is want of
/// memory.
pub fn tell(
    alloc: Global,
    state: &mut [String],
    place: usize,
    text: String,
    changes: &mut Vec<Change>,
) -> Result<(), AllocError>
    requires { place < length state.old }
    ensures shown { OnOk result
        (map string_bytes state.new ≡ slice_set (map string_bytes state.old) place (string_bytes text)) }
    ensures told { OnOk result
        (IsToldOn changes.old.items (map string_bytes state.old) changes.new.items (map string_bytes state.new)) }
{
    let change = show(alloc, state, place, text)?;
    push_change(changes, change)?;
    Ok(())
}

/// Asks a cell again that the step may have changed; another shows what it showed.
fn look(
    alloc: Global,
    network: &Network,
    cell: &Cell,
    reach: &Reach,
    place: usize,
    state: &mut [String],
    changes: &mut Vec<Change>,
) -> Result<(), AllocError>
    requires inside { place < length state.old }
    requires same { may_change reach.now cell.now ≡ false
        → slice_index_or (map string_bytes state.old) place [] ≡ cell_text network.now cell.now }
    ensures shown { OnOk result
        (map string_bytes state.new ≡ slice_set (map string_bytes state.old) place (cell_text network.now cell.now)) }
    ensures told { OnOk result
        (IsToldOn changes.old.items (map string_bytes state.old) changes.new.items (map string_bytes state.new)) }
{
    if reach.has(cell) {
        let text = text_of(alloc, network, cell)?;
        tell(alloc, state, place, text, changes)?;
    }
    Ok(())
}

/// The cell at a place.
fn cell_at(cells: &[Cell], place: usize) -> Cell
    requires { place < length cells.now }
    ensures { slice_get cells.now place ≡ Some result }
{
    cells[place]
}

/// The changes of a step, which may have changed the cells that it reaches. `state` is what the cells show before the
/// step, and then what they show after it.
fn changes_in(
    alloc: Global,
    network: &Network,
    cells: &[Cell],
    reach: &Reach,
    state: &mut [String],
) -> Result<Vec<Change>, AllocError>
    requires { IsShownBut network.now cells.now reach.now (map string_bytes state.old) }
    ensures shown { OnOk result (map string_bytes state.new ≡ state_shown network.now cells.now) }
    ensures changes { IfOk result
        (λ changes. changed (map string_bytes state.old) changes.items ≡ map string_bytes state.new) }
{
    let mut changes = Vec::new(alloc);
    for place in 0..cells.len() {
        let cell = cell_at(cells, place);
        look(alloc, network, &cell, reach, place, state, &mut changes)?;
    }
    Ok(changes)
}

/// A step's frame. `state` is what the cells show before the step, and then what they show after it.
fn frame_of(
    alloc: Global,
    network: &mut Network,
    index: u32,
    step: &Step,
    cells: &[Cell],
    state: &mut [String],
) -> Result<Frame, AllocError>
    requires { map string_bytes state.old ≡ state_shown network.old cells.now }
    ensures { IfOk result
        (λ frame. IsFrame cells.now index step.now network.old network.new (map string_bytes state.new) frame) }
{
    let answer = network.step(index, step)?;
    let reach = Reach::of(network, step);
    let changes = changes_in(alloc, network, cells, &reach, state)?;
    Ok(Frame { answer, changes })
}

/// One more frame at the end of a film.
fn push_frame(film: &mut Film, frame: Frame) -> Result<(), AllocError>
    ensures { OnOk result (IsLonger film.old frame film.new) }
{
    film.answers.push(frame.answer)?;
    film.changes.push(frame.changes)?;
    Ok(())
}

/// Films each step. `state` is what the cells show before the first step, and then what they show after the last.
fn film_steps(
    alloc: Global,
    network: &mut Network,
    steps: &[Step],
    cells: &[Cell],
    state: &mut [String],
    film: &mut Film,
) -> Result<(), AllocError>
    requires few { length steps.now ≤ STEPS }
    requires answers { film.old.answers.items ≡ [] }
    requires changes { film.old.changes.items ≡ [] }
    requires state { map string_bytes state.old ≡ state_shown network.old cells.now }
    ensures start { OnOk result (film.new.start ≡ film.old.start) }
    ensures frames { OnOk result
        (AreFrames cells.now 0 steps.now network.old film.new.answers.items (map vec_items film.new.changes.items)
        network.new) }
{
    for (index, step) in steps.iter().enumerate() {
        let frame = frame_of(alloc, network, index as u32, step, cells, state)?;
        push_frame(film, frame)?;
    }
    Ok(())
}

/// Plays steps, at most `STEPS`, over all banks of a geometry at reset over an image that is no longer than the memory,
/// and films what the cells show. The error is want of memory.
pub fn film_of(
    alloc: Global,
    geometry: Geometry,
    image: &[u8],
    steps: &[Step],
    cells: &[Cell],
) -> Result<Film, AllocError>
    requires image { length image.now ≤ geometry.memory_blocks * geometry.block_bytes }
    requires few { length steps.now ≤ STEPS }
    ensures { IfOk result (IsFilm geometry image.now steps.now cells.now) }
{
    let mut network = Network::new(alloc, geometry, image)?;
    let mut state = state_of(alloc, &network, cells)?;
    let mut film = Film {
        start: state_of(alloc, &network, cells)?,
        answers: Vec::new(alloc),
        changes: Vec::new(alloc),
    };
    film_steps(
        alloc,
        &mut network,
        steps,
        cells,
        state.as_mut_slice(),
        &mut film,
    )?;
    Ok(film)
}
