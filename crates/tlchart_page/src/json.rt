//! The page's data, as JSON. Its texts have no quotation mark and no backslash in them.

use crate::film::Change;
use crate::parts::{Cell, Part};
use std::fmt::Write;
use tl_map::Geometry;
use tl_script_words::{Hex, Step};
use tl_text::Answer;
use tlchart_draw::{Ink, push_lifeline, push_mark, push_step, push_title};
use tlchart_model::{Arrow, Chart, Turn};

/// What a page is made from.
#[derive(Clone, Copy)]
pub(crate) struct Sheet<'a> {
    pub(crate) title: &'a str,
    pub(crate) geometry: Geometry,
    pub(crate) steps: &'a [Step],
    pub(crate) cells: &'a [Cell],
    pub(crate) answers: &'a [Answer],
    pub(crate) start: &'a [String],
    pub(crate) changes: &'a [Vec<Change>],
    pub(crate) chart: &'a Chart,
}

/// A comma before each element but the first.
pub fn push_comma(ink: &mut Ink, place: usize) {
    if place > 0 {
        ink.put(",\n")
    }
}

/// The numbers that banks are made from.
fn push_geometry(ink: &mut Ink, geometry: Geometry) {
    let _ = write!(
        ink,
        "\"geometry\":{{\"clients\":{},\"banks\":{},\"blockBytes\":{},\"sets\":{},\"ways\":{},\"registers\":{},\"copies\":{},\"blocks\":{}}}",
        geometry.clients(),
        geometry.banks(),
        geometry.block_bytes(),
        geometry.sets(),
        geometry.ways(),
        geometry.registers(),
        geometry.copies(),
        geometry.memory_blocks()
    );
}

/// What a cell shows a part of.
fn push_cell_name(ink: &mut Ink, cell: &Cell) {
    let bank = cell.bank;
    match cell.part {
        Part::Client(client, block) => {
            let _ = write!(ink, "\"{bank} client {client} {block}\"");
        }
        Part::Home(block) => {
            let _ = write!(ink, "\"{bank} home {block}\"");
        }
        Part::Memory(block) => {
            let _ = write!(ink, "\"{bank} memory {block}\"");
        }
        Part::Channel(client, channel) => {
            let _ = write!(ink, "\"{bank} channel {client} {channel}\"");
        }
        Part::Set(set) => {
            let _ = write!(ink, "\"{bank} set {}\"", set.number());
        }
        Part::Registers => {
            let _ = write!(ink, "\"{bank} registers\"");
        }
    }
}

fn push_cell_names(ink: &mut Ink, cells: &[Cell]) {
    for (place, cell) in cells.iter().enumerate() {
        push_comma(ink, place);
        push_cell_name(ink, cell);
    }
}

/// The words of a step's mark, where it has one.
fn push_mark_of(ink: &mut Ink, turn: &Turn) {
    match &turn.mark {
        Some(mark) => push_mark(ink, mark),
        None => {}
    }
}

/// A step: its words, its answer, who made it, its mark.
fn push_row(ink: &mut Ink, step: &Step, turn: &Turn, answer: &Answer) {
    ink.put("[\"");
    push_step(ink, step);
    let _ = write!(ink, "\",\"{answer}\",\"");
    push_lifeline(ink, turn.at);
    ink.put("\",\"");
    push_mark_of(ink, turn);
    ink.put("\"]")
}

/// The row of a step, where the chart has one.
fn push_row_at(ink: &mut Ink, sheet: &Sheet<'_>, row: usize, step: &Step) {
    match (sheet.chart.turns.get(row), sheet.answers.get(row)) {
        (Some(turn), Some(answer)) => push_row(ink, step, turn, answer),
        _ => ink.put("[]"),
    }
}

fn push_rows(ink: &mut Ink, sheet: &Sheet<'_>) {
    for (row, step) in sheet.steps.iter().enumerate() {
        push_comma(ink, row);
        push_row_at(ink, sheet, row, step);
    }
}

/// A message: the steps that sent and took it, -1 where none took it; from whom to whom, on which channel, about which
/// block, what it is, and its bytes.
fn push_arrow(ink: &mut Ink, arrow: &Arrow) {
    let message = &arrow.message;
    let sent = arrow.sent;
    match arrow.taken {
        Some(row) => {
            let _ = write!(ink, "[{sent},{row},\"");
        }
        None => {
            let _ = write!(ink, "[{sent},-1,\"");
        }
    }
    push_lifeline(ink, message.from);
    ink.put("\",\"");
    push_lifeline(ink, message.to);
    let channel = message.kind.channel();
    let _ = write!(
        ink,
        "\",\"{channel}\",{},\"{}\",\"",
        message.block, message.kind
    );
    if let Some(bytes) = &message.bytes {
        let _ = write!(ink, "{}", Hex(bytes.as_slice()));
    }
    ink.put("\"]")
}

/// The messages of a chart.
pub fn push_arrows(ink: &mut Ink, arrows: &[Arrow]) {
    for (place, arrow) in arrows.iter().enumerate() {
        push_comma(ink, place);
        push_arrow(ink, arrow);
    }
}

fn push_start(ink: &mut Ink, start: &[String]) {
    for (place, shown) in start.iter().enumerate() {
        push_comma(ink, place);
        let _ = write!(ink, "\"{shown}\"");
    }
}

/// The changes of a step: the places of cells, and what they show.
fn push_changes_of(ink: &mut Ink, changes: &[Change]) {
    for (place, change) in changes.iter().enumerate() {
        if place > 0 {
            ink.put(",");
        }
        let _ = write!(ink, "{},\"{}\"", change.place, change.text);
    }
}

fn push_changes(ink: &mut Ink, changes: &[Vec<Change>]) {
    for (place, of_step) in changes.iter().enumerate() {
        push_comma(ink, place);
        ink.put("[");
        push_changes_of(ink, of_step);
        ink.put("]");
    }
}

/// All of it.
pub(crate) fn push_data(ink: &mut Ink, sheet: &Sheet<'_>) {
    ink.put("{\"title\":\"");
    push_title(ink, sheet.title);
    ink.put("\",\n");
    push_geometry(ink, sheet.geometry);
    ink.put(",\n\"cells\":[");
    push_cell_names(ink, sheet.cells);
    ink.put("],\n\"rows\":[");
    push_rows(ink, sheet);
    ink.put("],\n\"arrows\":[");
    push_arrows(ink, &sheet.chart.arrows);
    ink.put("],\n\"start\":[");
    push_start(ink, sheet.start);
    ink.put("],\n\"changes\":[");
    push_changes(ink, sheet.changes);
    ink.put("]}\n")
}
