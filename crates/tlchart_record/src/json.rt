//! The page's data, as JSON. Its texts have no quotation mark and no backslash in them, but for the line feeds of
//! states.

use crate::window::Written;
use std::fmt::Write;
use tl_rules::Shape;
use tlchart_draw::{Ink, push_lifeline, push_mark, push_title};
use tlchart_model::{Chart, Turn};
use tlchart_page::{Change, push_arrows, push_comma};
use tlcheck_record::EntryLine;

/// What a page is made from.
#[derive(Clone, Copy)]
pub(crate) struct Sheet<'a> {
    pub(crate) title: &'a str,
    pub(crate) verdict: &'a str,
    pub(crate) shape: Shape,
    /// How many entries come before those that are shown.
    pub(crate) before: u64,
    pub(crate) blocks: &'a [u32],
    pub(crate) entries: &'a [Written],
    pub(crate) start: &'a [String],
    pub(crate) changes: &'a [Vec<Change>],
    pub(crate) chart: &'a Chart,
}

/// The numbers of the memory and its clients.
fn push_shape(ink: &mut Ink, shape: Shape) {
    let _ = write!(
        ink,
        "\"geometry\":{{\"clients\":{},\"banks\":1,\"blockBytes\":{},\"blocks\":{}}}",
        shape.clients, shape.block_bytes, shape.blocks
    );
}

/// Lines, whose line feeds are written as JSON has them.
fn push_lines(ink: &mut Ink, lines: &str) {
    for line in lines.split('\n') {
        if !line.is_empty() {
            ink.put(line);
            ink.put("\\n")
        }
    }
}

fn push_blocks(ink: &mut Ink, blocks: &[u32]) {
    for (place, block) in blocks.iter().enumerate() {
        if place > 0 {
            ink.put(",");
        }
        let _ = write!(ink, "{block}");
    }
}

/// The words of an entry's mark, where it has one.
fn push_mark_of(ink: &mut Ink, turn: &Turn) {
    match &turn.mark {
        Some(mark) => push_mark(ink, mark),
        None => {}
    }
}

/// An entry: its words, who made it, its mark, its line.
fn push_row(ink: &mut Ink, written: &Written, turn: &Turn) {
    let _ = write!(ink, "[\"{}\",\"\",\"", EntryLine(&written.entry));
    push_lifeline(ink, turn.at);
    ink.put("\",\"");
    push_mark_of(ink, turn);
    let _ = write!(ink, "\",{}]", written.line);
}

fn push_rows(ink: &mut Ink, sheet: &Sheet<'_>) {
    for (row, written) in sheet.entries.iter().enumerate() {
        push_comma(ink, row);
        match sheet.chart.turns.get(row) {
            Some(turn) => push_row(ink, written, turn),
            None => ink.put("[]"),
        }
    }
}

fn push_start(ink: &mut Ink, start: &[String]) {
    for (place, lines) in start.iter().enumerate() {
        push_comma(ink, place);
        ink.put("\"");
        push_lines(ink, lines.as_str());
        ink.put("\"")
    }
}

/// The changes of an entry: the places of blocks, and their states.
fn push_changes_of(ink: &mut Ink, changes: &[Change]) {
    for (place, change) in changes.iter().enumerate() {
        if place > 0 {
            ink.put(",");
        }
        let _ = write!(ink, "{},\"", change.place);
        push_lines(ink, change.text.as_str());
        ink.put("\"")
    }
}

fn push_changes(ink: &mut Ink, changes: &[Vec<Change>]) {
    for (place, of_entry) in changes.iter().enumerate() {
        push_comma(ink, place);
        ink.put("[");
        push_changes_of(ink, of_entry);
        ink.put("]");
    }
}

/// All of it.
pub(crate) fn push_data(ink: &mut Ink, sheet: &Sheet<'_>) {
    ink.put("{\"title\":\"");
    push_title(ink, sheet.title);
    let _ = write!(
        ink,
        "\",\n\"verdict\":\"{}\",\n\"first\":{},\n",
        sheet.verdict, sheet.before
    );
    push_shape(ink, sheet.shape);
    ink.put(",\n\"blocks\":[");
    push_blocks(ink, sheet.blocks);
    ink.put("],\n\"rows\":[");
    push_rows(ink, sheet);
    ink.put("],\n\"arrows\":[");
    push_arrows(ink, &sheet.chart.arrows);
    ink.put("],\n\"start\":[");
    push_start(ink, sheet.start);
    ink.put("],\n\"changes\":[");
    push_changes(ink, sheet.changes);
    ink.put("]}\n")
}
