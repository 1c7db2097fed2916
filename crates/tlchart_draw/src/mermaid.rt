//! A chart as a Mermaid `sequenceDiagram`.

use crate::ink::Ink;
use crate::labels::{push_lifeline, push_mark, push_message, push_title};
use crate::sheet::Sheet;
use std::fmt::Write;
use tl_types::{BankNo, ClientId, Perm};
use tlchart_model::{Arrow, Change, Chart, Lifeline, Mark, Turn};

/// The short name of a lifeline.
fn push_short(ink: &mut Ink, lifeline: Lifeline) {
    match lifeline {
        Lifeline::Client(client) => {
            let _ = write!(ink, "C{client}");
        }
        Lifeline::Home(bank) => {
            let _ = write!(ink, "H{bank}");
        }
        Lifeline::Memory => {
            let _ = write!(ink, "M");
        }
    }
}

fn push_participant(ink: &mut Ink, lifeline: &Lifeline) {
    ink.put("    participant ");
    push_short(ink, *lifeline);
    ink.put(" as ");
    push_lifeline(ink, *lifeline);
    ink.put("\n")
}

/// Each client, each bank's home, and the memory.
fn push_participants(ink: &mut Ink, chart: &Chart) {
    for client in 0..chart.clients {
        push_participant(ink, &Lifeline::Client(ClientId::new(client)));
    }
    for bank in 0..chart.banks {
        push_participant(ink, &Lifeline::Home(BankNo::new(bank)));
    }
    push_participant(ink, &Lifeline::Memory)
}

/// A message, in the row of the step that sent it, with the row of the step that took it.
fn push_arrow(ink: &mut Ink, arrow: &Arrow) {
    ink.put("    ");
    push_short(ink, arrow.message.from);
    ink.put(match arrow.taken {
        Some(_) => "->>",
        None => "--x",
    });
    push_short(ink, arrow.message.to);
    let _ = write!(ink, ": {} ", arrow.sent);
    push_message(ink, &arrow.message);
    match arrow.taken {
        Some(row) => {
            let _ = write!(ink, ", taken {row}\n");
        },
        None => ink.put(", never taken\n"),
    }
}

/// The message that a row sent.
fn push_sent(ink: &mut Ink, chart: &Chart, row: usize) {
    for arrow in &chart.arrows {
        if arrow.sent == row {
            push_arrow(ink, arrow);
        }
    }
}

fn push_note(ink: &mut Ink, row: usize, at: Lifeline, mark: &Mark) {
    ink.put("    Note over ");
    push_short(ink, at);
    let _ = write!(ink, ": {row} ");
    push_mark(ink, mark);
    ink.put("\n")
}

/// The permission of a client before a change: that of its last change in an earlier row.
fn before(chart: &Chart, change: Change) -> Perm {
    let mut last = Perm::None;
    let mut end = 0;
    for other in &chart.changes {
        if other.client == change.client && other.row < change.row && other.row >= end {
            last = other.perm;
            end = other.row;
        }
    }
    last
}

/// The bar of a client begins with its first permission, and ends with its last.
fn push_bar(ink: &mut Ink, verb: &str, client: Lifeline) {
    let _ = write!(ink, "    {verb} ");
    push_short(ink, client);
    ink.put("\n")
}

fn push_change(ink: &mut Ink, chart: &Chart, change: Change) {
    let before = before(chart, change);
    if before == change.perm {
        return;
    }
    ink.put("    Note over ");
    push_short(ink, change.client);
    let _ = write!(ink, ": {:?} of b{}\n", change.perm, chart.block);
    if before == Perm::None {
        return push_bar(ink, "activate", change.client);
    }
    if change.perm == Perm::None {
        return push_bar(ink, "deactivate", change.client);
    }
}

/// What changes in a row.
fn push_changes(ink: &mut Ink, chart: &Chart, row: usize) {
    for change in &chart.changes {
        if change.row == row {
            push_change(ink, chart, *change);
        }
    }
}

fn push_turn(ink: &mut Ink, chart: &Chart, row: usize, turn: &Turn) {
    push_sent(ink, chart, row);
    if let Some(mark) = &turn.mark {
        push_note(ink, row, turn.at, mark);
    }
    push_changes(ink, chart, row)
}

fn push_turns(ink: &mut Ink, chart: &Chart) {
    for (row, turn) in chart.turns.iter().enumerate() {
        push_turn(ink, chart, row, turn);
    }
}

/// The lines of a text, with a break between them.
fn push_lines(ink: &mut Ink, text: &str) {
    for (place, line) in text.lines().enumerate() {
        if place > 0 {
            ink.put("<br/>");
        }
        ink.put(line);
    }
}

/// What stands at the foot, at each home.
fn push_feet(ink: &mut Ink, foot: &[String]) {
    for (bank, text) in foot.iter().enumerate() {
        let _ = write!(ink, "    Note over H{bank}: ");
        push_lines(ink, text.as_str());
        ink.put("\n");
    }
}

/// The whole diagram.
pub(crate) fn push_picture(ink: &mut Ink, sheet: Sheet<'_>) {
    ink.put("---\ntitle: \"");
    push_title(ink, sheet.title);
    ink.put("\"\n---\nsequenceDiagram\n");
    push_participants(ink, sheet.chart);
    push_turns(ink, sheet.chart);
    push_feet(ink, sheet.foot)
}
