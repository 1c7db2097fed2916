//! A chart as an SVG document.

use crate::ink::Ink;
use crate::labels::{push_lifeline, push_mark, push_message, push_step, push_title};
use crate::layout::{BESIDE, REACH, ROW, until, width, x, y, y_sent, y_taken};
use crate::sheet::{Line, Rows, Sheet};
use std::fmt::Write;
use tl_script_words::Step;
use tl_types::{BankNo, Channel, ClientId, Perm};
use tlchart_model::{Arrow, Change, Chart, Lifeline, Mark};

/// How many letters of words have room beside a lifeline.
const LETTERS: usize = 40;

/// Colours for light and dark, the shapes, and the letters.
const STYLE: &str = "<style>
svg { --paper: #ffffff; --ink: #1f2328; --quiet: #5c6570; --line: #b8c0c8; --stripe: #f3f5f7; --bad: #b91c1c;
  --A: #0b5cad; --B: #a34c00; --C: #7a35b8; --D: #18702f; --E: #56606b; --branch: #9ccbff; --tip: #f5b04c; }
@media (prefers-color-scheme: dark) { svg { --paper: #0d1117; --ink: #e6edf3; --quiet: #a3acb6; --line: #4b535d;
  --stripe: #161c24; --bad: #ff8078; --A: #79bcff; --B: #ffad66; --C: #d7b0ff; --D: #5fd876; --E: #b4bec9;
  --branch: #2563b8; --tip: #a06a00; } }
text { font: 11px ui-monospace, SFMono-Regular, Menlo, Consolas, 'DejaVu Sans Mono', monospace; fill: var(--ink); }
.paper { fill: var(--paper); } .stripe { fill: var(--stripe); } .quiet { fill: var(--quiet); }
.title { font-size: 16px; font-weight: bold; } .head { font-weight: bold; text-anchor: middle; }
.end { text-anchor: end; } .life { stroke: var(--line); } .dot { fill: var(--ink); }
.halo { paint-order: stroke; stroke: var(--paper); stroke-width: 3px; stroke-linejoin: round; }
.Branch { fill: var(--branch); } .Tip { fill: var(--tip); }
.mark { fill: var(--ink); stroke: var(--ink); } .hollow { fill: var(--paper); stroke: var(--ink); stroke-width: 1.5; }
.cross { stroke: var(--bad); stroke-width: 2; fill: none; } .bad { fill: var(--bad); }
.arrow { fill: none; stroke-width: 1.5; } .open { stroke-dasharray: 5 4; }
.lA { stroke: var(--A); } .lB { stroke: var(--B); } .lC { stroke: var(--C); } .lD { stroke: var(--D); } .lE { stroke: var(--E); }
.fA { fill: var(--A); } .fB { fill: var(--B); } .fC { fill: var(--C); } .fD { fill: var(--D); } .fE { fill: var(--E); }
</style>
";

/// The heads of arrows, one for each channel.
fn push_heads(ink: &mut Ink) {
    ink.put("<defs>\n");
    for channel in Channel::ALL {
        let _ = write!(
            ink,
            "<marker id=\"head{channel}\" viewBox=\"0 0 8 8\" refX=\"8\" refY=\"4\" markerWidth=\"7\" markerHeight=\"7\" orient=\"auto\"><path class=\"f{channel}\" d=\"M0 0L8 4L0 8z\"/></marker>\n"
        );
    }
    ink.put("</defs>\n")
}

/// How many lines stand at the foot.
fn foot_lines(foot: &[String]) -> usize {
    let mut lines: usize = 0;
    for text in foot {
        lines = lines.saturating_add(text.as_str().lines().count());
    }
    lines
}

/// The opening tag, the title, and the background.
fn push_opening(ink: &mut Ink, sheet: Sheet<'_>) {
    let width = width(sheet.chart);
    let foot = foot_lines(sheet.foot).saturating_mul(16).saturating_add(46);
    let height = y(sheet.chart.turns.len()).saturating_add(foot);
    let _ = write!(
        ink,
        "<svg xmlns=\"http://www.w3.org/2000/svg\" width=\"{width}\" height=\"{height}\" viewBox=\"0 0 {width} {height}\">\n<title>"
    );
    push_title(ink, sheet.title);
    ink.put("</title>\n");
    ink.put(STYLE);
    push_heads(ink);
    ink.put(
        "<rect class=\"paper\" width=\"100%\" height=\"100%\"/>\n<text class=\"title\" x=\"16\" y=\"30\">",
    );
    push_title(ink, sheet.title);
    ink.put("</text>\n")
}

/// What a cross means.
fn cross_word(rows: Rows<'_>) -> &'static str {
    match rows {
        Rows::Steps(_) => "refused",
        Rows::Lines(_) => "where it broke",
    }
}

/// What the bands and marks mean.
fn push_legend(ink: &mut Ink, sheet: Sheet<'_>) {
    let _ = write!(
        ink,
        "<rect class=\"Branch\" x=\"16\" y=\"46\" width=\"10\" height=\"16\"/><text x=\"32\" y=\"58\">Branch</text><rect class=\"Tip\" x=\"88\" y=\"46\" width=\"10\" height=\"16\"/><text x=\"104\" y=\"58\">Tip of block {}</text>\n",
        sheet.chart.block
    );
    let _ = write!(
        ink,
        "<circle class=\"mark\" cx=\"21\" cy=\"78\" r=\"4\"/><text x=\"32\" y=\"82\">store</text><circle class=\"hollow\" cx=\"93\" cy=\"78\" r=\"4\"/><text x=\"104\" y=\"82\">load</text><path class=\"cross\" d=\"M152 74l8 8m0 -8l-8 8\"/><text x=\"168\" y=\"82\">{}</text>\n",
        cross_word(sheet.rows)
    );
    ink.put(
        "<path class=\"arrow open lE\" d=\"M16 98h36\"/><text x=\"60\" y=\"102\">never taken; b: block</text>\n",
    )
}

/// The name of a lifeline, centered at a point.
fn push_name(ink: &mut Ink, lifeline: Lifeline, x: usize, y: usize) {
    let _ = write!(ink, "<text class=\"head\" x=\"{x}\" y=\"{y}\">");
    push_lifeline(ink, lifeline);
    ink.put("</text>\n")
}

/// A lifeline, with its name at both ends.
fn push_lifeline_of(ink: &mut Ink, chart: &Chart, lifeline: &Lifeline) {
    let x = x(chart, *lifeline);
    let end = y(chart.turns.len());
    let _ = write!(ink, "<path class=\"life\" d=\"M{x} 112V{end}\"/>");
    push_name(ink, *lifeline, x, 104);
    push_name(ink, *lifeline, x, end.saturating_add(16))
}

/// The lifeline of each client, each bank's home, and the memory.
fn push_lifelines(ink: &mut Ink, chart: &Chart) {
    for client in 0..chart.clients {
        push_lifeline_of(ink, chart, &Lifeline::Client(ClientId::new(client)));
    }
    for bank in 0..chart.banks {
        push_lifeline_of(ink, chart, &Lifeline::Home(BankNo::new(bank)));
    }
    push_lifeline_of(ink, chart, &Lifeline::Memory)
}

/// A row's stripe and its number, and the place of its words.
fn push_row(ink: &mut Ink, chart: &Chart, row: usize, number: u64) {
    let top = y(row).saturating_sub(ROW / 2);
    if row % 2 == 0 {
        let width = width(chart);
        let _ = write!(
            ink,
            "<rect class=\"stripe\" y=\"{top}\" width=\"{width}\" height=\"{ROW}\"/>"
        );
    }
    let base = y(row).saturating_add(4);
    let _ = write!(
        ink,
        "<text class=\"quiet end\" x=\"38\" y=\"{base}\">{number}</text><text x=\"48\" y=\"{base}\">"
    );
}

fn push_steps(ink: &mut Ink, chart: &Chart, steps: &[Step]) {
    for (row, step) in steps.iter().enumerate() {
        push_row(ink, chart, row, row as u64);
        push_step(ink, step);
        ink.put("</text>\n");
    }
}

fn push_numbered(ink: &mut Ink, chart: &Chart, lines: &[Line]) {
    for (row, line) in lines.iter().enumerate() {
        push_row(ink, chart, row, line.number);
        ink.put(&line.text);
        ink.put("</text>\n");
    }
}

fn push_rows(ink: &mut Ink, sheet: Sheet<'_>) {
    match sheet.rows {
        Rows::Steps(steps) => push_steps(ink, sheet.chart, steps),
        Rows::Lines(lines) => push_numbered(ink, sheet.chart, lines),
    }
}

/// A band from a change to the client's next.
fn push_band(ink: &mut Ink, chart: &Chart, change: Change) {
    if change.perm == Perm::None {
        return;
    }
    let left = x(chart, change.client).saturating_sub(5);
    let top = y(change.row);
    let height = y(until(chart, change)).saturating_sub(top);
    let _ = write!(
        ink,
        "<rect class=\"{:?}\" x=\"{left}\" y=\"{top}\" width=\"10\" height=\"{height}\"/>\n",
        change.perm
    );
}

fn push_bands(ink: &mut Ink, chart: &Chart) {
    for change in &chart.changes {
        push_band(ink, chart, *change);
    }
}

/// Where an arrow leaves one lifeline and reaches another.
fn ends(from: usize, to: usize) -> (usize, usize) {
    if from < to {
        (from.saturating_add(REACH), to.saturating_sub(REACH))
    } else {
        (from.saturating_sub(REACH), to.saturating_add(REACH))
    }
}

/// The line of a message that nobody took: dashed, with a ring before its receiver.
fn push_open(ink: &mut Ink, channel: Channel, from: usize, to: usize, start: usize) {
    let (_, before) = ends(from, ends(from, to).1);
    let end = start.saturating_add(ROW / 2);
    let _ = write!(
        ink,
        "<path class=\"arrow open l{channel}\" d=\"M{from} {start}L{before} {end}\"/><circle class=\"arrow l{channel}\" cx=\"{before}\" cy=\"{end}\" r=\"3\"/>\n"
    );
}

/// The line of a message.
fn push_line(ink: &mut Ink, chart: &Chart, arrow: &Arrow) {
    let channel = arrow.message.kind.channel();
    let (from, to) = ends(x(chart, arrow.message.from), x(chart, arrow.message.to));
    let start = y_sent(arrow.sent);
    match arrow.taken {
        Some(row) => {
            let end = y_taken(row);
            let _ = write!(
                ink,
                "<path class=\"arrow l{channel}\" d=\"M{from} {start}L{to} {end}\" marker-end=\"url(#head{channel})\"/>\n"
            );
        }
        None => push_open(ink, channel, from, to, start),
    }
}

fn push_lines(ink: &mut Ink, chart: &Chart) {
    for arrow in &chart.arrows {
        push_line(ink, chart, arrow);
    }
}

/// The words of a message, beside its sender.
fn push_label(ink: &mut Ink, chart: &Chart, arrow: &Arrow) {
    let channel = arrow.message.kind.channel();
    let from = x(chart, arrow.message.from);
    let base = y(arrow.sent).saturating_add(4);
    if from < x(chart, arrow.message.to) {
        let left = from.saturating_add(BESIDE);
        let _ = write!(
            ink,
            "<text class=\"halo f{channel}\" x=\"{left}\" y=\"{base}\">"
        );
    } else {
        let right = from.saturating_sub(BESIDE);
        let _ = write!(
            ink,
            "<text class=\"halo end f{channel}\" x=\"{right}\" y=\"{base}\">"
        );
    }
    push_message(ink, &arrow.message);
    ink.put("</text>\n")
}

fn push_labels(ink: &mut Ink, chart: &Chart) {
    for arrow in &chart.arrows {
        push_label(ink, chart, arrow);
    }
}

/// The shape of a mark in the middle of its row.
fn push_shape(ink: &mut Ink, mark: &Mark, x: usize, y: usize) {
    match mark {
        Mark::Loaded(_) => {
            let _ = write!(
                ink,
                "<circle class=\"hollow\" cx=\"{x}\" cy=\"{y}\" r=\"4\"/>"
            );
        }
        Mark::Stored(_) => {
            let _ = write!(
                ink,
                "<circle class=\"mark\" cx=\"{x}\" cy=\"{y}\" r=\"4\"/>"
            );
        }
        Mark::Dropped | Mark::Evicting(_) => {
            let _ = write!(ink, "<path class=\"mark\" d=\"M{x} {y}m-4 -4h8v8h-8z\"/>");
        }
        Mark::Refused(_) | Mark::Unlawful | Mark::Broken(_) => {
            let _ = write!(
                ink,
                "<path class=\"cross\" d=\"M{x} {y}m-4 -4l8 8m0 -8l-8 8\"/>"
            );
        }
    }
}

/// The colour of a mark's words.
fn class_of(mark: &Mark) -> &'static str {
    match mark {
        Mark::Refused(_) | Mark::Unlawful | Mark::Broken(_) => "halo bad",
        _ => "halo",
    }
}

/// The beginning of words beside a lifeline: to its right, or for the memory, which is the last, to its left.
fn push_beside(ink: &mut Ink, class: &str, chart: &Chart, at: &Lifeline, base: usize) {
    let x = x(chart, *at);
    if *at == Lifeline::Memory {
        let right = x.saturating_sub(BESIDE);
        let _ = write!(
            ink,
            "<text class=\"{class} end\" x=\"{right}\" y=\"{base}\">"
        );
    } else {
        let left = x.saturating_add(BESIDE);
        let _ = write!(ink, "<text class=\"{class}\" x=\"{left}\" y=\"{base}\">");
    }
}

/// Words in lines that have room beside a lifeline, from the middle of a row on: above it a message may arrive.
fn push_folded(ink: &mut Ink, class: &str, chart: &Chart, at: &Lifeline, y: usize, words: &str) {
    let mut base = y.saturating_add(4);
    let mut column: usize = 0;
    push_beside(ink, class, chart, at, base);
    for word in words.split(' ') {
        if column > 0 && column.saturating_add(word.len()) >= LETTERS {
            base = base.saturating_add(13);
            column = 0;
            ink.put("</text>\n");
            push_beside(ink, class, chart, at, base);
        }
        if column > 0 {
            ink.put(" ");
        }
        ink.put(word);
        column = column.saturating_add(word.len()).saturating_add(1);
    }
    ink.put("</text>\n")
}

/// Words in one line beside a lifeline: those of a mark.
fn push_words(ink: &mut Ink, class: &str, chart: &Chart, at: &Lifeline, y: usize, mark: &Mark) {
    push_beside(ink, class, chart, at, y.saturating_add(4));
    push_mark(ink, mark);
    ink.put("</text>\n")
}

/// A mark with its words.
fn push_mark_of(ink: &mut Ink, chart: &Chart, row: usize, at: &Lifeline, mark: &Mark) {
    let (x, y) = (x(chart, *at), y(row));
    push_shape(ink, mark, x, y);
    let class = class_of(mark);
    match mark {
        Mark::Broken(words) => push_folded(ink, class, chart, at, y, words.as_str()),
        _ => push_words(ink, class, chart, at, y, mark),
    }
}

/// The mark of each step; a dot where it has none.
fn push_marks(ink: &mut Ink, chart: &Chart) {
    for (row, turn) in chart.turns.iter().enumerate() {
        match &turn.mark {
            Some(mark) => push_mark_of(ink, chart, row, &turn.at, mark),
            None => {
                let (x, y) = (x(chart, turn.at), y(row));
                let _ = write!(
                    ink,
                    "<circle class=\"dot\" cx=\"{x}\" cy=\"{y}\" r=\"2\"/>\n"
                );
            }
        }
    }
}

/// The beginning of a line at the foot.
fn push_foot(ink: &mut Ink, chart: &Chart, line: usize) {
    let base = y(chart.turns.len())
        .saturating_add(line.saturating_mul(16))
        .saturating_add(44);
    let _ = write!(ink, "<text x=\"16\" y=\"{base}\">");
}

/// The lines of a text, from a line of the foot on; the line after them.
fn push_lines_below(ink: &mut Ink, chart: &Chart, first: usize, text: &str) -> usize {
    let mut line = first;
    for words in text.lines() {
        push_foot(ink, chart, line);
        ink.put(words);
        ink.put("</text>\n");
        line = line.saturating_add(1);
    }
    line
}

/// What stands at the foot.
fn push_feet(ink: &mut Ink, sheet: Sheet<'_>) {
    let mut line = 0;
    for text in sheet.foot {
        line = push_lines_below(ink, sheet.chart, line, text.as_str());
    }
}

/// The whole document: what lies below is written first.
pub(crate) fn push_picture(ink: &mut Ink, sheet: Sheet<'_>) {
    push_opening(ink, sheet);
    push_rows(ink, sheet);
    push_legend(ink, sheet);
    push_lifelines(ink, sheet.chart);
    push_bands(ink, sheet.chart);
    push_lines(ink, sheet.chart);
    push_marks(ink, sheet.chart);
    push_labels(ink, sheet.chart);
    push_feet(ink, sheet);
    ink.put("</svg>\n")
}
