//! The last lines of a record's block, up to the one that broke, as they are drawn.
ghost use Rattle.std.specs.Prelude.{◌≡◌, IfOk, string_bytes};
ghost use Rattle.tlchart_draw.specs.Strip.{IsBrokenRow};

use crate::foot::folded;
use crate::sheet::{Form, Line, Rows, Sheet, picture_of};
use std::alloc::{AllocError, Global};
use tl_types::{BlockNo, ClientId, Perm};
use tlchart_model::{Change, Chart, Lifeline, Mark, Place, Turn, chart_of_turns};

/// The most lines that are drawn before the one that broke.
pub const LINES_BEFORE: usize = 39;

/// How many letters of a line have room beside the lifelines.
const ROOM: usize = 40;

/// A letter that has no meaning in SVG.
fn is_plain(letter: char) -> bool {
    letter.is_ascii_alphanumeric() || matches!(letter, ' ' | '_' | '-' | '=' | '.')
}

/// The text of a line, as far as there is room for it beside the lifelines.
fn text_beside(alloc: Global, text: &str) -> Result<String, AllocError> {
    let mut shown = String::new(alloc);
    for (count, letter) in text.chars().enumerate() {
        if count == ROOM {
            shown.push('…')?;
            return Ok(shown);
        }
        shown.push(if is_plain(letter) { letter } else { '?' })?;
    }
    Ok(shown)
}

/// A line of a record with its number, as far as there is room for it beside the lifelines. The error is want of
/// memory.
pub fn line_beside(alloc: Global, number: u64, text: &str) -> Result<Line, AllocError>
    ensures { IfOk result (λ line. line.number ≡ number) }
{
    let text = text_beside(alloc, text)?;
    Ok(Line { number, text })
}

/// A line of a record, and what it did.
#[derive(Debug, Drop)]
pub struct Row {
    pub line: Line,
    pub turn: Turn,
}

/// The line that broke, at a lifeline: it sent nothing, and its mark has these words. A message may arrive there.
pub fn broken_row(line: Line, at: Lifeline, takes: Option<Place>, words: String) -> Row
    ensures { IsBrokenRow line.number (string_bytes words) result }
{
    Row {
        line,
        turn: Turn {
            at,
            sends: None,
            takes,
            mark: Some(Mark::Broken(words)),
        },
    }
}

/// The last lines of a block up to the one that broke: the clients and the block, what clients had of it before the
/// first of them, and the lines.
#[derive(Debug, Drop)]
pub struct Strip {
    pub clients: u32,
    pub block: BlockNo,
    pub held: Vec<Perm>,
    pub rows: Vec<Row>,
}

/// Whether a client gains or loses a permission in the first row.
fn changes_first(chart: &Chart, client: Lifeline) -> bool {
    chart
        .changes
        .iter()
        .any(|change| change.row == 0 && change.client == client)
}

/// The lifeline of a client.
fn client_at(number: u32) -> Lifeline {
    Lifeline::Client(ClientId::new(number))
}

/// The permissions that clients had before the first row, where they keep them in it.
fn push_held(chart: &mut Chart, held: &[Perm]) -> Result<(), AllocError> {
    let mut number: u32 = 0;
    for perm in held {
        if *perm != Perm::None && !changes_first(chart, client_at(number)) {
            chart.changes.push(Change {
                row: 0,
                client: client_at(number),
                perm: *perm,
            })?;
        }
        number = number.saturating_add(1);
    }
    Ok(())
}

/// The rows as two lists.
fn unzipped(alloc: Global, rows: Vec<Row>) -> Result<(Vec<Line>, Vec<Turn>), AllocError> {
    let mut lines = Vec::new(alloc);
    let mut turns = Vec::new(alloc);
    for row in rows {
        let Row { line, turn } = row;
        lines.push(line)?;
        turns.push(turn)?;
    }
    Ok((lines, turns))
}

/// The chart of some lines as an SVG document.
fn drawn<'a>(
    alloc: Global,
    title: &'a str,
    lines: &'a [Line],
    chart: &'a Chart,
    foot: &'a [String],
) -> Result<String, AllocError> {
    let sheet = Sheet {
        title,
        rows: Rows::Lines(lines),
        chart,
        foot,
    };
    picture_of(alloc, sheet, Form::Svg)
}

impl Strip {
    /// The picture of the lines under a title, as an SVG document, with what is said of the record at the foot. The
    /// error is want of memory.
    pub fn picture(self, alloc: Global, title: &str, said: &str) -> Result<String, AllocError> {
        let Strip {
            clients,
            block,
            held,
            rows,
        } = self;
        let (lines, turns) = unzipped(alloc, rows)?;
        let mut chart = chart_of_turns(alloc, clients, 1, turns, Some(block))?;
        push_held(&mut chart, &held)?;
        let foot = vec![in alloc; folded(alloc, said, clients)?]?;
        drawn(alloc, title, &lines, &chart, &foot)
    }
}
