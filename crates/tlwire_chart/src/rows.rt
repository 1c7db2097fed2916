//! The rows of a chart: the last lines of a block, and the one that is impossible.
ghost use Rattle.std.specs.List.{All};
ghost use Rattle.std.specs.Option.{option_map};
ghost use Rattle.std.specs.Prelude.{◌≡◌, ◌<◌, IfOk, MatchOption, None, Some, false, map, slice_get, string_bytes};
ghost use Rattle.tlchart_draw.specs.Strip.{IsUnbroken, is_broken};
ghost use Rattle.tlwire_answer.specs.Lines.{number_at};
ghost use Rattle.tlwire_chart.specs.Rows.{IsStripOf, mark_of, mark_seen, message_drawn, message_of, message_seen, places_of, told_at, told_by};

use crate::message::{mark_of, message_of, sender_of};
use std::alloc::{AllocError, Global};
use tl_rules::Shape;
use tl_types::{BankNo, BlockNo};
use tlchart_draw::{LINES_BEFORE, Line, Row, Strip, broken_row, line_beside};
use tlchart_model::{Lifeline, Place, Turn};
use tlwire_record::Messages;
use tlwire_search::{Seen, block_of};

/// The places of what was seen of a block. The error is want of memory.
fn places_of(
    alloc: Global,
    shape: Shape,
    seen: &[Seen],
    block: u32,
) -> Result<Vec<usize>, AllocError>
    requires { 0 < shape.block_bytes }
    ensures { IfOk result (λ places. places.items ≡ places_of shape.block_bytes block 0 seen.now) }
{
    let mut places = Vec::new(alloc);
    for (place, one) in seen.iter().enumerate() {
        if block_of(shape, one) == block {
            places.push(place)?;
        }
    }
    Ok(places)
}

/// The number of the line of what was seen at a place.
fn number_at(messages: &Messages, place: usize) -> u64
    ensures { result ≡ number_at messages.now.lines place }
{
    match messages.lines().get(place) {
        Some(number) => *number,
        None => 0,
    }
}

/// The text of the line with a number, from 1 on.
fn text_at<'a>(lines: &[&'a [u8]], number: u64) -> &'a str {
    let Some(place) = number.checked_sub(1) else {
        return "";
    };
    match lines.get(place as usize) {
        Some(line) => std::str::from_utf8(line).unwrap_or(""),
        None => "",
    }
}

/// The line of what was seen at a place, as it is drawn.
fn line_at(
    alloc: Global,
    lines: &[&[u8]],
    messages: &Messages,
    place: usize,
) -> Result<Line, AllocError>
    ensures { IfOk result (λ line. line.number ≡ number_at messages.now.lines place) }
{
    let number = number_at(messages, place);
    line_beside(alloc, number, text_at(lines, number))
}

/// What a line did, which takes the message of the line before it. A serial tells its message from others.
fn turn_of(seen: &Seen, serial: u64, takes: Option<Place>) -> Turn
    ensures message { option_map message_drawn result.sends ≡ message_of seen.now }
    ensures mark { result.mark ≡ mark_of seen.now }
    ensures unbroken { is_broken result.mark ≡ false }
{
    Turn {
        at: sender_of(seen),
        sends: message_of(seen, serial),
        takes,
        mark: mark_of(seen),
    }
}

/// What nothing did.
fn no_turn(takes: Option<Place>) -> Turn
    ensures sends { result.sends ≡ None }
    ensures mark { result.mark ≡ None }
{
    Turn {
        at: Lifeline::Home(BankNo::new(0)),
        sends: None,
        takes,
        mark: None,
    }
}

/// What was done at a place: nothing, where nothing was seen.
fn turn_at(messages: &Messages, place: usize, takes: Option<Place>) -> Turn
    ensures message { option_map message_drawn result.sends
        ≡ message_seen (slice_get messages.now.seen place) }
    ensures mark { result.mark ≡ mark_seen (slice_get messages.now.seen place) }
    ensures unbroken { is_broken result.mark ≡ false }
{
    match messages.seen().get(place) {
        Some(seen) => turn_of(seen, place as u64, takes),
        None => no_turn(takes),
    }
}

/// The row of what was seen at a place.
fn row_at(
    alloc: Global,
    lines: &[&[u8]],
    messages: &Messages,
    place: usize,
    takes: Option<Place>,
) -> Result<Row, AllocError>
    ensures told { IfOk result (λ row. told_by row ≡ told_at messages.now place) }
    ensures number { IfOk result (λ row. row.line.number ≡ number_at messages.now.lines place) }
    ensures unbroken { IfOk result IsUnbroken }
{
    let line = line_at(alloc, lines, messages, place)?;
    let turn = turn_at(messages, place, takes);
    Ok(Row { line, turn })
}

/// Where the message of a row waits.
fn place_sent(row: &Row) -> Option<Place> {
    match &row.turn.sends {
        Some(message) => Some(message.place),
        None => None,
    }
}

/// Where the message of the last row waits.
fn last_sent(rows: &[Row]) -> Option<Place> {
    match rows.last() {
        Some(row) => place_sent(row),
        None => None,
    }
}

/// The rows of what was seen at some places: the message of each arrives before the next.
fn rows_of(
    alloc: Global,
    lines: &[&[u8]],
    messages: &Messages,
    places: &[usize],
) -> Result<Vec<Row>, AllocError>
    ensures told { IfOk result (λ rows. map told_by rows.items ≡ map (told_at messages.now) places.now) }
    ensures numbered { IfOk result
        (λ rows. map (λ row. row.line.number) rows.items ≡ map (number_at messages.now.lines) places.now) }
    ensures unbroken { IfOk result (λ rows. All IsUnbroken rows.items) }
{
    let mut rows = Vec::new(alloc);
    let mut takes = None;
    for place in places {
        let row = row_at(alloc, lines, messages, *place, takes)?;
        takes = place_sent(&row);
        rows.push(row)?;
    }
    Ok(rows)
}

/// The strip of what was seen at a place, with these words.
fn strip_at(
    alloc: Global,
    lines: &[&[u8]],
    messages: &Messages,
    place: usize,
    seen: &Seen,
    words: String,
) -> Result<Strip, AllocError>
    requires { slice_get messages.now.seen place ≡ Some seen.now }
    ensures { IfOk result (IsStripOf messages.now place (string_bytes words)) }
{
    let shape = messages.setting().shape();
    let block = block_of(shape, seen);
    let places = places_of(alloc, shape, &messages.seen()[..place], block)?;
    let (_, shown) = places.split_at(places.len().saturating_sub(LINES_BEFORE));
    let mut rows = rows_of(alloc, lines, messages, shown)?;
    let line = line_at(alloc, lines, messages, place)?;
    let takes = last_sent(&rows);
    rows.push(broken_row(line, sender_of(seen), takes, words))?;
    Ok(Strip {
        clients: shape.clients,
        block: BlockNo::new(block),
        held: Vec::new(alloc),
        rows,
    })
}

/// The last lines of the block of what was seen at a place, up to its line, which is marked with these words; None
/// where nothing was seen there. The lines are those of the record. The error is want of memory.
pub fn strip_of(
    alloc: Global,
    lines: &[&[u8]],
    messages: &Messages,
    place: usize,
    words: String,
) -> Result<Option<Strip>, AllocError>
    ensures { IfOk result
        (λ found. MatchOption found (slice_get messages.now.seen place ≡ None)
        (IsStripOf messages.now place (string_bytes words))) }
{
    match messages.seen().get(place) {
        Some(seen) => Ok(Some(strip_at(alloc, lines, messages, place, seen, words)?)),
        None => Ok(None),
    }
}
