//! The rows of a chart: the last entries of a block, and the one that is not permitted.
ghost use Rattle.std.specs.List.{All};
ghost use Rattle.std.specs.Prelude.{◌≡◌, ◌+◌, IfOk, MatchOption, None, Some, false, length, map};
ghost use Rattle.tl_script_words.specs.Words.{texts};
ghost use Rattle.tlchart_draw.specs.Strip.{IsBrokenRow, IsUnbroken, is_broken};
ghost use Rattle.tlcheck_chart.specs.Rows.{IsStripOf, record_head};
ghost use Rattle.tlcheck_record.specs.Reason.{breaks_text};
ghost use Rattle.tlcheck_record.specs.declared.header.Head.{Head};

use crate::entries::{Numbered, entries_of};
use crate::serials::Serials;
use crate::start::judge_of;
use crate::turns::{lifeline_of, turn_of};
use std::alloc::{AllocError, Global};
use tl_rules::{Event, Plain};
use tl_types::{BankNo, BlockNo, ClientId, Perm};
use tlchart_draw::{LINES_BEFORE, Row, Strip, broken_row, line_beside};
use tlchart_model::{Lifeline, Turn};
use tlcheck_reader::BrokenEntry;
use tlcheck_record::{Breaks, LineError, read_entry, read_text};
use tlcheck_rules::{Breach, Entry, Judge, Refusal};

/// What an entry did, which the judge takes where it is permitted.
fn take(judge: &mut Judge, serials: &mut Serials, entry: &Entry) -> Result<Turn, AllocError>
    ensures { IfOk result (λ turn. is_broken turn.mark ≡ false) }
{
    let turn = turn_of(judge, serials, entry)?;
    match judge.step(entry) {
        Ok(()) | Err(Refusal::Broken(_)) => Ok(turn),
        Err(Refusal::Memory) => Err(AllocError),
    }
}

/// Takes entries that are not drawn.
fn pass(judge: &mut Judge, serials: &mut Serials, entries: &[Numbered]) -> Result<(), AllocError> {
    for numbered in entries {
        let _turn = take(judge, serials, &numbered.entry)?;
    }
    Ok(())
}

/// What each client has of a block.
fn held_of(alloc: Global, plain: &Plain, block: BlockNo) -> Result<Vec<Perm>, AllocError> {
    let mut held = Vec::new(alloc);
    for number in 0..plain.shape().clients {
        held.push(plain.perm(ClientId::new(number), block))?;
    }
    Ok(held)
}

/// The text of a line, where it is one.
fn text_of(line: &[u8]) -> &str {
    match read_text(line) {
        Ok(text) => text,
        Err(_) => "",
    }
}

/// The text of the line with a number, from 1 on.
fn text_at<'a>(lines: &[&'a [u8]], number: u64) -> &'a str {
    let Some(place) = number.checked_sub(1) else {
        return "";
    };
    match lines.get(place as usize) {
        Some(line) => text_of(line),
        None => "",
    }
}

/// The rows of entries that the judge takes.
fn rows_of(
    alloc: Global,
    lines: &[&[u8]],
    judge: &mut Judge,
    serials: &mut Serials,
    entries: &[Numbered],
) -> Result<Vec<Row>, AllocError>
    ensures numbered { IfOk result
        (λ rows. map (λ row. row.line.number) rows.items ≡ map (λ numbered. numbered.number) entries.now) }
    ensures unbroken { IfOk result (λ rows. All IsUnbroken rows.items) }
{
    let mut rows = Vec::new(alloc);
    for numbered in entries {
        let line = line_beside(alloc, numbered.number, text_at(lines, numbered.number))?;
        let turn = take(judge, serials, &numbered.entry)?;
        rows.push(Row { line, turn })?;
    }
    Ok(rows)
}

/// Who makes an event; home, where its client is not there.
fn lifeline_in(clients: u32, event: &Event) -> Lifeline {
    match lifeline_of(event) {
        Lifeline::Client(client) if client.number() >= clients => Lifeline::Home(BankNo::new(0)),
        lifeline => lifeline,
    }
}

/// Who makes the entry of a line.
fn lifeline_at(alloc: Global, clients: u32, line: &[u8]) -> Result<Lifeline, AllocError> {
    match read_entry(alloc, text_of(line)) {
        Ok(entry) => Ok(lifeline_in(clients, &entry.event)),
        Err(LineError::Wrong(_)) => Ok(Lifeline::Home(BankNo::new(0))),
        Err(LineError::Memory) => Err(AllocError),
    }
}

/// The row of the entry that is not permitted, on a line with a number.
fn last_row(
    alloc: Global,
    clients: u32,
    number: u64,
    line: &[u8],
    breach: &Breach,
) -> Result<Row, AllocError>
    ensures { IfOk result (IsBrokenRow number (breaks_text breach.now)) }
{
    let at = lifeline_at(alloc, clients, line)?;
    let breaks = Breaks(breach);
    let words = format!(in alloc; "{breaks}")?;
    let line = line_beside(alloc, number, text_of(line))?;
    Ok(broken_row(line, at, None, words))
}

/// The strip of an entry that is not permitted, behind some lines, over a judge at reset.
fn strip_at(
    alloc: Global,
    mut judge: Judge,
    lines: &[&[u8]],
    last: &[u8],
    broken: &BrokenEntry,
) -> Result<Strip, AllocError>
    ensures { IfOk result
        (IsStripOf judge.plain.shape (texts lines.now) broken.now.block broken.now.breach) }
{
    let shape = judge.plain().shape();
    let block = BlockNo::new(broken.block);
    let entries = entries_of(alloc, lines, shape, broken.block)?;
    let (passed, shown) = entries.split_at(entries.len().saturating_sub(LINES_BEFORE));
    let mut serials = Serials::new(alloc);
    pass(&mut judge, &mut serials, passed)?;
    let held = held_of(alloc, judge.plain(), block)?;
    let mut rows = rows_of(alloc, lines, &mut judge, &mut serials, shown)?;
    let number = lines.len() as u64 + 1;
    rows.push(last_row(alloc, shape.clients, number, last, &broken.breach)?)?;
    Ok(Strip {
        clients: shape.clients,
        block,
        held,
        rows,
    })
}

/// The last lines with entries of a block, behind which a line has one that is not permitted, and that line; None where
/// the lines before it write no geometry. The error is want of memory.
pub fn strip_of(
    alloc: Global,
    lines: &[&[u8]],
    last: &[u8],
    broken: &BrokenEntry,
) -> Result<Option<Strip>, AllocError>
    ensures { IfOk result
        (λ found. MatchOption found (record_head (texts lines.now) ≡ None)
        (λ strip. (head : Head) × (record_head (texts lines.now) ≡ Some head)
        × IsStripOf head.shape (texts lines.now) broken.now.block broken.now.breach strip)) }
{
    match judge_of(alloc, lines)? {
        Some(judge) => Ok(Some(strip_at(alloc, judge, lines, last, broken)?)),
        None => Ok(None),
    }
}
