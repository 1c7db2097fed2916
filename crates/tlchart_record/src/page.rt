//! From the bytes of a record to its page.

use crate::film::{RecordFilm, film_entries};
use crate::json::{Sheet, push_data};
use crate::window::{WindowFault, blocks_of, window_of};
use std::alloc::{AllocError, Global};
use tlchart_draw::Ink;
use tlchart_model::chart_of_turns;
use tlchart_page::{push_head, push_tail};
use tlcheck_reader::{CheckFault, Ending, Outcome, check};

/// As many entries a page shows: the last ones, up to the verdict.
const MOST: u64 = 4096;

/// How many entries of a record stand up to its verdict, with the one that is not permitted.
fn counted(outcome: &Outcome) -> Option<u64> {
    match outcome {
        Outcome::Lawful(_, count) => Some(*count),
        Outcome::Broken(_, broken) => Some(broken.number),
        Outcome::Unreadable(_, _) | Outcome::Empty => None,
    }
}

fn fault(fault: WindowFault) -> Ending {
    match fault {
        WindowFault::Memory => Ending::Memory,
        WindowFault::Line => Ending::File,
    }
}

/// The page of a record that was checked.
fn paged(
    alloc: Global,
    bytes: &[u8],
    title: &str,
    verdict: &str,
    count: u64,
) -> Result<String, WindowFault> {
    let before = count.saturating_sub(MOST);
    let mut window = window_of(alloc, bytes, before, count)?;
    let shape = window.judge.plain().shape();
    let blocks = blocks_of(alloc, shape, &window.entries)?;
    let film = film_entries(
        alloc,
        &mut window.judge,
        &mut window.serials,
        &window.entries,
        &blocks,
    )?;
    let RecordFilm {
        start,
        turns,
        changes,
    } = film;
    let chart = chart_of_turns(alloc, shape.clients, 1, turns, None)?;
    let sheet = Sheet {
        title,
        verdict,
        shape,
        before,
        blocks: &blocks,
        entries: &window.entries,
        start: &start,
        changes: &changes,
        chart: &chart,
    };
    let mut ink = Ink::new(alloc);
    push_head(&mut ink, title);
    push_data(&mut ink, &sheet);
    push_tail(&mut ink);
    Ok(ink.text()?)
}

/// The page that walks through the record that the bytes write, under a title: each entry up to the first that is not
/// permitted, or the last 4,096 of them. The error is what `tlcheck` ends with where the record cannot be read.
pub fn page_record(alloc: Global, bytes: &[u8], title: &str) -> Result<String, Ending> {
    let mut reader = bytes;
    let outcome = match check(alloc, &mut reader) {
        Ok(outcome) => outcome,
        Err(CheckFault::Memory) => return Err(Ending::Memory),
        Err(CheckFault::File) => return Err(Ending::File),
    };
    let Some(count) = counted(&outcome) else {
        return Err(Ending::Judged(outcome));
    };
    let verdict = match format!(in alloc; "{}", Ending::Judged(outcome)) {
        Ok(verdict) => verdict,
        Err(_) => return Err(Ending::Memory),
    };
    paged(alloc, bytes, title, verdict.as_str(), count).map_err(fault)
}
