//! Records of events that a bank wrote: judged, and counted by the situations that they reach.

use crate::asked::{Asked, Part};
use crate::numbers::{Digest, Numbers};
use crate::session::{Session, Sizes};
use std::alloc::{AllocError, Global};
use tl_protocol::Event;
use tlcheck_coverage::{Form, Tallies, cover, tell_fault, tell_tables};
use tlcheck_reader::answer;
use tlcheck_record::EventLine;

fn sizes_of(clients: u32, blocks: u32) -> Sizes {
    Sizes {
        clients,
        blocks,
        hot: blocks / 8,
        block_bytes: 16,
        sets: 16,
        ways: 4,
        registers: 8,
        copies: 16,
    }
}

fn push_events(alloc: Global, text: &mut String, events: &[Event]) -> Result<(), AllocError> {
    for event in events {
        let line = format!(in alloc; "{}\n", EventLine(event))?;
        text.push_str(line.as_str())?;
    }
    Ok(())
}

/// The text of a record of what happens in so many steps.
fn record_of(
    alloc: Global,
    seed: u32,
    clients: u32,
    blocks: u32,
    steps: u32,
) -> Result<String, AllocError> {
    let mut text = format!(in alloc; "clients {clients} block_bytes 16 memory_blocks {blocks}\n")?;
    let Some(mut session) = Session::new(alloc, sizes_of(clients, blocks), None) else {
        return Ok(text);
    };
    let mut numbers = Numbers::new(seed);
    for _ in 0..steps {
        session.step(&mut numbers)?;
    }
    push_events(alloc, &mut text, session.log())?;
    Ok(text)
}

fn judge(alloc: Global, part: Part, text: &str, digest: Digest) -> Digest {
    if part == Part::Inputs {
        return digest.with(text.len() as u64);
    }
    let mut output = Vec::new(alloc);
    let mut faults = Vec::new(alloc);
    let mut reader = text.as_bytes();
    let status = answer(alloc, &mut reader, &mut output, &mut faults);
    digest
        .with_status(status)
        .with_bytes(&output)
        .with_bytes(&faults)
}

/// Judges records of 1, 4 and 16 clients and few and many blocks; the last one ends with an event that is not
/// permitted.
pub(crate) fn judge_all(alloc: Global, asked: Asked) -> Result<Digest, AllocError> {
    let mut digest = Digest::new();
    for (clients, blocks) in [(1, 64), (4, 4_096), (16, 256), (16, 65_536), (8, 1_024)] {
        let mut text = record_of(alloc, asked.seed, clients, blocks, asked.size)?;
        if clients == 8 {
            text.push_str("take_data 1023\n")?;
        }
        digest = judge(alloc, asked.part, text.as_str(), digest);
    }
    Ok(digest)
}

/// Counts one record, and digests why it is not counted to its end.
fn count(
    alloc: Global,
    part: Part,
    tallies: &mut Tallies,
    place: usize,
    text: &str,
    digest: Digest,
) -> Digest {
    if part == Part::Inputs {
        return digest.with(text.len() as u64);
    }
    let mut reader = text.as_bytes();
    let mut faults = Vec::new(alloc);
    match cover(alloc, &mut reader, tallies, place) {
        Ok(entries) => digest.with(entries),
        Err(fault) => {
            let status = tell_fault(alloc, "record", fault, &mut faults);
            digest.with_status(status).with_bytes(&faults)
        }
    }
}

/// Counts a record of each number of clients up to a most, and tells the tables.
pub(crate) fn cover_all(alloc: Global, asked: Asked) -> Result<Digest, AllocError> {
    let mut tallies = Tallies::new(alloc);
    let mut names = Vec::new(alloc);
    let mut digest = Digest::new();
    for clients in 1..=asked.size.min(16) {
        let text = record_of(alloc, asked.seed, clients, 64, asked.count)?;
        names.push(format!(in alloc; "record{clients}")?)?;
        let place = clients as usize - 1;
        digest = count(
            alloc,
            asked.part,
            &mut tallies,
            place,
            text.as_str(),
            digest,
        );
    }
    if asked.part == Part::Inputs {
        return Ok(digest);
    }
    let mut output = Vec::new(alloc);
    let mut faults = Vec::new(alloc);
    let status = tell_tables(
        alloc,
        &tallies,
        &names,
        Form::Text,
        &mut output,
        &mut faults,
    );
    Ok(
        digest
            .with_status(status)
            .with_bytes(&output)
            .with_bytes(&faults),
    )
}
