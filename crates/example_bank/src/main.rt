//! How a bank is used as a library: one bank of two clients is driven, call by call, through a race in which a Release
//! crosses a Probe. Each line says what a call answered.
#![tactic(auto)]

use anyhow::Result;
use std::alloc::Global;
use tl_bank::{Action, Bank, Refusal, Share, When};
use tl_map::{Geometry, GeometryNumbers};
use tl_types::{BankNo, BlockNo, ClientId, Grow, Prune, Ticket};

/// Two clients and one bank, over a memory of four blocks of eight bytes.
const NUMBERS: GeometryNumbers = GeometryNumbers {
    version: 2,
    clients: 2,
    banks: 1,
    block_bytes: 8,
    sets: 1,
    ways: 2,
    registers: 2,
    copies: 4,
    memory_blocks: 4,
};

/// What is driven: a bank, and the share of each of its clients.
#[derive(Drop)]
struct Driven {
    bank: Bank,
    first: Share,
    second: Share,
}

/// A fresh bank, whose memory begins with one byte.
fn fresh(alloc: Global) -> Result<Option<Driven>> {
    let geometry = Geometry::new(NUMBERS)?;
    if geometry.banks() == 0 {
        return Ok(None);
    }
    let (bank, mut shares) = Bank::new(alloc, geometry, BankNo::new(0), &[0x11])?;
    let (Some(second), Some(first)) = (shares.pop(), shares.pop()) else {
        return Ok(None);
    };
    Ok(Some(Driven {
        bank,
        first,
        second,
    }))
}

/// Home and the memory serve an Acquire of a block that nobody has, up to its Grant.
fn fetched(bank: &mut Bank, asked: Ticket, block: BlockNo) -> Result<Option<Ticket>, Refusal> {
    bank.accept(asked)?;
    let _get = bank.advance(block)?;
    let _reply = bank.serve_memory(block)?;
    bank.take_memory(block)?;
    granted(bank, block)
}

/// The Grant, where that is what home sends next.
fn granted(bank: &mut Bank, block: BlockNo) -> Result<Option<Ticket>, Refusal> {
    match bank.advance(block)? {
        Action::Grant(grant) => Ok(Some(grant)),
        _ => Ok(None),
    }
}

/// Client 0 gets the block at Tip and stores a byte; the stamp of the store.
fn own(driven: &mut Driven, client: ClientId, block: BlockNo) -> Result<u64, Refusal> {
    let asked = driven.bank.acquire(client, block, Grow::NtoT)?;
    if let Some(grant) = fetched(&mut driven.bank, asked, block)? {
        let acknowledged = driven.bank.take_grant(grant, &mut driven.first)?;
        driven.bank.take_grant_ack(acknowledged)?;
    }
    let when = When { clock: 0, index: 0 };
    driven.bank.store(client, 0, &[0xaa], when)
}

/// Says whether a call was refused, and why.
fn tell<T>(rt: &impl Print, call: &str, answer: &Result<T, Refusal>) -> Result<()> {
    match answer {
        Ok(_) => println!(rt; "{call}: done")?,
        Err(refusal) => println!(rt; "{call}: refused {refusal}")?,
    }
    Ok(())
}

/// Two messages that cross: home's Probe, and client 0's Release.
#[derive(Clone, Copy)]
struct Crossing {
    probe: Ticket,
    given: Ticket,
}

/// Client 1 asks for the block while client 0 gives it up.
fn cross(driven: &mut Driven, block: BlockNo) -> Result<Option<Crossing>, Refusal> {
    let asked = driven.bank.acquire(ClientId::new(1), block, Grow::NtoT)?;
    driven.bank.accept(asked)?;
    let given = driven
        .bank
        .release(ClientId::new(0), block, Prune::TtoN, &mut driven.first)?;
    match driven.bank.advance(block)? {
        Action::Probe(probe) => Ok(Some(Crossing { probe, given })),
        _ => Ok(None),
    }
}

/// Client 0 may not answer the Probe before its ReleaseAck, and home does not take the Release for the answer.
fn wait(rt: &impl Print, driven: &mut Driven, crossing: &Crossing, block: BlockNo) -> Result<()> {
    let early = driven.bank.answer_probe(crossing.probe, &mut driven.first);
    tell(rt, "the Probe is answered before the ReleaseAck", &early)?;
    let answer = driven.bank.take_c(crossing.given)?;
    let waits = driven.bank.advance(block);
    tell(rt, "home goes on with the Release alone", &waits)?;
    if let Some(acknowledged) = answer {
        driven.bank.take_release_ack(acknowledged)?;
    }
    Ok(())
}

/// Client 0 has nothing left, and client 1 gets what the Release brought.
fn pass_on(driven: &mut Driven, crossing: &Crossing, block: BlockNo) -> Result<(), Refusal> {
    let nothing = driven.bank.answer_probe(crossing.probe, &mut driven.first)?;
    let _none = driven.bank.take_c(nothing)?;
    if let Some(grant) = granted(&mut driven.bank, block)? {
        let acknowledged = driven.bank.take_grant(grant, &mut driven.second)?;
        driven.bank.take_grant_ack(acknowledged)?;
    }
    Ok(())
}

/// The race, from the crossing to the Grant.
fn race(rt: &impl Print, driven: &mut Driven, block: BlockNo) -> Result<()> {
    if let Some(crossing) = cross(driven, block)? {
        wait(rt, driven, &crossing, block)?;
        pass_on(driven, &crossing, block)?;
    }
    Ok(())
}

/// What client 1 reads then, and what the bank shows of it.
fn look(rt: &impl Print, driven: &mut Driven, clock: u64) -> Result<()> {
    let when = When { clock, index: 0 };
    let loaded = driven.bank.load(ClientId::new(1), 0, 1, when)?;
    for byte in loaded.bytes.as_slice() {
        println!(rt; "client 1 loads {byte:02x}, stamp {}", loaded.stamp)?;
    }
    let held = driven.bank.held();
    let outstanding = driven.bank.outstanding();
    let events = driven.bank.log().len();
    println!(rt; "held {held} recorded {outstanding}, {events} events")?;
    Ok(())
}

/// Client 0 gets the block and stores, the race is driven, and client 1 looks.
fn drive(rt: &impl Print, driven: &mut Driven) -> Result<()> {
    let block = BlockNo::new(0);
    let stamp = own(driven, ClientId::new(0), block)?;
    println!(rt; "client 0 stores aa, stamp {stamp}")?;
    race(rt, driven, block)?;
    look(rt, driven, stamp)
}

fn main(rt: HostRuntime) -> Result<()> {
    match fresh(rt.alloc())? {
        Some(mut driven) => drive(&rt, &mut driven),
        None => Ok(()),
    }
}
