//! Small records of messages, some of them damaged: a race of two clients for one block, and what one client does at
//! its pins.
use std::alloc::{AllocError, Global};
use tl_rules::Shape;
use tl_types::{
    AccessBytes, BlockBytes, BlockNo, ClientId, DirtyPrune, GrantCap, Grow, Kind, ProbeCap,
    ProbeReport, Prune,
};
use tlcheck_rules::Shown;
use tlwire_pins::Cores;
use tlwire_search::Seen;

/// What is wrong with a record.
#[derive(Clone, Copy, Debug, PartialEq, Eq)]
pub(crate) enum Damage {
    Nothing,
    GrantsOldBytes,
    GrantsTip,
    LoadsOldBytes,
}

/// A message of block 0 with eight times a byte, if it has some.
fn shown(kind: Kind, byte: Option<u8>) -> Shown {
    let bytes = match byte {
        Some(byte) => BlockBytes::from_slice(&[byte; 8]),
        None => None,
    };
    Shown { kind, bytes }
}

/// A message of block 0 on a client's link, with eight times a byte, if it has some.
fn on_link(client: u32, kind: Kind, byte: Option<u8>) -> Seen {
    Seen::OnLink(ClientId::new(client), BlockNo::new(0), shown(kind, byte))
}

fn on_memory(kind: Kind, byte: Option<u8>) -> Seen {
    Seen::OnMemory(BlockNo::new(0), shown(kind, byte))
}

fn word(byte: u8) -> AccessBytes {
    match AccessBytes::from_slice(&[byte; 8]) {
        Some(word) => word,
        None => AccessBytes::new(),
    }
}

/// The Grant to the second client.
fn grant(damage: Damage) -> Seen {
    match damage {
        Damage::GrantsOldBytes => on_link(1, Kind::GrantData(GrantCap::ToB), Some(0)),
        Damage::GrantsTip => on_link(1, Kind::GrantData(GrantCap::ToT), Some(7)),
        _ => on_link(1, Kind::GrantData(GrantCap::ToB), Some(7)),
    }
}

/// A line of the race: a client takes a block and stores to it; another one wants to read it, so the first is probed.
fn race_line(number: usize, damage: Damage) -> Seen {
    match number {
        0 => on_link(0, Kind::AcquireBlock(Grow::NtoT), None),
        1 => on_memory(Kind::Get, None),
        2 => on_memory(Kind::AccessAckData, Some(0)),
        3 => on_link(0, Kind::GrantData(GrantCap::ToT), Some(0)),
        4 => on_link(0, Kind::GrantAck, None),
        5 => Seen::Store(ClientId::new(0), 0, word(7)),
        6 => on_link(1, Kind::AcquireBlock(Grow::NtoB), None),
        7 => on_link(0, Kind::ProbeBlock(ProbeCap::ToB), None),
        8 => on_link(0, Kind::ProbeAckData(DirtyPrune::TtoB), Some(7)),
        9 => grant(damage),
        10 => on_link(1, Kind::GrantAck, None),
        _ if damage == Damage::LoadsOldBytes => Seen::Load(ClientId::new(1), 0, word(0)),
        _ => Seen::Load(ClientId::new(1), 0, word(7)),
    }
}

/// Two clients and one block.
pub(crate) const RACE: Shape = Shape {
    clients: 2,
    block_bytes: 8,
    blocks: 1,
};

/// The lines of the race with these numbers.
pub(crate) fn race(
    alloc: Global,
    damage: Damage,
    order: &[usize],
) -> Result<Vec<Seen>, AllocError> {
    let mut seen = Vec::new(alloc);
    for number in order {
        seen.push(race_line(*number, damage))?;
    }
    Ok(seen)
}

/// The lines of a whole race, in order.
pub(crate) const IN_ORDER: &[usize] = &[0, 1, 2, 3, 4, 5, 6, 7, 8, 9, 10, 11];

/// Lines of which none is a load or a store.
pub(crate) const WITHOUT_CORES: &[usize] = &[0, 1, 2, 3, 4, 6, 7, 8, 9, 10];

/// The second client has its Grant before the first is probed.
pub(crate) const GRANTED_BEFORE: &[usize] = &[0, 1, 2, 3, 4, 5, 6, 9, 10, 7, 8, 11];

/// The first client's Grant stands two lines behind its GrantAck.
pub(crate) const GRANT_BEHIND: &[usize] = &[0, 1, 2, 4, 5, 3, 6, 7, 8, 9, 10, 11];

/// One client and one block.
pub(crate) const PINS: Shape = Shape {
    clients: 1,
    block_bytes: 8,
    blocks: 1,
};

/// A line at the client's pins, by its number.
fn pins_line(number: usize) -> Seen {
    match number {
        0 => on_link(0, Kind::AcquireBlock(Grow::NtoT), None),
        1 => on_link(0, Kind::GrantData(GrantCap::ToT), Some(0)),
        2 => on_link(0, Kind::ReleaseData(DirtyPrune::TtoN), Some(7)),
        3 => on_link(0, Kind::ReleaseAck, None),
        4 => on_link(0, Kind::Release(Prune::TtoN), None),
        5 => on_link(0, Kind::ProbeAck(ProbeReport::NtoN), None),
        6 => on_link(0, Kind::AcquireBlock(Grow::NtoB), None),
        _ => on_link(0, Kind::ProbeAck(ProbeReport::BtoN), None),
    }
}

/// The lines at the client's pins with these numbers.
pub(crate) fn at_pins(alloc: Global, numbers: &[usize]) -> Result<Vec<Seen>, AllocError> {
    let mut seen = Vec::new(alloc);
    for number in numbers {
        seen.push(pins_line(*number))?;
    }
    Ok(seen)
}

/// Lines, and whether somebody watched the core: a store is shown that nobody saw; a copy is given up as it came; a
/// ProbeAck and an Acquire stand between a Release and its ReleaseAck; a client gives up what it has not.
pub(crate) const AT_PINS: &[(&[usize], Cores)] = &[
    (&[0, 1, 2, 3], Cores::Watched),
    (&[0, 1, 2, 3], Cores::Unseen),
    (&[0, 1, 4, 3], Cores::Watched),
    (&[0, 1, 4, 3], Cores::Unseen),
    (&[0, 1, 2, 5, 3], Cores::Unseen),
    (&[0, 1, 4, 6, 3], Cores::Unseen),
    (&[0, 1, 2, 3, 7], Cores::Unseen),
    (&[7], Cores::Unseen),
];
