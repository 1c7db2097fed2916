//! Scripts for `tlcache run`, in which what each client is answered does not depend on who comes first.

use crate::numbers::Numbers;
use std::alloc::{AllocError, Global};

/// What the clients of a script do. Where a script reads back, loads also come where the same client has stored, and
/// where nobody stores lies an image.
#[derive(Clone, Copy, PartialEq, Eq)]
pub(crate) enum Kind {
    /// Loads and stores in blocks of their own, which all fit.
    Hits,
    /// Loads of blocks that all read.
    Readers,
    /// Stores to four blocks. To read back, each client has four bytes of its own in each of them.
    Contention,
    /// Loads of blocks that all read, few often, more than the ways hold, and stores to blocks of their own.
    Mixed,
    /// A walk over more blocks of their own than the ways hold, of which each second one is stored to. To read back, a
    /// second lap loads these and stores to the others.
    Streams,
}

const KINDS: &[Kind] = &[
    Kind::Hits,
    Kind::Readers,
    Kind::Contention,
    Kind::Mixed,
    Kind::Streams,
];

const BLOCK_BYTES: u32 = 64;

const BLOCKS: u32 = 4_096;

/// A script's numbers.
#[derive(Clone, Copy)]
pub(crate) struct Plan {
    pub(crate) kind: Kind,
    pub(crate) reads_back: bool,
    pub(crate) clients: u32,
    pub(crate) banks: u32,
    pub(crate) commands: u32,
}

/// The plan at a place of a list without end: each kind with few and many clients, banks and commands.
pub(crate) fn plan_at(place: u32, reads_back: bool) -> Plan {
    let (clients, banks, commands) = match place / 5 % 6 {
        0 => (1, 1, 1_024),
        1 => (2, 2, 512),
        2 => (4, 1, 512),
        3 => (2, 4, 2_048),
        4 => (8, 2, 64),
        _ => (16, 4, 128),
    };
    let kind = match KINDS.get(place as usize % 5) {
        Some(kind) => *kind,
        None => Kind::Hits,
    };
    Plan {
        kind,
        reads_back,
        clients,
        banks,
        commands,
    }
}

impl Plan {
    /// Whether what the banks show at the end does not depend on who comes first: all fits, and no client takes a copy
    /// from another.
    pub(crate) fn has_fixed_banks(self) -> bool {
        match self.kind {
            Kind::Hits | Kind::Readers => true,
            Kind::Contention | Kind::Mixed | Kind::Streams => false,
        }
    }

    /// How many of the first blocks have an image's bytes.
    fn image_blocks(self) -> u32 {
        match self.kind {
            _ if !self.reads_back => 0,
            Kind::Mixed => 256,
            Kind::Hits | Kind::Readers | Kind::Contention | Kind::Streams => 16,
        }
    }
}

/// The address of a word of eight bytes in a block: any.
fn any_word(block: u32, numbers: &mut Numbers) -> u32 {
    block
        .wrapping_mul(BLOCK_BYTES)
        .wrapping_add(numbers.below(8).wrapping_mul(8))
}

/// The address of a word of eight bytes in a block: the same at each time.
fn one_word(block: u32) -> u32 {
    block
        .wrapping_mul(BLOCK_BYTES)
        .wrapping_add((block % 8).wrapping_mul(8))
}

fn push_load(text: &mut String, address: u32) -> Result<(), AllocError> {
    write!(text, "load 0x{address:x} 8")
}

fn push_store(text: &mut String, address: u32, numbers: &mut Numbers) -> Result<(), AllocError> {
    let value = numbers.next();
    write!(text, "store 0x{address:x} {value:016x}")
}

/// A block, few of them often.
fn often(numbers: &mut Numbers, blocks: u32) -> u32 {
    let most = numbers.below(blocks.max(1)).wrapping_add(1);
    let fewer = numbers.below(most.max(1)).wrapping_add(1);
    numbers.below(fewer.max(1))
}

fn push_hit(text: &mut String, client: u32, numbers: &mut Numbers) -> Result<(), AllocError> {
    let block = client.wrapping_mul(64).wrapping_add(numbers.below(16));
    let stores = numbers.below(5) == 0;
    let address = any_word(block, numbers);
    if stores {
        push_store(text, address, numbers)
    } else {
        push_load(text, address)
    }
}

/// A store to one of four blocks that all store to.
fn push_contention(text: &mut String, numbers: &mut Numbers) -> Result<(), AllocError> {
    let block = numbers.below(4);
    let address = any_word(block, numbers);
    push_store(text, address, numbers)
}

/// A store to the client's own bytes of one of four blocks, or a load of them.
fn push_own_bytes(text: &mut String, client: u32, numbers: &mut Numbers) -> Result<(), AllocError> {
    let first = numbers.below(4).wrapping_mul(BLOCK_BYTES);
    let address = first.wrapping_add(client.wrapping_mul(4));
    if numbers.below(4) == 0 {
        return write!(text, "load 0x{address:x} 4");
    }
    let value = numbers.next() & 0xffff_ffff;
    write!(text, "store 0x{address:x} {value:08x}")
}

/// A load of one of the blocks that all read, or a store to one of the client's own.
fn push_mixed(text: &mut String, client: u32, numbers: &mut Numbers) -> Result<(), AllocError> {
    if numbers.below(5) == 0 {
        let block = client.wrapping_mul(64).wrapping_add(numbers.below(64));
        let address = any_word(block, numbers);
        return push_store(text, address, numbers);
    }
    let block = often(numbers, 2_048).wrapping_add(1_024);
    let address = any_word(block, numbers);
    push_load(text, address)
}

/// A load of one of the blocks that all read, a store to one of the client's own, or a load of one of these at the word
/// to which it stores.
fn push_mixed_back(
    text: &mut String,
    client: u32,
    numbers: &mut Numbers,
) -> Result<(), AllocError> {
    let choice = numbers.below(5);
    if choice > 1 {
        let block = often(numbers, 2_048);
        let address = any_word(block, numbers);
        return push_load(text, address);
    }
    let own = client.wrapping_mul(64).wrapping_add(2_048);
    let address = one_word(own.wrapping_add(numbers.below(64)));
    if choice == 0 {
        push_store(text, address, numbers)
    } else {
        push_load(text, address)
    }
}

/// A store to an even one of the client's blocks, or a load of an odd one.
fn push_streamed(
    text: &mut String,
    client: u32,
    index: u32,
    numbers: &mut Numbers,
) -> Result<(), AllocError> {
    let block = client.wrapping_mul(256).wrapping_add(index % 256);
    let address = any_word(block, numbers);
    if index & 1 == 0 {
        push_store(text, address, numbers)
    } else {
        push_load(text, address)
    }
}

/// A store to one of the client's blocks, or a load of one, in laps: each second lap stores to the odd blocks and loads
/// the even ones, the others the reverse.
fn push_lap(
    text: &mut String,
    plan: Plan,
    client: u32,
    index: u32,
    numbers: &mut Numbers,
) -> Result<(), AllocError> {
    let blocks = (plan.commands / 2).min(256).max(1);
    let (lap, place) = (index / blocks, index % blocks);
    let address = one_word(client.wrapping_mul(256).wrapping_add(place));
    if lap.wrapping_add(place) & 1 == 0 {
        push_store(text, address, numbers)
    } else {
        push_load(text, address)
    }
}

/// One command of a client.
fn push_command(
    text: &mut String,
    plan: Plan,
    client: u32,
    index: u32,
    numbers: &mut Numbers,
) -> Result<(), AllocError> {
    match (plan.kind, plan.reads_back) {
        (Kind::Hits, _) => push_hit(text, client, numbers),
        (Kind::Readers, _) => {
            let block = numbers.below(16);
            let address = any_word(block, numbers);
            push_load(text, address)
        }
        (Kind::Contention, false) => push_contention(text, numbers),
        (Kind::Contention, true) => push_own_bytes(text, client, numbers),
        (Kind::Mixed, false) => push_mixed(text, client, numbers),
        (Kind::Mixed, true) => push_mixed_back(text, client, numbers),
        (Kind::Streams, false) => push_streamed(text, client, index, numbers),
        (Kind::Streams, true) => push_lap(text, plan, client, index, numbers),
    }
}

fn push_client(
    text: &mut String,
    plan: Plan,
    client: u32,
    numbers: &mut Numbers,
) -> Result<(), AllocError> {
    text.push_str("    [")?;
    for index in 0..plan.commands {
        text.push_str(if index == 0 { "\"" } else { ", \"" })?;
        push_command(text, plan, client, index, numbers)?;
        text.push_str("\"")?;
    }
    text.push_str("],\n")
}

/// The bytes of so many of the first blocks, where there are any.
fn push_image(text: &mut String, blocks: u32, numbers: &mut Numbers) -> Result<(), AllocError> {
    if blocks == 0 {
        return Ok(());
    }
    text.push_str("image = \"")?;
    for _ in 0..blocks.wrapping_mul(BLOCK_BYTES / 8) {
        let word = numbers.next();
        write!(text, "{word:016x}")?;
    }
    text.push_str("\"\n")
}

/// The script of a plan.
pub(crate) fn script_of(
    alloc: Global,
    plan: Plan,
    numbers: &mut Numbers,
) -> Result<String, AllocError> {
    let (clients, banks) = (plan.clients, plan.banks);
    let (sets, ways) = match plan.kind {
        Kind::Mixed | Kind::Streams => (16, 4),
        _ => (64, 8),
    };
    let mut text = format!(in alloc;
        "version = 2\nclients = {clients}\nbanks = {banks}\nblock_bytes = {BLOCK_BYTES}\n"
    )?;
    let rest = format!(in alloc;
        "sets = {sets}\nways = {ways}\nregisters = 8\ncopies = 64\nmemory_blocks = {BLOCKS}\nturns = 1000000\n"
    )?;
    text.push_str(rest.as_str())?;
    push_image(&mut text, plan.image_blocks(), numbers)?;
    text.push_str("commands = [\n")?;
    for client in 0..plan.clients {
        push_client(&mut text, plan, client, numbers)?;
    }
    text.push_str("]\n")?;
    Ok(text)
}
