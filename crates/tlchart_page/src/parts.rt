//! What is shown of a bank, part by part.
ghost use Rattle.std.specs.Prelude.{◌≡◌, ◌++◌, ◌≤◌, OnOk, string_bytes};
ghost use Rattle.std.specs.List.{flat_map};
ghost use Rattle.tl_bank.specs.Contents.{message_waiting};
ghost use Rattle.tlchart_page.specs.Words.{members_below, message_text};
ghost use Rattle.tlchart_page.specs.Parts.{cell_text, client_text, head_text, home_text, part_text, register_text, tail_text, waiting_below, ways_below};

use crate::words::{AtHome, Bytes, Held, Next, Passing, Slot, Waiting, Waits, Work};
use std::alloc::AllocError;
use std::fmt::Write;
use tl_bank::Bank;
use tl_map::Set;
use tl_registers::{ClientSet, Register};
use tl_text::Letter;
use tl_trace::Network;
use tl_types::{BankNo, BlockNo, CLIENTS, Channel, ClientId, MESSAGES};
use tl_ways::Way;

/// A part of a bank.
#[derive(Clone, Copy, Debug)]
pub enum Part {
    /// A client's copy of a block, what the client waits for, and what home records of it.
    Client(ClientId, BlockNo),
    /// Home's copy of a block, and what passes of it between home and the memory.
    Home(BlockNo),
    /// The memory's bytes of a block.
    Memory(BlockNo),
    /// The messages that wait on a channel of a client.
    Channel(ClientId, Channel),
    /// What lies in the ways of a set.
    Set(Set),
    /// The open miss registers.
    Registers,
}

/// A place on the page, which shows a part of a bank.
#[derive(Clone, Copy, Debug)]
pub struct Cell {
    pub bank: BankNo,
    pub part: Part,
}

/// A client's part of a block.
fn push_client(
    text: &mut String,
    bank: &Bank,
    client: ClientId,
    block: BlockNo,
) -> Result<(), AllocError>
    ensures { OnOk result (string_bytes text.new ≡ string_bytes text.old ++ client_text bank.now client block) }
{
    let copy = bank.copy(client, block);
    let waits = bank.waits_for(client, block);
    let recorded = bank.directory(client, block);
    write!(
        text,
        "{} {} {}",
        Held(copy.as_ref()),
        Waits(waits),
        Letter(recorded)
    )?;
    Ok(())
}

/// Home's part of a block.
fn push_home(text: &mut String, bank: &Bank, block: BlockNo) -> Result<(), AllocError>
    ensures { OnOk result (string_bytes text.new ≡ string_bytes text.old ++ home_text bank.now block) }
{
    let line = bank.line(block);
    let outward = bank.outward(block);
    write!(
        text,
        "{} {}",
        AtHome(line.as_ref()),
        Passing(outward.as_ref())
    )?;
    Ok(())
}

/// The memory's part of a block.
fn push_memory(text: &mut String, bank: &Bank, block: BlockNo) -> Result<(), AllocError>
    ensures { OnOk result (string_bytes text.new ≡ string_bytes text.old ++ part_text bank.now (Part.Memory block)) }
{
    let bytes = bank.memory(block);
    write!(text, "{}", Bytes(bytes.as_ref()))?;
    Ok(())
}

/// The message at a place of a channel.
fn push_message(
    text: &mut String,
    bank: &Bank,
    client: ClientId,
    channel: Channel,
    place: usize,
) -> Result<(), AllocError>
    ensures { OnOk result (string_bytes text.new
        ≡ string_bytes text.old ++ message_text (message_waiting bank.now client channel place)) }
{
    match bank.waiting(client, channel, place) {
        Some(waiting) => Ok(write!(text, "{}", Waiting(&waiting))?),
        None => Ok(()),
    }
}

/// The messages at the first places of a channel.
#[tactic(auto, unfolding(crate::specs::Parts::waiting_below))]
fn push_channel(
    text: &mut String,
    bank: &Bank,
    client: ClientId,
    channel: Channel,
    places: usize,
) -> Result<(), AllocError>
    ensures { OnOk result
        (string_bytes text.new ≡ string_bytes text.old ++ waiting_below bank.now client channel places) }
{
    for place in 0..places {
        push_message(text, bank, client, channel, place)?;
    }
    Ok(())
}

/// The ways of a set.
fn push_ways(text: &mut String, bank: &Bank, set: Set) -> Result<(), AllocError>
    ensures { OnOk result
        (string_bytes text.new ≡ string_bytes text.old ++ ways_below bank.now set bank.now.geometry.ways) }
{
    for way in 0..bank.geometry().ways() {
        let block = bank.occupant(set, Way::new(way));
        write!(text, "{}", Slot(block))?;
    }
    Ok(())
}

/// Those of the first clients that a set has.
fn push_members(text: &mut String, members: &ClientSet, clients: u32) -> Result<(), AllocError>
    requires { clients ≤ CLIENTS }
    ensures { OnOk result (string_bytes text.new ≡ string_bytes text.old ++ members_below members.now clients) }
{
    for number in 0..clients {
        let client = ClientId::new(number);
        if members.contains(client) {
            write!(text, " {client}")?;
        }
    }
    Ok(())
}

/// A register's block, its way, and what it is open for.
#[tactic(auto, unfolding(crate::specs::Parts::head_text))]
fn push_head(text: &mut String, register: &Register) -> Result<(), AllocError>
    ensures { OnOk result (string_bytes text.new ≡ string_bytes text.old ++ head_text register.now) }
{
    let own = register.own;
    let (set, way) = (register.way.set, register.way.way);
    write!(text, "{own},{set},{way},{},", Work(&register.task))?;
    Ok(())
}

/// What the register of a block does next.
#[tactic(auto, unfolding(crate::specs::Parts::tail_text))]
fn push_tail(text: &mut String, bank: &Bank, own: BlockNo) -> Result<(), AllocError>
    ensures { OnOk result (string_bytes text.new ≡ string_bytes text.old ++ tail_text bank.now own) }
{
    write!(text, ",{};", Next(bank.next_of(own)))?;
    Ok(())
}

/// A register.
fn push_register(text: &mut String, bank: &Bank, register: &Register) -> Result<(), AllocError>
    ensures { OnOk result (string_bytes text.new ≡ string_bytes text.old ++ register_text bank.now register.now) }
{
    push_head(text, register)?;
    push_members(text, &register.probed, bank.geometry().clients())?;
    push_tail(text, bank, register.own)
}

/// The open registers.
fn push_registers(text: &mut String, bank: &Bank) -> Result<(), AllocError>
    ensures { OnOk result (string_bytes text.new ≡ string_bytes text.old ++ part_text bank.now Part.Registers) }
{
    for register in bank.registers() {
        push_register(text, bank, register)?;
    }
    Ok(())
}

/// A part of a bank.
fn push_part(text: &mut String, bank: &Bank, part: Part) -> Result<(), AllocError>
    ensures { OnOk result (string_bytes text.new ≡ string_bytes text.old ++ part_text bank.now part) }
{
    match part {
        Part::Client(client, block) => push_client(text, bank, client, block),
        Part::Home(block) => push_home(text, bank, block),
        Part::Memory(block) => push_memory(text, bank, block),
        Part::Channel(client, channel) => push_channel(text, bank, client, channel, MESSAGES),
        Part::Set(set) => push_ways(text, bank, set),
        Part::Registers => push_registers(text, bank),
    }
}

/// What a cell shows; nothing where its bank is not there.
pub(crate) fn push_cell(text: &mut String, network: &Network, cell: &Cell) -> Result<(), AllocError>
    ensures { OnOk result (string_bytes text.new ≡ string_bytes text.old ++ cell_text network.now cell.now) }
{
    match network.bank(cell.bank) {
        Some(bank) => push_part(text, bank, cell.part),
        None => Ok(()),
    }
}
