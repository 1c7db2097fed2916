//! What is told of messages, steps, events and numbers.
ghost use Rattle.std.specs.Prelude.{◌≡◌, ◌<◌, Some};
ghost use Rattle.tl_bank_spec.specs.Views.{outward_at};
ghost use Rattle.tl_embed.specs.Told.{coded, last_block, message_of, message_told, memory_channel, memory_told, number_told, outward_told, passing, placed, placed_in, step_told};

use crate::answer::Answer;
use crate::events::shape_of;
use tl_bank::Bank;
use tl_protocol::Outward;
use tl_script_words::Step;
use tl_text::{Answer as Shown, BlockSize, MemoryMessage};
use tl_trace::{Network, bank_asked};
use tl_types::{BankNo, BlockNo, Body, Kind, Message, Ticket, code};

/// Tells a number.
pub fn tell_number(number: u64, told: &mut Answer)
    ensures { told.new ≡ number_told number }
{
    told.set_status(0);
    told.what = 5;
    told.serial = number;
}

/// The codes of a kind are told as well.
fn tell_codes(kind: Kind, told: &mut Answer)
    ensures { told.new ≡ coded kind told.old }
{
    let (opcode, param) = code(kind);
    told.opcode = u32::from(opcode);
    told.param = u32::from(param);
}

/// Tells a message of a client's link, with its block.
pub fn tell_message(ticket: Ticket, body: &Body, block: u32, told: &mut Answer)
    ensures { told.new ≡ message_told ticket body.now block }
{
    told.set_status(0);
    told.what = 1;
    told.bank = ticket.bank.number();
    told.client = ticket.client.number();
    told.channel = ticket.channel.index() as u32;
    told.place = block;
    told.serial = ticket.serial;
    tell_codes(body.kind(), told);
    if let Some(bytes) = body.bytes() {
        told.set_bytes(bytes.as_slice());
    }
}

/// The message that a ticket names, where it waits.
pub fn message_of(network: &Network, ticket: Ticket) -> Option<Message>
    ensures { result ≡ message_of network.now ticket }
{
    match network.bank(ticket.bank) {
        Some(bank) => bank.in_flight(ticket),
        None => None,
    }
}

/// A message between home and the memory.
fn tell_memory(size: BlockSize, message: &MemoryMessage, told: &mut Answer)
    ensures { told.new ≡ memory_told size message.now }
{
    told.set_status(0);
    told.what = 2;
    told.channel = memory_channel(message);
    told.size = size.log2();
    tell_codes(message.kind(), told);
    match message {
        MemoryMessage::Get { address: _ } | MemoryMessage::AccessAck => {}
        MemoryMessage::PutFullData { address: _, bytes } | MemoryMessage::AccessAckData { bytes } =>
            told.set_bytes(bytes.as_slice()),
    }
}

/// The channel of the memory's link that a message travels on: 5 for A, 6 for D.
fn memory_channel(message: &MemoryMessage) -> u32
    ensures { result ≡ memory_channel message.now }
{
    match message {
        MemoryMessage::Get { address: _ } => 5,
        MemoryMessage::PutFullData {
            address: _,
            bytes: _,
        } => 5,
        MemoryMessage::AccessAckData { bytes: _ } => 6,
        MemoryMessage::AccessAck => 6,
    }
}

/// The bank that a step names, the block of the last event of its log and that block's first address are told as well.
fn tell_place(network: &Network, step: &Step, told: &mut Answer)
    ensures { told.new ≡ placed network.now step.now told.old }
{
    if let Some(bank) = network.bank(BankNo::new(bank_asked(network.geometry(), step) as u32)) {
        tell_place_in(bank, told);
    }
}

/// The bank, the block of the last event of its log and that block's first address are told as well.
fn tell_place_in(bank: &Bank, told: &mut Answer)
    ensures { told.new ≡ placed_in (Some bank.now) told.old }
{
    let block = last_block(bank);
    told.bank = bank.number().number();
    told.place = block;
    told.address = block * bank.geometry().block_bytes();
}

/// The block of the last event of a bank's log that is not forgotten; 0 where there is none.
fn last_block(bank: &Bank) -> u32
    ensures is { result ≡ last_block bank.now }
    ensures inside { result < bank.now.geometry.memory_blocks }
{
    // For the prover: the memory has a block.
    let _blocks = bank.geometry().memory_blocks();
    let events = bank.log();
    match events.get(events.len().saturating_sub(1)) {
        Some(event) => event.block(shape_of(bank.geometry())),
        None => 0,
    }
}

/// What a step answered, where it left the banks so.
pub fn step_told(network: &Network, step: &Step, shown: &Shown) -> Answer
    ensures { result ≡ step_told network.now step.now shown.now }
{
    let mut told = Answer::only(0);
    tell_step(network, step, shown, &mut told);
    told
}

/// What a step answered, where it left the banks so, told in a place for it.
pub fn tell_step(network: &Network, step: &Step, shown: &Shown, told: &mut Answer)
    ensures { told.new ≡ step_told network.now step.now shown.now }
{
    match shown {
        Shown::Sent {
            ticket,
            block,
            body,
        } => tell_message(*ticket, body, block.number(), told),
        Shown::Memory { size, message } => {
            tell_memory(*size, message, told);
            tell_place(network, step, told);
        }
        Shown::Dropped => {
            told.set_status(0);
            told.what = 3;
            tell_place(network, step, told);
        }
        Shown::Loaded(bytes) => {
            told.set_status(0);
            told.what = 4;
            told.set_bytes(bytes.as_slice());
        }
        Shown::Done => told.set_status(0),
        Shown::Refused(refusal) => told.set_status(u32::from(refusal.number())),
    }
}

/// Tells what passes of a block between home and the memory.
#[inline(never)]
pub fn tell_outward(bank: &Bank, block: BlockNo, told: &mut Answer)
    ensures { told.new ≡ outward_told (outward_at bank.now block) }
{
    let outward = bank.outward(block);
    match &outward {
        None | Some(Outward::Quiet) => tell_passing(0, told),
        Some(Outward::Get) => tell_passing(1, told),
        Some(Outward::Data(bytes)) => {
            tell_passing(2, told);
            told.set_bytes(bytes.as_slice());
        }
        Some(Outward::Put(bytes)) => {
            tell_passing(3, told);
            told.set_bytes(bytes.as_slice());
        }
        Some(Outward::PutAck) => tell_passing(4, told),
    }
}

/// Tells how far an exchange with the memory is.
fn tell_passing(number: u64, told: &mut Answer)
    ensures { told.new ≡ passing number }
{
    told.set_status(0);
    told.what = 7;
    told.serial = number;
}
