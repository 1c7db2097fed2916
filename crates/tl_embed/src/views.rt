//! What a cache shows.
ghost use Rattle.std.specs.Prelude.{◌≡◌, ◌≤◌, ◌⊎◌, true};
ghost use Rattle.std.specs.Option.{option_map};
ghost use Rattle.tl_types.specs.Permission.{rank};
ghost use Rattle.tl_bank.specs.Contents.{copy_at, line_at, memory_at};
ghost use Rattle.tl_embed.specs.Asked.{channel_at, ticket_named};
ghost use Rattle.tl_embed.specs.Calls.{Looks, tells_number};
ghost use Rattle.tl_embed.specs.Told.{message_told, number_told, number_wide};
ghost use Rattle.tl_embed.specs.Views.{BankTells, OpenTold, QuietTold, Views, awaited_told, bank_for, bank_told, block_told, byte_told, count_told, copy_or_none, dirty_number, home_of, home_told, memory_told, ticket_told, waiting_told};

use crate::answer::{Answer, Number};
use crate::cache::Cache;
use crate::events::{count_kind, tell_event_at};
use crate::next::tell_next;
use crate::request::{Request, channel_at};
use crate::tell::{message_of, tell_message, tell_number, tell_outward};
use tl_bank::Bank;
use tl_protocol::CachedCopy;
use tl_trace::Network;
use tl_types::{Awaited, BankNo, BlockNo, ClientId, Message, Perm, Ticket};

/// Tells what a request that asks for no step shows: 20 perm, 21 directory, 22 peek, 23 home, 24 outward, 25 held,
/// 26 recorded, 27 events, 28 event, 29 room, 30 copies, 31 is_quiet, 32 open block, 33 message, 34 waiting, 35 memory,
/// 36 forgotten, 37 copy, 38 waits for, 39 the bank of a block, 40 the next call, 41 a count; 16 where it is none of
/// these. It stands apart from the steps.
#[inline(never)]
pub fn tell_view(network: &Network, request: &Request, told: &mut Answer)
    ensures { Views network.now request.now told.new }
{
    match request.call {
        20..=24 | 35 | 37..=39 => tell_of_block(network, request, told),
        25..=32 | 34 | 36 | 40 | 41 => match network.bank(BankNo::new(request.bank)) {
            Some(bank) => tell_of_bank(bank, request, told),
            None => told.set_status(10),
        },
        33 => tell_of_ticket(network, request, told),
        _ => told.set_status(16),
    }
}

/// A view of a number, as `call` shows it; 16 where the call is none of them (20 to 22, 25 to 27, 29, 30, 36, 38, 39,
/// 41).
pub fn look(cache: &mut Cache, request: &Request) -> Number
    ensures { Looks cache.old request.now cache.new result }
{
    if !matches!(request.call, 20..=22 | 25..=27 | 29 | 30 | 36 | 38 | 39 | 41) {
        return Number::only(16);
    }
    match &cache.network {
        None => Number {
            serial: u64::from(cache.status),
            ..Number::only(18)
        },
        Some(network) => number_view(network, request),
    }
}

/// A view of a number, of an open cache.
fn number_view(network: &Network, request: &Request) -> Number
    requires { tells_number request.now.call ≡ true }
    ensures { Views network.now request.now (number_wide result) }
{
    if request.call <= 22 || request.call == 38 || request.call == 39 {
        return number_of_block(network, request);
    }
    match network.bank(BankNo::new(request.bank)) {
        Some(bank) => number_of_bank(bank, request),
        None => Number::only(10),
    }
}

/// Of a block, at the bank where it lies. What owns the bytes of a block stands apart: the room for them is then
/// cleared only where they are shown. (And LLVM takes a place that one function uses a hundred times for one that is
/// kept: a step's answer would be copied once more.)
fn tell_of_block(network: &Network, request: &Request, told: &mut Answer)
    ensures { told.new ≡ block_told network.now request.now }
{
    let client = ClientId::new(request.client);
    let block = BlockNo::new(request.place);
    match request.call {
        20..=22 | 38 | 39 => number_of_block(network, request).tell(told),
        23 => match home_of(network, block) {
            Some(bank) => tell_home(bank, block, told),
            None => told.set_status(10),
        },
        24 => match home_of(network, block) {
            Some(bank) => tell_outward(bank, block, told),
            None => told.set_status(10),
        },
        37 => match bank_for(network, client, block) {
            Some(bank) => tell_copy(bank, client, block, told),
            None => told.set_status(10),
        },
        _ => match home_of(network, block) {
            Some(bank) => tell_memory(bank, block, told),
            None => told.set_status(10),
        },
    }
}

/// Of a block and a client: what is a number.
fn number_of_block(network: &Network, request: &Request) -> Number
    requires { ((20 ≤ request.now.call) × (request.now.call ≤ 22))
        ⊎ ((38 ≤ request.now.call) × (request.now.call ≤ 39)) }
    ensures { number_wide result ≡ block_told network.now request.now }
{
    let client = ClientId::new(request.client);
    let block = BlockNo::new(request.place);
    match request.call {
        20 => match bank_for(network, client, block) {
            Some(bank) => perm_told(bank.perm(client, block)),
            None => Number::only(10),
        },
        21 => match bank_for(network, client, block) {
            Some(bank) => perm_told(bank.directory(client, block)),
            None => Number::only(10),
        },
        38 => match bank_for(network, client, block) {
            Some(bank) => awaited_told(bank.waits_for(client, block)),
            None => Number::only(10),
        },
        39 => match home_of(network, block) {
            Some(bank) => Number::told(u64::from(bank.number().number())),
            None => Number::only(10),
        },
        _ => match bank_for(network, client, network.geometry().block_at(request.place)) {
            Some(bank) => byte_told(bank.peek(client, request.place)),
            None => Number::only(10),
        },
    }
}

/// The bank where a block lies, if the memory has it.
pub fn home_of(network: &Network, block: BlockNo) -> Option<&Bank>
    ensures { option_map (λ bank. bank.now) result ≡ home_of network.now block }
{
    if !network.geometry().has(block) {
        return None;
    }
    network.bank(network.geometry().bank(block))
}

/// The bank where a block lies, if the memory has it and there is the client.
pub fn bank_for(network: &Network, client: ClientId, block: BlockNo) -> Option<&Bank>
    ensures { option_map (λ bank. bank.now) result ≡ bank_for network.now client block }
{
    if client.number() >= network.geometry().clients() {
        return None;
    }
    home_of(network, block)
}

/// A permission: 0 None, 1 Branch, 2 Tip.
fn perm_told(perm: Perm) -> Number
    ensures { number_wide result ≡ number_told (rank perm) }
{
    match perm {
        Perm::None => Number::told(0),
        Perm::Branch => Number::told(1),
        Perm::Tip => Number::told(2),
    }
}

fn byte_told(byte: Option<u8>) -> Number
    ensures { number_wide result ≡ byte_told byte }
{
    match byte {
        Some(byte) => Number::told(u64::from(byte)),
        None => Number::only(1),
    }
}

/// What a client waits for: 0 nothing, 1 a Grant, 2 a ReleaseAck.
fn awaited_told(awaited: Option<Awaited>) -> Number
    ensures { number_wide result ≡ awaited_told awaited }
{
    match awaited {
        None => Number::only(10),
        Some(Awaited::Nothing) => Number::told(0),
        Some(Awaited::ForGrant) => Number::told(1),
        Some(Awaited::ForReleaseAck) => Number::told(2),
    }
}

/// Tells a client's copy: 0 none, 1 at Branch, 2 at Tip and clean, 3 at Tip and dirty, with its bytes.
#[inline(never)]
fn tell_copy(bank: &Bank, client: ClientId, block: BlockNo, told: &mut Answer)
    ensures { told.new ≡ copy_or_none (copy_at bank.now client block) }
{
    let copy = bank.copy(client, block);
    match &copy {
        None => told.set_status(10),
        Some(CachedCopy::Absent) => tell_number(0, told),
        Some(CachedCopy::Readable(bytes)) => {
            tell_number(1, told);
            told.set_bytes(bytes.as_slice());
        }
        Some(CachedCopy::Writable(bytes, dirty)) => {
            tell_number(dirty_number(*dirty) + 1, told);
            told.set_bytes(bytes.as_slice());
        }
    }
}

/// Tells home's copy of a block: 0 none, 1 clean, 2 dirty, with its bytes.
#[inline(never)]
fn tell_home(bank: &Bank, block: BlockNo, told: &mut Answer)
    ensures { told.new ≡ home_told (line_at bank.now block) }
{
    let line = bank.line(block);
    match &line {
        None => tell_number(0, told),
        Some(line) => {
            tell_number(dirty_number(line.dirty), told);
            told.set_bytes(line.bytes.as_slice());
        }
    }
}

fn dirty_number(dirty: bool) -> u64
    ensures { result ≡ dirty_number dirty }
{
    if dirty { 2 } else { 1 }
}

/// Tells the memory's bytes of a block.
#[inline(never)]
fn tell_memory(bank: &Bank, block: BlockNo, told: &mut Answer)
    ensures { told.new ≡ memory_told (memory_at bank.now block) }
{
    let bytes = bank.memory(block);
    match &bytes {
        None => told.set_status(10),
        Some(bytes) => {
            told.set_status(0);
            told.what = 8;
            told.set_bytes(bytes.as_slice());
        }
    }
}

/// Of a bank.
fn tell_of_bank(bank: &Bank, request: &Request, told: &mut Answer)
    ensures { BankTells bank.now request.now told.new }
{
    match request.call {
        28 => tell_event_at(bank, request.serial, told),
        31 => tell_quiet(bank, told),
        32 => tell_open(bank, request.serial, told),
        34 => tell_waiting(bank, request, told),
        40 => tell_next(bank, told),
        _ => number_of_bank(bank, request).tell(told),
    }
}

/// Of a bank: what is a number, and follows from the bank alone.
fn number_of_bank(bank: &Bank, request: &Request) -> Number
    ensures { number_wide result ≡ bank_told bank.now request.now }
{
    match request.call {
        25 => Number::told(bank.held()),
        26 => Number::told(bank.outstanding()),
        27 => Number::told(bank.events() as u64),
        29 => Number::told(bank.room() as u64),
        36 => Number::told(bank.forgotten() as u64),
        41 => count_told(bank, request.param),
        _ => match bank.copies_of(ClientId::new(request.client)) {
            Some(copies) => Number::told(copies),
            None => Number::only(10),
        },
    }
}

/// How many of the events that are not forgotten are of a kind: 17 where there is no such kind.
fn count_told(bank: &Bank, kind: u32) -> Number
    ensures { number_wide result ≡ count_told bank.now kind }
{
    if kind >= 18 {
        return Number::only(17);
    }
    Number::told(count_kind(bank.log(), kind) as u64)
}

/// Tells whether nothing is under way.
fn tell_quiet(bank: &Bank, told: &mut Answer)
    ensures { QuietTold bank.now told.new }
{
    if bank.is_quiet() {
        tell_number(1, told);
    } else {
        tell_number(0, told);
    }
}

/// Tells the own block of an open register, by its place.
fn tell_open(bank: &Bank, place: u64, told: &mut Answer)
    ensures { OpenTold bank.now place told.new }
{
    let blocks = bank.open_blocks();
    match blocks.as_slice().get(place as usize) {
        Some(block) => tell_number(u64::from(block.number()), told),
        None => told.set_status(4),
    }
}

/// Tells the message at a place among those that wait on a channel.
fn tell_waiting(bank: &Bank, request: &Request, told: &mut Answer)
    ensures { told.new ≡ waiting_told bank.now request.now.client (channel_at request.now.channel) request.now.serial }
{
    let Some(channel) = channel_at(request.channel) else {
        return told.set_status(17);
    };
    let client = ClientId::new(request.client);
    if client.number() >= bank.geometry().clients() {
        return told.set_status(10);
    }
    let waiting = bank.waiting(client, channel, request.serial as usize);
    match &waiting {
        Some(waiting) => tell_one_waiting(waiting.0, &waiting.1, told),
        None => told.set_status(4),
    }
}

/// Tells the message that a ticket names.
fn tell_of_ticket(network: &Network, request: &Request, told: &mut Answer)
    ensures { told.new ≡ ticket_told network.now (ticket_named request.now) }
{
    let Some(ticket) = request.ticket() else {
        return told.set_status(17);
    };
    let named = ticket;
    let message = message_of(network, named);
    match &message {
        Some(message) => tell_one_waiting(ticket, message, told),
        None => told.set_status(4),
    }
}

/// Tells a message that waits.
fn tell_one_waiting(ticket: Ticket, message: &Message, told: &mut Answer)
    ensures { told.new ≡ message_told ticket message.now.body message.now.block }
{
    tell_message(ticket, &message.body, message.block.number(), told);
}
