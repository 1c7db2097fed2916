//! What calls of a bank answer and what a bank holds, in a digest.

use crate::numbers::Digest;
use tl_bank::{Action, Bank, Refusal, Reply};
use tl_protocol::CachedCopy;
use tl_text::{Answer, MemoryMessage};
use tl_types::{Awaited, BlockNo, Body, Channel, ClientId, MESSAGES, Message, Perm, Ticket, code};

/// The digest with a ticket more.
pub(crate) fn with_ticket(digest: Digest, ticket: Ticket) -> Digest {
    let link = ticket
        .client
        .number()
        .wrapping_mul(8)
        .wrapping_add(ticket.channel.index() as u32);
    digest.with(u64::from(link)).with(ticket.serial)
}

/// The digest with what home did.
pub(crate) fn with_action(digest: Digest, action: &Action) -> Digest {
    match action {
        Action::Probe(_) => digest.with(1),
        Action::Grant(_) => digest.with(2),
        Action::Get => digest.with(3),
        Action::Put(victim) => digest.with(4).with(u64::from(victim.number())),
        Action::Drop => digest.with(5),
    }
}

/// The digest with what the memory answered.
pub(crate) fn with_reply(digest: Digest, reply: &Reply) -> Digest {
    match reply {
        Reply::AccessAckData { size: _, burst } => digest.with_bytes(burst.as_block().as_slice()),
        Reply::AccessAck { size } => digest.with(u64::from(*size)),
    }
}

/// The digest with what a message says of a block.
fn with_body(digest: Digest, block: BlockNo, body: &Body) -> Digest {
    let (opcode, param) = code(body.kind());
    let said = digest
        .with(u64::from(block.number()))
        .with(u64::from(opcode))
        .with(u64::from(param));
    match body.bytes() {
        Some(bytes) => said.with_bytes(bytes.as_slice()),
        None => said,
    }
}

/// The digest with what passes between home and the memory.
fn with_memory_message(digest: Digest, message: &MemoryMessage) -> Digest {
    match message {
        MemoryMessage::Get { address } => digest.with(u64::from(*address)),
        MemoryMessage::PutFullData { address, bytes } => digest
            .with(u64::from(*address))
            .with_bytes(bytes.as_slice()),
        MemoryMessage::AccessAckData { bytes } => digest.with_bytes(bytes.as_slice()),
        MemoryMessage::AccessAck => digest.with(0),
    }
}

/// The digest with what a step was answered.
pub(crate) fn with_answer(digest: Digest, answer: &Answer) -> Digest {
    match answer {
        Answer::Sent {
            ticket,
            block,
            body,
        } => with_body(with_ticket(digest, *ticket), *block, body),
        Answer::Memory { size, message } => {
            with_memory_message(digest.with(u64::from(size.log2())), message)
        }
        Answer::Dropped => digest.with(1),
        Answer::Loaded(bytes) => digest.with_bytes(bytes.as_slice()),
        Answer::Done => digest.with(2),
        Answer::Refused(refusal) => digest.with(u64::from(refusal.number())),
    }
}

/// The digest with what a step would send, or why it would be refused.
pub(crate) fn with_outlook(digest: Digest, outlook: &Result<Message, Refusal>) -> Digest {
    match outlook {
        Ok(message) => with_body(digest, message.block, &message.body),
        Err(refusal) => digest.with(u64::from(refusal.number())),
    }
}

/// A permission as a number.
fn number_of(perm: Perm) -> u64 {
    match perm {
        Perm::None => 0,
        Perm::Branch => 1,
        Perm::Tip => 2,
    }
}

/// The digest with a client's copy.
fn with_copy(digest: Digest, copy: &CachedCopy) -> Digest {
    match copy {
        CachedCopy::Absent => digest.with(0),
        CachedCopy::Readable(bytes) => digest.with(1).with_bytes(bytes.as_slice()),
        CachedCopy::Writable(bytes, dirty) => {
            let head = digest.with(2).with(u64::from(*dirty));
            head.with_bytes(bytes.as_slice())
        }
    }
}

/// The digest with the answer that a client waits for.
fn with_wait(digest: Digest, awaited: Awaited) -> Digest {
    match awaited {
        Awaited::Nothing => digest.with(0),
        Awaited::ForGrant => digest.with(1),
        Awaited::ForReleaseAck => digest.with(2),
    }
}

/// The digest with what each client has of a block, and what home records of it.
fn with_clients(digest: Digest, bank: &Bank, block: BlockNo) -> Digest {
    let mut digest = digest;
    for number in 0..bank.geometry().clients() {
        let client = ClientId::new(number);
        digest = digest.with(number_of(bank.directory(client, block)));
        if let Some(copy) = bank.copy(client, block) {
            digest = with_copy(digest, &copy);
        }
        if let Some(awaited) = bank.waits_for(client, block) {
            digest = with_wait(digest, awaited);
        }
    }
    digest
}

/// The digest with a block that home holds.
fn with_line(digest: Digest, bank: &Bank, block: BlockNo) -> Digest {
    let head = digest.with(u64::from(block.number()));
    let held = match bank.line(block) {
        Some(line) => head
            .with(u64::from(line.dirty))
            .with_bytes(line.bytes.as_slice()),
        None => head,
    };
    with_clients(held, bank, block)
}

/// The digest with all blocks that home holds.
fn with_lines(digest: Digest, bank: &Bank) -> Digest {
    let mut digest = digest;
    for block in bank.blocks_at_home().as_slice() {
        digest = with_line(digest, bank, *block);
    }
    digest
}

/// The digest with the memory's bytes.
fn with_memory(digest: Digest, bank: &Bank) -> Digest {
    let mut digest = digest;
    for number in 0..bank.geometry().memory_blocks() {
        if let Some(bytes) = bank.memory(BlockNo::new(number)) {
            digest = digest.with_bytes(bytes.as_slice());
        }
    }
    digest
}

/// The digest with the messages that wait on a channel.
fn with_waiting(digest: Digest, bank: &Bank, client: ClientId, channel: Channel) -> Digest {
    let mut digest = digest;
    for place in 0..MESSAGES {
        match bank.waiting(client, channel, place) {
            Some((ticket, message)) => {
                digest = with_body(with_ticket(digest, ticket), message.block, &message.body);
            }
            None => return digest,
        }
    }
    digest
}

/// The digest with the messages that wait on a client's link, and its copies' number.
fn with_link(digest: Digest, bank: &Bank, client: ClientId) -> Digest {
    let mut digest = match bank.copies_of(client) {
        Some(count) => digest.with(count),
        None => digest,
    };
    for channel in [Channel::A, Channel::B, Channel::C, Channel::D, Channel::E] {
        digest = with_waiting(digest, bank, client, channel);
    }
    digest
}

/// The digest with what waits on all links.
fn with_links(digest: Digest, bank: &Bank) -> Digest {
    let mut digest = digest;
    for number in 0..bank.geometry().clients() {
        digest = with_link(digest, bank, ClientId::new(number));
    }
    digest
}

/// The digest with the open registers' blocks.
fn with_registers(digest: Digest, bank: &Bank) -> Digest {
    let mut digest = digest;
    for block in bank.open_blocks().as_slice() {
        digest = digest.with(u64::from(block.number()));
    }
    digest
}

/// The digest with all that a bank shows at the end.
pub(crate) fn with_end(digest: Digest, bank: &Bank) -> Digest {
    let counted = digest
        .with(bank.events() as u64)
        .with(bank.held())
        .with(bank.outstanding());
    let lines = with_lines(counted, bank);
    let links = with_links(with_memory(lines, bank), bank);
    with_registers(links, bank)
}
