//! The message that a step of a trace sent.
ghost use Rattle.std.specs.Prelude.{◌≡◌};
ghost use Rattle.tlchart_trace.specs.Message.{block_named, from_memory, memory_message, message_by, to_memory};

use crate::lifeline::home_asked;
use tl_map::Geometry;
use tl_script_words::Step;
use tl_text::{Answer, MemoryMessage};
use tl_types::{BlockBytes, BlockNo, Kind};
use tlchart_model::{Lifeline, Place, ShownMessage, link_message};

/// The block that a step names; block 0 where it names none.
fn block_named(step: &Step) -> BlockNo
    ensures { result ≡ block_named step.now }
{
    match step {
        Step::Block(_, block) => *block,
        _ => BlockNo::new(0),
    }
}

/// A message of home to the memory about the block of an address.
fn to_memory(
    geometry: Geometry,
    step: &Step,
    address: u32,
    kind: Kind,
    bytes: Option<BlockBytes>,
) -> ShownMessage
    ensures { result ≡ to_memory geometry step.now address kind bytes }
{
    let block = geometry.block_at(address);
    ShownMessage {
        place: Place::ToMemory(block),
        from: home_asked(geometry, step),
        to: Lifeline::Memory,
        block,
        kind,
        bytes,
    }
}

/// An answer of the memory about the block that the step names.
fn from_memory(
    geometry: Geometry,
    step: &Step,
    kind: Kind,
    bytes: Option<BlockBytes>,
) -> ShownMessage
    ensures { result ≡ from_memory geometry step.now kind bytes }
{
    let block = block_named(step);
    ShownMessage {
        place: Place::FromMemory(block),
        from: Lifeline::Memory,
        to: home_asked(geometry, step),
        block,
        kind,
        bytes,
    }
}

/// A message between home and the memory.
fn memory_message(geometry: Geometry, step: &Step, message: &MemoryMessage) -> ShownMessage
    ensures { result ≡ memory_message geometry step.now message.now }
{
    match message {
        MemoryMessage::Get { address } => to_memory(geometry, step, *address, Kind::Get, None),
        MemoryMessage::PutFullData { address, bytes } => {
            let bytes = Some(bytes.copied());
            to_memory(geometry, step, *address, Kind::PutFullData, bytes)
        }
        MemoryMessage::AccessAckData { bytes } => {
            let bytes = Some(bytes.copied());
            from_memory(geometry, step, Kind::AccessAckData, bytes)
        }
        MemoryMessage::AccessAck => from_memory(geometry, step, Kind::AccessAck, None),
    }
}

/// The message that a step sent, where its answer shows one.
pub(crate) fn message_by(geometry: Geometry, step: &Step, answer: &Answer) -> Option<ShownMessage>
    ensures { result ≡ message_by geometry step.now answer.now }
{
    match answer {
        Answer::Sent {
            ticket,
            block,
            body,
        } => Some(link_message(ticket, *block, body)),
        Answer::Memory { size: _, message } => Some(memory_message(geometry, step, message)),
        Answer::Dropped | Answer::Loaded(_) | Answer::Done | Answer::Refused(_) => None,
    }
}
