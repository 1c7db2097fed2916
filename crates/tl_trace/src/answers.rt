//! Answers of steps, made from what a bank shows.
ghost use Rattle.std.specs.Prelude.{◌≡◌, ◌≢◌, ◌<◌, ◌*◌, OnErr, OnOk};
ghost use Rattle.tl_trace.specs.Answers.{Shows, ShowsMemory, ShowsPut, message_in};
ghost use Rattle.tl_trace.specs.Ready.{IsThere, IsWritten};

use std::alloc::AllocError;
use tl_bank::{Bank, Refusal, Reply};
use tl_protocol::Outward;
use tl_text::{Answer, BlockSize, MemoryMessage};
use tl_types::{BlockNo, Message, Ticket};

/// Answers with a refusal; want of memory is no answer.
pub(crate) fn refuse(refusal: Refusal, answer: &mut Answer) -> Result<(), AllocError>
    ensures answer { OnOk result (answer.new ≡ Answer.Refused refusal) }
    ensures other { OnOk result (refusal ≢ Refusal.Memory) }
    ensures memory { OnErr result (refusal ≡ Refusal.Memory) }
{
    match refusal {
        Refusal::Memory => Err(AllocError),
        _ => {
            *answer = Answer::Refused(refusal);
            Ok(())
        }
    }
}

/// Shows the message that a ticket names, which waits.
pub(crate) fn show_sent(bank: &Bank, ticket: Ticket, answer: &mut Answer)
    requires { IsThere bank.now ticket }
    ensures { Shows bank.now ticket answer.new }
{
    let named = ticket;
    match bank.in_flight(named) {
        Some(Message { block, body }) => {
            *answer = Answer::Sent {
                ticket,
                block,
                body,
            }
        }
        None => unreachable!(),
    }
}

/// Shows a message between home and the memory.
fn show_memory(bank: &Bank, message: MemoryMessage, answer: &mut Answer)
    ensures { ShowsMemory bank.now message answer.new }
{
    *answer = Answer::Memory {
        size: BlockSize::of(bank.geometry()),
        message,
    };
}

/// Shows the Get of a block.
pub(crate) fn show_get(bank: &Bank, block: BlockNo, answer: &mut Answer)
    requires { block < bank.now.geometry.memory_blocks }
    ensures { ShowsMemory bank.now (MemoryMessage.Get (block * bank.now.geometry.block_bytes)) answer.new }
{
    let address = first_address(bank, block);
    show_memory(bank, MemoryMessage::Get { address }, answer);
}

/// Shows the PutFullData of a block that is on its way to the memory.
pub(crate) fn show_put(bank: &Bank, block: BlockNo, answer: &mut Answer)
    requires { IsWritten bank.now block }
    ensures { ShowsPut bank.now block answer.new }
{
    let address = first_address(bank, block);
    match bank.outward(block) {
        Some(Outward::Put(bytes)) => {
            show_memory(bank, MemoryMessage::PutFullData { address, bytes }, answer)
        }
        _ => unreachable!(),
    }
}

/// Shows what the memory answered.
pub(crate) fn show_reply(bank: &Bank, reply: Reply, answer: &mut Answer)
    ensures { ShowsMemory bank.now (message_in reply) answer.new }
{
    match reply {
        Reply::AccessAckData { size: _, burst } => {
            let bytes = burst.block();
            show_memory(bank, MemoryMessage::AccessAckData { bytes }, answer);
        }
        Reply::AccessAck { size: _ } => show_memory(bank, MemoryMessage::AccessAck, answer),
    }
}

/// The address of a block's first byte.
fn first_address(bank: &Bank, block: BlockNo) -> u32
    requires { block < bank.now.geometry.memory_blocks }
    ensures { result ≡ block * bank.now.geometry.block_bytes }
{
    let geometry = bank.geometry();
    // For the prover: the numbers are lawful.
    let _blocks = geometry.memory_blocks();
    block.number() * geometry.block_bytes()
}
