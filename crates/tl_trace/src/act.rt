//! One step at one bank.
ghost use Rattle.std.specs.Prelude.{◌≡◌, OnErr, OnOk};
ghost use Rattle.tl_bank_spec.specs.Refusal.{first_of};
ghost use Rattle.tl_trace.specs.Answers.{Answers, IsStarved};
ghost use Rattle.tl_trace.specs.Steps.{IsStep, BlockDoes, TicketDoes, block_cases_of, cases_of, ticket_cases_of};

use crate::client_steps::{
    acquire, answer_probe, load, release, store, take_grant, take_release_ack,
};
use crate::home_steps::{
    accept, advance, evict, serve_memory, take_c, take_grant_ack, take_memory,
};
use std::alloc::AllocError;
use tl_bank::{Bank, Share};
use tl_script_words::{BlockCall, Step, TicketCall};
use tl_text::Answer;
use tl_types::{BlockNo, Ticket};

/// A step, asked of a bank, with the share and the clock of the client that it names. A refusal is an answer; an error
/// is a request for memory that was refused.
pub(crate) fn act(
    bank: &mut Bank,
    share: &mut Share,
    clock: &mut u64,
    index: u32,
    step: &Step,
    answer: &mut Answer,
) -> Result<(), AllocError>
    ensures memory { OnErr result
        (IsStarved (first_of (cases_of (record { bank = bank.old; share = share.old; clock = clock.old }) step.now))
        bank.old.room
        ((bank.new ≡ bank.old) × (share.new ≡ share.old) × (clock.new ≡ clock.old))) }
    ensures answer { OnOk result
        (IsStep index step.now (record { bank = bank.old; share = share.old; clock = clock.old })
        (record { bank = bank.new; share = share.new; clock = clock.new }) answer.new) }
{
    match step {
        Step::Load {
            client,
            address,
            len,
        } => load(bank, clock, index, *client, *address, *len, answer),
        Step::Store {
            client,
            address,
            bytes,
        } => store(bank, clock, index, *client, *address, bytes, answer),
        Step::Acquire {
            client,
            block,
            grow,
        } => acquire(bank, *client, *block, *grow, answer),
        Step::Release {
            client,
            block,
            prune,
        } => release(bank, share, *client, *block, *prune, answer),
        Step::Ticket(call, ticket) => act_by_ticket(bank, share, *call, *ticket, answer),
        Step::Block(call, block) => act_on_block(bank, *call, *block, answer),
    }
}

/// A call that has a ticket.
fn act_by_ticket(
    bank: &mut Bank,
    share: &mut Share,
    call: TicketCall,
    ticket: Ticket,
    answer: &mut Answer,
) -> Result<(), AllocError>
    ensures memory { OnErr result
        (IsStarved (first_of (ticket_cases_of bank.old share.old call ticket)) bank.old.room
        ((bank.new ≡ bank.old) × (share.new ≡ share.old))) }
    ensures answer { OnOk result
        (Answers (first_of (ticket_cases_of bank.old share.old call ticket))
        ((bank.new ≡ bank.old) × (share.new ≡ share.old))
        (TicketDoes call ticket bank.old bank.new share.old share.new answer.new) answer.new) }
{
    match call {
        TicketCall::AnswerProbe => answer_probe(bank, share, ticket, answer),
        TicketCall::TakeGrant => take_grant(bank, share, ticket, answer),
        TicketCall::TakeReleaseAck => take_release_ack(bank, ticket, answer),
        TicketCall::Accept => accept(bank, ticket, answer),
        TicketCall::TakeC => take_c(bank, ticket, answer),
        TicketCall::TakeGrantAck => take_grant_ack(bank, ticket, answer),
    }
}

/// A call that has a block.
fn act_on_block(
    bank: &mut Bank,
    call: BlockCall,
    block: BlockNo,
    answer: &mut Answer,
) -> Result<(), AllocError>
    ensures memory { OnErr result
        (IsStarved (first_of (block_cases_of bank.old call block)) bank.old.room (bank.new ≡ bank.old)) }
    ensures answer { OnOk result
        (Answers (first_of (block_cases_of bank.old call block)) (bank.new ≡ bank.old)
        (BlockDoes call block bank.old bank.new answer.new) answer.new) }
{
    match call {
        BlockCall::Advance => advance(bank, block, answer),
        BlockCall::Evict => evict(bank, block, answer),
        BlockCall::ServeMemory => serve_memory(bank, block, answer),
        BlockCall::TakeMemory => take_memory(bank, block, answer),
    }
}
