//! The steps that are calls of home and of the memory.
ghost use Rattle.std.specs.Prelude.{◌≡◌, OnErr, OnOk};
ghost use Rattle.tl_bank_spec.specs.HomeCalls.{accept_cases, advance_cases, evict_cases, serve_memory_cases, take_c_cases, take_grant_ack_cases, take_memory_cases};
ghost use Rattle.tl_bank_spec.specs.Refusal.{first_of};
ghost use Rattle.tl_trace.specs.Answers.{Answers, IsStarved, ShowsAction};
ghost use Rattle.tl_trace.specs.Ready.{IsDone};
ghost use Rattle.tl_trace.specs.Steps.{GoesOn, Opens, Replies, SendsAway, TakesC, TakesGrantAck, TakesReply};

use crate::answers::{refuse, show_get, show_put, show_reply, show_sent};
use std::alloc::AllocError;
use tl_bank::{Action, Bank};
use tl_text::Answer;
use tl_types::{BlockNo, Ticket};

/// Home accepts an Acquire.
pub(crate) fn accept(bank: &mut Bank, ticket: Ticket, answer: &mut Answer) -> Result<(), AllocError>
    ensures memory { OnErr result
        (IsStarved (first_of (accept_cases bank.old ticket)) bank.old.room
        (bank.new ≡ bank.old)) }
    ensures answer { OnOk result
        (Answers (first_of (accept_cases bank.old ticket)) (bank.new ≡ bank.old)
        (Opens bank.old bank.new ticket answer.new) answer.new) }
{
    match bank.accept(ticket) {
        Ok(()) => {
            *answer = Answer::Done;
            Ok(())
        }
        Err(refusal) => refuse(refusal, answer),
    }
}

/// Home takes a client's first message on channel C, and answers a Release.
pub(crate) fn take_c(bank: &mut Bank, ticket: Ticket, answer: &mut Answer) -> Result<(), AllocError>
    ensures memory { OnErr result
        (IsStarved (first_of (take_c_cases bank.old ticket)) bank.old.room
        (bank.new ≡ bank.old)) }
    ensures answer { OnOk result
        (Answers (first_of (take_c_cases bank.old ticket)) (bank.new ≡ bank.old)
        (TakesC bank.old bank.new ticket answer.new) answer.new) }
{
    match bank.take_c(ticket) {
        Ok(Some(ack)) => {
            show_sent(bank, ack, answer);
            Ok(())
        }
        Ok(None) => {
            *answer = Answer::Done;
            Ok(())
        }
        Err(refusal) => refuse(refusal, answer),
    }
}

/// Home takes a GrantAck.
pub(crate) fn take_grant_ack(
    bank: &mut Bank,
    ticket: Ticket,
    answer: &mut Answer,
) -> Result<(), AllocError>
    ensures memory { OnErr result
        (IsStarved (first_of (take_grant_ack_cases bank.old ticket)) bank.old.room
        (bank.new ≡ bank.old)) }
    ensures answer { OnOk result
        (Answers (first_of (take_grant_ack_cases bank.old ticket)) (bank.new ≡ bank.old)
        (TakesGrantAck bank.old bank.new ticket answer.new) answer.new) }
{
    match bank.take_grant_ack(ticket) {
        Ok(()) => {
            *answer = Answer::Done;
            Ok(())
        }
        Err(refusal) => refuse(refusal, answer),
    }
}

/// The register of a block does what it does next.
pub(crate) fn advance(
    bank: &mut Bank,
    block: BlockNo,
    answer: &mut Answer,
) -> Result<(), AllocError>
    ensures memory { OnErr result
        (IsStarved (first_of (advance_cases bank.old block)) bank.old.room
        (bank.new ≡ bank.old)) }
    ensures answer { OnOk result
        (Answers (first_of (advance_cases bank.old block)) (bank.new ≡ bank.old)
        (GoesOn bank.old bank.new block answer.new) answer.new) }
{
    match bank.advance(block) {
        Ok(action) => {
            // For the prover: the log is a run, so what the action sent is there.
            let _log = bank.log();
            show(bank, block, action, answer);
            Ok(())
        }
        Err(refusal) => refuse(refusal, answer),
    }
}

/// Shows what an action did.
fn show(bank: &Bank, own: BlockNo, action: Action, answer: &mut Answer)
    requires { IsDone bank.now own action }
    ensures { ShowsAction bank.now own action answer.new }
{
    match action {
        Action::Probe(ticket) => show_sent(bank, ticket, answer),
        Action::Grant(ticket) => show_sent(bank, ticket, answer),
        Action::Get => show_get(bank, own, answer),
        Action::Put(block) => show_put(bank, block, answer),
        Action::Drop => *answer = Answer::Dropped,
    }
}

/// A register opens that sends a block away.
pub(crate) fn evict(bank: &mut Bank, block: BlockNo, answer: &mut Answer) -> Result<(), AllocError>
    ensures memory { OnErr result
        (IsStarved (first_of (evict_cases bank.old block)) bank.old.room
        (bank.new ≡ bank.old)) }
    ensures answer { OnOk result
        (Answers (first_of (evict_cases bank.old block)) (bank.new ≡ bank.old)
        (SendsAway bank.old bank.new block answer.new) answer.new) }
{
    match bank.evict(block) {
        Ok(()) => {
            *answer = Answer::Done;
            Ok(())
        }
        Err(refusal) => refuse(refusal, answer),
    }
}

/// The memory answers a request.
pub(crate) fn serve_memory(
    bank: &mut Bank,
    block: BlockNo,
    answer: &mut Answer,
) -> Result<(), AllocError>
    ensures memory { OnErr result
        (IsStarved (first_of (serve_memory_cases bank.old block)) bank.old.room
        (bank.new ≡ bank.old)) }
    ensures answer { OnOk result
        (Answers (first_of (serve_memory_cases bank.old block)) (bank.new ≡ bank.old)
        (Replies bank.old bank.new block answer.new) answer.new) }
{
    match bank.serve_memory(block) {
        Ok(message) => {
            show_reply(bank, message, answer);
            Ok(())
        }
        Err(refusal) => refuse(refusal, answer),
    }
}

/// Home takes what the memory answered.
pub(crate) fn take_memory(
    bank: &mut Bank,
    block: BlockNo,
    answer: &mut Answer,
) -> Result<(), AllocError>
    ensures memory { OnErr result
        (IsStarved (first_of (take_memory_cases bank.old block)) bank.old.room
        (bank.new ≡ bank.old)) }
    ensures answer { OnOk result
        (Answers (first_of (take_memory_cases bank.old block)) (bank.new ≡ bank.old)
        (TakesReply bank.old bank.new block answer.new) answer.new) }
{
    match bank.take_memory(block) {
        Ok(()) => {
            *answer = Answer::Done;
            Ok(())
        }
        Err(refusal) => refuse(refusal, answer),
    }
}
