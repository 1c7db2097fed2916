//! The steps that are calls of clients.
ghost use Rattle.std.specs.Prelude.{◌≡◌, None, IfErr, IfOk, OnErr, OnOk, length};
ghost use Rattle.tl_types.specs.declared.channel.Channel.{Channel};
ghost use Rattle.tl_protocol.specs.declared.event.Event.{Event};
ghost use Rattle.tl_bank_spec.specs.Calls.{load_cases, store_cases, acquire_cases, release_cases, answer_probe_cases, take_grant_cases, take_release_ack_cases};
ghost use Rattle.tl_bank_spec.specs.Cases.{block_named};
ghost use Rattle.tl_bank_spec.specs.Refusal.{IsRefused, first_of};
ghost use Rattle.tl_bank_spec.specs.Channels.{next_ticket};
ghost use Rattle.tl_trace.specs.Answers.{Answers, IsStarved};
ghost use Rattle.tl_trace.specs.Steps.{Loads, Logs, Posts, Recounts, Stores};

use crate::answers::{refuse, show_sent};
use std::alloc::AllocError;
use tl_bank::{Bank, Refusal, Share, When};
use tl_text::Answer;
use tl_types::{AccessBytes, BlockNo, ClientId, Grow, Prune, Ticket};

/// A client reads. Its clock becomes the stamp of the access.
pub(crate) fn load(
    bank: &mut Bank,
    clock: &mut u64,
    index: u32,
    client: ClientId,
    address: u32,
    len: u8,
    answer: &mut Answer,
) -> Result<(), AllocError>
    ensures memory { OnErr result
        (IsStarved (first_of (load_cases bank.old client address len clock.old)) bank.old.room
        ((bank.new ≡ bank.old) × (clock.new ≡ clock.old))) }
    ensures answer { OnOk result
        (Answers (first_of (load_cases bank.old client address len clock.old))
        ((bank.new ≡ bank.old) × (clock.new ≡ clock.old))
        (Loads index bank.old bank.new clock.old clock.new client address len answer.new) answer.new) }
{
    match load_bytes(bank, clock, index, client, address, len) {
        Ok(bytes) => {
            *answer = Answer::Loaded(bytes);
            Ok(())
        }
        Err(refusal) => refuse(refusal, answer),
    }
}

/// A client reads, and a refusal is an error. Its clock becomes the stamp of the access.
pub(crate) fn load_bytes(
    bank: &mut Bank,
    clock: &mut u64,
    index: u32,
    client: ClientId,
    address: u32,
    len: u8,
) -> Result<AccessBytes, Refusal>
    ensures refused { IfErr result
        (IsRefused (first_of (load_cases bank.old client address len clock.old)) bank.old.room) }
    ensures unchanged { OnErr result ((bank.new ≡ bank.old) × (clock.new ≡ clock.old)) }
    ensures permitted { OnOk result (first_of (load_cases bank.old client address len clock.old) ≡ None) }
    ensures does { IfOk result
        (λ bytes. Loads index bank.old bank.new clock.old clock.new client address len (Answer.Loaded bytes)) }
{
    let when = When {
        clock: *clock,
        index,
    };
    let loaded = bank.load(client, address, usize::from(len), when)?;
    *clock = loaded.stamp;
    Ok(loaded.access())
}

/// A client writes. Its clock becomes the stamp of the access.
pub(crate) fn store(
    bank: &mut Bank,
    clock: &mut u64,
    index: u32,
    client: ClientId,
    address: u32,
    bytes: &AccessBytes,
    answer: &mut Answer,
) -> Result<(), AllocError>
    ensures memory { OnErr result
        (IsStarved (first_of (store_cases bank.old client address (length bytes.now) clock.old)) bank.old.room
        ((bank.new ≡ bank.old) × (clock.new ≡ clock.old))) }
    ensures answer { OnOk result
        (Answers (first_of (store_cases bank.old client address (length bytes.now) clock.old))
        ((bank.new ≡ bank.old) × (clock.new ≡ clock.old))
        (Stores index bank.old bank.new clock.old clock.new client address bytes.now answer.new) answer.new) }
{
    match store_bytes(bank, clock, index, client, address, bytes.as_slice()) {
        Ok(()) => {
            *answer = Answer::Done;
            Ok(())
        }
        Err(refusal) => refuse(refusal, answer),
    }
}

/// A client writes, and a refusal is an error. Its clock becomes the stamp of the access.
pub(crate) fn store_bytes(
    bank: &mut Bank,
    clock: &mut u64,
    index: u32,
    client: ClientId,
    address: u32,
    bytes: &[u8],
) -> Result<(), Refusal>
    ensures refused { IfErr result
        (IsRefused (first_of (store_cases bank.old client address (length bytes.now) clock.old)) bank.old.room) }
    ensures unchanged { OnErr result ((bank.new ≡ bank.old) × (clock.new ≡ clock.old)) }
    ensures permitted { OnOk result
        (first_of (store_cases bank.old client address (length bytes.now) clock.old) ≡ None) }
    ensures does { IfOk result
        (λ _. Stores index bank.old bank.new clock.old clock.new client address bytes.now Answer.Done) }
{
    let when = When {
        clock: *clock,
        index,
    };
    *clock = bank.store(client, address, bytes, when)?;
    Ok(())
}

/// A client asks home for a copy.
pub(crate) fn acquire(
    bank: &mut Bank,
    client: ClientId,
    block: BlockNo,
    grow: Grow,
    answer: &mut Answer,
) -> Result<(), AllocError>
    ensures memory { OnErr result
        (IsStarved (first_of (acquire_cases bank.old client block grow)) bank.old.room
        (bank.new ≡ bank.old)) }
    ensures answer { OnOk result
        (Answers (first_of (acquire_cases bank.old client block grow)) (bank.new ≡ bank.old)
        (Posts bank.old bank.new (Event.SendAcquire client block grow) (next_ticket bank.old client Channel.A)
        answer.new)
        answer.new) }
{
    match bank.acquire(client, block, grow) {
        Ok(ticket) => {
            show_sent(bank, ticket, answer);
            Ok(())
        }
        Err(refusal) => refuse(refusal, answer),
    }
}

/// A client gives up a part of a copy, or all of it.
pub(crate) fn release(
    bank: &mut Bank,
    share: &mut Share,
    client: ClientId,
    block: BlockNo,
    prune: Prune,
    answer: &mut Answer,
) -> Result<(), AllocError>
    ensures memory { OnErr result
        (IsStarved (first_of (release_cases bank.old client block prune share.old)) bank.old.room
        ((bank.new ≡ bank.old) × (share.new ≡ share.old))) }
    ensures answer { OnOk result
        (Answers (first_of (release_cases bank.old client block prune share.old))
        ((bank.new ≡ bank.old) × (share.new ≡ share.old))
        (Posts bank.old bank.new (Event.SendRelease client block prune) (next_ticket bank.old client Channel.C)
        answer.new
        × Recounts bank.old bank.new client block share.old share.new) answer.new) }
{
    match bank.release(client, block, prune, share) {
        Ok(ticket) => {
            show_sent(bank, ticket, answer);
            Ok(())
        }
        Err(refusal) => refuse(refusal, answer),
    }
}

/// A client answers a Probe.
pub(crate) fn answer_probe(
    bank: &mut Bank,
    share: &mut Share,
    ticket: Ticket,
    answer: &mut Answer,
) -> Result<(), AllocError>
    ensures memory { OnErr result
        (IsStarved (first_of (answer_probe_cases bank.old ticket share.old)) bank.old.room
        ((bank.new ≡ bank.old) × (share.new ≡ share.old))) }
    ensures answer { OnOk result
        (Answers (first_of (answer_probe_cases bank.old ticket share.old))
        ((bank.new ≡ bank.old) × (share.new ≡ share.old))
        (Posts bank.old bank.new (Event.AnswerProbe ticket.client (block_named bank.old ticket Channel.B))
        (next_ticket bank.old ticket.client Channel.C) answer.new
        × Recounts bank.old bank.new ticket.client (block_named bank.old ticket Channel.B) share.old share.new)
        answer.new) }
{
    match bank.answer_probe(ticket, share) {
        Ok(ack) => {
            show_sent(bank, ack, answer);
            Ok(())
        }
        Err(refusal) => refuse(refusal, answer),
    }
}

/// A client takes a Grant, and sends a GrantAck.
pub(crate) fn take_grant(
    bank: &mut Bank,
    share: &mut Share,
    ticket: Ticket,
    answer: &mut Answer,
) -> Result<(), AllocError>
    ensures memory { OnErr result
        (IsStarved (first_of (take_grant_cases bank.old ticket share.old)) bank.old.room
        ((bank.new ≡ bank.old) × (share.new ≡ share.old))) }
    ensures answer { OnOk result
        (Answers (first_of (take_grant_cases bank.old ticket share.old))
        ((bank.new ≡ bank.old) × (share.new ≡ share.old))
        (Posts bank.old bank.new (Event.TakeGrant ticket.client (block_named bank.old ticket Channel.D))
        (next_ticket bank.old ticket.client Channel.E) answer.new
        × Recounts bank.old bank.new ticket.client (block_named bank.old ticket Channel.D) share.old share.new)
        answer.new) }
{
    match bank.take_grant(ticket, share) {
        Ok(ack) => {
            show_sent(bank, ack, answer);
            Ok(())
        }
        Err(refusal) => refuse(refusal, answer),
    }
}

/// A client takes the answer to its Release.
pub(crate) fn take_release_ack(
    bank: &mut Bank,
    ticket: Ticket,
    answer: &mut Answer,
) -> Result<(), AllocError>
    ensures memory { OnErr result
        (IsStarved (first_of (take_release_ack_cases bank.old ticket)) bank.old.room
        (bank.new ≡ bank.old)) }
    ensures answer { OnOk result
        (Answers (first_of (take_release_ack_cases bank.old ticket)) (bank.new ≡ bank.old)
        (Logs bank.old bank.new (Event.TakeReleaseAck ticket.client (block_named bank.old ticket Channel.D)) answer.new)
        answer.new) }
{
    match bank.take_release_ack(ticket) {
        Ok(()) => {
            *answer = Answer::Done;
            Ok(())
        }
        Err(refusal) => refuse(refusal, answer),
    }
}
