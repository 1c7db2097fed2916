//! The calls by which a bank comes to rest, each where no case refuses it: want of memory for the log is left.
ghost use Rattle.std.specs.Prelude.{◌≡◌, ◌≢◌, ℕ, None, IfErr, OnErr, OnOk};
ghost use Rattle.tl_bank_spec.specs.Calls.{answer_probe_cases, take_grant_cases, take_release_ack_cases};
ghost use Rattle.tl_bank_spec.specs.HomeCalls.{accept_cases, advance_cases, serve_memory_cases, take_c_cases, take_grant_ack_cases, take_memory_cases};
ghost use Rattle.tl_bank_spec.specs.Refusal.{IsRefused, first_of};
ghost use Rattle.tl_bank_spec.specs.Tables.{copies_at};
ghost use Rattle.tl_bank_rest.specs.Rest.{ReceivesOne};
ghost use Rattle.tl_bank_rest.specs.Shares.{AreShares, share_of};

use tl_bank::{Bank, Refusal, Share};
use tl_types::{BlockNo, Ticket};

/// Home takes a GrantAck.
pub(crate) fn take_grant_ack(bank: &mut Bank, ticket: Ticket) -> Result<(), Refusal>
    requires { first_of (take_grant_ack_cases bank.old ticket) ≡ None }
    ensures refused { IfErr result (λ r. IsRefused None bank.old.room r) }
    ensures unchanged { OnErr result (bank.new ≡ bank.old) }
    ensures receives { OnOk result (ReceivesOne bank.old bank.new) }
    ensures counts { OnOk result ((client : ℕ) → copies_at bank.new client ≡ copies_at bank.old client) }
{
    bank.take_grant_ack(ticket)?;
    // For the prover: the log is a run.
    let _log = bank.log();
    Ok(())
}

/// A client takes a ReleaseAck.
pub(crate) fn take_release_ack(bank: &mut Bank, ticket: Ticket) -> Result<(), Refusal>
    requires { first_of (take_release_ack_cases bank.old ticket) ≡ None }
    ensures refused { IfErr result (λ r. IsRefused None bank.old.room r) }
    ensures unchanged { OnErr result (bank.new ≡ bank.old) }
    ensures receives { OnOk result (ReceivesOne bank.old bank.new) }
    ensures counts { OnOk result ((client : ℕ) → copies_at bank.new client ≡ copies_at bank.old client) }
{
    bank.take_release_ack(ticket)?;
    // For the prover: the log is a run.
    let _log = bank.log();
    Ok(())
}

/// Home takes a Release, or an answer to a Probe.
pub(crate) fn take_c(bank: &mut Bank, ticket: Ticket) -> Result<(), Refusal>
    requires { first_of (take_c_cases bank.old ticket) ≡ None }
    ensures refused { IfErr result (λ r. IsRefused None bank.old.room r) }
    ensures unchanged { OnErr result (bank.new ≡ bank.old) }
    ensures receives { OnOk result (ReceivesOne bank.old bank.new) }
    ensures counts { OnOk result ((client : ℕ) → copies_at bank.new client ≡ copies_at bank.old client) }
{
    bank.take_c(ticket)?;
    // For the prover: the log is a run.
    let _log = bank.log();
    Ok(())
}

/// The memory answers a request.
pub(crate) fn serve_memory(bank: &mut Bank, block: BlockNo) -> Result<(), Refusal>
    requires { first_of (serve_memory_cases bank.old block) ≡ None }
    ensures refused { IfErr result (λ r. IsRefused None bank.old.room r) }
    ensures unchanged { OnErr result (bank.new ≡ bank.old) }
    ensures receives { OnOk result (ReceivesOne bank.old bank.new) }
    ensures counts { OnOk result ((client : ℕ) → copies_at bank.new client ≡ copies_at bank.old client) }
{
    bank.serve_memory(block)?;
    // For the prover: the log is a run.
    let _log = bank.log();
    Ok(())
}

/// Home takes the memory's answer.
pub(crate) fn take_memory(bank: &mut Bank, block: BlockNo) -> Result<(), Refusal>
    requires { first_of (take_memory_cases bank.old block) ≡ None }
    ensures refused { IfErr result (λ r. IsRefused None bank.old.room r) }
    ensures unchanged { OnErr result (bank.new ≡ bank.old) }
    ensures receives { OnOk result (ReceivesOne bank.old bank.new) }
    ensures counts { OnOk result ((client : ℕ) → copies_at bank.new client ≡ copies_at bank.old client) }
{
    bank.take_memory(block)?;
    // For the prover: the log is a run.
    let _log = bank.log();
    Ok(())
}

/// A register does what it does next.
pub(crate) fn advance(bank: &mut Bank, block: BlockNo) -> Result<(), Refusal>
    requires { first_of (advance_cases bank.old block) ≡ None }
    ensures refused { IfErr result (λ r. IsRefused None bank.old.room r) }
    ensures unchanged { OnErr result (bank.new ≡ bank.old) }
    ensures receives { OnOk result (ReceivesOne bank.old bank.new) }
    ensures counts { OnOk result ((client : ℕ) → copies_at bank.new client ≡ copies_at bank.old client) }
{
    bank.advance(block)?;
    // For the prover: the log is a run.
    let _log = bank.log();
    Ok(())
}

/// Home takes an Acquire, and opens a register for it.
pub(crate) fn accept(bank: &mut Bank, ticket: Ticket) -> Result<(), Refusal>
    requires { first_of (accept_cases bank.old ticket) ≡ None }
    ensures refused { IfErr result (λ r. IsRefused None bank.old.room r) }
    ensures unchanged { OnErr result (bank.new ≡ bank.old) }
    ensures receives { OnOk result (ReceivesOne bank.old bank.new) }
    ensures counts { OnOk result ((client : ℕ) → copies_at bank.new client ≡ copies_at bank.old client) }
{
    bank.accept(ticket)?;
    // For the prover: the log is a run.
    let _log = bank.log();
    Ok(())
}

/// A client takes a Grant, with its share.
pub(crate) fn take_grant(
    bank: &mut Bank,
    shares: &mut [Share],
    ticket: Ticket,
) -> Result<(), Refusal>
    requires taken { first_of (take_grant_cases bank.old ticket (share_of bank.old ticket.client)) ≡ None }
    requires shares { AreShares bank.old shares.old }
    ensures refused { IfErr result (λ r. IsRefused None bank.old.room r) }
    ensures unchanged { OnErr result (bank.new ≡ bank.old) }
    ensures receives { OnOk result (ReceivesOne bank.old bank.new) }
    ensures shares { AreShares bank.new shares.new }
{
    let place = ticket.client.number() as usize;
    let share = &mut shares[place];
    take_grant_with(bank, share, ticket)
}

/// A client takes a Grant, with a share that is its own.
fn take_grant_with(bank: &mut Bank, share: &mut Share, ticket: Ticket) -> Result<(), Refusal>
    requires taken { first_of (take_grant_cases bank.old ticket share.old) ≡ None }
    requires own { share.old ≡ share_of bank.old ticket.client }
    ensures refused { IfErr result (λ r. IsRefused None bank.old.room r) }
    ensures unchanged { OnErr result (bank.new ≡ bank.old) }
    ensures receives { OnOk result (ReceivesOne bank.old bank.new) }
    ensures size { bank.new.geometry ≡ bank.old.geometry }
    ensures share { share.new ≡ share_of bank.new ticket.client }
    ensures others { (x : ℕ) → x ≢ ticket.client → share_of bank.new x ≡ share_of bank.old x }
{
    bank.take_grant(ticket, share)?;
    // For the prover: the log is a run.
    let _log = bank.log();
    Ok(())
}

/// A client answers a Probe, with its share.
pub(crate) fn answer_probe(
    bank: &mut Bank,
    shares: &mut [Share],
    ticket: Ticket,
) -> Result<(), Refusal>
    requires taken { first_of (answer_probe_cases bank.old ticket (share_of bank.old ticket.client)) ≡ None }
    requires shares { AreShares bank.old shares.old }
    ensures refused { IfErr result (λ r. IsRefused None bank.old.room r) }
    ensures unchanged { OnErr result (bank.new ≡ bank.old) }
    ensures receives { OnOk result (ReceivesOne bank.old bank.new) }
    ensures shares { AreShares bank.new shares.new }
{
    let place = ticket.client.number() as usize;
    let share = &mut shares[place];
    answer_probe_with(bank, share, ticket)
}

/// A client answers a Probe, with a share that is its own.
fn answer_probe_with(bank: &mut Bank, share: &mut Share, ticket: Ticket) -> Result<(), Refusal>
    requires taken { first_of (answer_probe_cases bank.old ticket share.old) ≡ None }
    requires own { share.old ≡ share_of bank.old ticket.client }
    ensures refused { IfErr result (λ r. IsRefused None bank.old.room r) }
    ensures unchanged { OnErr result (bank.new ≡ bank.old) }
    ensures receives { OnOk result (ReceivesOne bank.old bank.new) }
    ensures size { bank.new.geometry ≡ bank.old.geometry }
    ensures share { share.new ≡ share_of bank.new ticket.client }
    ensures others { (x : ℕ) → x ≢ ticket.client → share_of bank.new x ≡ share_of bank.old x }
{
    bank.answer_probe(ticket, share)?;
    // For the prover: the log is a run.
    let _log = bank.log();
    Ok(())
}
