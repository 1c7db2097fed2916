//! A bank comes to rest.
ghost use Rattle.std.specs.Prelude.{◌≡◌, ◌⊎◌, ◌+◌, ◌<◌, List, None, IfErr, IfOk, IsSome, OnErr, OnOk, length};
ghost use Rattle.tl_protocol.specs.declared.event.Event.{Event};
ghost use Rattle.tl_bank_spec.specs.Refusal.{IsRefused, first_of};
ghost use Rattle.tl_bank_spec.specs.Views.{IsQuiet};
ghost use Rattle.tl_bank_rest.specs.Rest.{Receives, ReceivesOne, work_at};
ghost use Rattle.tl_bank_rest.specs.Shares.{AreShares, shares_cases};
ghost use Rattle.tl_bank_rest.specs.Taken.{IsTaken};

use crate::calls::{
    accept, advance, answer_probe, serve_memory, take_c, take_grant, take_grant_ack, take_memory,
    take_release_ack,
};
use crate::next::next_call;
use crate::receiving::Receiving;
use crate::shares::check_shares;
use tl_bank::{Bank, Refusal, Share};

/// Takes what is under way until the bank is quiet, with its clients' shares, one for each in their order. The answer
/// is how many events came: by each something was received, and they are no more than what was under way could bring
/// (`work_at`), of which `tl_protocol::every_run_ends` says how much that is.
///
/// The first of these that holds: `OutOfRange` where there is not one share for each client, or one is not of the
/// client of its place or counts otherwise than that client's copies here; `WrongBank` where one is of another bank;
/// nothing changes then. `Memory` where the log can't grow: what was received before that stays, with the shares as
/// they are then, and a later call goes on.
pub fn drain(bank: &mut Bank, shares: &mut [Share]) -> Result<u64, Refusal>
    ensures refused { IfErr result (λ r. IsRefused (first_of (shares_cases bank.old shares.old)) bank.new.room r) }
    ensures unchanged { IsSome (first_of (shares_cases bank.old shares.old))
        → (bank.new ≡ bank.old) × (shares.new ≡ shares.old) }
    ensures permitted { OnOk result (first_of (shares_cases bank.old shares.old) ≡ None) }
    ensures quiet { OnOk result (IsQuiet bank.new) }
    ensures received { (events : List Event) × Receives bank.old bank.new events }
    ensures count { IfOk result (λ count. length bank.new.log ≡ length bank.old.log + count) }
    ensures shares { first_of (shares_cases bank.old shares.old) ≡ None → AreShares bank.new shares.new }
{
    check_shares(bank, shares)?;
    let before = bank.events();
    receive_all(bank, shares)?;
    let came = bank.events() - before;
    Ok(came as u64)
}

/// Takes what is under way, with the clients' own shares, until the bank is quiet.
pub(crate) fn receive_all(bank: &mut Bank, shares: &mut [Share]) -> Result<(), Refusal>
    requires { AreShares bank.old shares.old }
    ensures refused { IfErr result (λ r. IsRefused None bank.new.room r) }
    ensures quiet { OnOk result (IsQuiet bank.new) }
    ensures received { (events : List Event) × Receives bank.old bank.new events }
    ensures moved { (bank.new ≡ bank.old) ⊎ (work_at bank.new < work_at bank.old) }
    ensures shares { AreShares bank.new shares.new }
{
    while let Some(call) = next_call(bank) {
        receive(bank, shares, call)?;
    }
    Ok(())
}

/// Makes a call that no case refuses, with the client's own share.
fn receive(bank: &mut Bank, shares: &mut [Share], call: Receiving) -> Result<(), Refusal>
    requires taken { IsTaken bank.old call }
    requires shares { AreShares bank.old shares.old }
    ensures refused { IfErr result (λ r. IsRefused None bank.old.room r) }
    ensures unchanged { OnErr result (bank.new ≡ bank.old) }
    ensures receives { OnOk result (ReceivesOne bank.old bank.new) }
    ensures shares { AreShares bank.new shares.new }
{
    match call {
        Receiving::TakeGrantAck(ticket) => take_grant_ack(bank, ticket),
        Receiving::TakeGrant(ticket) => take_grant(bank, shares, ticket),
        Receiving::TakeReleaseAck(ticket) => take_release_ack(bank, ticket),
        Receiving::TakeC(ticket) => take_c(bank, ticket),
        Receiving::AnswerProbe(ticket) => answer_probe(bank, shares, ticket),
        Receiving::ServeMemory(block) => serve_memory(bank, block),
        Receiving::TakeMemory(block) => take_memory(bank, block),
        Receiving::Advance(block) => advance(bank, block),
        Receiving::Accept(ticket) => accept(bank, ticket),
    }
}
