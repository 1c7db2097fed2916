//! A bank whose copies are all given up, and whose memory has every byte.
ghost use Rattle.std.specs.Prelude.{◌≡◌, ◌+◌, ◌<◌, ℕ, List, None, true, IfErr, IfOk, IfSome, IsSome, OnOk, length};
ghost use Rattle.tl_protocol.specs.declared.event.Event.{Event};
ghost use Rattle.tl_bank_spec.specs.Effects.{Evicts};
ghost use Rattle.tl_bank_spec.specs.Own.{IsOwn};
ghost use Rattle.tl_bank_spec.specs.Refusal.{IsRefused, first_of};
ghost use Rattle.tl_bank_spec.specs.View.{end_at};
ghost use Rattle.tl_bank_spec.specs.Views.{IsQuiet, is_at_home};
ghost use Rattle.tl_bank_rest.specs.Flushed.{IsFlushed};
ghost use Rattle.tl_bank_rest.specs.Rest.{Receives, work_at};
ghost use Rattle.tl_bank_rest.specs.Shares.{AreShares, shares_cases};

use crate::receive::receive_all;
use crate::shares::check_shares;
use tl_bank::{Bank, Refusal, Share};
use tl_types::BlockNo;

/// Drains a bank, and then sends each block away of which home has a copy: nobody has one then, and the memory has the
/// bytes last stored. The answer is how many events came, as at `drain`.
///
/// `OutOfRange`, `WrongBank` and `Memory` as at `drain`.
pub fn flush(bank: &mut Bank, shares: &mut [Share]) -> Result<u64, Refusal>
    ensures refused { IfErr result (λ r. IsRefused (first_of (shares_cases bank.old shares.old)) bank.new.room r) }
    ensures unchanged { IsSome (first_of (shares_cases bank.old shares.old))
        → (bank.new ≡ bank.old) × (shares.new ≡ shares.old) }
    ensures permitted { OnOk result (first_of (shares_cases bank.old shares.old) ≡ None) }
    ensures quiet { OnOk result (IsQuiet bank.new) }
    ensures flushed { OnOk result
        ((block : ℕ) → IsOwn bank.new.geometry bank.new.number block → IsFlushed bank.new block) }
    ensures received { (events : List Event) × Receives bank.old bank.new events }
    ensures count { IfOk result (λ count. length bank.new.log ≡ length bank.old.log + count) }
    ensures shares { first_of (shares_cases bank.old shares.old) ≡ None → AreShares bank.new shares.new }
{
    check_shares(bank, shares)?;
    let before = bank.events();
    receive_all(bank, shares)?;
    send_all_away(bank, shares)?;
    // For the prover: the log is a run.
    let _log = bank.log();
    let came = bank.events() - before;
    Ok(came as u64)
}

/// Sends all blocks away of which home has a copy, one after another.
fn send_all_away(bank: &mut Bank, shares: &mut [Share]) -> Result<(), Refusal>
    requires quiet { IsQuiet bank.old }
    requires shares { AreShares bank.old shares.old }
    ensures refused { IfErr result (λ r. IsRefused None bank.new.room r) }
    ensures quiet { OnOk result (IsQuiet bank.new) }
    ensures none { OnOk result
        ((block : ℕ) → IsOwn bank.new.geometry bank.new.number block → (end_at bank.new block).home ≡ None) }
    ensures received { (events : List Event) × Receives bank.old bank.new events }
    ensures shares { AreShares bank.new shares.new }
{
    while let Some(block) = first_at_home(bank) {
        send_away(bank, shares, block)?;
    }
    Ok(())
}

/// Sends a block away of which home has a copy.
fn send_away(bank: &mut Bank, shares: &mut [Share], block: BlockNo) -> Result<(), Refusal>
    requires quiet { IsQuiet bank.old }
    requires at_home { is_at_home bank.old block ≡ true }
    requires shares { AreShares bank.old shares.old }
    ensures refused { IfErr result (λ r. IsRefused None bank.new.room r) }
    ensures quiet { OnOk result (IsQuiet bank.new) }
    ensures received { (events : List Event) × Receives bank.old bank.new events }
    ensures moved { OnOk result (work_at bank.new < work_at bank.old) }
    ensures shares { AreShares bank.new shares.new }
{
    evict(bank, block);
    receive_all(bank, shares)
}

/// Opens a register that sends a block away, of a quiet bank whose home has it.
fn evict(bank: &mut Bank, block: BlockNo)
    requires quiet { IsQuiet bank.old }
    requires at_home { is_at_home bank.old block ≡ true }
    ensures { Evicts bank.old bank.new block }
{
    // For the prover: there are registers.
    let _clients = bank.geometry().clients();
    match bank.evict(block) {
        Ok(()) => {}
        Err(_) => unreachable!(),
    }
}

/// The lowest block of which home has a copy.
fn first_at_home(bank: &Bank) -> Option<BlockNo>
    ensures found { IfSome result (λ block. is_at_home bank.now block ≡ true) }
    ensures none { result ≡ None
        → (block : ℕ) → IsOwn bank.now.geometry bank.now.number block → (end_at bank.now block).home ≡ None }
{
    bank.blocks_at_home().as_slice().first().copied()
}
