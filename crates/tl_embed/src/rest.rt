//! All banks at rest, one after another.
ghost use Rattle.std.specs.Prelude.{MatchResult};
ghost use Rattle.tl_bank_spec.specs.Views.{IsQuiet};
ghost use Rattle.tl_trace.specs.Rests.{IsAway};
ghost use Rattle.tl_embed.specs.Rests.{AllRest, AreCutShort, Rests};

use crate::answer::Answer;
use crate::tell::tell_number;
use tl_bank::Refusal;
use tl_trace::Network;
use tl_types::BankNo;

/// Takes what is under way until every bank is quiet, and tells how many events came; 14 where there was no memory for
/// one more: what was received before that stays. It stands apart from the steps.
#[inline(never)]
pub fn drain(network: &mut Network, told: &mut Answer)
    ensures { Rests IsQuiet network.old network.new told.new }
{
    match drain_all(network) {
        Ok(count) => tell_number(count, told),
        Err(_) => told.set_status(14),
    }
}

/// Drains every bank, one after another.
fn drain_all(network: &mut Network) -> Result<u64, Refusal>
    ensures { MatchResult result (λ count. AllRest IsQuiet count network.old network.new)
        (λ _. AreCutShort IsQuiet network.old network.new) }
{
    let mut count: u64 = 0;
    for number in 0..network.geometry().banks() {
        count = count.saturating_add(network.drain(BankNo::new(number))?);
    }
    Ok(count)
}

/// Drains every bank, and sends each block away of which its home has a copy, bank after bank: nobody has a copy then,
/// and the memory has the bytes last stored. It tells what `drain` does.
#[inline(never)]
pub fn flush(network: &mut Network, told: &mut Answer)
    ensures { Rests IsAway network.old network.new told.new }
{
    match flush_all(network) {
        Ok(count) => tell_number(count, told),
        Err(_) => told.set_status(14),
    }
}

/// Flushes every bank, one after another.
fn flush_all(network: &mut Network) -> Result<u64, Refusal>
    ensures { MatchResult result (λ count. AllRest IsAway count network.old network.new)
        (λ _. AreCutShort IsAway network.old network.new) }
{
    let mut count: u64 = 0;
    for number in 0..network.geometry().banks() {
        count = count.saturating_add(network.flush(BankNo::new(number))?);
    }
    Ok(count)
}
