//! What holds after any sequence of calls.
ghost use Rattle.std.specs.Prelude.{IfSome};
ghost use Rattle.tl_trace.specs.NetworkState.{bank_at};
ghost use Rattle.tl_embed.specs.Histories.{EveryHistory, IsRunning};

use crate::cache::Cache;
use tl_trace::Network;
use tl_types::BankNo;

/// Whatever was asked of a cache since it was opened, each of its banks holds what its log leaves, which is a run of
/// the protocol over the image; and no call takes anything back of a log: what a bank's log was between two calls, it
/// begins with.
pub fn every_history(cache: &Cache, number: BankNo)
    ensures { EveryHistory cache.now number }
{
    if let Some(network) = &cache.network {
        runs(network, number);
    }
}

/// A bank's log is a lawful run, and what it leaves is coherent.
fn runs(network: &Network, number: BankNo)
    ensures { IfSome (bank_at network.now number) IsRunning }
{
    if let Some(bank) = network.bank(number) {
        // For the prover: what each bank says of its log.
        let _log = bank.log();
    }
}
