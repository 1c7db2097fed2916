//! What holds of logs that are certified.
ghost use Rattle.tl_rules.specs.Ordered.{EveryCertifiedHasOneOrder, EveryCertifiedOrderIsOneMemory};

use tl_protocol::every_run;

/// The accesses of certified logs have one order by stamp and then by client, in which each client's indexes rise;
/// where the logs are runs of banks, that order is one memory's.
pub fn every_order()
    ensures order { EveryCertifiedHasOneOrder }
    ensures memory { EveryCertifiedOrderIsOneMemory }
{
    // For the proof alone: each merge of runs is one memory's.
    every_run();
}
