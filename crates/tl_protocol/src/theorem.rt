//! What holds of each list of events that is a run.
ghost use Rattle.tl_protocol.specs.Awaiting.{EveryWaitIsHeard};
ghost use Rattle.tl_protocol.specs.Kept.{EveryRunKeepsCopies, EveryRunReadsLast};
ghost use Rattle.tl_protocol.specs.Example.{EachKindIsARun};
ghost use Rattle.tl_protocol.specs.Ledger.{EveryLedgerAddsUp};
ghost use Rattle.tl_protocol.specs.Moves.{EveryBlockMoves};
ghost use Rattle.tl_protocol.specs.OneMemory.{EveryMergeIsOneMemory};
ghost use Rattle.tl_protocol.specs.Pending.{EveryAnswerIsWithin, EveryMessageLeadsDown, EveryRunKeepsMessages, EveryRunKeepsService};
ghost use Rattle.tl_protocol.specs.Probes.{EveryAnswerIsToItsProbe, LastProbeGrowsByOne};
ghost use Rattle.tl_protocol.specs.Runs.{RunsGrowByOne};
ghost use Rattle.tl_protocol.specs.Merges.{EveryMergeIsARun, RunsAreOfBlocks};
ghost use Rattle.tl_protocol.specs.Sizes.{EveryRunKeepsSizes};
ghost use Rattle.tl_protocol.specs.Work.{EveryReceivingEventLowers, EveryRunEnds, EveryRunOwes};
ghost use Rattle.tl_protocol.specs.Written.{EveryBlockIsWritten};

/// Every run is coherent: at most one client may write a block and then no other may read it, every copy stands in the
/// directory and at home, and every copy and every load has the bytes last stored.
pub fn every_run()
    ensures copies { EveryRunKeepsCopies }
    ensures bytes { EveryRunReadsLast }
    ensures grows { RunsGrowByOne }
    ensures blocks { RunsAreOfBlocks }
    ensures merges { EveryMergeIsARun }
    ensures ledger { EveryLedgerAddsUp }
    ensures memory { EveryMergeIsOneMemory }
{}

/// Every run keeps the bytes of each block whole, the messages of each client in order, and one Acquire served at a
/// time.
pub fn every_block()
    ensures sizes { EveryRunKeepsSizes }
    ensures messages { EveryRunKeepsMessages }
    ensures service { EveryRunKeepsService }
    ensures downward { EveryMessageLeadsDown }
    ensures answers { EveryAnswerIsWithin }
    ensures probes { EveryAnswerIsToItsProbe }
    ensures last_probe { LastProbeGrowsByOne }
{}

/// Every run ends but for what its clients start: the events other than Load, Store, SendAcquire and SendRelease are at
/// most 16 for each SendAcquire and 2 for each SendRelease, for every number of clients and whatever home does by the
/// rules.
pub fn every_run_ends()
    ensures lowers { EveryReceivingEventLowers }
    ensures owes { EveryRunOwes }
    ensures ends { EveryRunEnds }
{}

/// In every run what a client waits for is under way: its Acquire is on A, or home serves it, or the Grant is on D; its
/// Release is on C, or the ReleaseAck is first on D.
pub fn every_wait()
    ensures heard { EveryWaitIsHeard }
{}

/// In every run a block that is not quiet permits an event that moves it on, whatever home has done: none of those that
/// a client starts, no Probe that no Acquire needs, and no giving up of home's copy.
pub fn every_move()
    ensures moves { EveryBlockMoves }
{}

/// In every run the memory has the bytes last stored of each block that home has no copy of, but for a Put that is on its
/// way with them.
pub fn every_writeback()
    ensures written { EveryBlockIsWritten }
{}

/// There is a run with each kind of event.
pub fn some_run()
    ensures { EachKindIsARun }
{}
