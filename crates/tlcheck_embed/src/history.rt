//! What holds of all verdicts of a judge.
ghost use Rattle.tlcheck_embed.specs.Histories.{EveryJudging};

/// Whatever entries a judge was handed since it was opened, each verdict is what the protocol says of the record so
/// far, and after the first that is not permitted each is that one again.
pub fn every_judging()
    ensures { EveryJudging }
{}
