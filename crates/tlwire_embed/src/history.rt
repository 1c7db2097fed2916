//! What holds of all verdicts of a judge at a client's pins.
ghost use Rattle.tlwire_embed.specs.Histories.{EveryJudgingAtPins};

/// Whatever lines a judge was handed since it was opened, each verdict says whether the lines so far may be seen at the
/// client's pins, and after the first that may not each is that one again.
pub fn every_judging_at_pins()
    ensures { EveryJudgingAtPins }
{}
