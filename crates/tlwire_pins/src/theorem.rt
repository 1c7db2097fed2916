//! What a client's pins see of a run.
ghost use Rattle.tlwire_pins.specs.Impossible.{EveryLineMayBeSeen};

/// Each line that is seen of a run at a client's pins may be seen there, after the lines of its block before it.
pub fn every_line_may_be_seen()
    ensures { EveryLineMayBeSeen }
{}
