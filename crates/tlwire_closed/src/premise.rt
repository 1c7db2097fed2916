//! What is known of when the lines of a block were seen.
ghost use Rattle.std.specs.Prelude.{◌≡◌};
ghost use Rattle.tlwire_closed.specs.Premise.{is_free, is_seen_by_sending, is_seen_by_taking, may_end_early};

use tlwire_search::{Way, Wire};

/// What is known of when lines were seen.
#[derive(Clone, Copy, PartialEq, Eq)]
pub struct Premise {
    /// When each message was seen.
    pub way: Way,
    /// How many lines one may stand behind a line that was seen later.
    pub skew: usize,
    /// Whether each message that was sent was seen; else what was sent at the end may be missing.
    pub whole: bool,
    /// Whether nobody watched the memory's link.
    pub memory_unseen: bool,
    /// Whether nobody watched the cores.
    pub cores_unseen: bool,
}

impl Premise {
    /// Whether nobody watched a wire.
    pub(crate) fn is_free(self, wire: &Wire) -> bool
        ensures { result ≡ is_free self wire.now }
    {
        match wire {
            Wire::Link(_, _) => false,
            Wire::Memory(_) => self.memory_unseen,
            Wire::Core(_) => self.cores_unseen,
        }
    }

    /// Whether more may have been sent on a wire than the record has.
    pub(crate) fn may_end_early(self, wire: &Wire) -> bool
        ensures { result ≡ may_end_early self wire.now }
    {
        !self.whole || self.is_free(wire)
    }

    /// Whether a message on a wire that was watched is seen no later than it is taken.
    pub(crate) fn is_seen_by_taking(self, wire: &Wire) -> bool
        ensures { result ≡ is_seen_by_taking self wire.now }
    {
        self.way.closes_at_taking(wire) && !self.is_free(wire)
    }

    /// Whether a message on a wire that was watched is seen no later than it is sent.
    pub(crate) fn is_seen_by_sending(self, wire: &Wire) -> bool
        ensures { result ≡ is_seen_by_sending self wire.now }
    {
        !self.way.closes_at_taking(wire) && !self.is_free(wire)
    }
}
