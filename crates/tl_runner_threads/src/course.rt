//! What a thread may still do.
ghost use Rattle.std.specs.Prelude.{◌≡◌, ◌≤◌, MatchOption};
ghost use Rattle.tl_runner_threads.specs.Course.{Closes, HasLeave, HasNoLeave};

use crate::workers::End;
use tl_tickets::Ringer;

/// What a thread may still do: so many turns, and none once it hears a ring of the stop bell, at which it has a seat.
#[derive(Drop)]
pub struct Course<'x> {
    pub stop: Ringer<'x>,
    pub left: u32,
}

impl<'x> Course<'x> {
    /// So many turns, as long as the stop bell is not rung.
    pub fn new(stop: Ringer<'x>, turns: u32) -> Course<'x>
        ensures { result ≡ record { stop = stop.entry; left = turns } }
    {
        Course { stop, left: turns }
    }

    /// Hears the stop bell before a turn, and takes that turn off those that are left. How the thread ends, where there
    /// is to be no turn: Stalled where none is left, Stopped where the bell was rung.
    pub(crate) fn end_before_turn(&mut self) -> Option<End>
        ensures leave { MatchOption result (HasLeave self.old self.new) (λ end. HasNoLeave self.old end self.new) }
        ensures seen { self.old.stop.seat.seen ≤ self.new.stop.seat.seen }
    {
        if self.left == 0 {
            return Some(End::Stalled);
        }
        if self.stop.heard() != 0 {
            return Some(End::Stopped);
        }
        self.left -= 1;
        None
    }

    /// The seat at the stop bell again. It rings there where the thread stalled or found no memory: then the run's
    /// answer is known.
    pub(crate) fn close(self, end: End) -> Ringer<'x>
        ensures { Closes end self.entry.stop result }
    {
        let mut stop = self.stop;
        match end {
            End::Stalled | End::Memory => {
                stop.ring();
            }
            End::Finished | End::Stopped => {}
        }
        stop
    }
}
