//! What all threads share, and how each ends.
ghost use Rattle.std.specs.Prelude.{◌≡◌};
ghost use Rattle.tl_runner_threads.specs.Ends.{end_of_turn, is_finished, lacks_memory};

use std::alloc::Global;
use tl_client::{Locked, Turn};

/// How a thread ended.
#[derive(Clone, Copy, Debug, PartialEq, Eq)]
pub enum End {
    /// All clients were done.
    Finished,
    /// It heard the stop bell.
    Stopped,
    /// It made the script's turns before.
    Stalled,
    /// A request for memory was refused.
    Memory,
}

impl End {
    /// Whether all clients were done.
    pub(crate) fn is_finished(self) -> bool
        ensures { result ≡ is_finished self }
    {
        match self {
            End::Finished => true,
            End::Stopped | End::Stalled | End::Memory => false,
        }
    }

    /// Whether a request for memory was refused.
    pub(crate) fn lacks_memory(self) -> bool
        ensures { result ≡ lacks_memory self }
    {
        match self {
            End::Memory => true,
            End::Finished | End::Stopped | End::Stalled => false,
        }
    }
}

/// What all threads share.
#[derive(Drop)]
pub struct Shared<'y, G> {
    pub alloc: Global,
    pub locked: &'y Locked,
    pub gate: &'y G,
    pub clients: u32,
    pub turns: u32,
}

/// What a turn comes to, for the thread that made it: its end, if it was the last.
pub(crate) fn end_after(turn: Turn) -> Option<End>
    ensures { result ≡ end_of_turn turn }
{
    match turn {
        Turn::Finished => Some(End::Finished),
        Turn::Memory => Some(End::Memory),
        Turn::Worked | Turn::Idle => None,
    }
}
