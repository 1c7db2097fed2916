//! What is answered of a record.
ghost use Rattle.std.specs.Prelude.{◌≡◌};
ghost use Rattle.tlwire_closed.specs.declared.answer.Halt.TheVariants as because;

use std::alloc::AllocError;
use tl_rules::CachedCopy;
use tl_types::{Awaited, ClientId};
use tlcheck_rules::Breach;

/// Why a closed set of a block was not found.
#[derive(Clone, Copy, PartialEq, Eq)]
pub enum Reason {
    /// In each block some run comes to the end of the lines, or near it.
    NoContradiction,
    /// A block has more states than are kept.
    TooManyStates,
}

/// Why the work on a block ends early.
#[derive(Clone, Copy, PartialEq, Eq)]
pub(crate) enum Halt {
    /// A run of the block may be complete.
    MayBeComplete,
    /// A limit was met.
    Limit,
    /// A request for memory was refused.
    Memory,
}

impl From<AllocError> for Halt {
    ghost from_gives = { λ _ halt. halt ≡ because.Memory };

    fn from(_error: AllocError) -> Halt {
        Halt::Memory
    }
}

/// Whose line it is that a state does not reach.
#[derive(Drop)]
pub enum Side {
    /// A client's, which holds this of the block in the state, and waits for this.
    Client(ClientId, CachedCopy, Awaited),
    /// The memory's.
    Memory,
}

/// What keeps a state from a line.
#[derive(Drop)]
pub enum Hindrance {
    /// The event of the line breaks this in the state.
    Breach(Breach),
    /// The line at this place, which stands behind, has to be seen first.
    Line(usize),
    /// Another line has to be seen first.
    Order,
}

/// What keeps a state from a line, and whose line it is.
#[derive(Drop)]
pub struct Stop {
    pub side: Side,
    pub hindrance: Hindrance,
}

/// Where each run of a block ends, as far as it is seen so.
#[derive(Drop)]
pub struct Stuck {
    /// The block's number.
    pub block: u32,
    /// The place of the first line that no run reaches.
    pub place: usize,
    /// What keeps each of the states before it from it, each once.
    pub stops: Vec<Stop>,
}

/// What is answered of a record.
#[derive(Drop)]
pub enum Answer {
    /// No lawful run is seen so: each run of a block is stuck.
    Impossible(Stuck),
    /// Nothing is claimed.
    NotDecided(Reason),
}
