//! The calls by which a bank comes to rest.

use tl_types::{BlockNo, Ticket};

/// A call of a bank that takes what is under way, or carries out what a register does next. None of them begins
/// anything: no load or store, no Acquire or Release, and no eviction.
#[derive(Clone, Copy, Debug, PartialEq, Eq)]
pub enum Receiving {
    /// Home takes a GrantAck (`Bank::take_grant_ack`).
    TakeGrantAck(Ticket),
    /// A client takes a Grant (`Bank::take_grant`).
    TakeGrant(Ticket),
    /// A client takes a ReleaseAck (`Bank::take_release_ack`).
    TakeReleaseAck(Ticket),
    /// Home takes a Release, or an answer to a Probe (`Bank::take_c`).
    TakeC(Ticket),
    /// A client answers a Probe (`Bank::answer_probe`).
    AnswerProbe(Ticket),
    /// The memory answers a request of a block (`Bank::serve_memory`).
    ServeMemory(BlockNo),
    /// Home takes the memory's answer of a block (`Bank::take_memory`).
    TakeMemory(BlockNo),
    /// The register of a block does what it does next (`Bank::advance`).
    Advance(BlockNo),
    /// Home takes an Acquire, and opens a register for it (`Bank::accept`).
    Accept(Ticket),
}
