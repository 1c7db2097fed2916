//! What home has of a block, and what passes between home and the memory.
ghost use Rattle.std.specs.Prelude.{◌≡◌, ◌↔◌, IsTrue};
ghost use Rattle.tl_protocol.specs.Home.{IsRequest, IsData};

use tl_types::{BlockBytes, ClientId, Grow};

/// Home's copy.
#[derive(Debug, Drop)]
pub struct Line {
    pub bytes: BlockBytes,
    /// Whether the memory may have other bytes.
    pub dirty: bool,
}

/// The Acquire that home serves.
#[derive(Clone, Copy, Debug, PartialEq, Eq)]
pub struct Accepted {
    pub client: ClientId,
    pub grow: Grow,
}

/// What passes between home and the memory (TL-UH: TileLink 1.8, sections 7 and 8).
#[derive(Debug, Drop)]
pub enum Outward {
    /// Nothing.
    Quiet,
    /// A Get on its way to the memory.
    Get,
    /// The AccessAckData that answers it.
    Data(BlockBytes),
    /// A PutFullData on its way to the memory.
    Put(BlockBytes),
    /// The AccessAck that answers it.
    PutAck,
}

impl Outward {
    /// Whether nothing passes.
    pub fn is_quiet(&self) -> bool
        ensures { IsTrue result ↔ (self.now ≡ Outward.Quiet) }
    {
        matches!(self, Outward::Quiet)
    }

    /// Whether the memory has a request to answer.
    pub fn may_serve(&self) -> bool
        ensures { IsTrue result ↔ IsRequest self.now }
    {
        matches!(self, Outward::Get | Outward::Put(_))
    }

    /// Whether the bytes of a Get wait for home.
    pub fn is_data(&self) -> bool
        ensures { IsTrue result ↔ IsData self.now }
    {
        matches!(self, Outward::Data(_))
    }

    /// Whether the acknowledgement of a Put waits for home.
    pub fn is_put_ack(&self) -> bool
        ensures { IsTrue result ↔ (self.now ≡ Outward.PutAck) }
    {
        matches!(self, Outward::PutAck)
    }

    /// A copy, with bytes of its own.
    pub fn copied(&self) -> Outward
        ensures { result ≡ self.now }
    {
        match self {
            Outward::Quiet => Outward::Quiet,
            Outward::Get => Outward::Get,
            Outward::Data(bytes) => Outward::Data(bytes.copied()),
            Outward::Put(bytes) => Outward::Put(bytes.copied()),
            Outward::PutAck => Outward::PutAck,
        }
    }
}
