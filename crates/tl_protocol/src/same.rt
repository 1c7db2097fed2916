//! Copies of the messages of a channel and of what a client has of a block, and whether two are equal.
ghost use Rattle.std.specs.Prelude.{◌≡◌, ◌↔◌, IsTrue};

use crate::copy::CachedCopy;
use crate::home::{Line, Outward};
use tl_types::{BlockBytes, Downward, Grow, ProbeAnswer, ProbeCap, Surrender, Upward};

/// A value that can be copied without memory, and compared.
pub trait Same: Drop {
    /// A copy with equal contents, made without memory.
    fn copied(&self) -> Self
        ensures { result ≡ self.now };

    /// Whether two have equal contents.
    fn is_same(&self, other: &Self) -> bool
        ensures { IsTrue result ↔ (self.now ≡ other.now) };
}

impl Same for Grow {
    fn copied(&self) -> Grow {
        *self
    }

    fn is_same(&self, other: &Grow) -> bool {
        *self == *other
    }
}

impl Same for ProbeCap {
    fn copied(&self) -> ProbeCap {
        *self
    }

    fn is_same(&self, other: &ProbeCap) -> bool {
        *self == *other
    }
}

/// Whether two have equal bytes, or both have none.
pub fn are_same_bytes(bytes: &Option<BlockBytes>, other: &Option<BlockBytes>) -> bool
    ensures { IsTrue result ↔ (bytes.now ≡ other.now) }
{
    match (bytes, other) {
        (None, None) => true,
        (Some(bytes), Some(other)) => bytes.as_slice() == other.as_slice(),
        (None, Some(_)) | (Some(_), None) => false,
    }
}

fn are_same_answers(answer: &ProbeAnswer, other: &ProbeAnswer) -> bool
    ensures { IsTrue result ↔ (answer.now ≡ other.now) }
{
    match (answer, other) {
        (ProbeAnswer::TtoB(bytes), ProbeAnswer::TtoB(other))
        | (ProbeAnswer::TtoN(bytes), ProbeAnswer::TtoN(other)) => are_same_bytes(bytes, other),
        (ProbeAnswer::BtoB, ProbeAnswer::BtoB)
        | (ProbeAnswer::BtoN, ProbeAnswer::BtoN)
        | (ProbeAnswer::NtoN, ProbeAnswer::NtoN) => true,
        _ => false,
    }
}

fn are_same_surrenders(given: &Surrender, other: &Surrender) -> bool
    ensures { IsTrue result ↔ (given.now ≡ other.now) }
{
    match (given, other) {
        (Surrender::TtoB(bytes), Surrender::TtoB(other))
        | (Surrender::TtoN(bytes), Surrender::TtoN(other)) => are_same_bytes(bytes, other),
        (Surrender::BtoN, Surrender::BtoN) => true,
        _ => false,
    }
}

impl Same for Upward {
    fn copied(&self) -> Upward {
        self.copied()
    }

    fn is_same(&self, other: &Upward) -> bool {
        match (self, other) {
            (Upward::ProbeAck(answer), Upward::ProbeAck(other)) => are_same_answers(answer, other),
            (Upward::Release(given), Upward::Release(other)) => are_same_surrenders(given, other),
            _ => false,
        }
    }
}

impl Same for Downward {
    fn copied(&self) -> Downward {
        self.copied()
    }

    fn is_same(&self, other: &Downward) -> bool {
        match (self, other) {
            (Downward::Grant(cap, bytes), Downward::Grant(at, other)) => {
                cap == at && are_same_bytes(bytes, other)
            }
            (Downward::ReleaseAck, Downward::ReleaseAck) => true,
            _ => false,
        }
    }
}

impl Same for CachedCopy {
    fn copied(&self) -> CachedCopy {
        match self {
            CachedCopy::Absent => CachedCopy::Absent,
            CachedCopy::Readable(bytes) => CachedCopy::Readable(bytes.copied()),
            CachedCopy::Writable(bytes, dirty) => CachedCopy::Writable(bytes.copied(), *dirty),
        }
    }

    fn is_same(&self, other: &CachedCopy) -> bool {
        match (self, other) {
            (CachedCopy::Absent, CachedCopy::Absent) => true,
            (CachedCopy::Readable(bytes), CachedCopy::Readable(other)) => {
                bytes.as_slice() == other.as_slice()
            }
            (CachedCopy::Writable(bytes, dirty), CachedCopy::Writable(other, stored)) => {
                dirty == stored && bytes.as_slice() == other.as_slice()
            }
            _ => false,
        }
    }
}

impl Same for Line {
    fn copied(&self) -> Line {
        Line {
            bytes: self.bytes.copied(),
            dirty: self.dirty,
        }
    }

    fn is_same(&self, other: &Line) -> bool {
        self.dirty == other.dirty && self.bytes.as_slice() == other.bytes.as_slice()
    }
}

impl Same for Outward {
    fn copied(&self) -> Outward {
        self.copied()
    }

    fn is_same(&self, other: &Outward) -> bool {
        match (self, other) {
            (Outward::Quiet, Outward::Quiet)
            | (Outward::Get, Outward::Get)
            | (Outward::PutAck, Outward::PutAck) => true,
            (Outward::Data(bytes), Outward::Data(other))
            | (Outward::Put(bytes), Outward::Put(other)) => bytes.as_slice() == other.as_slice(),
            _ => false,
        }
    }
}
