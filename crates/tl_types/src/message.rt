//! The messages between home and a client, and what they carry (TileLink 1.8, section 9).
ghost use Rattle.std.specs.Prelude.{◌≡◌};
ghost use Rattle.std.specs.Option.{option_map};
ghost use Rattle.tl_types.specs.Parameters.{report_of, probe_cap};
ghost use Rattle.tl_types.specs.Message.{probe_answer, surrender, answer_report, answer_bytes, surrender_prune, surrender_bytes, upward_to, upward_bytes, is_probe_ack, is_grant};
ghost use Rattle.tl_types.specs.Bodies.{answer_kind, surrender_kind, upward_kind, downward_kind, body_kind, body_bytes, downward_bytes};

use crate::bytes::BlockBytes;
use crate::kind::Kind;
use crate::names::BlockNo;
use crate::permission::{DirtyPrune, GrantCap, Grow, Perm, ProbeCap, ProbeReport, Prune, Report};

/// What a client answers to a Probe: what its copy was and is left with, with the bytes where it was dirty.
#[derive(Debug, Drop)]
pub enum ProbeAnswer {
    TtoB(Option<BlockBytes>),
    TtoN(Option<BlockBytes>),
    BtoB,
    BtoN,
    NtoN,
}

/// What a client gives up by a Release, with the bytes where its copy was dirty.
#[derive(Debug, Drop)]
pub enum Surrender {
    TtoB(Option<BlockBytes>),
    TtoN(Option<BlockBytes>),
    BtoN,
}

/// A message on channel C, from a client to home: a ProbeAck or ProbeAckData, a Release or ReleaseData.
#[derive(Debug, Drop)]
pub enum Upward {
    ProbeAck(ProbeAnswer),
    Release(Surrender),
}

/// A message on channel D, from home to a client: a Grant or, with home's bytes, a GrantData; or a ReleaseAck.
#[derive(Debug, Drop)]
pub enum Downward {
    Grant(GrantCap, Option<BlockBytes>),
    ReleaseAck,
}

/// What a message says.
#[derive(Debug, Drop)]
pub enum Body {
    /// On channel A.
    AcquireBlock(Grow),
    /// On channel B.
    ProbeBlock(ProbeCap),
    /// On channel C.
    Upward(Upward),
    /// On channel D.
    Downward(Downward),
    /// On channel E.
    GrantAck,
}

/// A message with the block that it speaks of.
#[derive(Debug, Drop)]
pub struct Message {
    pub block: BlockNo,
    pub body: Body,
}

impl ProbeAnswer {
    /// What a copy with `perm` answers to a Probe, with `bytes` where it gives up Tip.
    pub fn of(perm: Perm, cap: ProbeCap, bytes: Option<BlockBytes>) -> ProbeAnswer
        ensures value { result ≡ probe_answer perm cap bytes }
        ensures report { answer_report result ≡ report_of perm (probe_cap cap) }
    {
        match (perm, cap) {
            (Perm::None, _) => ProbeAnswer::NtoN,
            (Perm::Branch, ProbeCap::ToB) => ProbeAnswer::BtoB,
            (Perm::Branch, ProbeCap::ToN) => ProbeAnswer::BtoN,
            (Perm::Tip, ProbeCap::ToB) => ProbeAnswer::TtoB(bytes),
            (Perm::Tip, ProbeCap::ToN) => ProbeAnswer::TtoN(bytes),
        }
    }

    /// Its kind.
    pub fn kind(&self) -> Kind
        ensures { result ≡ answer_kind self.now }
    {
        match self {
            ProbeAnswer::TtoB(None) => Kind::ProbeAck(ProbeReport::TtoB),
            ProbeAnswer::TtoB(Some(_)) => Kind::ProbeAckData(DirtyPrune::TtoB),
            ProbeAnswer::TtoN(None) => Kind::ProbeAck(ProbeReport::TtoN),
            ProbeAnswer::TtoN(Some(_)) => Kind::ProbeAckData(DirtyPrune::TtoN),
            ProbeAnswer::BtoB => Kind::ProbeAck(ProbeReport::BtoB),
            ProbeAnswer::BtoN => Kind::ProbeAck(ProbeReport::BtoN),
            ProbeAnswer::NtoN => Kind::ProbeAck(ProbeReport::NtoN),
        }
    }

    /// What it reports.
    pub fn report(&self) -> Report
        ensures { result ≡ answer_report self.now }
    {
        match self {
            ProbeAnswer::TtoB(_) => Report::TtoB,
            ProbeAnswer::TtoN(_) => Report::TtoN,
            ProbeAnswer::BtoB => Report::BtoB,
            ProbeAnswer::BtoN => Report::BtoN,
            ProbeAnswer::NtoN => Report::NtoN,
        }
    }

    /// The bytes that go along.
    pub fn bytes(&self) -> Option<&BlockBytes>
        ensures { option_map (λ b. b.now) result ≡ answer_bytes self.now }
    {
        match self {
            ProbeAnswer::TtoB(bytes) | ProbeAnswer::TtoN(bytes) => bytes.as_ref(),
            ProbeAnswer::BtoB | ProbeAnswer::BtoN | ProbeAnswer::NtoN => None,
        }
    }

    /// The bytes that went along.
    pub fn into_bytes(self) -> Option<BlockBytes>
        ensures { result ≡ answer_bytes self }
    {
        match self {
            ProbeAnswer::TtoB(bytes) | ProbeAnswer::TtoN(bytes) => bytes,
            ProbeAnswer::BtoB | ProbeAnswer::BtoN | ProbeAnswer::NtoN => None,
        }
    }

    /// A copy, with bytes of its own.
    pub fn copied(&self) -> ProbeAnswer
        ensures { result ≡ self.now }
    {
        match self {
            ProbeAnswer::TtoB(bytes) => ProbeAnswer::TtoB(copied_bytes(bytes)),
            ProbeAnswer::TtoN(bytes) => ProbeAnswer::TtoN(copied_bytes(bytes)),
            ProbeAnswer::BtoB => ProbeAnswer::BtoB,
            ProbeAnswer::BtoN => ProbeAnswer::BtoN,
            ProbeAnswer::NtoN => ProbeAnswer::NtoN,
        }
    }
}

impl Surrender {
    /// What a Release gives up, with `bytes` where it gives up Tip.
    pub fn of(prune: Prune, bytes: Option<BlockBytes>) -> Surrender
        ensures value { result ≡ surrender prune bytes }
        ensures prune { surrender_prune result ≡ prune }
    {
        match prune {
            Prune::TtoB => Surrender::TtoB(bytes),
            Prune::TtoN => Surrender::TtoN(bytes),
            Prune::BtoN => Surrender::BtoN,
        }
    }

    /// Its kind.
    pub fn kind(&self) -> Kind
        ensures { result ≡ surrender_kind self.now }
    {
        match self {
            Surrender::TtoB(None) => Kind::Release(Prune::TtoB),
            Surrender::TtoB(Some(_)) => Kind::ReleaseData(DirtyPrune::TtoB),
            Surrender::TtoN(None) => Kind::Release(Prune::TtoN),
            Surrender::TtoN(Some(_)) => Kind::ReleaseData(DirtyPrune::TtoN),
            Surrender::BtoN => Kind::Release(Prune::BtoN),
        }
    }

    /// What is given up.
    pub fn prune(&self) -> Prune
        ensures { result ≡ surrender_prune self.now }
    {
        match self {
            Surrender::TtoB(_) => Prune::TtoB,
            Surrender::TtoN(_) => Prune::TtoN,
            Surrender::BtoN => Prune::BtoN,
        }
    }

    /// The bytes that go along.
    pub fn bytes(&self) -> Option<&BlockBytes>
        ensures { option_map (λ b. b.now) result ≡ surrender_bytes self.now }
    {
        match self {
            Surrender::TtoB(bytes) | Surrender::TtoN(bytes) => bytes.as_ref(),
            Surrender::BtoN => None,
        }
    }

    /// The bytes that went along.
    pub fn into_bytes(self) -> Option<BlockBytes>
        ensures { result ≡ surrender_bytes self }
    {
        match self {
            Surrender::TtoB(bytes) | Surrender::TtoN(bytes) => bytes,
            Surrender::BtoN => None,
        }
    }

    /// A copy, with bytes of its own.
    pub fn copied(&self) -> Surrender
        ensures { result ≡ self.now }
    {
        match self {
            Surrender::TtoB(bytes) => Surrender::TtoB(copied_bytes(bytes)),
            Surrender::TtoN(bytes) => Surrender::TtoN(copied_bytes(bytes)),
            Surrender::BtoN => Surrender::BtoN,
        }
    }
}

impl Upward {
    /// Whether it answers a Probe.
    pub fn is_probe_ack(&self) -> bool
        ensures { result ≡ is_probe_ack self.now }
    {
        matches!(self, Upward::ProbeAck(_))
    }

    /// Its kind.
    pub fn kind(&self) -> Kind
        ensures { result ≡ upward_kind self.now }
    {
        match self {
            Upward::ProbeAck(answer) => answer.kind(),
            Upward::Release(surrender) => surrender.kind(),
        }
    }

    /// The permission that the client is left with.
    pub fn to(&self) -> Perm
        ensures { result ≡ upward_to self.now }
    {
        match self {
            Upward::ProbeAck(answer) => answer.report().to(),
            Upward::Release(surrender) => surrender.prune().to(),
        }
    }

    /// The bytes that go along.
    pub fn bytes(&self) -> Option<&BlockBytes>
        ensures { option_map (λ b. b.now) result ≡ upward_bytes self.now }
    {
        match self {
            Upward::ProbeAck(answer) => answer.bytes(),
            Upward::Release(surrender) => surrender.bytes(),
        }
    }

    /// The bytes that went along.
    pub fn into_bytes(self) -> Option<BlockBytes>
        ensures { result ≡ upward_bytes self }
    {
        match self {
            Upward::ProbeAck(answer) => answer.into_bytes(),
            Upward::Release(surrender) => surrender.into_bytes(),
        }
    }

    /// A copy, with bytes of its own.
    pub fn copied(&self) -> Upward
        ensures { result ≡ self.now }
    {
        match self {
            Upward::ProbeAck(answer) => Upward::ProbeAck(answer.copied()),
            Upward::Release(surrender) => Upward::Release(surrender.copied()),
        }
    }
}

impl Downward {
    /// Whether it is a Grant.
    pub fn is_grant(&self) -> bool
        ensures { result ≡ is_grant self.now }
    {
        matches!(self, Downward::Grant(_, _))
    }

    /// Its kind.
    pub fn kind(&self) -> Kind
        ensures { result ≡ downward_kind self.now }
    {
        match self {
            Downward::Grant(cap, None) => Kind::Grant(*cap),
            Downward::Grant(cap, Some(_)) => Kind::GrantData(*cap),
            Downward::ReleaseAck => Kind::ReleaseAck,
        }
    }

    /// The bytes that go along.
    pub fn bytes(&self) -> Option<&BlockBytes>
        ensures { option_map (λ b. b.now) result ≡ downward_bytes self.now }
    {
        match self {
            Downward::Grant(_, bytes) => bytes.as_ref(),
            Downward::ReleaseAck => None,
        }
    }

    /// A copy, with bytes of its own.
    pub fn copied(&self) -> Downward
        ensures { result ≡ self.now }
    {
        match self {
            Downward::Grant(cap, bytes) => Downward::Grant(*cap, copied_bytes(bytes)),
            Downward::ReleaseAck => Downward::ReleaseAck,
        }
    }
}

impl Body {
    /// Its kind.
    pub fn kind(&self) -> Kind
        ensures { result ≡ body_kind self.now }
    {
        match self {
            Body::AcquireBlock(grow) => Kind::AcquireBlock(*grow),
            Body::ProbeBlock(cap) => Kind::ProbeBlock(*cap),
            Body::Upward(message) => message.kind(),
            Body::Downward(message) => message.kind(),
            Body::GrantAck => Kind::GrantAck,
        }
    }

    /// The bytes that go along.
    pub fn bytes(&self) -> Option<&BlockBytes>
        ensures { option_map (λ b. b.now) result ≡ body_bytes self.now }
    {
        match self {
            Body::AcquireBlock(_) | Body::ProbeBlock(_) | Body::GrantAck => None,
            Body::Upward(message) => message.bytes(),
            Body::Downward(message) => message.bytes(),
        }
    }

    /// A copy, with bytes of its own.
    pub fn copied(&self) -> Body
        ensures { result ≡ self.now }
    {
        match self {
            Body::AcquireBlock(grow) => Body::AcquireBlock(*grow),
            Body::ProbeBlock(cap) => Body::ProbeBlock(*cap),
            Body::Upward(message) => Body::Upward(message.copied()),
            Body::Downward(message) => Body::Downward(message.copied()),
            Body::GrantAck => Body::GrantAck,
        }
    }
}

impl Message {
    /// A copy, with bytes of its own.
    pub fn copied(&self) -> Message
        ensures { result ≡ self.now }
    {
        Message {
            block: self.block,
            body: self.body.copied(),
        }
    }
}

/// A copy of the bytes, where there are some.
fn copied_bytes(bytes: &Option<BlockBytes>) -> Option<BlockBytes>
    ensures { result ≡ bytes.now }
{
    match bytes {
        Some(bytes) => Some(bytes.copied()),
        None => None,
    }
}
