//! The kinds of message, and their codes. All opcodes and parameters are this project's profile of TileLink 1.8,
//! section 6 ("Operations and messages").
ghost use Rattle.std.specs.Prelude.{◌≡◌, Some};
ghost use Rattle.tl_types.specs.Bodies.{has_data};
ghost use Rattle.tl_types.specs.Codes.{channel_of, code_of, grow_param, probe_param, grant_param, prune_param, dirty_param, report_param, HasCode};
ghost use Rattle.tl_types.specs.Decoding.{kind_at, kind_on_a, kind_on_b, kind_on_c, kind_on_d, kind_on_e, plain_at, grow_at, probe_at, grant_at, prune_at, dirty_at, report_at};
ghost use Rattle.tl_types.specs.Text.{kind_text};

use crate::channel::Channel;
use crate::permission::{DirtyPrune, GrantCap, Grow, ProbeCap, ProbeReport, Prune};
use std::fmt;

/// What a message is, with its parameter: just the 27 kinds of the table of codes.
#[derive(Clone, Copy, Debug, PartialEq, Eq)]
pub enum Kind {
    PutFullData,
    Get,
    AcquireBlock(Grow),
    ProbeBlock(ProbeCap),
    ProbeAck(ProbeReport),
    ProbeAckData(DirtyPrune),
    Release(Prune),
    ReleaseData(DirtyPrune),
    AccessAck,
    AccessAckData,
    Grant(GrantCap),
    GrantData(GrantCap),
    ReleaseAck,
    GrantAck,
}

impl Kind {
    /// The channel that it travels on.
    pub fn channel(self) -> Channel
        ensures { result ≡ channel_of self }
    {
        match self {
            Kind::PutFullData | Kind::Get | Kind::AcquireBlock(_) => Channel::A,
            Kind::ProbeBlock(_) => Channel::B,
            Kind::ProbeAck(_) | Kind::ProbeAckData(_) | Kind::Release(_) | Kind::ReleaseData(_) => {
                Channel::C
            }
            Kind::AccessAck
            | Kind::AccessAckData
            | Kind::Grant(_)
            | Kind::GrantData(_)
            | Kind::ReleaseAck => Channel::D,
            Kind::GrantAck => Channel::E,
        }
    }

    /// Whether a message of the kind carries a block's bytes.
    pub fn has_data(self) -> bool
        ensures { result ≡ has_data self }
    {
        match self {
            Kind::PutFullData
            | Kind::ProbeAckData(_)
            | Kind::ReleaseData(_)
            | Kind::AccessAckData
            | Kind::GrantData(_) => true,
            Kind::Get
            | Kind::AcquireBlock(_)
            | Kind::ProbeBlock(_)
            | Kind::ProbeAck(_)
            | Kind::Release(_)
            | Kind::AccessAck
            | Kind::Grant(_)
            | Kind::ReleaseAck
            | Kind::GrantAck => false,
        }
    }
}

impl fmt::Display for Kind {
    ghost output = { λ k. Some (kind_text k) };

    fn fmt<W: fmt::Write>(&self, f: &mut fmt::Formatter<W>) -> fmt::Result {
        match self {
            Kind::PutFullData => f.write_str("PutFullData"),
            Kind::Get => f.write_str("Get"),
            Kind::AcquireBlock(grow) => write!(f, "AcquireBlock {grow}"),
            Kind::ProbeBlock(cap) => write!(f, "ProbeBlock {cap}"),
            Kind::ProbeAck(report) => write!(f, "ProbeAck {report}"),
            Kind::ProbeAckData(prune) => write!(f, "ProbeAckData {prune}"),
            Kind::Release(prune) => write!(f, "Release {prune}"),
            Kind::ReleaseData(prune) => write!(f, "ReleaseData {prune}"),
            Kind::AccessAck => f.write_str("AccessAck"),
            Kind::AccessAckData => f.write_str("AccessAckData"),
            Kind::Grant(cap) => write!(f, "Grant {cap}"),
            Kind::GrantData(cap) => write!(f, "GrantData {cap}"),
            Kind::ReleaseAck => f.write_str("ReleaseAck"),
            Kind::GrantAck => f.write_str("GrantAck"),
        }
    }
}

// A kind that has no parameter has 0 in its place.
fn plain_at(param: u32, kind: Kind) -> Option<Kind>
    ensures { result ≡ plain_at param kind }
{
    if param == 0 { Some(kind) } else { None }
}

/// What the parameter of an AcquireBlock stands for.
pub fn grow_at(param: u32) -> Option<Grow>
    ensures { result ≡ grow_at param }
{
    match param {
        0 => Some(Grow::NtoB),
        1 => Some(Grow::NtoT),
        2 => Some(Grow::BtoT),
        _ => None,
    }
}

/// What the parameter of a ProbeBlock stands for.
pub fn probe_at(param: u32) -> Option<ProbeCap>
    ensures { result ≡ probe_at param }
{
    match param {
        1 => Some(ProbeCap::ToB),
        2 => Some(ProbeCap::ToN),
        _ => None,
    }
}

/// What the parameter of a Grant or a GrantData stands for.
pub fn grant_at(param: u32) -> Option<GrantCap>
    ensures { result ≡ grant_at param }
{
    match param {
        0 => Some(GrantCap::ToT),
        1 => Some(GrantCap::ToB),
        _ => None,
    }
}

/// What the parameter of a Release stands for.
pub fn prune_at(param: u32) -> Option<Prune>
    ensures { result ≡ prune_at param }
{
    match param {
        0 => Some(Prune::TtoB),
        1 => Some(Prune::TtoN),
        2 => Some(Prune::BtoN),
        _ => None,
    }
}

fn dirty_at(param: u32) -> Option<DirtyPrune>
    ensures { result ≡ dirty_at param }
{
    match param {
        0 => Some(DirtyPrune::TtoB),
        1 => Some(DirtyPrune::TtoN),
        _ => None,
    }
}

fn report_at(param: u32) -> Option<ProbeReport>
    ensures { result ≡ report_at param }
{
    match param {
        0 => Some(ProbeReport::TtoB),
        1 => Some(ProbeReport::TtoN),
        2 => Some(ProbeReport::BtoN),
        4 => Some(ProbeReport::BtoB),
        5 => Some(ProbeReport::NtoN),
        _ => None,
    }
}

fn kind_on_a(opcode: u32, param: u32) -> Option<Kind>
    ensures { result ≡ kind_on_a opcode param }
{
    match opcode {
        0 => plain_at(param, Kind::PutFullData),
        4 => plain_at(param, Kind::Get),
        6 => grow_at(param).map(Kind::AcquireBlock),
        _ => None,
    }
}

/// The kind on channel B that an opcode and a parameter stand for.
pub fn kind_on_b(opcode: u32, param: u32) -> Option<Kind>
    ensures { result ≡ kind_on_b opcode param }
{
    match opcode {
        6 => probe_at(param).map(Kind::ProbeBlock),
        _ => None,
    }
}

/// The kind on channel C that an opcode and a parameter stand for.
pub fn kind_on_c(opcode: u32, param: u32) -> Option<Kind>
    ensures { result ≡ kind_on_c opcode param }
{
    match opcode {
        4 => report_at(param).map(Kind::ProbeAck),
        5 => dirty_at(param).map(Kind::ProbeAckData),
        6 => prune_at(param).map(Kind::Release),
        7 => dirty_at(param).map(Kind::ReleaseData),
        _ => None,
    }
}

fn kind_on_d(opcode: u32, param: u32) -> Option<Kind>
    ensures { result ≡ kind_on_d opcode param }
{
    match opcode {
        0 => plain_at(param, Kind::AccessAck),
        1 => plain_at(param, Kind::AccessAckData),
        4 => grant_at(param).map(Kind::Grant),
        5 => grant_at(param).map(Kind::GrantData),
        6 => plain_at(param, Kind::ReleaseAck),
        _ => None,
    }
}

/// The kind on channel E that an opcode and a parameter stand for.
pub fn kind_on_e(opcode: u32, param: u32) -> Option<Kind>
    ensures { result ≡ kind_on_e opcode param }
{
    match opcode {
        0 => plain_at(param, Kind::GrantAck),
        _ => None,
    }
}

/// The kind that a channel, an opcode and a parameter stand for: the one that `Kind::channel` and `code` give them for,
/// and none where they give them for no kind.
pub fn decode(channel: Channel, opcode: u8, param: u8) -> Option<Kind>
    ensures own { (kind : Kind) → HasCode kind channel opcode param → result ≡ Some kind }
    ensures each { (kind : Kind) → result ≡ Some kind → HasCode kind channel opcode param }
{
    kind_at(channel, opcode as u32, param as u32)
}

/// The same, of numbers that may be above a byte's.
#[tactic(auto, unfolding(crate::specs::Decoding::kind_at))]
pub fn kind_at(channel: Channel, opcode: u32, param: u32) -> Option<Kind>
    ensures { result ≡ kind_at channel opcode param }
{
    match channel {
        Channel::A => kind_on_a(opcode, param),
        Channel::B => kind_on_b(opcode, param),
        Channel::C => kind_on_c(opcode, param),
        Channel::D => kind_on_d(opcode, param),
        Channel::E => kind_on_e(opcode, param),
    }
}

fn grow_param(grow: Grow) -> u8
    ensures { result ≡ grow_param grow }
{
    match grow {
        Grow::NtoB => 0,
        Grow::NtoT => 1,
        Grow::BtoT => 2,
    }
}

fn probe_param(cap: ProbeCap) -> u8
    ensures { result ≡ probe_param cap }
{
    match cap {
        ProbeCap::ToB => 1,
        ProbeCap::ToN => 2,
    }
}

fn grant_param(cap: GrantCap) -> u8
    ensures { result ≡ grant_param cap }
{
    match cap {
        GrantCap::ToT => 0,
        GrantCap::ToB => 1,
    }
}

fn prune_param(prune: Prune) -> u8
    ensures { result ≡ prune_param prune }
{
    match prune {
        Prune::TtoB => 0,
        Prune::TtoN => 1,
        Prune::BtoN => 2,
    }
}

fn dirty_param(prune: DirtyPrune) -> u8
    ensures { result ≡ dirty_param prune }
{
    match prune {
        DirtyPrune::TtoB => 0,
        DirtyPrune::TtoN => 1,
    }
}

fn report_param(report: ProbeReport) -> u8
    ensures { result ≡ report_param report }
{
    match report {
        ProbeReport::TtoB => 0,
        ProbeReport::TtoN => 1,
        ProbeReport::BtoN => 2,
        ProbeReport::BtoB => 4,
        ProbeReport::NtoN => 5,
    }
}

/// A kind's opcode and parameter.
pub fn code(kind: Kind) -> (u8, u8)
    ensures { result ≡ code_of kind }
{
    match kind {
        Kind::PutFullData => (0, 0),
        Kind::Get => (4, 0),
        Kind::AcquireBlock(grow) => (6, grow_param(grow)),
        Kind::ProbeBlock(cap) => (6, probe_param(cap)),
        Kind::ProbeAck(report) => (4, report_param(report)),
        Kind::ProbeAckData(prune) => (5, dirty_param(prune)),
        Kind::Release(prune) => (6, prune_param(prune)),
        Kind::ReleaseData(prune) => (7, dirty_param(prune)),
        Kind::AccessAck => (0, 0),
        Kind::AccessAckData => (1, 0),
        Kind::Grant(cap) => (4, grant_param(cap)),
        Kind::GrantData(cap) => (5, grant_param(cap)),
        Kind::ReleaseAck => (6, 0),
        Kind::GrantAck => (0, 0),
    }
}
