//! The kind of a message, by its codes.
ghost use Rattle.std.specs.Prelude.{◌≡◌};
ghost use Rattle.tlwire_record.specs.Code.{is_on_link, kind_of, name_at, name_both_ways, name_from_client, name_from_home, name_if, name_of, role_of};

use crate::line::Link;
use tl_types::{Channel, Kind, kind_at};
use tlcheck_record::{Cause, MessageName};

/// A name, where a test is met.
fn name_if(is_met: bool, name: MessageName) -> Option<MessageName>
    ensures { result ≡ name_if is_met name }
{
    if is_met { Some(name) } else { None }
}

/// The name of an opcode on A or B, with the two names of the last opcodes.
fn name_both_ways(
    block: MessageName,
    perm: MessageName,
    opcode: u32,
    param: u32,
) -> Option<MessageName>
    ensures { result ≡ name_both_ways block perm opcode param }
{
    match opcode {
        0 => name_if(param == 0, MessageName::PutFullData),
        1 => name_if(param == 0, MessageName::PutPartialData),
        2 => name_if(param <= 4, MessageName::ArithmeticData),
        3 => name_if(param <= 3, MessageName::LogicalData),
        4 => name_if(param == 0, MessageName::Get),
        5 => name_if(param <= 1, MessageName::Intent),
        6 => name_if(param <= 2, block),
        7 => name_if(param <= 2, perm),
        _ => None,
    }
}

/// The name of an opcode on C.
fn name_from_client(opcode: u32, param: u32) -> Option<MessageName>
    ensures { result ≡ name_from_client opcode param }
{
    match opcode {
        0 => name_if(param == 0, MessageName::AccessAck),
        1 => name_if(param == 0, MessageName::AccessAckData),
        2 => name_if(param == 0, MessageName::HintAck),
        4 => name_if(param <= 5, MessageName::ProbeAck),
        5 => name_if(param <= 5, MessageName::ProbeAckData),
        6 => name_if(param <= 5, MessageName::Release),
        7 => name_if(param <= 5, MessageName::ReleaseData),
        _ => None,
    }
}

/// The name of an opcode on D.
fn name_from_home(opcode: u32, param: u32) -> Option<MessageName>
    ensures { result ≡ name_from_home opcode param }
{
    match opcode {
        0 => name_if(param == 0, MessageName::AccessAck),
        1 => name_if(param == 0, MessageName::AccessAckData),
        2 => name_if(param == 0, MessageName::HintAck),
        4 => name_if(param <= 2, MessageName::Grant),
        5 => name_if(param <= 2, MessageName::GrantData),
        6 => name_if(param == 0, MessageName::ReleaseAck),
        _ => None,
    }
}

/// The name of the message of TileLink with these codes, if there is one.
fn name_at(channel: Channel, opcode: u32, param: u32) -> Option<MessageName>
    ensures { result ≡ name_at channel opcode param }
{
    match channel {
        Channel::A => name_both_ways(
            MessageName::AcquireBlock,
            MessageName::AcquirePerm,
            opcode,
            param,
        ),
        Channel::B => name_both_ways(
            MessageName::ProbeBlock,
            MessageName::ProbePerm,
            opcode,
            param,
        ),
        Channel::C => name_from_client(opcode, param),
        Channel::D => name_from_home(opcode, param),
        Channel::E => name_if(opcode == 0 && param == 0, MessageName::GrantAck),
    }
}

/// The name of a kind.
pub(crate) fn name_of(kind: &Kind) -> MessageName
    ensures { result ≡ name_of kind.now }
{
    match kind {
        Kind::PutFullData => MessageName::PutFullData,
        Kind::Get => MessageName::Get,
        Kind::AcquireBlock(_) => MessageName::AcquireBlock,
        Kind::ProbeBlock(_) => MessageName::ProbeBlock,
        Kind::ProbeAck(_) => MessageName::ProbeAck,
        Kind::ProbeAckData(_) => MessageName::ProbeAckData,
        Kind::Release(_) => MessageName::Release,
        Kind::ReleaseData(_) => MessageName::ReleaseData,
        Kind::AccessAck => MessageName::AccessAck,
        Kind::AccessAckData => MessageName::AccessAckData,
        Kind::Grant(_) => MessageName::Grant,
        Kind::GrantData(_) => MessageName::GrantData,
        Kind::ReleaseAck => MessageName::ReleaseAck,
        Kind::GrantAck => MessageName::GrantAck,
    }
}

/// The kind that a channel, an opcode and a parameter stand for. Code where TileLink has no such message, Profile where
/// it has one that this project leaves out.
#[tactic(auto, unfolding(crate::specs::Code::kind_of))]
pub(crate) fn kind_of(channel: Channel, opcode: u32, param: u32) -> Result<Kind, Cause>
    ensures { result ≡ kind_of channel opcode param }
{
    if opcode > 7 || param > 7 {
        return Err(Cause::Code);
    }
    match kind_at(channel, opcode, param) {
        Some(kind) => Ok(kind),
        None => match name_at(channel, opcode, param) {
            Some(name) => Err(Cause::Profile(name, param)),
            None => Err(Cause::Code),
        },
    }
}

/// Whether a kind travels on a link: a Get, a PutFullData and their answers on the memory's, all others on a client's.
pub(crate) fn is_on_link(kind: &Kind, link: &Link) -> bool
    ensures { result ≡ is_on_link kind.now link.now }
{
    let is_memory = match link {
        Link::Memory => true,
        Link::Client(_) => false,
    };
    match kind {
        Kind::Get | Kind::PutFullData | Kind::AccessAck | Kind::AccessAckData => is_memory,
        _ => !is_memory,
    }
}

/// What a message does to what is open on its link.
#[derive(Clone, Copy, PartialEq, Eq)]
pub enum Role {
    /// It opens a request by its source: AcquireBlock, Get, PutFullData.
    Request,
    /// It opens a release by its source: Release, ReleaseData.
    Release,
    /// It opens and closes nothing, and has its address: ProbeBlock, ProbeAck, ProbeAckData.
    Alone,
    /// It closes the request of its source, and opens a grant by its sink: Grant, GrantData.
    Grant,
    /// It closes the request of its source: AccessAck, AccessAckData.
    Answer,
    /// It closes the release of its source: ReleaseAck.
    ReleaseAnswer,
    /// It closes the grant of its sink: GrantAck.
    End,
}

/// A kind's role.
pub(crate) fn role_of(kind: &Kind) -> Role
    ensures { result ≡ role_of kind.now }
{
    match kind {
        Kind::AcquireBlock(_) | Kind::Get | Kind::PutFullData => Role::Request,
        Kind::Release(_) | Kind::ReleaseData(_) => Role::Release,
        Kind::ProbeBlock(_) | Kind::ProbeAck(_) | Kind::ProbeAckData(_) => Role::Alone,
        Kind::Grant(_) | Kind::GrantData(_) => Role::Grant,
        Kind::AccessAck | Kind::AccessAckData => Role::Answer,
        Kind::ReleaseAck => Role::ReleaseAnswer,
        Kind::GrantAck => Role::End,
    }
}
