//! The names of all messages of TileLink, also of those that this project leaves out.
ghost use Rattle.std.specs.Prelude.{◌≡◌, Some};
ghost use Rattle.tlcheck_record.specs.MessageName.{message_name_text};

use std::fmt;

/// The name of a message (TileLink 1.8, section 6). It prints as it is written there.
#[derive(Clone, Copy, Debug, PartialEq, Eq)]
pub enum MessageName {
    PutFullData,
    PutPartialData,
    ArithmeticData,
    LogicalData,
    Get,
    Intent,
    AcquireBlock,
    AcquirePerm,
    ProbeBlock,
    ProbePerm,
    AccessAck,
    AccessAckData,
    HintAck,
    ProbeAck,
    ProbeAckData,
    Release,
    ReleaseData,
    Grant,
    GrantData,
    ReleaseAck,
    GrantAck,
}

fn text_of(name: MessageName) -> &'static str
    ensures { result.now ≡ message_name_text name }
{
    match name {
        MessageName::PutFullData => "PutFullData",
        MessageName::PutPartialData => "PutPartialData",
        MessageName::ArithmeticData => "ArithmeticData",
        MessageName::LogicalData => "LogicalData",
        MessageName::Get => "Get",
        MessageName::Intent => "Intent",
        MessageName::AcquireBlock => "AcquireBlock",
        MessageName::AcquirePerm => "AcquirePerm",
        MessageName::ProbeBlock => "ProbeBlock",
        MessageName::ProbePerm => "ProbePerm",
        MessageName::AccessAck => "AccessAck",
        MessageName::AccessAckData => "AccessAckData",
        MessageName::HintAck => "HintAck",
        MessageName::ProbeAck => "ProbeAck",
        MessageName::ProbeAckData => "ProbeAckData",
        MessageName::Release => "Release",
        MessageName::ReleaseData => "ReleaseData",
        MessageName::Grant => "Grant",
        MessageName::GrantData => "GrantData",
        MessageName::ReleaseAck => "ReleaseAck",
        MessageName::GrantAck => "GrantAck",
    }
}

impl fmt::Display for MessageName {
    ghost output = { λ n. Some (message_name_text n) };

    fn fmt<W: fmt::Write>(&self, f: &mut fmt::Formatter<W>) -> fmt::Result {
        f.write_str(text_of(*self))
    }
}
