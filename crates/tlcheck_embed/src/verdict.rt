//! What is told of an entry.
ghost use Rattle.std.specs.Prelude.{◌≡◌, ◌-◌, ◌++◌, ◌≤◌, length, replicate};
ghost use Rattle.tlcheck_embed.specs.Told.{breach_told, difference_told, kind_told, only, other_bytes_told, with_state};

use crate::number::{difference_number, perm_number, rule_number};
use tl_rules::Event;
use tl_types::{BLOCK_BYTES, BlockNo, Kind, code};
use tlcheck_rules::{Breach, Difference, Judge, client_of};

/// A verdict in plain numbers; what is not told is 0.
#[repr(C)]
#[derive(Clone, Copy, Drop)]
pub struct Verdict {
    /// 0 permitted, 31 not permitted, 14 no memory, 17 no entry, 18 closed.
    pub status: u32,
    /// Of 31, which rule the entry breaks first.
    pub rule: u32,
    /// Of a message that differs from what is sent: the opcode of that, where it is told.
    pub opcode: u32,
    /// Its param.
    pub param: u32,
    /// How many bytes of it are told.
    pub len: u32,
    /// What the entry's client may do with its block: 0 nothing, 1 read, 2 read and write.
    pub perm: u32,
    /// 1 where home has a copy of the block.
    pub is_at_home: u32,
    /// Of 18, why it is closed.
    pub why: u32,
    /// The bytes that the event sends, where others are shown.
    pub bytes: [u8; BLOCK_BYTES],
}

impl Verdict {
    /// A status alone.
    pub fn only(status: u32) -> Verdict
        ensures { result ≡ only status }
    {
        Verdict {
            status,
            rule: 0,
            opcode: 0,
            param: 0,
            len: 0,
            perm: 0,
            is_at_home: 0,
            why: 0,
            bytes: [0; BLOCK_BYTES],
        }
    }
}

/// What an entry breaks.
pub fn breach_told(breach: &Breach) -> Verdict
    ensures { result ≡ breach_told breach.now }
{
    match breach {
        Breach::NotPermitted(rule) => Verdict {
            rule: rule_number(*rule),
            ..Verdict::only(31)
        },
        Breach::OutOfOrder => Verdict {
            rule: 36,
            ..Verdict::only(31)
        },
        Breach::NotAsShown(difference) => difference_told(difference),
    }
}

/// How what is shown differs.
fn difference_told(difference: &Difference) -> Verdict
    ensures { result ≡ difference_told difference.now }
{
    let rule = difference_number(difference);
    match difference {
        Difference::NothingIsSent => Verdict {
            rule,
            ..Verdict::only(31)
        },
        Difference::OtherMessage(sent)
        | Difference::OtherParam(sent)
        | Difference::DataIsMissing(sent)
        | Difference::DataIsExtra(sent) => kind_told(rule, *sent),
        Difference::OtherBytes(sent, _) => other_bytes_told(rule, sent.as_slice()),
    }
}

/// The kind of message that is sent.
fn kind_told(rule: u32, sent: Kind) -> Verdict
    ensures { result ≡ kind_told rule sent }
{
    let (opcode, param) = code(sent);
    Verdict {
        rule,
        opcode: u32::from(opcode),
        param: u32::from(param),
        ..Verdict::only(31)
    }
}

/// The bytes that are sent.
fn other_bytes_told(rule: u32, sent: &[u8]) -> Verdict
    requires { length sent.now ≤ BLOCK_BYTES }
    ensures { result ≡ other_bytes_told rule sent.now }
{
    Verdict {
        rule,
        len: sent.len() as u32,
        bytes: padded(sent),
        ..Verdict::only(31)
    }
}

/// At most `BLOCK_BYTES` bytes, and 0 past them.
fn padded(bytes: &[u8]) -> [u8; BLOCK_BYTES]
    requires { length bytes.now ≤ BLOCK_BYTES }
    ensures { result ≡ bytes.now ++ replicate (BLOCK_BYTES - length bytes.now) 0 }
{
    let mut all = [0; BLOCK_BYTES];
    all[..bytes.len()].copy_from_slice(bytes);
    all
}

/// The same with what the judge knows of the event's client and block.
pub(crate) fn with_state(judge: &Judge, event: &Event, told: Verdict) -> Verdict
    ensures { result ≡ with_state judge.now event.now told }
{
    let plain = judge.plain();
    let block = BlockNo::new(event.block(plain.shape()));
    Verdict {
        perm: perm_number(plain.perm(client_of(event), block)),
        is_at_home: if plain.is_at_home(block) { 1 } else { 0 },
        ..told
    }
}
