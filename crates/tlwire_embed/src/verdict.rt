//! What is told of a line.
ghost use Rattle.std.specs.Prelude.{◌≡◌, replicate};
ghost use Rattle.tl_protocol.specs.Copy.{perm_of};
ghost use Rattle.tlwire_embed.specs.Told.{broken_told, only, told_of, wait_number, with_state, with_view};

use tl_types::{Awaited, BLOCK_BYTES, Perm};
use tlcheck_embed::{Verdict, breach_told, perm_number};
use tlwire_pins::{Broken, View};

/// A verdict in plain numbers; what is not told is 0.
#[repr(C)]
#[derive(Clone, Copy, Drop)]
pub struct PinsVerdict {
    /// 0 it may be seen, 31 it may not, 14 no memory, 17 no line, 18 closed.
    pub status: u32,
    /// Of 31, which rule the line breaks.
    pub rule: u32,
    /// Of a message that differs from the client's: the opcode of that, where it is told.
    pub opcode: u32,
    /// Its param.
    pub param: u32,
    /// How many bytes of it are told.
    pub len: u32,
    /// What the judge's client may do with the line's block: 0 nothing, 1 read, 2 read and write.
    pub perm: u32,
    /// What it waits for: 0 nothing, 1 a Grant, 2 a ReleaseAck.
    pub wait: u32,
    /// Of 18, why it is closed.
    pub why: u32,
    /// The bytes that the client sends, where others are shown.
    pub bytes: [u8; BLOCK_BYTES],
}

impl PinsVerdict {
    /// A status alone.
    pub fn only(status: u32) -> PinsVerdict
        ensures { result ≡ only status }
    {
        PinsVerdict {
            status,
            rule: 0,
            opcode: 0,
            param: 0,
            len: 0,
            perm: 0,
            wait: 0,
            why: 0,
            bytes: [0; BLOCK_BYTES],
        }
    }
}

/// The number of an answer that a client waits for.
fn wait_number(wait: Awaited) -> u32
    ensures { result ≡ wait_number wait }
{
    match wait {
        Awaited::Nothing => 0,
        Awaited::ForGrant => 1,
        Awaited::ForReleaseAck => 2,
    }
}

/// The same with what the client may do with the block, and what it waits for.
pub(crate) fn with_state(perm: Perm, wait: Awaited, told: PinsVerdict) -> PinsVerdict
    ensures { result ≡ with_state perm wait told }
{
    PinsVerdict {
        perm: perm_number(perm),
        wait: wait_number(wait),
        ..told
    }
}

/// A verdict of the judge of events, without a state.
fn told_of(verdict: &Verdict) -> PinsVerdict
    ensures { result ≡ told_of verdict.now }
{
    PinsVerdict {
        status: verdict.status,
        rule: verdict.rule,
        opcode: verdict.opcode,
        param: verdict.param,
        len: verdict.len,
        bytes: verdict.bytes,
        ..PinsVerdict::only(0)
    }
}

/// What a line breaks, and the client's state before it.
pub(crate) fn broken_told(broken: &Broken) -> PinsVerdict
    ensures { result ≡ broken_told broken.now }
{
    let told = told_of(&breach_told(&broken.breach));
    with_state(broken.view.held.perm(), broken.view.wait, told)
}
