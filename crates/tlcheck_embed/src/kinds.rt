//! The messages of a client's link in numbers.
ghost use Rattle.std.specs.Prelude.{◌≡◌};
ghost use Rattle.tlcheck_embed.specs.Kinds.{acquire_at, kind_shown, kind_to_client};

use tl_types::{Kind, grant_at, grow_at, kind_on_b, kind_on_c, kind_on_e};

/// The kind of message of a client's link with a channel, an opcode and a param, if this profile has one.
pub fn kind_shown(channel: u32, opcode: u32, param: u32) -> Option<Kind>
    ensures { result ≡ kind_shown channel opcode param }
{
    match channel {
        0 => acquire_at(opcode, param),
        1 => kind_on_b(opcode, param),
        2 => kind_on_c(opcode, param),
        3 => kind_to_client(opcode, param),
        4 => kind_on_e(opcode, param),
        _ => None,
    }
}

fn acquire_at(opcode: u32, param: u32) -> Option<Kind>
    ensures { result ≡ acquire_at opcode param }
{
    match opcode {
        6 => Some(Kind::AcquireBlock(grow_at(param)?)),
        _ => None,
    }
}

fn kind_to_client(opcode: u32, param: u32) -> Option<Kind>
    ensures { result ≡ kind_to_client opcode param }
{
    match opcode {
        4 => Some(Kind::Grant(grant_at(param)?)),
        5 => Some(Kind::GrantData(grant_at(param)?)),
        6 => release_ack_at(param),
        _ => None,
    }
}

fn release_ack_at(param: u32) -> Option<Kind>
    ensures { result ≡ kind_to_client 6 param }
{
    match param {
        0 => Some(Kind::ReleaseAck),
        _ => None,
    }
}
