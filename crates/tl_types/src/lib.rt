//! The vocabulary of TileLink TL-C: permissions, the parameters of messages, the messages themselves, their codes, and
//! names.
#![tactic(auto)]

mod bytes;
mod channel;
mod kind;
mod limits;
mod message;
mod names;
mod permission;
mod ticket;
mod wait;

pub use bytes::{AccessBytes, BlockBytes};
pub use channel::Channel;
pub use kind::{
    Kind, code, decode, grant_at, grow_at, kind_at, kind_on_b, kind_on_c, kind_on_e, probe_at,
    prune_at,
};
pub use limits::{
    ACCESS_BYTES, BANKS, BLOCK_BYTES, BLOCKS, CLIENTS, COPIES, MESSAGES, REGISTERS, WAYS,
};
pub use message::{Body, Downward, Message, ProbeAnswer, Surrender, Upward};
pub use names::{BankNo, BlockNo, ClientId};
pub use permission::{Cap, DirtyPrune, GrantCap, Grow, Perm, ProbeCap, ProbeReport, Prune, Report};
pub use ticket::Ticket;
pub use wait::Awaited;
