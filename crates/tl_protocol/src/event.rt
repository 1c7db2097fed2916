//! The steps of clients, home and the memory.
ghost use Rattle.std.specs.Prelude.{◌≡◌, ◌↔◌, ◌<◌, ◌≤◌, IsTrue};
ghost use Rattle.std.specs.Option.{option_copied};
ghost use Rattle.tl_protocol.specs.Access.{FitsBlock};
ghost use Rattle.tl_protocol.specs.OneMemory.{access_of};
ghost use Rattle.tl_protocol.specs.Protocol.{block_of};

use crate::shape::Shape;
use std::mem::size_of;
use tl_types::{ACCESS_BYTES, AccessBytes, BlockNo, ClientId, Grow, ProbeCap, Prune};

/// A load or a store of a client.
#[derive(Drop)]
pub struct Access {
    /// Who makes it.
    pub client: ClientId,
    /// The address of its first byte.
    pub address: u32,
    /// Its place in the order of all banks.
    pub stamp: u64,
    /// The command of the client's script that it answers.
    pub index: u32,
    /// The bytes that it reads or writes.
    pub bytes: AccessBytes,
}

impl Access {
    /// An access by itself: without its stamp and its index, which are 0.
    pub fn bare(client: ClientId, address: u32, bytes: AccessBytes) -> Access
        ensures { result ≡ record { client = client; address = address; stamp = 0; index = 0; bytes = bytes } }
    {
        Access {
            client,
            address,
            stamp: 0,
            index: 0,
            bytes,
        }
    }

    /// Whether it is of one to eight bytes in one block.
    pub fn fits_block(&self, shape: Shape) -> bool
        requires { 0 < shape.block_bytes }
        ensures { IsTrue result ↔ FitsBlock shape self.now.address self.now.bytes }
    {
        let len = self.bytes.as_slice().len();
        let offset = (self.address % shape.block_bytes) as usize;
        len > 0 && len <= ACCESS_BYTES && offset + len <= shape.block_bytes as usize
    }
}

/// One step of a client, of home or of the memory.
#[derive(Drop)]
pub enum Event {
    /// A client reads bytes of its copy.
    Load(Access),
    /// A client writes bytes of its copy.
    Store(Access),
    /// A client asks for more.
    SendAcquire(ClientId, BlockNo, Grow),
    /// A client gives up.
    SendRelease(ClientId, BlockNo, Prune),
    /// A client answers its first Probe.
    AnswerProbe(ClientId, BlockNo),
    /// A client takes its Grant, and acknowledges it.
    TakeGrant(ClientId, BlockNo),
    /// A client takes the answer to its Release.
    TakeReleaseAck(ClientId, BlockNo),
    /// Home takes an Acquire, which it serves from then on.
    AcceptAcquire(ClientId, BlockNo),
    /// Home asks a client to give up.
    SendProbe(ClientId, BlockNo, ProbeCap),
    /// Home takes a client's first message of C, and answers a Release.
    TakeC(ClientId, BlockNo),
    /// Home grants the Acquire that it serves.
    SendGrant(ClientId, BlockNo),
    /// Home takes the acknowledgement of a Grant, and serves nobody then.
    TakeGrantAck(ClientId, BlockNo),
    /// Home asks the memory for the block.
    SendGet(BlockNo),
    /// The memory answers.
    Serve(BlockNo),
    /// Home takes the bytes that it asked for.
    TakeData(BlockNo),
    /// Home gives up its clean copy.
    Drop(BlockNo),
    /// Home writes its dirty copy back, and gives it up.
    SendPut(BlockNo),
    /// Home takes the memory's acknowledgement.
    TakePutAck(BlockNo),
}

// An event takes at most 40 bytes of a log: fields lie in the order of the source.
const _: () = prove!(size_of::<Event>() <= 40);

impl Event {
    /// The access that it is, if it is a load or a store.
    pub fn access(&self) -> Option<&Access>
        ensures { option_copied result ≡ access_of self.now }
    {
        match self {
            Event::Load(access) | Event::Store(access) => Some(access),
            _ => None,
        }
    }

    /// The number of the block that it is of.
    pub fn block(&self, shape: Shape) -> u32
        requires { 0 < shape.block_bytes }
        ensures { result ≡ block_of shape self.now }
    {
        match self {
            Event::Load(access) | Event::Store(access) => access.address / shape.block_bytes,
            Event::SendAcquire(_, block, _)
            | Event::SendRelease(_, block, _)
            | Event::AnswerProbe(_, block)
            | Event::TakeGrant(_, block)
            | Event::TakeReleaseAck(_, block)
            | Event::AcceptAcquire(_, block)
            | Event::SendProbe(_, block, _)
            | Event::TakeC(_, block)
            | Event::SendGrant(_, block)
            | Event::TakeGrantAck(_, block)
            | Event::SendGet(block)
            | Event::Serve(block)
            | Event::TakeData(block)
            | Event::Drop(block)
            | Event::SendPut(block)
            | Event::TakePutAck(block) => block.number(),
        }
    }
}
