//! A line in plain numbers.
ghost use Rattle.std.specs.Prelude.{◌≡◌, ◌<◌, ◌≤◌};
ghost use Rattle.tlwire_embed.specs.Lines.{access_of, line_of, message_in, message_of, seen_of};

use tl_rules::Shape;
use tl_types::{AccessBytes, BLOCK_BYTES, BlockBytes, BlockNo, ClientId, Kind};
use tlcheck_embed::kind_shown;
use tlcheck_rules::Shown;
use tlwire_pins::Cores;
use tlwire_search::Seen;

/// A message on a client's link, a load or a store; what a line does not use it takes no notice of.
#[repr(C)]
#[derive(Clone, Copy, Drop)]
pub struct PinsLine {
    /// What was seen: 0 a load, 1 a store, 2 a message; 255 closes the judge.
    pub what: u32,
    /// The client.
    pub client: u32,
    /// The block of a message, or the address of an access.
    pub place: u32,
    /// The channel of a message: 0 to 4 for A to E.
    pub channel: u32,
    /// Its opcode.
    pub opcode: u32,
    /// Its param.
    pub param: u32,
    /// How many bytes it has, or the access.
    pub len: u32,
    /// The bytes, the first `len` of them.
    pub bytes: [u8; BLOCK_BYTES],
}

impl PinsLine {
    /// The line, if its numbers are those of one: of a client and a block that there are; an access of at most eight
    /// bytes, where the core is watched; a message of this profile on a client's link, with a block's bytes just where it
    /// carries some.
    pub fn line(&self, cores: Cores, shape: Shape) -> Option<Seen>
        requires { (0 < shape.block_bytes) × (shape.block_bytes ≤ BLOCK_BYTES) }
        ensures { result ≡ line_of cores shape self.now }
    {
        if self.client < shape.clients {
            self.seen(cores, shape)
        } else {
            None
        }
    }

    /// The same of a client that there is.
    fn seen(&self, cores: Cores, shape: Shape) -> Option<Seen>
        requires { (0 < shape.block_bytes) × (shape.block_bytes ≤ BLOCK_BYTES) }
        ensures { result ≡ seen_of cores shape self.now }
    {
        let client = ClientId::new(self.client);
        match self.what {
            0 => Some(Seen::Load(client, self.place, self.access(cores, shape)?)),
            1 => Some(Seen::Store(client, self.place, self.access(cores, shape)?)),
            2 => Some(Seen::OnLink(client, BlockNo::new(self.place), self.message(shape)?)),
            _ => None,
        }
    }

    /// The bytes of an access in the memory, where the core is watched.
    fn access(&self, cores: Cores, shape: Shape) -> Option<AccessBytes>
        requires { 0 < shape.block_bytes }
        ensures { result ≡ access_of cores shape self.now }
    {
        if cores == Cores::Unseen || self.place / shape.block_bytes >= shape.blocks {
            return None;
        }
        if self.len > 8 {
            return None;
        }
        AccessBytes::from_slice(&self.bytes[..self.len as usize])
    }

    /// The message, of a block of the memory.
    fn message(&self, shape: Shape) -> Option<Shown>
        requires { shape.block_bytes ≤ BLOCK_BYTES }
        ensures { result ≡ message_of shape self.now }
    {
        if self.place >= shape.blocks {
            return None;
        }
        match kind_shown(self.channel, self.opcode, self.param) {
            None => None,
            Some(kind) => self.message_of(shape, kind),
        }
    }

    /// The same of a kind, with a block's bytes just where it carries some.
    fn message_of(&self, shape: Shape, kind: Kind) -> Option<Shown>
        requires { shape.block_bytes ≤ BLOCK_BYTES }
        ensures { result ≡ message_in shape self.now kind }
    {
        if kind.has_data() {
            if self.len != shape.block_bytes {
                return None;
            }
            let bytes = BlockBytes::from_slice(&self.bytes[..self.len as usize]).unwrap();
            return Some(Shown {
                kind,
                bytes: Some(bytes),
            });
        }
        if self.len == 0 {
            Some(Shown { kind, bytes: None })
        } else {
            None
        }
    }
}
