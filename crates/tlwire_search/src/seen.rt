//! What a monitor on the links sees.
ghost use Rattle.std.specs.Prelude.{◌≡◌, ◌↔◌, IsTrue};
ghost use Rattle.tlwire_search.specs.Explained.{wire_of};

use tl_protocol::are_same_bytes;
use tl_types::{AccessBytes, BlockNo, Channel, ClientId};
use tlcheck_rules::Shown;

/// A message, a load or a store that a monitor saw, with the client and the block that its ids stand for.
#[derive(Drop)]
pub enum Seen {
    /// A message between a client and home, on the channel of its kind.
    OnLink(ClientId, BlockNo, Shown),
    /// A message between home and the memory: a Get, a PutFullData or its answer.
    OnMemory(BlockNo, Shown),
    /// A client's core reads these bytes from an address on.
    Load(ClientId, u32, AccessBytes),
    /// A client's core writes these bytes from an address on.
    Store(ClientId, u32, AccessBytes),
}

/// Where a monitor sees things, which it sees there in their order.
#[derive(Clone, Copy, PartialEq, Eq)]
pub enum Wire {
    /// A channel between a client and home.
    Link(ClientId, Channel),
    /// A channel between home and the memory.
    Memory(Channel),
    /// A client's core.
    Core(ClientId),
}

fn are_same_messages(message: &Shown, other: &Shown) -> bool
    ensures { IsTrue result ↔ (message.now ≡ other.now) }
{
    message.kind == other.kind && are_same_bytes(&message.bytes, &other.bytes)
}

impl Seen {
    /// Where it is seen.
    pub fn wire(&self) -> Wire
        ensures { result ≡ wire_of self.now }
    {
        match self {
            Seen::OnLink(client, _, message) => Wire::Link(*client, message.kind.channel()),
            Seen::OnMemory(_, message) => Wire::Memory(message.kind.channel()),
            Seen::Load(client, _, _) | Seen::Store(client, _, _) => Wire::Core(*client),
        }
    }

    /// Whether two are the same.
    pub fn is_same(&self, other: &Seen) -> bool
        ensures { IsTrue result ↔ (self.now ≡ other.now) }
    {
        match (self, other) {
            (Seen::OnLink(c, b, message), Seen::OnLink(x, y, other)) => {
                c == x && b == y && are_same_messages(message, other)
            }
            (Seen::OnMemory(b, message), Seen::OnMemory(y, other)) => {
                b == y && are_same_messages(message, other)
            }
            (Seen::Load(c, address, bytes), Seen::Load(x, at, other)) => {
                c == x && address == at && bytes.as_slice() == other.as_slice()
            }
            (Seen::Store(c, address, bytes), Seen::Store(x, at, other)) => {
                c == x && address == at && bytes.as_slice() == other.as_slice()
            }
            _ => false,
        }
    }
}
