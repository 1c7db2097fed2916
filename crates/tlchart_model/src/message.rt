//! A message as it is drawn.
ghost use Rattle.std.specs.Prelude.{◌≡◌};
ghost use Rattle.std.specs.Option.{option_map};
ghost use Rattle.tlchart_model.specs.Message.{link_message};

use crate::lifeline::{Lifeline, Place, receiver, sender};
use tl_types::{BlockBytes, BlockNo, Body, Kind, Ticket};

/// A message as it is drawn: where it waited, who sent it to whom, the block that it is about, what it is, and the
/// bytes that it carried.
#[derive(Debug, Drop)]
pub struct ShownMessage {
    pub place: Place,
    pub from: Lifeline,
    pub to: Lifeline,
    pub block: BlockNo,
    pub kind: Kind,
    pub bytes: Option<BlockBytes>,
}

impl ShownMessage {
    /// A copy, with bytes of its own.
    pub fn copied(&self) -> ShownMessage
        ensures { result ≡ self.now }
    {
        ShownMessage {
            place: self.place,
            from: self.from,
            to: self.to,
            block: self.block,
            kind: self.kind,
            bytes: copied_bytes(self.bytes.as_ref()),
        }
    }
}

/// A copy of the bytes, where there are some.
fn copied_bytes(bytes: Option<&BlockBytes>) -> Option<BlockBytes>
    ensures { result ≡ option_map (λ b. b.now) bytes.entry }
{
    match bytes {
        Some(bytes) => Some(bytes.copied()),
        None => None,
    }
}

/// A message to or from a client, at the place of a ticket.
pub fn link_message(ticket: &Ticket, block: BlockNo, body: &Body) -> ShownMessage
    ensures { result ≡ link_message ticket.now block body.now }
{
    let from = sender(ticket);
    let to = receiver(ticket);
    let kind = body.kind();
    let bytes = copied_bytes(body.bytes());
    ShownMessage {
        place: Place::Link(*ticket),
        from,
        to,
        block,
        kind,
        bytes,
    }
}
