//! What a record has of an event.
use tl_rules::Event;
use tl_types::{BlockBytes, Kind};

/// A message that was seen to be sent: its kind, and its bytes where it carries some.
#[derive(Drop)]
pub struct Shown {
    pub kind: Kind,
    pub bytes: Option<BlockBytes>,
}

/// An event, with the message that it was seen to send where that is recorded.
#[derive(Drop)]
pub struct Entry {
    pub event: Event,
    pub shown: Option<Shown>,
}
