//! Which messages of a block are looked for.
ghost use Rattle.std.specs.Prelude.{◌≡◌};
ghost use Rattle.tl_links.specs.Wanted.{is_wanted};

use tl_types::Body;

/// The kind of message that is looked for.
#[derive(Clone, Copy, Debug, PartialEq, Eq)]
pub enum Wanted {
    /// Any message.
    Any,
    /// A Probe, on channel B.
    Probe,
    /// An answer to a Probe, on channel C.
    ProbeAck,
    /// A Grant, on channel D.
    Grant,
}

impl Wanted {
    /// Whether a message that says `body` is looked for.
    pub fn fits(self, body: &Body) -> bool
        ensures { result ≡ is_wanted self body.now }
    {
        match self {
            Wanted::Any => true,
            Wanted::Probe => matches!(body, Body::ProbeBlock(_)),
            Wanted::ProbeAck => match body {
                Body::Upward(message) => message.is_probe_ack(),
                _ => false,
            },
            Wanted::Grant => match body {
                Body::Downward(message) => message.is_grant(),
                _ => false,
            },
        }
    }
}
