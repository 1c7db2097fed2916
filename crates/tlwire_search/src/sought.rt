//! What is looked for among what was seen.
ghost use Rattle.std.specs.Prelude.{◌≡◌};
ghost use Rattle.tlwire_search.specs.Sought.{is_get, is_grant, is_sought};

use crate::seen::Seen;
use tl_types::Kind;

/// What is looked for of a block on a wire.
#[derive(Clone, Copy)]
pub enum Sought {
    /// Whatever is seen there.
    Line,
    /// A Grant.
    Grant,
    /// A Get.
    Get,
}

impl Sought {
    /// Whether it is this.
    pub fn is(self, line: &Seen) -> bool
        ensures { result ≡ is_sought self line.now }
    {
        match self {
            Sought::Line => true,
            Sought::Grant => is_grant(line),
            Sought::Get => is_get(line),
        }
    }
}

fn is_grant(line: &Seen) -> bool
    ensures { result ≡ is_grant line.now }
{
    match line {
        Seen::OnLink(_, _, message) => !matches!(message.kind, Kind::ReleaseAck),
        _ => false,
    }
}

fn is_get(line: &Seen) -> bool
    ensures { result ≡ is_get line.now }
{
    match line {
        Seen::OnMemory(_, message) => matches!(message.kind, Kind::Get),
        _ => false,
    }
}
