//! How a message that is shown differs from the one that is sent.
ghost use Rattle.std.specs.Prelude.{◌≡◌, ◌≢◌, ℕ, MatchOption};
ghost use Rattle.std.specs.Option.{option_map};
ghost use Rattle.tl_types.specs.Bodies.{body_kind};
ghost use Rattle.tlcheck_rules.specs.Differs.{Differs, DiffersFrom, IsMessage, bare_of, name_of};
ghost use Rattle.tlcheck_rules.specs.Judged.{IsShown};
ghost use Rattle.tlcheck_rules.specs.Order.{post_at};

use crate::entry::Shown;
use tl_types::{BlockBytes, Body, Channel, DirtyPrune, Kind, ProbeReport, Prune};

/// The name of a message, whether it has data or not.
#[derive(Clone, Copy, Debug, PartialEq, Eq)]
pub enum Name {
    PutFullData,
    Get,
    AcquireBlock,
    ProbeBlock,
    ProbeAck,
    Release,
    AccessAck,
    Grant,
    ReleaseAck,
    GrantAck,
}

/// How what is shown of an event differs from what the event sends.
#[derive(Debug, Drop)]
pub enum Difference {
    /// The event sends no message.
    NothingIsSent,
    /// It sends another message: one of this kind.
    OtherMessage(Kind),
    /// It sends this kind of the message: another report or cap, or from or to another permission.
    OtherParam(Kind),
    /// It sends this kind, with data, and none is shown.
    DataIsMissing(Kind),
    /// It sends this kind, without data, and some is shown.
    DataIsExtra(Kind),
    /// It sends these bytes, and those are shown.
    OtherBytes(BlockBytes, BlockBytes),
}

fn name_of(kind: Kind) -> Name
    ensures { result ≡ name_of kind }
{
    match kind {
        Kind::PutFullData => Name::PutFullData,
        Kind::Get => Name::Get,
        Kind::AcquireBlock(_) => Name::AcquireBlock,
        Kind::ProbeBlock(_) => Name::ProbeBlock,
        Kind::ProbeAck(_) | Kind::ProbeAckData(_) => Name::ProbeAck,
        Kind::Release(_) | Kind::ReleaseData(_) => Name::Release,
        Kind::AccessAck | Kind::AccessAckData => Name::AccessAck,
        Kind::Grant(_) | Kind::GrantData(_) => Name::Grant,
        Kind::ReleaseAck => Name::ReleaseAck,
        Kind::GrantAck => Name::GrantAck,
    }
}

/// The kind with its parameter that has no data.
fn bare_of(kind: Kind) -> Kind
    ensures { result ≡ bare_of kind }
{
    match kind {
        Kind::ProbeAckData(DirtyPrune::TtoB) => Kind::ProbeAck(ProbeReport::TtoB),
        Kind::ProbeAckData(DirtyPrune::TtoN) => Kind::ProbeAck(ProbeReport::TtoN),
        Kind::ReleaseData(DirtyPrune::TtoB) => Kind::Release(Prune::TtoB),
        Kind::ReleaseData(DirtyPrune::TtoN) => Kind::Release(Prune::TtoN),
        Kind::GrantData(cap) => Kind::Grant(cap),
        Kind::AccessAckData => Kind::AccessAck,
        _ => kind,
    }
}

/// How bytes that are shown with a message differ from those that are sent.
fn other_bytes(sent: &BlockBytes, shown: &BlockBytes) -> Option<Difference>
    ensures { MatchOption result (sent.now ≡ shown.now)
        (λ d. (sent.now ≢ shown.now) × (d ≡ Difference.OtherBytes sent.now shown.now)) }
{
    if sent.as_slice() == shown.as_slice() {
        return None;
    }
    Some(Difference::OtherBytes(sent.copied(), shown.copied()))
}

/// How the data of a message that is shown differs, where its name and its parameter are those that are sent.
fn other_data(body: &Body, shown: &Shown) -> Option<Difference>
    requires { bare_of (body_kind body.now) ≡ bare_of shown.now.kind }
    ensures { MatchOption result (IsMessage body.now shown.now) (λ d. DiffersFrom body.now shown.now d) }
{
    let sent = body.kind();
    let is_kind = sent == shown.kind;
    match (body.bytes(), &shown.bytes) {
        (Some(bytes), Some(seen)) if is_kind => other_bytes(bytes, seen),
        (Some(_), _) => Some(Difference::DataIsMissing(sent)),
        (None, None) if is_kind => None,
        (None, _) => Some(Difference::DataIsExtra(sent)),
    }
}

/// How what is shown differs from a message, if it does: in its name, its parameter, its data or its bytes.
pub fn other_message(body: &Body, shown: &Shown) -> Option<Difference>
    ensures { MatchOption result (IsMessage body.now shown.now) (λ d. DiffersFrom body.now shown.now d) }
{
    let sent = body.kind();
    if name_of(sent) != name_of(shown.kind) {
        return Some(Difference::OtherMessage(sent));
    }
    if bare_of(sent) != bare_of(shown.kind) {
        return Some(Difference::OtherParam(sent));
    }
    other_data(body, shown)
}

/// How what is shown, if something is, differs from what is sent.
pub(crate) fn difference_of(
    sent: &Option<(Channel, Body)>,
    shown: &Option<Shown>,
) -> Option<Difference>
    ensures { (c : ℕ)
        → let post = option_map (λ s. post_at c s.0 s.1) sent.now in
        MatchOption result (IsShown post shown.now) (λ d. Differs post shown.now d) }
{
    match (sent, shown) {
        (_, None) => None,
        (None, Some(_)) => Some(Difference::NothingIsSent),
        (Some((_, body)), Some(shown)) => other_message(body, shown),
    }
}
