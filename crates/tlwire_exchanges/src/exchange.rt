//! Which exchange a message opens, and which one it answers.
ghost use Rattle.std.specs.Prelude.{◌≡◌};
ghost use Rattle.tlwire_exchanges.specs.Exchange.{answered_by, exchange_on, number_of, opened_by, response_by, response_to};

use tl_types::{BlockNo, Kind};
use tlwire_search::Seen;

/// The response that ends an exchange.
#[derive(Clone, Copy, Debug, PartialEq, Eq)]
pub enum Response {
    /// A Grant or a GrantData, to an AcquireBlock.
    Grant,
    /// A GrantAck, to a Grant or a GrantData.
    GrantAck,
    /// A ProbeAck or a ProbeAckData, to a ProbeBlock.
    ProbeAck,
    /// A ReleaseAck, to a Release or a ReleaseData.
    ReleaseAck,
    /// An AccessAckData, to a Get.
    AccessAckData,
    /// An AccessAck, to a PutFullData.
    AccessAck,
}

impl Response {
    /// Its number among all.
    pub(crate) fn number(self) -> u32
        ensures { result ≡ number_of self }
    {
        match self {
            Response::Grant => 0,
            Response::GrantAck => 1,
            Response::ProbeAck => 2,
            Response::ReleaseAck => 3,
            Response::AccessAckData => 4,
            Response::AccessAck => 5,
        }
    }
}

/// What an exchange is: the response that it waits for, its link, a client's by its number or with none the memory's,
/// and its block.
#[derive(Clone, Copy, Debug, PartialEq, Eq)]
pub struct Exchange {
    pub response: Response,
    pub client: Option<u32>,
    pub block: u32,
}

/// The response that a kind of message waits for; None where it waits for none.
fn response_to(kind: Kind) -> Option<Response>
    ensures { result ≡ response_to kind }
{
    match kind {
        Kind::AcquireBlock(_) => Some(Response::Grant),
        Kind::Grant(_) | Kind::GrantData(_) => Some(Response::GrantAck),
        Kind::ProbeBlock(_) => Some(Response::ProbeAck),
        Kind::Release(_) | Kind::ReleaseData(_) => Some(Response::ReleaseAck),
        Kind::Get => Some(Response::AccessAckData),
        Kind::PutFullData => Some(Response::AccessAck),
        Kind::ProbeAck(_)
        | Kind::ProbeAckData(_)
        | Kind::AccessAck
        | Kind::AccessAckData
        | Kind::ReleaseAck
        | Kind::GrantAck => None,
    }
}

/// The response that a kind of message is; None where it is none.
fn response_by(kind: Kind) -> Option<Response>
    ensures { result ≡ response_by kind }
{
    match kind {
        Kind::Grant(_) | Kind::GrantData(_) => Some(Response::Grant),
        Kind::GrantAck => Some(Response::GrantAck),
        Kind::ProbeAck(_) | Kind::ProbeAckData(_) => Some(Response::ProbeAck),
        Kind::ReleaseAck => Some(Response::ReleaseAck),
        Kind::AccessAckData => Some(Response::AccessAckData),
        Kind::AccessAck => Some(Response::AccessAck),
        Kind::AcquireBlock(_)
        | Kind::ProbeBlock(_)
        | Kind::Release(_)
        | Kind::ReleaseData(_)
        | Kind::Get
        | Kind::PutFullData => None,
    }
}

/// The exchange with a response, on a link, of a block.
fn exchange_on(response: Option<Response>, client: Option<u32>, block: BlockNo) -> Option<Exchange>
    ensures { result ≡ exchange_on response client block }
{
    match response {
        Some(response) => Some(Exchange {
            response,
            client,
            block: block.number(),
        }),
        None => None,
    }
}

/// The exchange that what was seen opens; None where it opens none.
pub fn opened_by(seen: &Seen) -> Option<Exchange>
    ensures { result ≡ opened_by seen.now }
{
    match seen {
        Seen::OnLink(client, block, shown) => {
            exchange_on(response_to(shown.kind), Some(client.number()), *block)
        }
        Seen::OnMemory(block, shown) => exchange_on(response_to(shown.kind), None, *block),
        Seen::Load(_, _, _) | Seen::Store(_, _, _) => None,
    }
}

/// The exchange that what was seen answers; None where it answers none.
pub fn answered_by(seen: &Seen) -> Option<Exchange>
    ensures { result ≡ answered_by seen.now }
{
    match seen {
        Seen::OnLink(client, block, shown) => {
            exchange_on(response_by(shown.kind), Some(client.number()), *block)
        }
        Seen::OnMemory(block, shown) => exchange_on(response_by(shown.kind), None, *block),
        Seen::Load(_, _, _) | Seen::Store(_, _, _) => None,
    }
}
