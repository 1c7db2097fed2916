//! The links that a worker serves.
ghost use Rattle.std.specs.Prelude.{◌≡◌};
ghost use Rattle.tl_client_mail.specs.Lanes.{brings, is_to_client};

use tl_types::{BankNo, Channel, ClientId, Ticket};

/// The links of one worker: a client's to each of the first banks, or a bank's to each of the first clients.
#[derive(Clone, Copy, Debug)]
pub enum Links {
    OfClient(ClientId, usize),
    OfBank(BankNo, usize),
}

impl Links {
    /// Whether a message with this ticket comes to the worker on one of its links: on B or D to a client, on A, C or E
    /// to a bank.
    pub fn bring(&self, ticket: &Ticket) -> bool
        ensures { result ≡ brings self.now ticket.now }
    {
        match self {
            Links::OfClient(client, banks) => {
                ticket.client == *client
                    && ticket.bank.index() < *banks
                    && is_to_client(ticket.channel)
            }
            Links::OfBank(bank, clients) => {
                ticket.bank == *bank
                    && ticket.client.index() < *clients
                    && !is_to_client(ticket.channel)
            }
        }
    }
}

/// Whether messages on a channel go from home to a client (TileLink 1.8, section 3, "Channels").
fn is_to_client(channel: Channel) -> bool
    ensures { result ≡ is_to_client channel }
{
    match channel {
        Channel::B | Channel::D => true,
        Channel::A | Channel::C | Channel::E => false,
    }
}
