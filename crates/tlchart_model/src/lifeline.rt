//! Who is drawn, and where messages wait.
ghost use Rattle.std.specs.Prelude.{◌≡◌};
ghost use Rattle.tlchart_model.specs.Lifeline.{is_from_client, receiver, same_place, same_ticket, sender};

use tl_types::{BankNo, BlockNo, Channel, ClientId, Ticket};

/// One that acts, and that messages go from and to.
#[derive(Clone, Copy, Debug, PartialEq, Eq)]
pub enum Lifeline {
    Client(ClientId),
    Home(BankNo),
    Memory,
}

/// Where a message waits until it is taken: on a client's link with a bank, or between home and the memory, where a
/// block has one message at a time.
#[derive(Clone, Copy, Debug, PartialEq, Eq)]
pub enum Place {
    /// At the place of this ticket.
    Link(Ticket),
    /// On its way to the memory, about this block.
    ToMemory(BlockNo),
    /// On its way from the memory, about this block.
    FromMemory(BlockNo),
}

/// Whether a client sends on a channel.
fn is_from_client(channel: Channel) -> bool
    ensures { result ≡ is_from_client channel }
{
    match channel {
        Channel::A | Channel::C | Channel::E => true,
        Channel::B | Channel::D => false,
    }
}

/// Who sends on a ticket's channel.
pub(crate) fn sender(ticket: &Ticket) -> Lifeline
    ensures { result ≡ sender ticket.now }
{
    if is_from_client(ticket.channel) {
        Lifeline::Client(ticket.client)
    } else {
        Lifeline::Home(ticket.bank)
    }
}

/// Who takes from a ticket's channel.
pub(crate) fn receiver(ticket: &Ticket) -> Lifeline
    ensures { result ≡ receiver ticket.now }
{
    if is_from_client(ticket.channel) {
        Lifeline::Home(ticket.bank)
    } else {
        Lifeline::Client(ticket.client)
    }
}

/// Whether two tickets are one.
fn same_ticket(a: &Ticket, b: &Ticket) -> bool
    ensures { result ≡ same_ticket a.now b.now }
{
    a.bank == b.bank && a.client == b.client && a.channel == b.channel && a.serial == b.serial
}

/// Whether two places are one.
pub(crate) fn same_place(a: &Place, b: &Place) -> bool
    ensures { result ≡ same_place a.now b.now }
{
    match a {
        Place::Link(one) => match b {
            Place::Link(other) => same_ticket(one, other),
            Place::ToMemory(_) | Place::FromMemory(_) => false,
        },
        Place::ToMemory(one) => match b {
            Place::ToMemory(other) => one == other,
            Place::Link(_) | Place::FromMemory(_) => false,
        },
        Place::FromMemory(one) => match b {
            Place::FromMemory(other) => one == other,
            Place::Link(_) | Place::ToMemory(_) => false,
        },
    }
}
