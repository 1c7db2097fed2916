//! A message's place on its link.
ghost use Rattle.std.specs.Prelude.{Some};
ghost use Rattle.tl_types.specs.Ticket.{ticket_text};

use crate::channel::Channel;
use crate::names::{BankNo, ClientId};
use std::fmt;

/// Where a message is: its bank, the client and the channel of the link, and its serial, the number of messages that
/// were sent before it there. It prints as `0.1.C.3`.
#[derive(Clone, Copy, Debug, PartialEq, Eq)]
pub struct Ticket {
    pub bank: BankNo,
    pub client: ClientId,
    pub channel: Channel,
    pub serial: u64,
}

impl fmt::Display for Ticket {
    ghost output = { λ t. Some (ticket_text t) };

    fn fmt<W: fmt::Write>(&self, f: &mut fmt::Formatter<W>) -> fmt::Result {
        let serial = self.serial;
        write!(f, "{}.{}.{}.{serial}", self.bank, self.client, self.channel)
    }
}
