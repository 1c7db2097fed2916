//! A message that was seen on a client's link, and what it asks.
ghost use Rattle.std.specs.Prelude.{◌≡◌, ◌<◌, Some};
ghost use Rattle.tl_embed.specs.Seen.{bytes_seen, first_in, first_of_block, first_or_not, is_of_client, kind_asks, kind_seen, message_asks, seen_asks, waits_there};
ghost use Rattle.tl_embed.specs.Told.{seen_echoed};

use crate::answer::Answer;
use crate::views::bank_for;
use tl_bank::Bank;
use tl_script_words::{Step, TicketCall};
use tl_trace::Network;
use tl_types::{
    BLOCK_BYTES, BlockNo, Channel, ClientId, Kind, MESSAGES, Message, Prune, Ticket, grow_at,
    kind_on_c, kind_on_e,
};

/// A message that a device sent.
#[repr(C)]
#[derive(Clone, Copy, Drop)]
pub struct Seen {
    /// 0 for A, 2 for C, 4 for E.
    pub channel: u32,
    /// Its opcode.
    pub opcode: u32,
    /// Its param.
    pub param: u32,
    /// The client that sent it.
    pub client: u32,
    /// The block that it speaks of.
    pub block: u32,
    /// How many bytes it carries.
    pub len: u32,
    /// 1 where the stores that lead to the bytes are to be made before, else 0.
    pub options: u32,
    /// The index of the stores that are made for it.
    pub index: u32,
    /// The bytes, the first `len` of them.
    pub bytes: [u8; BLOCK_BYTES],
}

/// A client's call that sends a message on C.
#[derive(Drop)]
pub enum OnC {
    /// A Release of the block.
    Release(Prune),
    /// The answer to the Probe of a ticket.
    Answer(Ticket),
}

/// What a message that was seen asks.
#[derive(Drop)]
pub enum SeenAsks {
    /// Nothing: this status is told.
    Tells(u32),
    /// A step that sends just such a message.
    Plays(Step),
    /// A call on C, if that sends a message of this kind with the same bytes.
    Sends(OnC, Kind),
}

impl Seen {
    /// What it asks.
    pub fn asks(&self, network: &Network) -> SeenAsks
        ensures { result ≡ seen_asks network.now self.now }
    {
        if !is_of_client(self.channel) || self.options > 1 {
            return SeenAsks::Tells(17);
        }
        match self.kind() {
            None => SeenAsks::Tells(30),
            Some(kind) => self.message_asks(kind, network),
        }
    }

    /// What a message of a kind asks.
    fn message_asks(&self, kind: Kind, network: &Network) -> SeenAsks
        ensures { result ≡ message_asks (Some kind) network.now self.now }
    {
        let carried = if kind.has_data() {
            network.geometry().block_bytes()
        } else {
            0
        };
        if self.len == carried {
            self.kind_asks(kind, network)
        } else {
            SeenAsks::Tells(17)
        }
    }

    /// What a message of a kind asks that came with the bytes of its kind.
    fn kind_asks(&self, kind: Kind, network: &Network) -> SeenAsks
        ensures { result ≡ kind_asks kind network.now self.now }
    {
        let client = ClientId::new(self.client);
        let block = BlockNo::new(self.block);
        match kind {
            Kind::AcquireBlock(grow) => SeenAsks::Plays(Step::Acquire {
                client,
                block,
                grow,
            }),
            Kind::Release(prune) => SeenAsks::Sends(OnC::Release(prune), kind),
            Kind::ReleaseData(prune) => SeenAsks::Sends(OnC::Release(prune.prune()), kind),
            Kind::ProbeAck(_) | Kind::ProbeAckData(_) => {
                match self.first_of_block(network, Channel::B) {
                    Ok(ticket) => SeenAsks::Sends(OnC::Answer(ticket), kind),
                    Err(status) => SeenAsks::Tells(status),
                }
            }
            Kind::GrantAck => match self.first_of_block(network, Channel::D) {
                Ok(ticket) => SeenAsks::Plays(Step::Ticket(TicketCall::TakeGrant, ticket)),
                Err(status) => SeenAsks::Tells(status),
            },
            _ => SeenAsks::Tells(30),
        }
    }

    /// The ticket of the first message on a channel of the client, if that is of the block.
    fn first_of_block(&self, network: &Network, channel: Channel) -> Result<Ticket, u32>
        ensures { result ≡ first_of_block network.now self.now channel }
    {
        match bank_for(
            network,
            ClientId::new(self.client),
            BlockNo::new(self.block),
        ) {
            Some(bank) => self.first_or_not(bank, channel),
            None => Err(10),
        }
    }

    /// The ticket of the first message on a channel of the client, if that is of the block, at the block's bank.
    fn first_or_not(&self, bank: &Bank, channel: Channel) -> Result<Ticket, u32>
        ensures { result ≡ first_in (Some bank.now) self.now channel }
    {
        let client = ClientId::new(self.client);
        if client.number() >= bank.geometry().clients() {
            return Err(4);
        }
        match bank.waiting(client, channel, 0) {
            None => Err(4),
            Some(first) => self.ticket_or_not(bank, channel, first.0, &first.1),
        }
    }

    /// The ticket of the first message that waits on a channel, if that is of the block.
    fn ticket_or_not(
        &self,
        bank: &Bank,
        channel: Channel,
        ticket: Ticket,
        first: &Message,
    ) -> Result<Ticket, u32>
        requires { self.now.client < bank.now.geometry.clients }
        ensures { result ≡ first_or_not bank.now self.now channel (Some (ticket, first.now)) }
    {
        if first.block.number() == self.block {
            Ok(ticket)
        } else if self.waits_there(bank, channel) {
            Err(5)
        } else {
            Err(4)
        }
    }

    /// Whether a message of the block waits on a channel.
    fn waits_there(&self, bank: &Bank, channel: Channel) -> bool
        requires { self.now.client < bank.now.geometry.clients }
        ensures { result ≡ waits_there bank.now self.now channel }
    {
        for place in 0..MESSAGES {
            match bank.waiting(ClientId::new(self.client), channel, place) {
                None => return false,
                Some(waiting) => {
                    if waiting.1.block.number() == self.block {
                        return true;
                    }
                }
            }
        }
        false
    }

    /// The bytes that it came with, `BLOCK_BYTES` at most.
    pub fn bytes(&self) -> &[u8]
        ensures { result.now ≡ bytes_seen self.now }
    {
        &self.bytes[..(self.len as usize).min(BLOCK_BYTES)]
    }

    /// The kind of message that it is, if this profile has one.
    fn kind(&self) -> Option<Kind>
        ensures { result ≡ kind_seen self.now }
    {
        match self.channel {
            2 => kind_on_c(self.opcode, self.param),
            4 => kind_on_e(self.opcode, self.param),
            _ => match self.opcode {
                6 => Some(Kind::AcquireBlock(grow_at(self.param)?)),
                _ => None,
            },
        }
    }

    /// The message again, each of its fields in one of an answer.
    pub fn echo(&self) -> Answer
        ensures { result ≡ seen_echoed self.now }
    {
        let told = Answer {
            what: self.options,
            channel: self.channel,
            opcode: self.opcode,
            param: self.param,
            client: self.client,
            place: self.block,
            size: self.len,
            index: self.index,
            ..Answer::only(0)
        };
        told.with_bytes(&self.bytes)
    }
}

/// Whether a client sends on a channel.
fn is_of_client(channel: u32) -> bool
    ensures { result ≡ is_of_client channel }
{
    channel == 0 || channel == 2 || channel == 4
}
