//! The links of one bank: five channels for each client.
ghost use Rattle.std.specs.Prelude.{◌≡◌, ◌↔◌, ◌≤◌, ◌<◌, ◌+◌, ◌-◌, ◌^◌, ◌∷◌, ◌*◌, ◌%◌, ℕ, List, [], length, IfOk, IfErr, OnOk, OnErr, IsErr, MatchOption, MatchResult, option_copied, if◌then◌else◌};
ghost use Rattle.std.specs.List.{list_any};
ghost use Rattle.tl_types.specs.Channel.{channel_index};
ghost use Rattle.tl_types.specs.Lane.{empty_lane, message_at, sent, is_here, with_message, without_first, bodies_of};
ghost use Rattle.tl_types.specs.declared.channel.Channel.{Channel};
ghost use Rattle.tl_types.specs.declared.message.Message.{Message};
ghost use Rattle.tl_links.specs.Table.{lane_in, some_has, IsNotHead, SameSize};
ghost use Rattle.tl_links.specs.Wanted.{is_wanted};

use crate::queue::Queue;
use crate::ticket_error::TicketError;
use crate::wanted::Wanted;
use std::alloc::{AllocError, Global};
use std::marker::Model;
use tl_types::{BankNo, BlockNo, CLIENTS, Channel, ClientId, MESSAGES, Message, Ticket};

/// The channels between a bank and its clients. Each keeps its messages in order, at most `MESSAGES` at a time.
#[derive(Drop)]
pub struct Links {
    bank: BankNo,
    clients: u32,
    queues: Vec<Queue>,
    /// How many messages wait on each of the five channels, at all clients.
    waiting: [u32; 5],
    /// How many messages wait on each of the five channels, at all clients, by the last four bits of their blocks'
    /// numbers: mostly none is of a block like the one looked for.
    by_ending: [u16; 80],
}

impl Model for Links {
    ghost use Rattle.tl_links.specs.Table.{LinkTable, IsCounted, IsCountedByEnding};

    ghost Value = { LinkTable };

    ghost view = { λ l. record { bank = l.bank; clients = l.clients; lanes = l.queues.items } };

    ghost invariant = { λ l. IsCounted (record { bank = l.bank; clients = l.clients; lanes = l.queues.items }) l.waiting
        × IsCountedByEnding (record { bank = l.bank; clients = l.clients; lanes = l.queues.items }) l.by_ending };
}

/// `MESSAGES` messages wait on the channel. The message comes back.
#[derive(Debug, Drop)]
pub struct Full {
    pub message: Message,
}

impl Links {
    /// The links of a bank to so many clients, with no message on them. All memory that they ever use is taken here;
    /// the error is want of it.
    #[tactic(auto, unfolding(crate::specs::Table::lane_in))]
    pub fn new(alloc: Global, bank: BankNo, clients: u32) -> Result<Links, AllocError>
        requires { clients ≤ CLIENTS }
        ensures bank { IfOk result (λ l. l.bank ≡ bank) }
        ensures clients { IfOk result (λ l. l.clients ≡ clients) }
        ensures empty { IfOk result (λ l. (x : ℕ) (k : Channel) → lane_in l x k ≡ empty_lane) }
    {
        let mut queues = Vec::with_capacity(alloc, clients as usize * Channel::ALL.len())?;
        for _ in 0..clients as usize * Channel::ALL.len() {
            queues.push(Queue::new(alloc)?)?;
        }
        Ok(Links {
            bank,
            clients,
            queues,
            waiting: [0; 5],
            by_ending: [0; 80],
        })
    }

    /// The bank.
    pub fn bank(&self) -> BankNo
        ensures { result ≡ self.now.bank }
    {
        self.bank
    }

    /// How many clients there are.
    pub fn clients(&self) -> u32
        ensures value { result ≡ self.now.clients }
        ensures few { result ≤ CLIENTS }
    {
        self.clients
    }

    /// How many messages were sent on a channel: the serial of the next.
    pub fn sent(&self, client: ClientId, channel: Channel) -> u64
        requires { client < self.now.clients }
        ensures { result ≡ sent (lane_in self.now client channel) }
    {
        self.queue(client, channel).sent()
    }

    /// How many messages of a channel were taken: the serial of the first that waits.
    pub fn taken(&self, client: ClientId, channel: Channel) -> u64
        requires { client < self.now.clients }
        ensures { result ≡ (lane_in self.now client channel).taken }
    {
        self.queue(client, channel).taken()
    }

    /// How many messages wait on a channel.
    pub fn waiting(&self, client: ClientId, channel: Channel) -> usize
        requires { client < self.now.clients }
        ensures value { result ≡ length (lane_in self.now client channel).messages }
        ensures few { result ≤ MESSAGES }
    {
        self.queue(client, channel).waiting()
    }

    /// The first message that waits on a channel.
    pub fn first(&self, client: ClientId, channel: Channel) -> Option<&Message>
        requires { client < self.now.clients }
        ensures { MatchOption result ((lane_in self.now client channel).messages ≡ [])
            (λ x. (rest : List Message) × ((lane_in self.now client channel).messages ≡ x.now ∷ rest)) }
    {
        self.queue(client, channel).first()
    }

    /// The message that a ticket names, where it waits on the ticket's channel; none where that serial was taken or is
    /// not sent yet. The ticket's bank is not looked at.
    pub fn message(&self, ticket: Ticket) -> Option<&Message>
        requires { ticket.client < self.now.clients }
        ensures { option_copied result ≡ message_at (lane_in self.now ticket.client ticket.channel) ticket.serial }
    {
        self.queue(ticket.client, ticket.channel)
            .message(ticket.serial)
    }

    /// Whether some message of a block that waits on a channel is one that is looked for.
    pub fn has(&self, client: ClientId, channel: Channel, block: BlockNo, wanted: Wanted) -> bool
        requires { client < self.now.clients }
        ensures { result ≡ list_any (is_wanted wanted) (bodies_of block (lane_in self.now client channel).messages) }
    {
        self.queue(client, channel).has(block, wanted)
    }

    /// Whether some client has, among the messages of a block that wait on a channel, one that is looked for.
    pub fn some_has(&self, channel: Channel, block: BlockNo, wanted: Wanted) -> bool
        ensures { result ≡ some_has self.now channel block wanted self.now.clients }
    {
        if self.by_ending[place_by_ending(channel, block)] == 0 {
            return false;
        }
        let all = self.waiting[channel.index()] as usize;
        let mut passed = 0;
        for number in 0..self.clients {
            if passed == all {
                return false;
            }
            let client = ClientId::new(number);
            let waiting = self.waiting(client, channel);
            if waiting == 0 {
                continue;
            }
            if self.has(client, channel, block, wanted) {
                return true;
            }
            passed += waiting;
        }
        false
    }

    /// Sends a message. The answer is its ticket. `Full`, with the message, where `MESSAGES` wait already; nothing
    /// changes then.
    #[tactic(auto, unfolding(crate::specs::Table::lane_in))]
    pub fn send(
        &mut self,
        client: ClientId,
        channel: Channel,
        message: Message,
    ) -> Result<Ticket, Full>
        requires here { client < self.old.clients }
        requires counted { sent (lane_in self.old client channel) < 2 ^ 64 - 1 }

        ensures ticket { IfOk result
            (λ t. t
            ≡ record { bank = self.old.bank; client = client; channel = channel; serial = sent (lane_in self.old client channel) }) }
        ensures same { SameSize self.old self.new }
        ensures after { OnOk result
            ((x : ℕ) (k : Channel)
            → lane_in self.new x k
            ≡ (if is_here client channel x k
            then with_message (lane_in self.old x k) message
            else lane_in self.old x k)) }

        ensures full { IsErr result ↔ (length (lane_in self.old client channel).messages ≡ MESSAGES) }
        ensures message { IfErr result (λ full. full.message ≡ message) }
        ensures unchanged { OnErr result (self.new ≡ self.old) }
    {
        if self.queue(client, channel).waiting() == MESSAGES {
            return Err(Full { message });
        }
        Ok(self.send_reserved(client, channel, message))
    }

    /// Sends a message on a channel that has room for it. The answer is its ticket.
    #[tactic(auto, unfolding(crate::specs::Table::lane_in))]
    pub fn send_reserved(&mut self, client: ClientId, channel: Channel, message: Message) -> Ticket
        requires here { client < self.old.clients }
        requires room { length (lane_in self.old client channel).messages < MESSAGES }
        requires counted { sent (lane_in self.old client channel) < 2 ^ 64 - 1 }
        ensures ticket { result
            ≡ record { bank = self.old.bank; client = client; channel = channel; serial = sent (lane_in self.old client channel) } }
        ensures same { SameSize self.old self.new }
        ensures after { (x : ℕ) (k : Channel)
            → lane_in self.new x k
            ≡ (if is_here client channel x k
            then with_message (lane_in self.old x k) message
            else lane_in self.old x k) }
    {
        let serial = self.queue(client, channel).sent();
        let kind = place_by_ending(channel, message.block);
        self.queues[place(client, channel)].push(message);
        self.waiting[channel.index()] += 1;
        self.by_ending[kind] += 1;
        Ticket {
            bank: self.bank,
            client,
            channel,
            serial,
        }
    }

    /// The message that a ticket names, the first that waits on its channel. `NothingThere` where no message waits,
    /// `NotHead` where the first has another serial.
    pub fn head(&self, ticket: Ticket) -> Result<&Message, TicketError>
        requires bank { ticket.bank ≡ self.now.bank }
        requires here { ticket.client < self.now.clients }
        ensures message { IfOk result
            (λ x. (rest : List Message) × ((lane_in self.now ticket.client ticket.channel).messages ≡ x.now ∷ rest)) }
        ensures serial { OnOk result (ticket.serial ≡ (lane_in self.now ticket.client ticket.channel).taken) }
        ensures refused { IfErr result (IsNotHead (lane_in self.now ticket.client ticket.channel) ticket.serial) }
    {
        let queue = self.queue(ticket.client, ticket.channel);
        queue.check_first(ticket.serial)?;
        queue.first().ok_or(TicketError::NothingThere)
    }

    /// Takes the message that a ticket names, the first that waits on its channel. `NothingThere` where no message
    /// waits, `NotHead` where the first has another serial. Nothing changes then.
    #[tactic(auto, unfolding(crate::specs::Table::lane_in))]
    pub fn take(&mut self, ticket: Ticket) -> Result<Message, TicketError>
        requires bank { ticket.bank ≡ self.old.bank }
        requires here { ticket.client < self.old.clients }

        ensures message { IfOk result
            (λ x. (rest : List Message) × ((lane_in self.old ticket.client ticket.channel).messages ≡ x ∷ rest)) }
        ensures serial { OnOk result (ticket.serial ≡ (lane_in self.old ticket.client ticket.channel).taken) }
        ensures same { SameSize self.old self.new }
        ensures after { OnOk result
            ((x : ℕ) (k : Channel)
            → lane_in self.new x k
            ≡ (if is_here ticket.client ticket.channel x k
            then without_first (lane_in self.old x k)
            else lane_in self.old x k)) }

        ensures refused { IfErr result (IsNotHead (lane_in self.old ticket.client ticket.channel) ticket.serial) }
        ensures unchanged { OnErr result (self.new ≡ self.old) }
    {
        self.queue(ticket.client, ticket.channel)
            .check_first(ticket.serial)?;
        let Some(message) = self.queues[place(ticket.client, ticket.channel)].pop() else {
            return Err(TicketError::NothingThere);
        };
        self.waiting[ticket.channel.index()] -= 1;
        self.by_ending[place_by_ending(ticket.channel, message.block)] -= 1;
        Ok(message)
    }

    #[tactic(auto, unfolding(crate::specs::Table::lane_in))]
    fn queue(&self, client: ClientId, channel: Channel) -> &Queue
        requires { client < self.now.clients }
        ensures { result.now ≡ lane_in self.now client channel }
    {
        &self.queues[place(client, channel)]
    }
}

/// A client's channel among all channels.
fn place(client: ClientId, channel: Channel) -> usize
    ensures { result ≡ client * 5 + channel_index channel }
{
    client.number() as usize * Channel::ALL.len() + channel.index()
}

/// The place of a channel's messages whose blocks' numbers end like this one's.
fn place_by_ending(channel: Channel, block: BlockNo) -> usize
    ensures { result ≡ channel_index channel * 16 + block % 16 }
{
    channel.index() * 16 + (block.number() % 16) as usize
}
