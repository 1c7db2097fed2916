//! Which blocks' messages wait on each channel, oldest first.
ghost use Rattle.std.specs.Prelude.{◌≡◌, ◌<◌, ◌+◌, ◌*◌, ◌∷◌, ◌++◌, ℕ, [], drop, IfOk, IfSome, OnOk, OnErr, MatchOption, if◌then◌else◌};
ghost use Rattle.tl_types.specs.Channel.{channel_index};
ghost use Rattle.tl_types.specs.Lane.{is_here};
ghost use Rattle.tl_types.specs.declared.channel.Channel.{Channel};
ghost use Rattle.std.specs.Option.{option_map};
ghost use Rattle.tlcheck_rules.specs.Order.{joined, place_at, post_at, removed, waiting_in};

use std::alloc::{AllocError, Global};
use std::marker::Model;
use tl_protocol::Queue;
use tl_types::{BlockNo, Body, Channel, ClientId};

/// Which order of a channel a judge asks for.
#[derive(Clone, Copy, Debug, Drop, PartialEq, Eq)]
pub enum ChannelOrder {
    /// Of the whole channel: an event takes the first message of its channel, over all blocks, as links do that keep
    /// the order in which messages were sent.
    Whole,
    /// Of each block alone: an event takes the first message of its channel that is of its block, as clients and homes
    /// do that answer for several blocks in an order of their own (TileLink 1.8, section 8, permits that).
    EachBlock,
}

/// The messages that wait on the channels of each client, by their blocks.
#[derive(Drop)]
pub(crate) struct Waiting {
    clients: u32,
    queues: Vec<Queue<BlockNo>>,
}

impl Model for Waiting {
    ghost use Rattle.std.specs.Prelude.{◌≡◌, ◌*◌, length};
    ghost use Rattle.tlcheck_rules.specs.Order.{Waiting};

    ghost Value = { Waiting };

    ghost view = { λ o. record { clients = o.clients; lists = o.queues.items } };

    ghost invariant = { λ o. length o.queues.items ≡ o.clients * 5 };
}

impl Waiting {
    /// No message waits.
    #[tactic(auto, unfolding(crate::specs::Order::waiting_in))]
    pub(crate) fn new(alloc: Global, clients: u32) -> Result<Waiting, AllocError>
        ensures clients { IfOk result (λ o. o.clients ≡ clients) }
        ensures empty { IfOk result (λ o. (x : ℕ) (k : Channel) → waiting_in o x k ≡ []) }
    {
        let mut queues = Vec::new(alloc);
        for _ in 0..clients as usize * Channel::ALL.len() {
            queues.push(Queue::new(alloc))?;
        }
        Ok(Waiting { clients, queues })
    }

    /// The block of the first message of a channel.
    #[tactic(auto, unfolding(crate::specs::Order::waiting_in))]
    pub(crate) fn first(&self, client: ClientId, channel: Channel) -> Option<BlockNo>
        ensures { MatchOption result (waiting_in self.now client channel ≡ [])
            (λ block. waiting_in self.now client channel ≡ block ∷ drop 1 (waiting_in self.now client channel)) }
    {
        let queue = self.queues.get(place(client, channel))?;
        queue.as_slice().first().copied()
    }

    /// The first message of a channel leaves.
    #[tactic(auto, unfolding(crate::specs::Order::waiting_in))]
    pub(crate) fn take(&mut self, client: ClientId, channel: Channel)
        requires { client < self.old.clients }
        ensures clients { self.new.clients ≡ self.old.clients }
        ensures after { (x : ℕ) (k : Channel)
            → waiting_in self.new x k
            ≡ (if is_here client channel x k then drop 1 (waiting_in self.old x k) else waiting_in self.old x k) }
    {
        self.queues[place(client, channel)].pop_front();
    }

    /// A message of a block joins a channel. Out of memory leaves it as it was.
    #[tactic(auto, unfolding(crate::specs::Order::waiting_in))]
    pub(crate) fn send(
        &mut self,
        client: ClientId,
        channel: Channel,
        block: BlockNo,
    ) -> Result<(), AllocError>
        requires { client < self.old.clients }
        ensures clients { self.new.clients ≡ self.old.clients }
        ensures after { OnOk result
            ((x : ℕ) (k : Channel)
            → waiting_in self.new x k
            ≡ (if is_here client channel x k then waiting_in self.old x k ++ block ∷ [] else waiting_in self.old x k)) }
    {
        self.queues[place(client, channel)].push(block)
    }

    /// The first message of a channel leaves, where one is named.
    pub(crate) fn leave(&mut self, client: ClientId, channel: Option<Channel>)
        requires { IfSome channel (λ k. client < self.old.clients) }
        ensures clients { self.new.clients ≡ self.old.clients }
        ensures after { (x : ℕ) (k : Channel)
            → waiting_in self.new x k ≡ removed (option_map (place_at client) channel) x k (waiting_in self.old x k) }
    {
        if let Some(channel) = channel {
            self.take(client, channel);
        }
    }

    /// A message of a block that is sent, if one is, joins its channel. Out of memory leaves it as it was.
    pub(crate) fn join(
        &mut self,
        client: ClientId,
        sent: &Option<(Channel, Body)>,
        block: BlockNo,
    ) -> Result<(), AllocError>
        requires { IfSome sent.now (λ s. client < self.old.clients) }
        ensures clients { self.new.clients ≡ self.old.clients }
        ensures after { OnOk result
            ((x : ℕ) (k : Channel)
            → waiting_in self.new x k
            ≡ joined (option_map (λ s. post_at client s.0 s.1) sent.now) block x k (waiting_in self.old x k)) }
    {
        match sent {
            Some((channel, _)) => self.send(client, *channel, block),
            None => Ok(()),
        }
    }
}

/// A client's channel among all channels.
fn place(client: ClientId, channel: Channel) -> usize
    ensures { result ≡ client * 5 + channel_index channel }
{
    client.number() as usize * Channel::ALL.len() + channel.index()
}
