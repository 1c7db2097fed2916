//! One channel of one link. Contracts see it as a lane: how many messages were taken, and those that wait.
ghost use Rattle.std.specs.Prelude.{◌≡◌, ◌≢◌, ◌≤◌, ◌<◌, ◌+◌, ◌-◌, ◌^◌, ◌∷◌, List, [], length, IfErr, IfOk, MatchOption, OnOk, option_copied};
ghost use Rattle.std.specs.List.{list_any};
ghost use Rattle.tl_types.specs.Lane.{empty_lane, message_at, sent, with_message, without_first, bodies_of};
ghost use Rattle.tl_types.specs.declared.message.Message.{Message};
ghost use Rattle.tl_links.specs.Table.{IsNotHead};
ghost use Rattle.tl_links.specs.Wanted.{is_wanted};

use crate::ticket_error::TicketError;
use crate::wanted::Wanted;
use slab::Slab;
use std::alloc::{AllocError, Global};
use std::collections::VecDeque;
use std::marker::Model;
use tl_types::{BlockNo, MESSAGES, Message};

/// The messages that wait on one channel, in `MESSAGES` places that are taken when this is made.
#[derive(Drop)]
pub(crate) struct Queue {
    taken: u64,
    messages: Slab<Message>,
    order: VecDeque<usize>,
}

impl Model for Queue {
    ghost use Rattle.std.specs.VecDeque.{deque_capacity};
    ghost use Rattle.tl_types.specs.Lane.{Lane};
    ghost use Rattle.tl_links.specs.Keys.{in_order, IsSound};

    ghost Value = { Lane };

    ghost view = { λ q. record { taken = q.taken; messages = in_order q.messages q.order.items } };

    ghost invariant = { λ q. IsSound q.taken q.messages q.order.items (deque_capacity q.order) };
}

impl Queue {
    /// A channel on which nothing was sent yet.
    pub(crate) fn new(alloc: Global) -> Result<Queue, AllocError>
        ensures { IfOk result (λ q. q ≡ empty_lane) }
    {
        Ok(Queue {
            taken: 0,
            messages: Slab::with_capacity(alloc, MESSAGES)?,
            order: VecDeque::with_capacity(alloc, MESSAGES)?,
        })
    }

    /// How many messages were taken: the serial of the first that waits.
    pub(crate) fn taken(&self) -> u64
        ensures { result ≡ self.now.taken }
    {
        self.taken
    }

    /// How many messages wait.
    pub(crate) fn waiting(&self) -> usize
        ensures value { result ≡ length self.now.messages }
        ensures few { result ≤ MESSAGES }
    {
        self.order.len()
    }

    /// How many messages were sent.
    pub(crate) fn sent(&self) -> u64
        ensures { result ≡ sent self.now }
    {
        self.taken + self.order.len() as u64
    }

    /// The first message that waits.
    pub(crate) fn first(&self) -> Option<&Message>
        ensures { MatchOption result (self.now.messages ≡ [])
            (λ x. (rest : List Message) × (self.now.messages ≡ x.now ∷ rest)) }
    {
        let key = self.order.front()?;
        self.messages.get(*key)
    }

    /// Looks whether the first message that waits has a serial; the message itself is not looked at.
    pub(crate) fn check_first(&self, serial: u64) -> Result<(), TicketError>
        ensures waits { OnOk result (self.now.messages ≢ []) }
        ensures serial { OnOk result (serial ≡ self.now.taken) }
        ensures refused { IfErr result (IsNotHead self.now serial) }
    {
        if self.waiting() == 0 {
            return Err(TicketError::NothingThere);
        }
        if serial != self.taken {
            return Err(TicketError::NotHead);
        }
        Ok(())
    }

    /// The message with a serial, where it waits.
    pub(crate) fn message(&self, serial: u64) -> Option<&Message>
        ensures { option_copied result ≡ message_at self.now serial }
    {
        let place = serial.checked_sub(self.taken)?;
        let key = self.order.get(place as usize)?;
        self.messages.get(*key)
    }

    /// Puts a message behind those that wait.
    pub(crate) fn push(&mut self, message: Message)
        requires room { length self.old.messages < MESSAGES }
        requires counted { sent self.old < 2 ^ 64 - 1 }
        ensures { self.new ≡ with_message self.old message }
    {
        let key = self.messages.insert_reserved(message);
        self.order.push_back_reserved(key);
    }

    /// Takes the first message, where one waits.
    pub(crate) fn pop(&mut self) -> Option<Message>
        ensures value { MatchOption result (self.old.messages ≡ [])
            (λ x. (rest : List Message) × (self.old.messages ≡ x ∷ rest)) }
        ensures after { self.new ≡ without_first self.old }
    {
        let key = self.order.pop_front()?;
        self.taken += 1;
        Some(self.messages.remove(key))
    }

    /// Whether some message of a block that waits is one that is looked for.
    pub(crate) fn has(&self, block: BlockNo, wanted: Wanted) -> bool
        ensures { result ≡ list_any (is_wanted wanted) (bodies_of block self.now.messages) }
    {
        for key in &self.order {
            if let Some(message) = self.messages.get(*key) {
                if message.block == block && wanted.fits(&message.body) {
                    return true;
                }
            }
        }
        false
    }
}
