//! The message that a call takes, the first of its channel, if its ticket is that message's.
ghost use Rattle.std.specs.Prelude.{◌≡◌, ◌<◌, IfErr, IfOk, MatchOption, None, OnOk, Some, false, option_copied};
ghost use Rattle.tl_types.specs.Bodies.{is_a_grant};
ghost use Rattle.tl_types.specs.declared.channel.Channel.{Channel};
ghost use Rattle.tl_types.specs.declared.message.Body.{Body};
ghost use Rattle.tl_types.specs.declared.message.Downward.{Downward};
ghost use Rattle.tl_bank_laws.specs.Settled.{IsFirstOn};
ghost use Rattle.tl_bank_spec.specs.Calls.{message_cases, ticket_cases, shared_ticket_cases};
ghost use Rattle.tl_bank_spec.specs.Cases.{any_body, begins, is_a_release, is_a_release_ack};
ghost use Rattle.tl_bank_spec.specs.Refusal.{first_of};
ghost use Rattle.tl_bank_spec.specs.Channels.{lane_at};

use crate::bank::Bank;
use crate::share::Share;
use tl_bank_spec::Refusal;
use tl_types::{BlockBytes, Body, Channel, ClientId, Downward, GrantCap, Message, Ticket, Upward};

impl Bank {
    /// The first message on a channel, if the ticket of a client that is there is its.
    fn first_message(&self, ticket: &Ticket, channel: Channel) -> Result<&Message, Refusal>
        requires { ticket.now.client < self.now.geometry.clients }
        ensures refused { IfErr result (λ r. first_of (message_cases self.now ticket.now channel any_body) ≡ Some r) }
        ensures permitted { OnOk result (first_of (message_cases self.now ticket.now channel any_body) ≡ None) }
        ensures first { IfOk result (λ message. IsFirstOn self.now ticket.now.client channel message.now) }
        ensures inside { IfOk result (λ message. message.now.block < self.now.geometry.memory_blocks) }
    {
        if ticket.channel != channel {
            return Err(Refusal::NotHead);
        }
        let Some(message) = self.links.first(ticket.client, channel) else {
            return Err(Refusal::NothingThere);
        };
        if ticket.serial != self.links.taken(ticket.client, channel) {
            return Err(Refusal::NotHead);
        }
        Ok(message)
    }

    /// The first message on a channel between a client and this bank, if the ticket is its.
    pub(super) fn ticket_message(
        &self,
        ticket: &Ticket,
        channel: Channel,
    ) -> Result<&Message, Refusal>
        ensures refused { IfErr result (λ r. first_of (ticket_cases self.now ticket.now channel any_body) ≡ Some r) }
        ensures permitted { OnOk result (first_of (ticket_cases self.now ticket.now channel any_body) ≡ None) }
        ensures client { OnOk result (ticket.now.client < self.now.geometry.clients) }
        ensures first { IfOk result (λ message. IsFirstOn self.now ticket.now.client channel message.now) }
        ensures inside { IfOk result (λ message. message.now.block < self.now.geometry.memory_blocks) }
    {
        if ticket.client.number() >= self.geometry.clients() {
            return Err(Refusal::OutOfRange);
        }
        if ticket.bank != self.number {
            return Err(Refusal::WrongBank);
        }
        self.first_message(ticket, channel)
    }

    /// The first message on a channel between a client and this bank, if the ticket is its, and the share is the
    /// client's of this bank and has its count.
    pub(super) fn shared_message(
        &self,
        ticket: &Ticket,
        share: &Share,
        channel: Channel,
    ) -> Result<&Message, Refusal>
        ensures refused { IfErr result
            (λ r. first_of (shared_ticket_cases self.now ticket.now share.now channel any_body) ≡ Some r) }
        ensures permitted { OnOk result
            (first_of (shared_ticket_cases self.now ticket.now share.now channel any_body) ≡ None) }
        ensures client { OnOk result (ticket.now.client < self.now.geometry.clients) }
        ensures first { IfOk result (λ message. IsFirstOn self.now ticket.now.client channel message.now) }
        ensures inside { IfOk result (λ message. message.now.block < self.now.geometry.memory_blocks) }
    {
        if ticket.client.number() >= self.geometry.clients()
            || self.is_bad_share(ticket.client, share)
        {
            return Err(Refusal::OutOfRange);
        }
        if ticket.bank != self.number || share.bank() != self.number {
            return Err(Refusal::WrongBank);
        }
        self.first_message(ticket, channel)
    }
}

/// Whether a message is a ReleaseAck.
pub(super) fn is_release_ack(body: &Body) -> bool
    ensures { result ≡ is_a_release_ack body.now }
{
    match body {
        Body::Downward(message) => !message.is_grant(),
        _ => false,
    }
}

/// The cap and the bytes of a Grant, if a message is one.
pub(super) fn grant_in(body: &Body) -> Option<(GrantCap, Option<&BlockBytes>)>
    ensures { MatchOption result (is_a_grant body.now ≡ false)
        (λ grant. body.now ≡ Body.Downward (Downward.Grant grant.0 (option_copied grant.1))) }
{
    match body {
        Body::Downward(Downward::Grant(cap, bytes)) => Some((*cap, bytes.as_ref())),
        _ => None,
    }
}

/// Whether a message is a Release.
pub(super) fn is_release(body: &Body) -> bool
    ensures { result ≡ is_a_release body.now }
{
    matches!(body, Body::Upward(Upward::Release(_)))
}
