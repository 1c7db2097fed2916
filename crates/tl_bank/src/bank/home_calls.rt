//! What home takes from the clients.
ghost use Rattle.std.specs.Prelude.{◌≡◌, ◌&&◌, ℕ, None, Some, true, IfErr, IfOk, IfSome, OnErr, OnOk, if◌then◌else◌};
ghost use Rattle.tl_types.specs.Lane.{sent, is_here, with_message};
ghost use Rattle.tl_types.specs.declared.channel.Channel.{Channel};
ghost use Rattle.tl_types.specs.declared.message.Body.{Body};
ghost use Rattle.tl_types.specs.declared.message.Downward.{Downward};
ghost use Rattle.tl_protocol.specs.declared.event.Event.{Event};
ghost use Rattle.tl_links.specs.Table.{lane_in, SameSize};
ghost use Rattle.tl_registers.specs.Registers.{closed};
ghost use Rattle.tl_bank_laws.specs.Given.{left_by, brought_by};
ghost use Rattle.tl_bank_laws.specs.Link.{HasRoom};
ghost use Rattle.tl_bank_spec.specs.Cases.{block_named};
ghost use Rattle.tl_bank_spec.specs.Delivered.{Sends};
ghost use Rattle.tl_bank_spec.specs.Effects.{AppendsWith, answer_to};
ghost use Rattle.tl_bank_spec.specs.HomeCalls.{take_c_cases, take_grant_ack_cases};
ghost use Rattle.tl_bank_spec.specs.Refusal.{IsRefused, first_of};
ghost use Rattle.tl_bank_spec.specs.Own.{way_at};

use crate::bank::Bank;
use crate::bank::tickets::is_release;
use crate::link;
use tl_bank_spec::Refusal;
use tl_links::Links;
use tl_protocol::Event;
use tl_types::{BlockBytes, BlockNo, Body, Channel, ClientId, Downward, Message, Perm, Ticket};

impl Bank {
    /// Home takes the message that a ticket names, the first on its way from a client on channel C: what home records
    /// of the client falls, and bytes that come along are home's from then on. A Release is answered, and its
    /// ReleaseAck's ticket is what comes back; an answer to a Probe is not.
    ///
    /// The first of these that holds: `OutOfRange` where the client is not there; `WrongBank` where the ticket is
    /// another bank's; `NotHead` where it names another channel; `NothingThere` where no message waits; `NotHead` where
    /// it names another message than the first; `LinkFull` where a Release is first and channel D is full; `Memory`
    /// where the log can't grow. Nothing changes then.
    pub fn take_c(&mut self, ticket: Ticket) -> Result<Option<Ticket>, Refusal>
        ensures refused { IfErr result (λ r. IsRefused (first_of (take_c_cases self.old ticket)) self.old.room r) }
        ensures unchanged { OnErr result (self.new ≡ self.old) }
        ensures permitted { OnOk result (first_of (take_c_cases self.old ticket) ≡ None) }
        ensures serves { OnOk result
            (AppendsWith self.old self.new (Event.TakeC ticket.client (block_named self.old ticket Channel.C))
            self.old.registers (way_at self.old)) }
        ensures answer { IfOk result (λ sent. sent ≡ answer_to self.old ticket) }
        ensures sends { IfOk result
            (λ sent. IfSome sent
            (λ ack. Sends self.old self.new (Event.TakeC ticket.client (block_named self.old ticket Channel.C)) ack)) }
    {
        self.check_c(&ticket)?;
        self.make_room()?;
        let client = ticket.client;
        let message = link::take(&mut self.links, ticket);
        let block = message.block;
        let is_release = is_release(&message.body);
        let to = left_by(&message.body);
        self.home
            .receive(client, block, to, brought_by(message.body));
        let sent = answer(&mut self.links, client, block, is_release);
        self.log.append(Event::TakeC(client, block));
        Ok(sent)
    }

    /// Home takes the GrantAck that a ticket names, the first on its way from a client on channel E. The Acquire of its
    /// block is served then, and the block's register closes.
    ///
    /// `OutOfRange`, `WrongBank`, `NotHead`, `NothingThere` and `Memory` as at `take_c`. Nothing changes then.
    pub fn take_grant_ack(&mut self, ticket: Ticket) -> Result<(), Refusal>
        ensures refused { IfErr result
            (λ r. IsRefused (first_of (take_grant_ack_cases self.old ticket)) self.old.room r) }
        ensures unchanged { OnErr result (self.new ≡ self.old) }
        ensures permitted { OnOk result (first_of (take_grant_ack_cases self.old ticket) ≡ None) }
        ensures serves { OnOk result
            (AppendsWith self.old self.new (Event.TakeGrantAck ticket.client (block_named self.old ticket Channel.E))
            (closed (block_named self.old ticket Channel.E) self.old.registers) (way_at self.old)) }
    {
        let block = self.check_grant_ack(&ticket)?;
        self.make_room()?;
        link::discard(&mut self.links, ticket);
        self.registers.close(block);
        self.log.append(Event::TakeGrantAck(ticket.client, block));
        Ok(())
    }

    /// Nothing but why home does not take a message on C, for want of memory aside.
    fn check_c(&self, ticket: &Ticket) -> Result<(), Refusal>
        ensures refused { IfErr result (λ r. first_of (take_c_cases self.now ticket.now) ≡ Some r) }
        ensures permitted { OnOk result (first_of (take_c_cases self.now ticket.now) ≡ None) }
    {
        let message = self.ticket_message(ticket, Channel::C)?;
        if is_release(&message.body) && self.is_link_full(ticket.client, Channel::D) {
            return Err(Refusal::LinkFull);
        }
        Ok(())
    }

    /// The block of a GrantAck that home takes.
    fn check_grant_ack(&self, ticket: &Ticket) -> Result<BlockNo, Refusal>
        ensures refused { IfErr result (λ r. first_of (take_grant_ack_cases self.now ticket.now) ≡ Some r) }
        ensures permitted { OnOk result (first_of (take_grant_ack_cases self.now ticket.now) ≡ None) }
        ensures block { IfOk result (λ block. block ≡ block_named self.now ticket.now Channel.E) }
    {
        let message = self.ticket_message(ticket, Channel::E)?;
        Ok(message.block)
    }
}

/// The permission that a message on channel C leaves the client.
fn left_by(body: &Body) -> Perm
    ensures { result ≡ left_by body.now }
{
    match body {
        Body::Upward(message) => message.to(),
        _ => Perm::None,
    }
}

/// The bytes that a message on channel C brings.
fn brought_by(body: Body) -> Option<BlockBytes>
    ensures { result ≡ brought_by body }
{
    match body {
        Body::Upward(message) => message.into_bytes(),
        _ => None,
    }
}

/// Answers a Release of a block, and nothing else.
fn answer(links: &mut Links, client: ClientId, block: BlockNo, is_release: bool) -> Option<Ticket>
    requires { is_release ≡ true → HasRoom links.old client Channel.D }
    ensures ticket { result
        ≡ (if is_release
        then Some
        (record { bank = links.old.bank; client = client; channel = Channel.D; serial = sent (lane_in links.old client Channel.D) })
        else None) }
    ensures same { SameSize links.old links.new }
    ensures after { (x : ℕ) (k : Channel)
        → lane_in links.new x k
        ≡ (if is_release && is_here client Channel.D x k
        then with_message (lane_in links.old x k) (record { block = block; body = Body.Downward Downward.ReleaseAck })
        else lane_in links.old x k) }
{
    if !is_release {
        return None;
    }
    let body = Body::Downward(Downward::ReleaseAck);
    Some(link::send(links, client, Channel::D, Message { block, body }))
}
