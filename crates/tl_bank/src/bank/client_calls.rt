//! The calls of clients.
ghost use Rattle.std.specs.Prelude.{◌≡◌, ◌≢◌, ◌+◌, ℕ, None, false, IfErr, IfOk, OnErr, OnOk, length, slice_range};
ghost use Rattle.tl_types.specs.declared.channel.Channel.{Channel};
ghost use Rattle.tl_map.specs.Places.{block_of_address, offset_of};
ghost use Rattle.tl_protocol.specs.Coherent.{AreLast};
ghost use Rattle.tl_protocol.specs.Copy.{bytes_of};
ghost use Rattle.tl_protocol.specs.declared.event.Event.{Event};
ghost use Rattle.tl_bank_spec.specs.Calls.{load_cases, store_cases, acquire_cases, release_cases, answer_probe_cases, take_grant_cases, take_release_ack_cases};
ghost use Rattle.tl_bank_spec.specs.Cases.{block_named, clock_full};
ghost use Rattle.tl_bank_spec.specs.Delivered.{Sends};
ghost use Rattle.tl_bank_spec.specs.Refusal.{IsRefused, first_of};
ghost use Rattle.tl_bank_spec.specs.Share.{recounted};
ghost use Rattle.tl_bank_spec.specs.View.{client_at, perm_at};
ghost use Rattle.tl_bank_spec.specs.Steps.{Appends};
ghost use Rattle.tl_bank_spec.specs.Tables.{copies_at};
ghost use Rattle.tl_bank_spec.specs.Clock.{latest};
ghost use Rattle.tl_bank_spec.specs.Channels.{next_ticket};

use crate::bank::Bank;
use crate::share::Share;
use crate::{entry, link};
use tl_bank_spec::{Loaded, Refusal, When};
use tl_protocol::{Access, Event};
use tl_types::{
    AccessBytes, Awaited, BlockNo, Body, Channel, ClientId, Grow, Message, Prune, Ticket, Upward,
};

impl Bank {
    /// Reads one to eight bytes of a client's copy, from an address on, in one block. The answer has the bytes and the
    /// stamp.
    ///
    /// The first of these that holds: `OutOfRange` where the client is not there, or the bytes are none, more than
    /// eight, or not in one block of the memory; `WrongBank` where their block is another bank's; `NoPermission` where
    /// the copy is below Branch; `ClockFull` where the bank's clock or the client's stands at its end; `Memory` where
    /// the log can't grow. Nothing changes then.
    pub fn load(
        &mut self,
        client: ClientId,
        address: u32,
        len: usize,
        when: When,
    ) -> Result<Loaded, Refusal>
        ensures refused { IfErr result
            (λ r. IsRefused (first_of (load_cases self.old client address len when.clock)) self.old.room r) }
        ensures unchanged { OnErr result (self.new ≡ self.old) }
        ensures permitted { OnOk result (first_of (load_cases self.old client address len when.clock) ≡ None) }
        ensures appends { IfOk result
            (λ loaded. Appends self.old self.new (Event.Load (record {
              client = client;
              address = address;
              bytes = loaded.bytes.items;
              stamp = loaded.stamp;
              index = when.index;
            }))) }
        ensures bytes { IfOk result
            (λ loaded. loaded.bytes.items
            ≡ slice_range (bytes_of (client_at self.old client (block_of_address self.old.geometry address)).held)
            (offset_of self.old.geometry address) (offset_of self.old.geometry address + len)) }
        ensures newest { IfOk result (λ loaded. AreLast self.old.image self.old.log address loaded.bytes.items) }
        ensures stamp { IfOk result (λ loaded. loaded.stamp ≡ latest self.old when.clock + 1) }
    {
        let bytes = self.check_load(client, address, len, when.clock)?;
        let stamp = self.next_stamp(when.clock);
        self.make_room()?;
        let loaded = entry::loaded(&bytes);
        self.clock = stamp;
        self.log.append(Event::Load(Access {
            client,
            address,
            bytes,
            stamp,
            index: when.index,
        }));
        Ok(Loaded {
            bytes: loaded,
            stamp,
        })
    }

    /// Writes one to eight bytes over a client's copy, from an address on, in one block. The answer is the stamp.
    ///
    /// The first of these that holds: `OutOfRange` where the client is not there, or the bytes are none, more than
    /// eight, or not in one block of the memory; `WrongBank` where their block is another bank's; `NoPermission` where
    /// the copy is below Tip; `ClockFull` where the bank's clock or the client's stands at its end; `Memory` where the
    /// log can't grow. Nothing changes then.
    pub fn store(
        &mut self,
        client: ClientId,
        address: u32,
        bytes: &[u8],
        when: When,
    ) -> Result<u64, Refusal>
        ensures refused { IfErr result
            (λ r. IsRefused (first_of (store_cases self.old client address (length bytes.now) when.clock))
            self.old.room r) }
        ensures unchanged { OnErr result (self.new ≡ self.old) }
        ensures permitted { OnOk result
            (first_of (store_cases self.old client address (length bytes.now) when.clock) ≡ None) }
        ensures appends { IfOk result
            (λ stamp. Appends self.old self.new (Event.Store (record {
              client = client;
              address = address;
              bytes = bytes.now;
              stamp = stamp;
              index = when.index;
            }))) }
        ensures stamp { IfOk result (λ stamp. stamp ≡ latest self.old when.clock + 1) }
    {
        let place = self.check_store(client, address, bytes.len(), when.clock)?;
        let block = self.geometry.block_at(address);
        let access = entry::access_of(bytes);
        let stamp = self.next_stamp(when.clock);
        self.make_room()?;
        let offset = self.geometry.offset(address) as usize;
        self.copies.store(client, block, place, offset, &access);
        self.clock = stamp;
        self.log.append(Event::Store(Access {
            client,
            address,
            bytes: access,
            stamp,
            index: when.index,
        }));
        Ok(stamp)
    }

    /// Asks home for a copy, or for a better one. The answer is the ticket of the AcquireBlock on channel A.
    ///
    /// The first of these that holds: `OutOfRange` where the client or the block is not there; `WrongBank` where the
    /// block is another bank's; `Waiting` where an Acquire or a Release of the block by the client is unanswered;
    /// `WrongFrom` where `grow` does not start from the copy's permission; `CopiesFull` where the client's table is
    /// full and has no entry of the block; `LinkFull` where channel A is full; `Memory` where the log can't grow.
    /// Nothing changes then.
    pub fn acquire(
        &mut self,
        client: ClientId,
        block: BlockNo,
        grow: Grow,
    ) -> Result<Ticket, Refusal>
        ensures refused { IfErr result
            (λ r. IsRefused (first_of (acquire_cases self.old client block grow)) self.old.room r) }
        ensures unchanged { OnErr result (self.new ≡ self.old) }
        ensures permitted { OnOk result (first_of (acquire_cases self.old client block grow) ≡ None) }
        ensures appends { OnOk result (Appends self.old self.new (Event.SendAcquire client block grow)) }
        ensures ticket { IfOk result (λ ticket. ticket ≡ next_ticket self.old client Channel.A) }
        ensures sends { IfOk result (λ ticket. Sends self.old self.new (Event.SendAcquire client block grow) ticket) }
    {
        self.check_acquire(client, block, grow)?;
        self.make_room()?;
        let body = Body::AcquireBlock(grow);
        let ticket = link::send(&mut self.links, client, Channel::A, Message { block, body });
        self.copies.wait_for(client, block, Awaited::ForGrant);
        self.log.append(Event::SendAcquire(client, block, grow));
        Ok(ticket)
    }

    /// Gives up a part of a copy, or all of it; the share counts what is left. The answer is the ticket of the Release
    /// on channel C, which has the bytes of a dirty copy.
    ///
    /// The first of these that holds: `OutOfRange` where the client or the block is not there, or the share is another
    /// client's or counts otherwise than the client's copies here; `WrongBank` where the block or the share is another
    /// bank's; `Waiting` where an Acquire or a Release of the block by the client is unanswered; `WrongFrom` where
    /// `prune` does not start from the copy's permission; `LinkFull` where channel C is full; `Memory` where the log
    /// can't grow. Nothing changes then, nor does the share.
    pub fn release(
        &mut self,
        client: ClientId,
        block: BlockNo,
        prune: Prune,
        share: &mut Share,
    ) -> Result<Ticket, Refusal>
        ensures refused { IfErr result
            (λ r. IsRefused (first_of (release_cases self.old client block prune share.old)) self.old.room r) }
        ensures unchanged { OnErr result (self.new ≡ self.old) }
        ensures share_unchanged { OnErr result (share.new ≡ share.old) }
        ensures permitted { OnOk result (first_of (release_cases self.old client block prune share.old) ≡ None) }
        ensures appends { OnOk result (Appends self.old self.new (Event.SendRelease client block prune)) }
        ensures ticket { IfOk result (λ ticket. ticket ≡ next_ticket self.old client Channel.C) }
        ensures sends { IfOk result (λ ticket. Sends self.old self.new (Event.SendRelease client block prune) ticket) }
        ensures share { OnOk result
            (share.new ≡ recounted (perm_at self.old client block) (perm_at self.new client block) share.old) }
        ensures counted { OnOk result (share.new.count ≡ copies_at self.new client) }
        ensures others { OnOk result ((x : ℕ) → x ≢ client → copies_at self.new x ≡ copies_at self.old x) }
    {
        let found = self.check_release(client, block, prune, share)?;
        self.make_room()?;
        let later = found.copy.perm();
        let body = Body::Upward(Upward::Release(found.given));
        let ticket = link::send(&mut self.links, client, Channel::C, Message { block, body });
        entry::put(
            &mut self.copies,
            client,
            block,
            found.copy,
            Awaited::ForReleaseAck,
        );
        self.log.append(Event::SendRelease(client, block, prune));
        share.recount(found.before, later);
        Ok(ticket)
    }

    /// Takes home's answer to a Release, the first message on its way to a client on channel D.
    ///
    /// The first of these that holds: `OutOfRange` where the client is not there; `WrongBank` where the ticket is
    /// another bank's; `NotHead` where it names another channel; `NothingThere` where no message waits; `NotHead` where
    /// it names another message than the first, or that is no ReleaseAck; `Memory` where the log can't grow. Nothing
    /// changes then.
    pub fn take_release_ack(&mut self, ticket: Ticket) -> Result<(), Refusal>
        ensures refused { IfErr result
            (λ r. IsRefused (first_of (take_release_ack_cases self.old ticket)) self.old.room r) }
        ensures unchanged { OnErr result (self.new ≡ self.old) }
        ensures permitted { OnOk result (first_of (take_release_ack_cases self.old ticket) ≡ None) }
        ensures appends { OnOk result
            (Appends self.old self.new (Event.TakeReleaseAck ticket.client (block_named self.old ticket Channel.D))) }
    {
        let block = self.check_release_ack(&ticket)?;
        self.make_room()?;
        link::discard(&mut self.links, ticket);
        entry::end_wait(&mut self.copies, ticket.client, block);
        self.log.append(Event::TakeReleaseAck(ticket.client, block));
        Ok(())
    }

    /// Answers the first Probe on its way to a client; the share counts what is left. The answer is the ticket of the
    /// ProbeAck on channel C, which has the bytes of a dirty copy.
    ///
    /// The first of these that holds: `OutOfRange` where the client is not there, or the share is another client's or
    /// counts otherwise than the client's copies here; `WrongBank` where the ticket or the share is another bank's;
    /// `NotHead` where the ticket names another channel than B; `NothingThere` where no message waits; `NotHead` where
    /// it names another message than the first; `ReleasePending` where a Release of the block by the client is
    /// unanswered; `LinkFull` where channel C is full; `Memory` where the log can't grow. Nothing changes then, nor
    /// does the share.
    pub fn answer_probe(&mut self, ticket: Ticket, share: &mut Share) -> Result<Ticket, Refusal>
        ensures refused { IfErr result
            (λ r. IsRefused (first_of (answer_probe_cases self.old ticket share.old)) self.old.room r) }
        ensures unchanged { OnErr result (self.new ≡ self.old) }
        ensures share_unchanged { OnErr result (share.new ≡ share.old) }
        ensures permitted { OnOk result (first_of (answer_probe_cases self.old ticket share.old) ≡ None) }
        ensures appends { OnOk result
            (Appends self.old self.new (Event.AnswerProbe ticket.client (block_named self.old ticket Channel.B))) }
        ensures ticket { IfOk result (λ sent. sent ≡ next_ticket self.old ticket.client Channel.C) }
        ensures sends { IfOk result
            (λ sent. Sends self.old self.new (Event.AnswerProbe ticket.client (block_named self.old ticket Channel.B))
            sent) }
        ensures share { OnOk result
            (share.new
            ≡ recounted (perm_at self.old ticket.client (block_named self.old ticket Channel.B))
            (perm_at self.new ticket.client (block_named self.old ticket Channel.B)) share.old) }
        ensures counted { OnOk result (share.new.count ≡ copies_at self.new ticket.client) }
        ensures others { OnOk result ((x : ℕ) → x ≢ ticket.client → copies_at self.new x ≡ copies_at self.old x) }
    {
        let found = self.check_answer(&ticket, share)?;
        self.make_room()?;
        let block = found.block;
        let later = found.copy.perm();
        link::discard(&mut self.links, ticket);
        let body = Body::Upward(Upward::ProbeAck(found.answer));
        let sent = link::send(
            &mut self.links,
            ticket.client,
            Channel::C,
            Message { block, body },
        );
        entry::put(
            &mut self.copies,
            ticket.client,
            block,
            found.copy,
            found.wait,
        );
        self.log.append(Event::AnswerProbe(ticket.client, block));
        share.recount(found.before, later);
        Ok(sent)
    }

    /// Takes the Grant that is first on its way to a client on channel D, and sends the GrantAck; the share counts the
    /// copy. The answer is the ticket of the GrantAck on channel E.
    ///
    /// The first of these that holds: `OutOfRange` where the client is not there, or the share is another client's or
    /// counts otherwise than the client's copies here; `WrongBank` where the ticket or the share is another bank's;
    /// `NotHead` where the ticket names another channel; `NothingThere` where no message waits; `NotHead` where it
    /// names another message than the first, or that is no Grant; `LinkFull` where channel E is full; `Memory` where
    /// the log can't grow. Nothing changes then, nor does the share.
    pub fn take_grant(&mut self, ticket: Ticket, share: &mut Share) -> Result<Ticket, Refusal>
        ensures refused { IfErr result
            (λ r. IsRefused (first_of (take_grant_cases self.old ticket share.old)) self.old.room r) }
        ensures unchanged { OnErr result (self.new ≡ self.old) }
        ensures share_unchanged { OnErr result (share.new ≡ share.old) }
        ensures permitted { OnOk result (first_of (take_grant_cases self.old ticket share.old) ≡ None) }
        ensures appends { OnOk result
            (Appends self.old self.new (Event.TakeGrant ticket.client (block_named self.old ticket Channel.D))) }
        ensures ticket { IfOk result (λ sent. sent ≡ next_ticket self.old ticket.client Channel.E) }
        ensures sends { IfOk result
            (λ sent. Sends self.old self.new (Event.TakeGrant ticket.client (block_named self.old ticket Channel.D))
            sent) }
        ensures share { OnOk result
            (share.new
            ≡ recounted (perm_at self.old ticket.client (block_named self.old ticket Channel.D))
            (perm_at self.new ticket.client (block_named self.old ticket Channel.D)) share.old) }
        ensures counted { OnOk result (share.new.count ≡ copies_at self.new ticket.client) }
        ensures others { OnOk result ((x : ℕ) → x ≢ ticket.client → copies_at self.new x ≡ copies_at self.old x) }
    {
        let found = self.check_grant(&ticket, share)?;
        self.make_room()?;
        let block = found.block;
        let later = found.copy.perm();
        link::discard(&mut self.links, ticket);
        let body = Body::GrantAck;
        let sent = link::send(
            &mut self.links,
            ticket.client,
            Channel::E,
            Message { block, body },
        );
        entry::put(
            &mut self.copies,
            ticket.client,
            block,
            found.copy,
            Awaited::Nothing,
        );
        self.log.append(Event::TakeGrant(ticket.client, block));
        share.recount(found.before, later);
        Ok(sent)
    }

    /// The stamp of the next access.
    fn next_stamp(&self, clock: u64) -> u64
        requires { clock_full self.now clock ≡ false }
        ensures { result ≡ latest self.now clock + 1 }
    {
        self.clock.max(clock) + 1
    }
}
