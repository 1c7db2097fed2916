//! A register's next action, carried out.
ghost use Rattle.std.specs.Prelude.{◌≡◌, ◌≢◌, ◌<◌, ◌-◌, ◌^◌, ℕ, None, Some, false, length, IfErr, IfOk, OnErr, OnOk};
ghost use Rattle.tl_protocol.specs.Client.{grant_bytes};
ghost use Rattle.tl_protocol.specs.Protocol.{granted, home_bytes, is_alone};
ghost use Rattle.tl_registers.specs.declared.due.Due.{Due};
ghost use Rattle.tl_ways.specs.Entries.{entry_perm};
ghost use Rattle.tl_bank_spec.specs.Effects.{Advances};
ghost use Rattle.tl_bank_spec.specs.HomeCalls.{advance_cases};
ghost use Rattle.tl_bank_spec.specs.HomeCases.{due_at, due_full};
ghost use Rattle.tl_bank_spec.specs.Refusal.{IsRefused, first_of};
ghost use Rattle.tl_bank_spec.specs.View.{end_at, client_at, shape_of};
ghost use Rattle.tl_bank_spec.specs.Own.{IsOwn, way_at};

use crate::bank::Bank;
use crate::link;
use tl_bank_spec::{Action, Refusal};
use tl_protocol::{Accepted, Event};
use tl_registers::{BlockView, Due, Task};
use tl_types::{
    BlockBytes, BlockNo, Body, Channel, ClientId, Downward, GrantCap, Grow, Message, Perm, ProbeCap,
};
use tl_ways::{Entry, Way};

impl Bank {
    /// Carries out what the miss register of a block does next, and says what that was.
    ///
    /// The first of these that holds: `OutOfRange` where the block is not there; `WrongBank` where it is another
    /// bank's; `NotYet` where its register waits or it has none; `LinkFull` where `MESSAGES` messages are on the
    /// channel of a Probe or Grant that is next; `Memory` where the log can't grow. Nothing changes then.
    pub fn advance(&mut self, block: BlockNo) -> Result<Action, Refusal>
        ensures refused { IfErr result (λ r. IsRefused (first_of (advance_cases self.old block)) self.old.room r) }
        ensures unchanged { OnErr result (self.new ≡ self.old) }
        ensures permitted { OnOk result (first_of (advance_cases self.old block) ≡ None) }
        ensures advances { IfOk result (λ action. Advances self.old self.new block action) }
    {
        let due = self.next_due(block)?;
        self.make_room()?;
        Ok(match due {
            Due::Probe(client, victim, cap) => self.send_probe(block, client, victim, cap),
            Due::Grant(client) => self.send_grant(block, client),
            Due::Get => self.send_get(block),
            Due::Put(victim) => self.send_put(block, victim),
            Due::Drop(victim) => self.drop_line(block, victim),
        })
    }

    /// What the register of a block does next, if nothing forbids it.
    fn next_due(&self, block: BlockNo) -> Result<Due, Refusal>
        ensures refused { IfErr result (λ r. first_of (advance_cases self.now block) ≡ Some r) }
        ensures permitted { OnOk result (first_of (advance_cases self.now block) ≡ None) }
        ensures due { IfOk result (λ due. due_at self.now block ≡ Some due) }
    {
        if !self.geometry.has(block) {
            return Err(Refusal::OutOfRange);
        }
        if self.is_elsewhere(block) {
            return Err(Refusal::WrongBank);
        }
        let view = BlockView { block, view: self };
        let Some(due) = self.registers.next_action(&view) else {
            return Err(Refusal::NotYet);
        };
        if self.is_due_full(block, &due) {
            return Err(Refusal::LinkFull);
        }
        Ok(due)
    }

    /// Whether `MESSAGES` messages are on the channel that an action of the register of a block sends on.
    fn is_due_full(&self, block: BlockNo, due: &Due) -> bool
        requires own { IsOwn self.now.geometry self.now.number block }
        requires due { due_at self.now block ≡ Some due.now }
        ensures { result ≡ due_full self.now (Some due.now) }
    {
        // For the prover: the clauses alone name the block, and the bank's layers say which clients there are.
        let _ = (block, self.geometry);
        match due {
            Due::Probe(client, _, _) => self.is_link_full(*client, Channel::B),
            Due::Grant(client) => self.is_link_full(*client, Channel::D),
            Due::Get | Due::Put(_) | Due::Drop(_) => false,
        }
    }

    /// Sends a client a Probe of a block, which the register of `own` notes.
    fn send_probe(
        &mut self,
        own: BlockNo,
        client: ClientId,
        block: BlockNo,
        cap: ProbeCap,
    ) -> Action
        requires permitted { first_of (advance_cases self.old own) ≡ None }
        requires due { due_at self.old own ≡ Some (Due.Probe client block cap) }
        requires room { 0 < self.old.room }
        requires small { length self.old.log < 2 ^ 64 - 1 }
        ensures { Advances self.old self.new own result }
    {
        let body = Body::ProbeBlock(cap);
        let ticket = link::send(&mut self.links, client, Channel::B, Message { block, body });
        self.registers.note_probe(own, client);
        self.log.append(Event::SendProbe(client, block, cap));
        Action::Probe(ticket)
    }

    /// Grants a block to the client whose Acquire its register serves.
    fn send_grant(&mut self, own: BlockNo, client: ClientId) -> Action
        requires permitted { first_of (advance_cases self.old own) ≡ None }
        requires due { due_at self.old own ≡ Some (Due.Grant client) }
        requires room { 0 < self.old.room }
        requires small { length self.old.log < 2 ^ 64 - 1 }
        ensures { Advances self.old self.new own result }
    {
        let acquire = self.accepted(own).unwrap();
        let (entry, bytes, way) = self.home_line(own);
        let cap = self.granted(acquire, entry, own);
        let recorded = entry.perm(client);
        let body = Body::Downward(Downward::Grant(cap, grant_bytes(recorded, bytes)));
        let message = Message { block: own, body };
        let ticket = link::send(&mut self.links, client, Channel::D, message);
        self.home.grant(client, own, way, cap.perm());
        self.log.append(Event::SendGrant(client, own));
        Action::Grant(ticket)
    }

    /// Asks the memory for a block.
    fn send_get(&mut self, own: BlockNo) -> Action
        requires permitted { first_of (advance_cases self.old own) ≡ None }
        requires due { due_at self.old own ≡ Some Due.Get }
        requires room { 0 < self.old.room }
        ensures { Advances self.old self.new own result }
    {
        // For the prover: no more passes between home and the memory than registers are open.
        let _ = self.home.crossings();
        self.home.send_get(own);
        self.log.append(Event::SendGet(own));
        Action::Get
    }

    /// Writes the dirty block that the register of `own` sends away back to the memory.
    fn send_put(&mut self, own: BlockNo, victim: BlockNo) -> Action
        requires permitted { first_of (advance_cases self.old own) ≡ None }
        requires due { due_at self.old own ≡ Some (Due.Put victim) }
        requires room { 0 < self.old.room }
        ensures { Advances self.old self.new own result }
    {
        // For the prover: the clauses alone name it.
        let _ = own;
        // For the prover: no more passes between home and the memory than registers are open.
        let _ = self.home.crossings();
        self.home.send_put(victim);
        self.log.append(Event::SendPut(victim));
        Action::Put(victim)
    }

    /// Drops the clean block that the register of `own` sends away: it is gone.
    fn drop_line(&mut self, own: BlockNo, victim: BlockNo) -> Action
        requires permitted { first_of (advance_cases self.old own) ≡ None }
        requires due { due_at self.old own ≡ Some (Due.Drop victim) }
        requires room { 0 < self.old.room }
        ensures { Advances self.old self.new own result }
    {
        // For the prover: the clauses alone name it.
        let _ = own;
        self.home.drop_line(victim);
        self.registers.end_victim(victim);
        self.log.append(Event::Drop(victim));
        Action::Drop
    }

    /// The Acquire of a block that home serves.
    fn accepted(&self, block: BlockNo) -> Option<Accepted>
        ensures { result ≡ (end_at self.now block).accepted }
    {
        match self.registers.of_block(block)?.task {
            Task::Acquire(acquire) => Some(acquire),
            Task::Replace(acquire, _) => Some(acquire),
            Task::Evict => None,
        }
    }

    /// Home's entry of a block that it holds, its bytes, and the way in which it lies.
    fn home_line(&self, block: BlockNo) -> (Entry, &BlockBytes, Way)
        requires own { IsOwn self.now.geometry self.now.number block }
        requires held { (end_at self.now block).home ≢ None }
        ensures recorded { (x : ℕ) → (client_at self.now x block).recorded ≡ entry_perm result.0 x }
        ensures bytes { result.1.now ≡ home_bytes (end_at self.now block).home }
        ensures way { way_at self.now block ≡ Some result.2 }
    {
        let Some(line) = self.home.line(block) else {
            unreachable!()
        };
        line
    }

    /// What an Acquire of a block is granted now, by home's entry: Tip too where Branch was asked for and no other
    /// client has a copy.
    fn granted(&self, acquire: Accepted, entry: Entry, block: BlockNo) -> GrantCap
        requires { (x : ℕ) → (client_at self.now x block).recorded ≡ entry_perm entry x }
        ensures { result ≡ granted (shape_of self.now.geometry) (end_at self.now block) acquire }
    {
        match acquire.grow {
            Grow::NtoB => {
                if self.is_alone(acquire.client, entry, block) {
                    GrantCap::ToT
                } else {
                    GrantCap::ToB
                }
            }
            Grow::NtoT | Grow::BtoT => GrantCap::ToT,
        }
    }

    /// Whether home's entry of a block records None for each client but this one.
    fn is_alone(&self, client: ClientId, entry: Entry, block: BlockNo) -> bool
        requires { (x : ℕ) → (client_at self.now x block).recorded ≡ entry_perm entry x }
        ensures { result ≡ is_alone self.now.geometry.clients client (end_at self.now block).client }
    {
        // For the prover: the clauses alone name it.
        let _ = block;
        if entry.is_unshared() {
            return true;
        }
        for number in 0..self.geometry.clients() {
            if number != client.number() && entry.perm(ClientId::new(number)) != Perm::None {
                return false;
            }
        }
        true
    }
}

/// The bytes that go along with a Grant: home's, where home records None for the client.
fn grant_bytes(recorded: Perm, bytes: &BlockBytes) -> Option<BlockBytes>
    ensures { result ≡ grant_bytes recorded bytes.now }
{
    match recorded {
        Perm::None => Some(bytes.copied()),
        Perm::Branch | Perm::Tip => None,
    }
}
