//! Home opens miss registers: to serve an Acquire, and to send a block away.
ghost use Rattle.std.specs.Prelude.{◌≡◌, ◌<◌, ◌&&◌, ℕ, List, ◌∷◌, None, IfErr, IfOk, IfSome, OnErr, OnOk, is_none};
ghost use Rattle.tl_types.specs.declared.channel.Channel.{Channel};
ghost use Rattle.tl_types.specs.declared.message.Body.TheVariants.{AcquireBlock};
ghost use Rattle.tl_types.specs.declared.message.Message.{Message};
ghost use Rattle.tl_types.specs.declared.permission.Grow.{Grow};
ghost use Rattle.tl_map.specs.Places.{set_of};
ghost use Rattle.tl_registers.specs.Registers.{held_in};
ghost use Rattle.tl_bank_spec.specs.Cases.{block_named};
ghost use Rattle.tl_bank_spec.specs.Effects.{Accepts, Evicts};
ghost use Rattle.tl_bank_spec.specs.HomeCalls.{accept_cases, evict_cases};
ghost use Rattle.tl_bank_spec.specs.HomeCases.{lacks, no_register};
ghost use Rattle.tl_bank_spec.specs.Refusal.{IsRefused, first_of};
ghost use Rattle.tl_bank_spec.specs.Own.{IsOwn, way_at};
ghost use Rattle.tl_bank_spec.specs.Channels.{lane_at};
ghost use Rattle.tl_bank_spec.specs.Ways.{IsWayFor, registers_full, victim_of_way, way_in_set, ways_held};

use crate::bank::Bank;
use crate::link;
use arrayvec::ArrayVec;
use tl_bank_spec::Refusal;
use tl_map::Set;
use tl_protocol::{Accepted, Event};
use tl_registers::WayOfSet;
use tl_types::{BlockNo, Body, Channel, Grow, Ticket};
use tl_ways::Way;

/// Where a register opens: the way that it takes, and the block that has to leave that way first.
#[derive(Clone, Copy)]
struct Opening {
    way: WayOfSet,
    victim: Option<BlockNo>,
}

/// What an Acquire that home accepts asks for, and where its register opens.
#[derive(Clone, Copy)]
struct Asked {
    block: BlockNo,
    grow: Grow,
    opening: Opening,
}

impl Bank {
    /// Takes the first Acquire of a client, and opens a register for it. The register holds the way of home's copy;
    /// where home lacks the block, of the ways that no register holds the lowest free one, else the one whose block was
    /// granted longest ago, and that block leaves first.
    ///
    /// The first of these that holds: `OutOfRange` where the client is not there; `WrongBank` where the ticket is
    /// another bank's; `NotHead` where it names another channel than A; `NothingThere` where no message waits;
    /// `NotHead` where it names another message than the first; `BlockBusy` where the block is the own block or the
    /// victim of an open register; `NoRegister` where all registers are in use, or home lacks the block and registers
    /// hold every way of its set; `Memory` where the log can't grow. Nothing changes then.
    pub fn accept(&mut self, ticket: Ticket) -> Result<(), Refusal>
        ensures refused { IfErr result (λ r. IsRefused (first_of (accept_cases self.old ticket)) self.old.room r) }
        ensures unchanged { OnErr result (self.new ≡ self.old) }
        ensures permitted { OnOk result (first_of (accept_cases self.old ticket) ≡ None) }
        ensures accepts { OnOk result
            (Accepts self.old self.new ticket (block_named self.old ticket Channel.A)
            (set_of self.old.geometry (block_named self.old ticket Channel.A))) }
    {
        let asked = self.asked(&ticket)?;
        self.make_room()?;
        link::discard(&mut self.links, ticket);
        let Opening { way, victim } = asked.opening;
        let accepted = Accepted {
            client: ticket.client,
            grow: asked.grow,
        };
        self.registers
            .open_acquire(asked.block, accepted, way, victim);
        self.log
            .append(Event::AcceptAcquire(ticket.client, asked.block));
        Ok(())
    }

    /// Opens a register that sends a block away, of which home has a copy. It writes no event and takes no memory.
    ///
    /// The first of these that holds: `OutOfRange` where the block is not there; `WrongBank` where it is another
    /// bank's; `BlockBusy` where it is the own block or the victim of an open register; `NotYet` where home has no copy
    /// of it; `NoRegister` where all registers are in use. Nothing changes then.
    pub fn evict(&mut self, block: BlockNo) -> Result<(), Refusal>
        ensures refused { IfErr result (λ r. first_of (evict_cases self.old block) ≡ Some r) }
        ensures unchanged { OnErr result (self.new ≡ self.old) }
        ensures permitted { OnOk result (first_of (evict_cases self.old block) ≡ None) }
        ensures evicts { OnOk result (Evicts self.old self.new block) }
    {
        let way = self.check_evict(block)?;
        self.registers.open_evict(block, way);
        Ok(())
    }

    /// What the Acquire of a ticket asks for and where its register opens, or why it is not accepted, but for want of
    /// memory.
    fn asked(&self, ticket: &Ticket) -> Result<Asked, Refusal>
        ensures refused { IfErr result (λ r. first_of (accept_cases self.now ticket.now) ≡ Some r) }
        ensures permitted { OnOk result (first_of (accept_cases self.now ticket.now) ≡ None) }
        ensures block { IfOk result (λ a. a.block ≡ block_named self.now ticket.now Channel.A) }
        ensures grow { IfOk result (λ a. (block : ℕ) → (grow : Grow) → (rest : List Message)
            → (lane_at self.now ticket.now.client Channel.A).messages
            ≡ (record { block = block; body = AcquireBlock grow }) ∷ rest
            → a.grow ≡ grow) }
        ensures set { IfOk result (λ a. a.opening.way.set ≡ set_of self.now.geometry a.block) }
        ensures way { IfOk result
            (λ a. IsWayFor self.now (set_of self.now.geometry a.block) (way_at self.now a.block) a.opening.way.way) }
        ensures victim { IfOk result
            (λ a. a.opening.victim
            ≡ victim_of_way self.now (set_of self.now.geometry a.block) (way_at self.now a.block) a.opening.way.way) }
    {
        let message = self.ticket_message(ticket, Channel::A)?;
        if self.registers.is_busy(message.block) {
            return Err(Refusal::BlockBusy);
        }
        if self.is_in_use() {
            return Err(Refusal::NoRegister);
        }
        let Some(opening) = self.opening(message.block) else {
            return Err(Refusal::NoRegister);
        };
        Ok(Asked {
            block: message.block,
            grow: grow_in(&message.body),
            opening,
        })
    }

    /// Where the block lies that is sent away.
    fn check_evict(&self, block: BlockNo) -> Result<WayOfSet, Refusal>
        ensures refused { IfErr result (λ r. first_of (evict_cases self.now block) ≡ Some r) }
        ensures permitted { OnOk result (first_of (evict_cases self.now block) ≡ None) }
        ensures set { IfOk result (λ way. way.set ≡ set_of self.now.geometry block) }
        ensures way { IfOk result (λ way. way_at self.now block ≡ Some way.way) }
    {
        if !self.geometry.has(block) {
            return Err(Refusal::OutOfRange);
        }
        if self.is_elsewhere(block) {
            return Err(Refusal::WrongBank);
        }
        if self.registers.is_busy(block) {
            return Err(Refusal::BlockBusy);
        }
        let Some(way) = self.way_of(block) else {
            return Err(Refusal::NotYet);
        };
        if self.is_in_use() {
            return Err(Refusal::NoRegister);
        }
        Ok(in_set(self.geometry.place(block).set, way))
    }

    /// The way in which a block lies, if home holds it.
    fn way_of(&self, block: BlockNo) -> Option<Way>
        requires { IsOwn self.now.geometry self.now.number block }
        ensures is { result ≡ way_at self.now block }
        ensures lacks { is_none result ≡ lacks self.now block }
    {
        self.home.way(block)
    }

    /// Whether all registers are in use.
    fn is_in_use(&self) -> bool
        ensures { result ≡ registers_full self.now }
    {
        self.registers.is_full()
    }

    /// Where a register of a block opens: in the way of home's copy, which no block has to leave, else in the one that
    /// is taken next of those that no register holds.
    fn opening(&self, block: BlockNo) -> Option<Opening>
        requires { IsOwn self.now.geometry self.now.number block }
        ensures set { IfSome result (λ o. o.way.set ≡ set_of self.now.geometry block) }
        ensures way { IfSome result
            (λ o. IsWayFor self.now (set_of self.now.geometry block) (way_at self.now block) o.way.way) }
        ensures victim { IfSome result
            (λ o. o.victim
            ≡ victim_of_way self.now (set_of self.now.geometry block) (way_at self.now block) o.way.way) }
        ensures none { is_none result ≡ (lacks self.now block && ways_held self.now (set_of self.now.geometry block)) }
    {
        let set = self.geometry.place(block).set;
        if let Some(way) = self.way_of(block) {
            return Some(Opening {
                way: in_set(set, way),
                victim: None,
            });
        }
        let way = self.way_taken(block, set)?;
        let victim = self.victim_in(block, set, way);
        Some(Opening {
            way: in_set(set, way),
            victim,
        })
    }

    /// The way that is taken next for a block that home lacks, of those that no register holds.
    fn way_taken(&self, block: BlockNo, set: Set) -> Option<Way>
        requires own { IsOwn self.now.geometry self.now.number block }
        requires set { set ≡ set_of self.now.geometry block }
        requires small { set < self.now.geometry.sets }
        requires away { way_at self.now block ≡ None }
        ensures is { IfSome result
            (λ way. IsWayFor self.now (set_of self.now.geometry block) (way_at self.now block) way) }
        ensures inside { IfSome result (λ way. way < self.now.geometry.ways) }
        ensures none { is_none result ≡ (lacks self.now block && ways_held self.now (set_of self.now.geometry block)) }
    {
        // For the prover: the clauses alone name it.
        let _ = block;
        self.home.choose(set, self.busy_ways(set).as_slice())
    }

    /// The ways of a set that registers hold.
    fn busy_ways(&self, set: Set) -> ArrayVec<Way, 8>
        ensures { result.items ≡ held_in set self.now.registers }
    {
        let mut busy = ArrayVec::new();
        for number in self.registers.held_in(set.number()).as_slice() {
            busy.push(Way::new(*number));
        }
        busy
    }

    /// The block that has to leave a way first that is taken for a block which home lacks.
    fn victim_in(&self, block: BlockNo, set: Set, way: Way) -> Option<BlockNo>
        requires own { IsOwn self.now.geometry self.now.number block }
        requires set { set ≡ set_of self.now.geometry block }
        requires small { set < self.now.geometry.sets }
        requires away { way_at self.now block ≡ None }
        requires inside { way < self.now.geometry.ways }
        ensures { result ≡ victim_of_way self.now (set_of self.now.geometry block) (way_at self.now block) way }
    {
        // For the prover: the clauses alone name it.
        let _ = block;
        self.home.occupant(set, way)
    }
}

/// A way of a set.
fn in_set(set: Set, way: Way) -> WayOfSet
    ensures { result ≡ way_in_set set way }
{
    WayOfSet {
        set: set.number(),
        way: way.number(),
    }
}

/// What an Acquire asks for.
fn grow_in(body: &Body) -> Grow
    ensures { (grow : Grow) → body.now ≡ AcquireBlock grow → result ≡ grow }
{
    match body {
        Body::AcquireBlock(grow) => *grow,
        _ => Grow::NtoB,
    }
}
