//! The bank: its making, its room, and what it shows.
ghost use Rattle.std.specs.Prelude.{◌≡◌, ◌≤◌, ◌<◌, ◌*◌, ◌-◌, ◌^◌, ℕ, List, [], length, drop, Option, Some, None, IfOk, IfErr, OnOk, OnErr, if◌then◌else◌};
ghost use Rattle.std.specs.List.{All};
ghost use Rattle.tl_types.specs.declared.channel.Channel.{Channel};
ghost use Rattle.tl_types.specs.declared.permission.Perm.{Perm};
ghost use Rattle.tl_protocol.specs.Protocol.{block_of};
ghost use Rattle.tl_protocol.specs.Runs.{IsRun};
ghost use Rattle.tl_protocol_lanes.specs.Lawful.{Lawful};
ghost use Rattle.tl_bank_spec.specs.Cases.{no_client};
ghost use Rattle.tl_bank_spec.specs.Coherent.{IsCoherent};
ghost use Rattle.tl_bank_spec.specs.Share.{first_shares};
ghost use Rattle.tl_bank_spec.specs.Steps.{Forgets};
ghost use Rattle.tl_bank_spec.specs.View.{shape_of};
ghost use Rattle.tl_bank_spec.specs.Own.{IsOwn, way_at};
ghost use Rattle.tl_bank_spec.specs.Clock.{StampsRise};
ghost use Rattle.tl_bank_spec.specs.Tables.{copies_at};
ghost use Rattle.tl_bank_spec.specs.Views.{IsDelivered, copy_perm_at};

use crate::share::Share;
use arrayvec::ArrayVec;
use std::alloc::{AllocError, Global};
use std::marker::Model;
use tl_bank_home::Home;
use tl_bank_spec::Refusal;
use tl_copies::Copies;
use tl_links::Links;
use tl_map::Geometry;
use tl_protocol::{Event, Log};
use tl_registers::Registers;
use tl_types::{BankNo, BlockNo, CLIENTS, ClientId, Perm};

mod advance;
mod checks;
mod client_calls;
mod contents;
mod home_calls;
mod look;
mod memory_calls;
mod misses;
mod open;
mod protocol_view;
mod tickets;
mod views;
mod would;

/// Why a bank can't be made: want of memory, and nothing else.
pub type BankError = AllocError;

/// One bank: the log of what happened on its blocks, and what that leaves.
#[derive(Drop)]
pub struct Bank {
    geometry: Geometry,
    number: BankNo,
    image: Vec<u8>,
    log: Log,
    links: Links,
    copies: Copies,
    home: Home,
    registers: Registers,
    /// The stamp of the last access, 0 before the first.
    clock: u64,
}

impl Model for Bank {
    ghost use Rattle.tl_bank_spec.specs.View.{View};

    ghost Value = { View };

    ghost use Rattle.tl_bank_laws.specs.Means.{Means};
    ghost use Rattle.tl_bank.specs.Shown.{shown, layers};

    ghost view = { shown };

    ghost invariant = { λ b. Means (shown b) (layers b) };
}

impl Bank {
    /// A bank of a geometry at reset, over a memory that holds an image no longer than it and 0 past the image; and a
    /// share for each client, in their order. All memory that the bank ever takes is taken here, but for the log's; the
    /// error is want of it.
    pub fn new(
        alloc: Global,
        geometry: Geometry,
        number: BankNo,
        image: &[u8],
    ) -> Result<(Bank, ArrayVec<Share, CLIENTS>), BankError>
        requires number { number < geometry.banks }
        requires image { length image.now ≤ geometry.memory_blocks * geometry.block_bytes }
        ensures bank { IfOk result
            (λ made. made.0
            ≡ record {
              geometry = geometry;
              number = number;
              image = image.now;
              log = [];
              forgotten = 0;
              room = made.0.room;
              registers = [];
              ways = made.0.ways;
            }) }
        ensures empty { IfOk result (λ made. (block : ℕ) → way_at made.0 block ≡ None) }
        ensures shares { IfOk result (λ made. made.1.items ≡ first_shares number geometry.clients) }
    {
        let bank = Bank {
            geometry,
            number,
            image: Vec::from_slice(alloc, image)?,
            log: Log::new(alloc),
            links: Links::new(alloc, number, geometry.clients())?,
            copies: Copies::new(alloc, geometry, number)?,
            home: Home::new(alloc, geometry, number, image)?,
            registers: Registers::new(geometry.registers() as usize),
            clock: 0,
        };
        Ok((bank, first_shares(number, geometry.clients())))
    }

    /// Makes room for `count` more events, which then need no memory.
    ///
    /// `Memory` where memory is refused, which happens only where there was less room. Nothing changes then.
    pub fn reserve_steps(&mut self, count: usize) -> Result<(), Refusal>
        ensures refused { IfErr result (λ refusal. (refusal ≡ Refusal.Memory) × (self.old.room < count)) }
        ensures unchanged { OnErr result (self.new ≡ self.old) }
        ensures room { OnOk result (count ≤ self.new.room) }
        ensures grows { self.old.room ≤ self.new.room }
        ensures same { self.new ≡ record self.old { room = self.new.room } }
    {
        self.log.reserve(count).map_err(|_| Refusal::Memory)
    }

    /// Makes room for one more event.
    fn make_room(&mut self) -> Result<(), Refusal>
        ensures refused { IfErr result (λ refusal. (refusal ≡ Refusal.Memory) × (self.old.room ≡ 0)) }
        ensures unchanged { OnErr result (self.new ≡ self.old) }
        ensures room { OnOk result (0 < self.new.room) }
        ensures grows { self.old.room ≤ self.new.room }
        ensures same { self.new ≡ record self.old { room = self.new.room } }
        ensures small { length self.new.log < 2 ^ 64 - 1 }
    {
        self.log.reserve(1).map_err(|_| Refusal::Memory)
    }

    /// How many more events need no memory.
    pub fn room(&self) -> usize
        ensures { result ≡ self.now.room }
    {
        self.log.room()
    }

    /// Forgets what happened so far: its memory is room for more events, and `log` begins with what happens next. All
    /// that the bank holds and promises stays as it was, since that is stated by the whole log, which contracts still
    /// see. After 2 ^ 63 events nothing more is forgotten.
    pub fn forget(&mut self)
        ensures { Forgets self.old self.new }
    {
        self.log.forget();
    }

    /// How many of the first events are forgotten.
    pub fn forgotten(&self) -> usize
        ensures is { result ≡ self.now.forgotten }
        ensures few { self.now.forgotten ≤ length self.now.log }
    {
        self.log.forgotten()
    }

    /// How many events happened, with those that are forgotten.
    pub fn events(&self) -> usize
        ensures { result ≡ length self.now.log }
    {
        self.log.len()
    }

    /// What happened, oldest first, without what is forgotten. All that happened is a run of the protocol on this
    /// bank's blocks, whose stamps rise, and which takes each message of a channel once, in the order of sending. So
    /// the bank is coherent: one writer or readers of each block, each copy in the directory and at home, and the bytes
    /// last stored in each copy and each load.
    pub fn log(&self) -> &[Event]
        ensures is { result.now ≡ drop self.now.forgotten self.now.log }
        ensures coherent { IsCoherent self.now }
        ensures run { IsRun (shape_of self.now.geometry) self.now.image self.now.log }
        ensures lawful { Lawful (shape_of self.now.geometry) self.now.image self.now.log }
        ensures own { All (λ e. IsOwn self.now.geometry self.now.number (block_of (shape_of self.now.geometry) e))
            self.now.log }
        ensures stamps { StampsRise self.now.log }
        ensures delivered { (client : ℕ) (channel : Channel) → IsDelivered self.now client channel }
    {
        self.log.events()
    }

    /// The geometry that it was made of.
    pub fn geometry(&self) -> Geometry
        ensures { result ≡ self.now.geometry }
    {
        self.geometry
    }

    /// Its number among the banks.
    pub fn number(&self) -> BankNo
        ensures { result ≡ self.now.number }
    {
        self.number
    }

    /// The first bytes of the memory at reset, as they were handed in.
    pub fn image(&self) -> &[u8]
        ensures { result.now ≡ self.now.image }
    {
        self.image.as_slice()
    }

    /// What a client may do with a block. It is None also where there is no such client, and where the block is not of
    /// the memory or of another bank.
    pub fn perm(&self, client: ClientId, block: BlockNo) -> Perm
        ensures { result ≡ copy_perm_at self.now client block }
    {
        if self.has_no_part(client, block) {
            return Perm::None;
        }
        self.perm_of(client, block)
    }

    /// How many copies a client has in this bank, above None; None of a client that is not there.
    pub fn copies_of(&self, client: ClientId) -> Option<u64>
        ensures { result ≡ (if no_client self.now client then None else Some (copies_at self.now client)) }
    {
        if client.number() >= self.geometry.clients() {
            return None;
        }
        Some(u64::from(self.count(client)))
    }
}

/// The shares of all clients in a bank where nobody has a copy.
fn first_shares(bank: BankNo, clients: u32) -> ArrayVec<Share, CLIENTS>
    requires { clients ≤ CLIENTS }
    ensures { result.items ≡ first_shares bank clients }
{
    let mut shares = ArrayVec::new();
    for client in 0..clients {
        shares.push(Share::new(ClientId::new(client), bank));
    }
    shares
}
