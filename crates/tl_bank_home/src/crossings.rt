//! What passes between home and the memory. At most one register works on a block, and there are at most eight, so few
//! blocks have anything that passes.
ghost use Rattle.std.specs.Prelude.{◌≡◌, ◌≢◌, ◌↔◌, ℕ, ◌+◌, ◌<◌, ◌≤◌, ◌==◌, [], length, IsTrue, MatchOption, if◌then◌else◌};
ghost use Rattle.tl_protocol.specs.declared.home.Outward.TheVariants.{Quiet, PutAck};
ghost use Rattle.tl_protocol.specs.Home.{IsRequest, IsData};

use arrayvec::ArrayVec;
use std::default::Default;
use std::marker::Model;
use tl_protocol::Outward;
use tl_types::BlockNo;

/// What passes of one block.
#[derive(Debug, Drop)]
pub struct Crossing {
    block: BlockNo,
    outward: Outward,
}

/// What stands in an unused place of a list.
impl Default for Crossing {
    fn default() -> Crossing {
        Crossing {
            block: BlockNo::new(0),
            outward: Outward::Quiet,
        }
    }
}

/// What passes of each block of which anything does.
#[derive(Drop)]
pub struct Crossings {
    list: ArrayVec<Crossing, 8>,
}

impl Model for Crossings {
    ghost use Rattle.std.specs.Prelude.{List};
    ghost use Rattle.tl_bank_home.specs.declared.crossings.Crossing.{Crossing};

    ghost Value = { List Crossing };

    ghost use Rattle.tl_bank_home.specs.Crossings.{AreCrossings};

    ghost view = { λ c. c.list.items };

    ghost invariant = { λ c. AreCrossings c.list.items };
}

impl Crossings {
    ghost use Rattle.tl_bank_home.specs.Crossings.{outward_of, IsPlace};

    /// Nothing passes.
    pub fn new() -> Crossings
        ensures { result ≡ [] }
    {
        Crossings {
            list: ArrayVec::new(),
        }
    }

    /// Of how many blocks something passes.
    pub fn len(&self) -> usize
        ensures is { result ≡ length self.now }
        ensures few { result ≤ 8 }
        ensures each { (n : ℕ) (holder : ℕ → ℕ)
            → ((b : ℕ) → outward_of b self.now ≢ Quiet → holder b < n)
            → ((a b : ℕ) → outward_of a self.now ≢ Quiet → outward_of b self.now ≢ Quiet → holder a ≡ holder b → a ≡ b)
            → result ≤ n }
    {
        self.list.len()
    }

    /// What passes of a block, if anything does.
    pub fn of(&self, block: BlockNo) -> Option<&Outward>
        ensures { MatchOption result (outward_of block self.now ≡ Quiet)
            (λ outward. outward_of block self.now ≡ outward.now) }
    {
        for crossing in self.list.as_slice() {
            if crossing.block == block {
                return Some(&crossing.outward);
            }
        }
        None
    }

    /// Whether nothing passes of a block.
    pub fn is_quiet(&self, block: BlockNo) -> bool
        ensures { IsTrue result ↔ (outward_of block self.now ≡ Quiet) }
    {
        match self.of(block) {
            Some(outward) => outward.is_quiet(),
            None => true,
        }
    }

    /// Whether the memory has a request of a block to answer.
    pub fn may_serve(&self, block: BlockNo) -> bool
        ensures { IsTrue result ↔ IsRequest (outward_of block self.now) }
    {
        match self.of(block) {
            Some(outward) => outward.may_serve(),
            None => false,
        }
    }

    /// Whether the bytes of a block that home asked for wait for it.
    pub fn is_data(&self, block: BlockNo) -> bool
        ensures { IsTrue result ↔ IsData (outward_of block self.now) }
    {
        match self.of(block) {
            Some(outward) => outward.is_data(),
            None => false,
        }
    }

    /// Whether the acknowledgement of a Put of a block waits for home.
    pub fn is_put_ack(&self, block: BlockNo) -> bool
        ensures { IsTrue result ↔ (outward_of block self.now ≡ PutAck) }
    {
        match self.of(block) {
            Some(outward) => outward.is_put_ack(),
            None => false,
        }
    }

    /// Takes what passes of a block: then nothing does.
    pub fn take(&mut self, block: BlockNo) -> Outward
        ensures taken { result ≡ outward_of block self.old }
        ensures outward { (b : ℕ) → outward_of b self.new ≡ (if b == block then Quiet else outward_of b self.old) }
        ensures count { outward_of block self.old ≢ Quiet → length self.new + 1 ≡ length self.old }
        ensures room { outward_of block self.old ≢ Quiet → length self.new < 8 }
        ensures unchanged { outward_of block self.old ≡ Quiet → self.new ≡ self.old }
    {
        match self.place_of(block) {
            Some(place) => {
                let Crossing { block: _, outward } = self.list.remove(place);
                outward
            }
            None => Outward::Quiet,
        }
    }

    /// Puts what passes of a block of which nothing did, where there is room.
    #[tactic(auto, using(crate::proofs::CrossingLaws::puts))]
    pub fn put(&mut self, block: BlockNo, outward: Outward)
        requires room { length self.old < 8 }
        requires quiet { outward_of block self.old ≡ Quiet }
        requires passes { outward ≢ Quiet }
        ensures outward { (b : ℕ) → outward_of b self.new ≡ (if b == block then outward else outward_of b self.old) }
        ensures count { length self.new ≡ length self.old + 1 }
    {
        self.list.push(Crossing { block, outward });
    }

    /// Something else passes of a block of which something does.
    pub fn change(&mut self, block: BlockNo, outward: Outward)
        requires before { outward_of block self.old ≢ Quiet }
        requires passes { outward ≢ Quiet }
        ensures outward { (b : ℕ) → outward_of b self.new ≡ (if b == block then outward else outward_of b self.old) }
        ensures count { length self.new ≡ length self.old }
    {
        let place = self.place_of(block).unwrap();
        self.list[place] = Crossing { block, outward };
    }

    /// Where what passes of a block stands.
    fn place_of(&self, block: BlockNo) -> Option<usize>
        ensures { MatchOption result (outward_of block self.now ≡ Quiet) (λ place. IsPlace block self.now place) }
    {
        for (place, crossing) in self.list.as_slice().iter().enumerate() {
            if crossing.block == block {
                return Some(place);
            }
        }
        None
    }
}
