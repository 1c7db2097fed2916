//! The bytes of home's copies, in a store of their own beside the entries.
ghost use Rattle.std.specs.Prelude.{◌≡◌, ℕ, ◌<◌, ◌==◌, ◌&&◌, IfOk, [], if◌then◌else◌};
ghost use Rattle.tl_ways.specs.Stores.{bytes_at};

use crate::way::Way;
use std::alloc::{AllocError, Global};
use std::marker::Model;
use tl_map::{Geometry, Set};
use tl_types::BlockBytes;

/// The bytes of the block in each way of each set.
#[derive(Drop)]
pub struct BankedStore {
    sets: u32,
    ways: u32,
    blocks: Vec<BlockBytes>,
}

impl Model for BankedStore {
    ghost use Rattle.tl_ways.specs.Stores.{Store, IsStore};

    ghost Value = { Store };

    ghost view = { λ s. record { sets = s.sets; ways = s.ways; blocks = s.blocks.items } };

    ghost invariant = { λ s. IsStore (record { sets = s.sets; ways = s.ways; blocks = s.blocks.items }) };
}

#[tactic(auto, unfolding(crate::specs::Stores::bytes_at))]
impl BankedStore {
    /// A store for a geometry's sets and ways, each with no bytes. All memory that it ever uses is taken here; the
    /// error is want of it.
    pub fn new(alloc: Global, geometry: Geometry) -> Result<BankedStore, AllocError>
        ensures sets { IfOk result (λ store. store.sets ≡ geometry.sets) }
        ensures ways { IfOk result (λ store. store.ways ≡ geometry.ways) }
        ensures empty { IfOk result (λ store. (set way : ℕ) → bytes_at store set way ≡ []) }
    {
        let sets = geometry.sets();
        let ways = geometry.ways();
        let count = (sets * ways) as usize;
        let mut blocks = Vec::with_capacity(alloc, count)?;
        for _ in 0..count {
            blocks.push(BlockBytes::new())?;
        }
        Ok(BankedStore { sets, ways, blocks })
    }

    /// The bytes of a way of a set.
    pub fn read(&self, set: Set, way: Way) -> &BlockBytes
        requires set { set < self.now.sets }
        requires way { way < self.now.ways }
        ensures { result.now ≡ bytes_at self.now set way }
    {
        &self.blocks[set.index() * self.ways as usize + way.index()]
    }

    /// Writes the bytes of a way of a set.
    pub fn write(&mut self, set: Set, way: Way, bytes: BlockBytes)
        requires set { set < self.old.sets }
        requires way { way < self.old.ways }
        ensures bytes { (x y : ℕ) → y < self.old.ways
            → bytes_at self.new x y ≡ (if x == set && y == way then bytes else bytes_at self.old x y) }
        ensures sets { self.new.sets ≡ self.old.sets }
        ensures ways { self.new.ways ≡ self.old.ways }
    {
        let index = set.index() * self.ways as usize + way.index();
        self.blocks[index] = bytes;
    }
}
