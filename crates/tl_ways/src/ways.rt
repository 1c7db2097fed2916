//! The ways of all sets: which block lies where, what home records of it, and which way is taken next.
ghost use Rattle.std.specs.Prelude.{◌≡◌, ◌≢◌, ℕ, ◌<◌, ◌==◌, ◌&&◌, IfNone, IfOk, IfSome, IsTrue, None, Some, if◌then◌else◌};
ghost use Rattle.tl_ways.specs.Orders.{is_busy, touched};
ghost use Rattle.tl_ways.specs.Tables.{IsFresh, IsSameSize, chosen_at, entry_at, order_at, set_count, tag_at};

use crate::entry::Entry;
use crate::row::Row;
use crate::way::Way;
use std::alloc::{AllocError, Global};
use std::marker::Model;
use tl_map::{Geometry, Set, Tag};

/// The ways of all sets of a bank: a map from blocks, by set and tag, to entries, with the way in which each lies and
/// an order of the ways of each set.
#[derive(Drop)]
pub struct Ways {
    ways: u32,
    rows: Vec<Row>,
}

impl Model for Ways {
    ghost use Rattle.tl_ways.specs.Tables.{WayTable, IsTable};

    ghost Value = { WayTable };

    ghost view = { λ w. record { ways = w.ways; rows = w.rows.items } };

    ghost invariant = { λ w. IsTable (record { ways = w.ways; rows = w.rows.items }) };
}

#[tactic(auto, unfolding(crate::specs::Tables::set_count, crate::specs::Tables::row_at, crate::specs::Tables::entry_at, crate::specs::Tables::order_at))]
impl Ways {
    /// The ways of a geometry's sets, all free. All memory that they ever use is taken here; the error is want of it.
    pub fn new(alloc: Global, geometry: Geometry) -> Result<Ways, AllocError>
        ensures { IfOk result (λ ways. IsFresh geometry.sets geometry.ways ways) }
    {
        let ways = geometry.ways();
        let sets = geometry.sets();
        let mut rows = Vec::with_capacity(alloc, sets as usize)?;
        for _ in 0..sets {
            rows.push(Row::new(ways))?;
        }
        Ok(Ways { ways, rows })
    }

    /// How many sets there are.
    pub fn sets(&self) -> u32
        ensures { result ≡ set_count self.now }
    {
        self.rows.len() as u32
    }

    /// How many ways each set has.
    pub fn ways(&self) -> u32
        ensures { result ≡ self.now.ways }
    {
        self.ways
    }

    /// The entry in a way of a set, if a block lies there.
    pub fn entry(&self, set: Set, way: Way) -> Option<Entry>
        requires { set < set_count self.now }
        ensures { result ≡ entry_at self.now set way }
    {
        let row = &self.rows[set.index()];
        row.entry(way)
    }

    /// The way in which the block with this tag lies.
    pub fn find(&self, set: Set, tag: Tag) -> Option<Way>
        requires { set < set_count self.now }
        ensures found { IfSome result (λ way. tag_at self.now set way ≡ Some tag) }
        ensures inside { IfSome result (λ way. way < self.now.ways) }
        ensures alone { IfSome result (λ way. (other : ℕ) → tag_at self.now set other ≡ Some tag → other ≡ way) }
        ensures none { IfNone result ((way : ℕ) → tag_at self.now set way ≢ Some tag) }
    {
        let row = &self.rows[set.index()];
        row.find(tag)
    }

    /// The way of a set that is taken next, of those that are not busy: the lowest free one, else the first in the
    /// order.
    pub fn choose(&self, set: Set, busy: &[Way]) -> Option<Way>
        requires { set < set_count self.now }
        ensures is { result ≡ chosen_at self.now set busy.now }
        ensures inside { IfSome result (λ way. way < self.now.ways) }
        ensures none { IfNone result ((way : ℕ) → way < self.now.ways → IsTrue (is_busy busy.now way)) }
    {
        let row = &self.rows[set.index()];
        row.choose(busy)
    }

    /// Puts an entry into a way of a set. No other way of the set has its tag.
    pub fn place(&mut self, set: Set, way: Way, entry: Entry)
        requires set { set < set_count self.old }
        requires way { way < self.old.ways }
        requires alone { (other : ℕ) → other ≢ way → tag_at self.old set other ≢ Some entry.tag }
        ensures entries { (x y : ℕ)
            → entry_at self.new x y ≡ (if x == set && y == way then Some entry else entry_at self.old x y) }
        ensures orders { (x : ℕ) → order_at self.new x ≡ order_at self.old x }
        ensures size { IsSameSize self.old self.new }
    {
        let row = &mut self.rows[set.index()];
        row.place(way, entry);
    }

    /// Frees a way of a set.
    pub fn clear(&mut self, set: Set, way: Way)
        requires set { set < set_count self.old }
        requires way { way < self.old.ways }
        ensures entries { (x y : ℕ)
            → entry_at self.new x y ≡ (if x == set && y == way then None else entry_at self.old x y) }
        ensures orders { (x : ℕ) → order_at self.new x ≡ order_at self.old x }
        ensures size { IsSameSize self.old self.new }
    {
        let row = &mut self.rows[set.index()];
        row.clear(way);
    }

    /// Moves a way last in the order of its set.
    pub fn touch(&mut self, set: Set, way: Way)
        requires set { set < set_count self.old }
        requires way { way < self.old.ways }
        ensures entries { (x y : ℕ) → entry_at self.new x y ≡ entry_at self.old x y }
        ensures orders { (x : ℕ)
            → order_at self.new x ≡ (if x == set then touched way (order_at self.old set) else order_at self.old x) }
        ensures size { IsSameSize self.old self.new }
    {
        let row = &mut self.rows[set.index()];
        row.touch(way);
    }
}
