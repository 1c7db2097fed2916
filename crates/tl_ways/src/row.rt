//! The ways of one set: which block lies in which, and in which order they are taken again.
ghost use Rattle.std.specs.Prelude.{◌≡◌, ◌≢◌, ℕ, ◌<◌, ◌≤◌, ◌&&◌, IfNone, IfSome, IsTrue, None, Some, find, is_none, length, not, slice_set};
ghost use Rattle.tl_types.specs.Lowest.{lowest};
ghost use Rattle.tl_ways.specs.Orders.{is_busy, rising, touched};
ghost use Rattle.tl_ways.specs.Rows.{IsEmpty, chosen_in, entry_in, tag_in};

use crate::entry::Entry;
use crate::way::Way;
use arrayvec::ArrayVec;
use std::marker::Model;
use tl_map::Tag;
use tl_types::WAYS;

/// The ways of one set: the entry of each, and their order.
#[derive(Drop)]
pub struct Row {
    entries: ArrayVec<Option<Entry>, 8>,
    order: ArrayVec<Way, 8>,
}

impl Model for Row {
    ghost use Rattle.tl_ways.specs.Rows.{Row, IsRow};

    ghost Value = { Row };

    ghost view = { λ r. record { entries = r.entries.items; order = r.order.items } };

    ghost invariant = { λ r. IsRow (record { entries = r.entries.items; order = r.order.items }) };
}

impl Row {
    /// As many ways, free and in rising order.
    pub fn new(ways: u32) -> Row
        requires { ways ≤ WAYS }
        ensures empty { IsEmpty ways result }
        ensures order { result.order ≡ rising ways }
    {
        let mut entries = ArrayVec::new();
        let mut order = ArrayVec::new();
        for number in 0..ways {
            entries.push(None);
            order.push(Way::new(number));
        }
        Row { entries, order }
    }

    /// How many ways there are.
    pub fn ways(&self) -> u32
        ensures is { result ≡ length self.now.entries }
        ensures few { result ≤ WAYS }
    {
        self.entries.len() as u32
    }

    /// The entry of a way, if a block lies there.
    pub fn entry(&self, way: Way) -> Option<Entry>
        ensures { result ≡ entry_in self.now way }
    {
        match self.entries.as_slice().get(way.index()) {
            Some(entry) => *entry,
            None => None,
        }
    }

    /// The way of the block with this tag.
    pub fn find(&self, tag: Tag) -> Option<Way>
        ensures found { IfSome result (λ way. tag_in self.now way ≡ Some tag) }
        ensures inside { IfSome result (λ way. way < length self.now.entries) }
        ensures alone { IfSome result (λ way. (other : ℕ) → tag_in self.now other ≡ Some tag → other ≡ way) }
        ensures none { IfNone result ((way : ℕ) → tag_in self.now way ≢ Some tag) }
    {
        // For the prover: what the row keeps of its entries.
        let _ = &self.entries;
        for number in 0..self.ways() {
            let way = Way::new(number);
            if let Some(entry) = self.entry(way)
                && entry.tag() == tag
            {
                return Some(way);
            }
        }
        None
    }

    /// Puts an entry into a way. No other way has its tag.
    pub fn place(&mut self, way: Way, entry: Entry)
        requires inside { way < length self.old.entries }
        requires alone { (other : ℕ) → other ≢ way → tag_in self.old other ≢ Some entry.tag }
        ensures { self.new ≡ record self.old { entries = slice_set self.old.entries way (Some entry) } }
    {
        self.entries[way.index()] = Some(entry);
    }

    /// Frees a way.
    pub fn clear(&mut self, way: Way)
        requires { way < length self.old.entries }
        ensures { self.new ≡ record self.old { entries = slice_set self.old.entries way None } }
    {
        self.entries[way.index()] = None;
    }

    /// Moves a way last in the order.
    pub fn touch(&mut self, way: Way)
        requires { way < length self.old.entries }
        ensures { self.new ≡ record self.old { order = touched way self.old.order } }
    {
        let mut order = ArrayVec::new();
        for other in self.order.as_slice() {
            if *other != way {
                order.push(*other);
            }
        }
        order.push(way);
        self.order = order;
    }

    /// The way that is taken next, of those that are not busy: the lowest free one, else the first in the order.
    #[tactic(auto, unfolding(crate::specs::Orders::chosen))]
    pub fn choose(&self, busy: &[Way]) -> Option<Way>
        ensures is { result ≡ chosen_in self.now busy.now }
        ensures inside { IfSome result (λ way. way < length self.now.entries) }
        ensures none { IfNone result ((way : ℕ) → way < length self.now.entries → IsTrue (is_busy busy.now way)) }
    {
        match self.lowest_free(busy) {
            Some(way) => Some(way),
            None => self.first_in_order(busy),
        }
    }

    /// The lowest free way that is not busy.
    fn lowest_free(&self, busy: &[Way]) -> Option<Way>
        ensures is { result
            ≡ lowest (λ way. is_none (entry_in self.now way) && not (is_busy busy.now way)) (length self.now.entries) }
        ensures inside { IfSome result (λ way. way < length self.now.entries) }
    {
        for number in 0..self.ways() {
            let way = Way::new(number);
            if self.entry(way).is_none() && !is_busy(busy, way) {
                return Some(way);
            }
        }
        None
    }

    /// The first way in the order that is not busy.
    fn first_in_order(&self, busy: &[Way]) -> Option<Way>
        ensures is { result ≡ find (λ way. not (is_busy busy.now way)) self.now.order }
        ensures inside { IfSome result (λ way. way < length self.now.entries) }
        ensures none { IfNone result ((way : ℕ) → way < length self.now.entries → IsTrue (is_busy busy.now way)) }
    {
        for way in self.order.as_slice() {
            if !is_busy(busy, *way) {
                return Some(*way);
            }
        }
        None
    }
}

/// Whether a way is busy.
fn is_busy(busy: &[Way], way: Way) -> bool
    ensures { result ≡ is_busy busy.now way }
{
    busy.iter().any(|held| *held == way)
}
