//! One client's table: keys in the order of age, beside the slots with what the client holds.
ghost use Rattle.std.specs.Prelude.{◌≡◌, ◌↔◌, ◌≤◌, ◌<◌, ◌+◌, ◌%◌, ◌∷◌, ◌++◌, [], false, length, count_by, not, None, Some, IfErr, IsErr, IsTrue, OnErr, OnOk, MatchOption, option_copied, slice_index_or, slice_set, if◌then◌else◌};
ghost use Rattle.std.specs.List.{list_all, remove};
ghost use Rattle.tl_copies.specs.declared.held.Held.{Held};
ghost use Rattle.tl_copies.specs.Slots.{IsNotBefore};

use crate::held::Held;
use arrayvec::ArrayVec;
use std::default::Default;
use std::marker::Model;
use tl_types::{AccessBytes, Awaited, BLOCK_BYTES, BlockBytes, BlockNo, COPIES, Perm};

/// The block of an entry, and the slot of what the client holds of it.
#[derive(Debug, Drop)]
pub(crate) struct Key {
    pub(crate) block: BlockNo,
    pub(crate) slot: u32,
}

impl Default for Key {
    fn default() -> Key {
        Key {
            block: BlockNo::new(0),
            slot: 0,
        }
    }
}

impl Default for Held {
    fn default() -> Held {
        Held {
            perm: Perm::None,
            dirty: false,
            bytes: BlockBytes::new(),
            wait: Awaited::Nothing,
        }
    }
}

/// A client's table, which has as many entries as it may have, and none of the block. The copy comes back.
#[derive(Debug, Drop)]
pub struct Full {
    pub held: Held,
}

/// A client's entries, the one granted longest ago first: a key for each, and the slots that no key has. The hints are
/// where entries probably are, by the low bits of their blocks' numbers: an entry that is not there is searched for.
#[derive(Drop)]
pub(crate) struct Table {
    keys: ArrayVec<Key, COPIES>,
    slots: ArrayVec<Held, COPIES>,
    free: ArrayVec<u32, COPIES>,
    copies: u32,
    hints: [u8; 64],
    /// How many entries have each hint: mostly none has that of a block that the client has nothing of.
    by_hint: [u8; 64],
}

impl Model for Table {
    ghost use Rattle.std.specs.Prelude.{List};
    ghost use Rattle.tl_copies.specs.Entries.{Entry};

    ghost Value = { List Entry };

    ghost use Rattle.tl_copies.specs.Slots.{entries_of, IsSound, AreCountedByHint};

    ghost view = { λ t. entries_of t.slots.items t.keys.items };

    ghost invariant = { λ t. IsSound t.keys.items t.slots.items t.free.items t.copies
        × AreCountedByHint t.keys.items t.by_hint };
}

impl Table {
    ghost use Rattle.tl_copies.specs.Held.{is_copy, waits, stored, waiting};
    ghost use Rattle.tl_copies.specs.Entries.{Entry, found, without_entry, replaced, kept, oldest_in, IsPlace, HasEachOnce};

    /// A table with no entry.
    pub(crate) fn new() -> Table
        ensures { result ≡ [] }
    {
        Table {
            keys: ArrayVec::new(),
            slots: ArrayVec::new(),
            free: ArrayVec::new(),
            copies: 0,
            hints: [0; 64],
            by_hint: [0; 64],
        }
    }

    /// How many entries there are.
    pub(crate) fn len(&self) -> usize
        ensures value { result ≡ length self.now }
        ensures few { result ≤ COPIES }
    {
        self.keys.len()
    }

    /// How many entries are copies.
    pub(crate) fn count(&self) -> u32
        ensures { result ≡ count_by (λ (e : Entry). is_copy e.held) self.now }
    {
        self.copies
    }

    /// The block of the entry at a place.
    fn block(&self, place: usize) -> BlockNo
        requires { place < length self.now }
        ensures { (e : Entry) → result ≡ (slice_index_or self.now place e).block }
    {
        self.keys[place].block
    }

    /// What the entry at a place holds.
    fn held(&self, place: usize) -> &Held
        requires { place < length self.now }
        ensures { (e : Entry) → result.now ≡ (slice_index_or self.now place e).held }
    {
        let slot = self.keys[place].slot as usize;
        &self.slots[slot]
    }

    /// The block of the first entry that is a copy.
    pub(crate) fn oldest(&self) -> Option<BlockNo>
        ensures { result ≡ oldest_in self.now }
    {
        for place in 0..self.len() {
            if self.held(place).is_copy() {
                return Some(self.block(place));
            }
        }
        None
    }

    /// Whether no entry waits for an answer.
    pub(crate) fn awaits_nothing(&self) -> bool
        ensures { result ≡ list_all (λ (e : Entry). not (waits e.held.wait)) self.now }
    {
        for place in 0..self.len() {
            if self.held(place).waits() {
                return false;
            }
        }
        true
    }

    /// Where the entry of a block is, by a search.
    fn search(&self, block: BlockNo) -> Option<usize>
        ensures { MatchOption result (found block self.now ≡ None) (λ place. IsPlace block self.now place) }
    {
        let keys = self.keys.as_slice();
        for place in passed(keys, block)..keys.len() {
            if keys[place].block == block {
                return Some(place);
            }
        }
        None
    }

    /// Whether the entry at a place, if there is one, is a block's.
    fn is_at(&self, place: usize, block: BlockNo) -> bool
        requires { HasEachOnce self.now }
        ensures { IsTrue result → IsPlace block self.now place }
    {
        place < self.len() && self.block(place) == block
    }

    /// Where the entry of a block is: at `place` if that is the block's, and else where a search finds it.
    fn place_near(&self, block: BlockNo, place: usize) -> Option<usize>
        requires { HasEachOnce self.now }
        ensures { MatchOption result (found block self.now ≡ None) (λ place. IsPlace block self.now place) }
    {
        if self.is_at(place, block) {
            return Some(place);
        }
        self.search(block)
    }

    /// Whether no entry has this block's hint: then it has none.
    fn has_none_near(&self, block: BlockNo) -> bool
        ensures { IsTrue result → found block self.now ≡ None }
    {
        self.by_hint[hint_of(block)] == 0
    }

    /// Where the entry of a block is, which mostly is there: at its hint, or where a search finds it.
    pub(crate) fn place_of(&self, block: BlockNo) -> Option<usize>
        requires { HasEachOnce self.now }
        ensures { MatchOption result (found block self.now ≡ None) (λ place. IsPlace block self.now place) }
    {
        let place = usize::from(self.hints[hint_of(block)]);
        if self.is_at(place, block) {
            return Some(place);
        }
        if self.has_none_near(block) {
            return None;
        }
        self.search(block)
    }

    /// The entry of a block.
    pub(crate) fn of(&self, block: BlockNo) -> Option<&Held>
        requires { HasEachOnce self.now }
        ensures { option_copied result ≡ found block self.now }
    {
        let place = self.place_of(block)?;
        Some(self.held(place))
    }

    /// The entry of a block, which `place` may be the place of.
    pub(crate) fn near(&self, block: BlockNo, place: usize) -> Option<&Held>
        requires { HasEachOnce self.now }
        ensures { option_copied result ≡ found block self.now }
    {
        let place = self.place_near(block, place)?;
        Some(self.held(place))
    }

    /// Puts a copy into the block's entry, or into a new one where there are fewer than `limit`.
    pub(crate) fn keep(&mut self, limit: usize, block: BlockNo, held: Held) -> Result<(), Full>
        requires limit { limit ≤ COPIES }
        requires once { HasEachOnce self.old }
        ensures after { OnOk result (self.new ≡ kept block held self.old) }
        ensures full { IsErr result ↔ ((found block self.old ≡ None) × (limit ≤ length self.old)) }
        ensures held { IfErr result (λ full. full.held ≡ held) }
        ensures unchanged { OnErr result (self.new ≡ self.old) }
    {
        let Some(place) = self.place_of(block) else {
            if self.len() >= limit {
                return Err(Full { held });
            }
            self.add(block, held);
            self.note_last(block, self.len());
            return Ok(());
        };
        let granted = self.held(place).is_granted_as(&held);
        self.write(place, held);
        if granted {
            self.renew(place);
            self.note_last(block, place);
        }
        Ok(())
    }

    /// The client waits for an answer about a block from then on, or for none, and keeps the copy that it has; where it
    /// has no entry of the block it has a new one.
    pub(crate) fn wait_for(&mut self, block: BlockNo, wait: Awaited)
        requires once { HasEachOnce self.old }
        requires room { found block self.old ≡ None → length self.old < COPIES }
        ensures { self.new ≡ kept block (waiting wait (found block self.old)) self.old }
    {
        let Some(place) = self.place_of(block) else {
            self.add(block, Held::awaiting(wait));
            self.note_last(block, self.len());
            return;
        };
        let granted = self.held(place).is_granted_with(wait);
        self.wait_at(place, wait);
        if granted {
            self.renew(place);
            self.note_last(block, place);
        }
    }

    /// Takes the entry of a block out, if there is one.
    pub(crate) fn clear(&mut self, block: BlockNo)
        requires { HasEachOnce self.old }
        ensures { self.new ≡ without_entry block self.old }
    {
        if let Some(place) = self.place_of(block) {
            self.remove(place);
            self.note_gone(place);
        }
    }

    /// Writes the bytes of a store over those of the block's entry from `offset` on, if there is one. `place` may be
    /// its place.
    pub(crate) fn store(
        &mut self,
        block: BlockNo,
        place: usize,
        offset: usize,
        access: &AccessBytes,
    )
        requires once { HasEachOnce self.old }
        requires room { offset + length access.now ≤ BLOCK_BYTES }
        ensures { MatchOption (found block self.old) (self.new ≡ self.old)
            (λ held. self.new ≡ replaced block (stored offset access.now held) self.old) }
    {
        if let Some(place) = self.place_near(block, place) {
            self.store_at(place, offset, access);
        }
    }

    /// Puts a new entry last.
    fn add(&mut self, block: BlockNo, held: Held)
        requires { length self.old < COPIES }
        ensures { self.new ≡ self.old ++ record { block = block; held = held } ∷ [] }
    {
        self.copies += held.copies();
        self.by_hint[hint_of(block)] += 1;
        if let Some(slot) = self.free.pop() {
            self.slots[slot as usize] = held;
            self.keys.push(Key { block, slot });
        } else {
            let slot = self.slots.len() as u32;
            self.slots.push(held);
            self.keys.push(Key { block, slot });
        }
    }

    /// Writes over what the entry at a place holds.
    fn write(&mut self, place: usize, held: Held)
        requires { place < length self.old }
        ensures { (e : Entry)
            → self.new
            ≡ slice_set self.old place (record { block = (slice_index_or self.old place e).block; held = held }) }
    {
        let slot = self.keys[place].slot as usize;
        self.copies = self.copies + held.copies() - self.slots[slot].copies();
        self.slots[slot] = held;
    }

    /// Writes the bytes of a store over those of the entry at a place.
    fn store_at(&mut self, place: usize, offset: usize, access: &AccessBytes)
        requires place { place < length self.old }
        requires room { offset + length access.now ≤ BLOCK_BYTES }
        ensures { (e : Entry)
            → self.new
            ≡ slice_set self.old place (record {
              block = (slice_index_or self.old place e).block;
              held = stored offset access.now (slice_index_or self.old place e).held;
            }) }
    {
        let slot = self.keys[place].slot as usize;
        self.slots[slot].store(offset, access);
    }

    /// The client waits for an answer from then on, or for none, by the entry at a place.
    fn wait_at(&mut self, place: usize, wait: Awaited)
        requires { place < length self.old }
        ensures { (e : Entry)
            → self.new
            ≡ slice_set self.old place (record {
              block = (slice_index_or self.old place e).block;
              held = waiting wait (Some (slice_index_or self.old place e).held);
            }) }
    {
        let slot = self.keys[place].slot as usize;
        self.slots[slot].wait_for(wait);
    }

    /// Puts the entry at a place last.
    fn renew(&mut self, place: usize)
        requires { place < length self.old }
        ensures { (e : Entry) → self.new ≡ remove self.old place ++ slice_index_or self.old place e ∷ [] }
    {
        let key = self.keys.remove(place);
        self.keys.push(key);
    }

    /// Takes the entry at a place out, and its slot is free.
    fn remove(&mut self, place: usize)
        requires { place < length self.old }
        ensures { self.new ≡ remove self.old place }
    {
        let key = self.keys.remove(place);
        self.copies -= self.slots[key.slot as usize].copies();
        self.by_hint[hint_of(key.block)] -= 1;
        self.free.push(key.slot);
    }

    /// The entry of a block has gone last, from a place.
    fn note_last(&mut self, block: BlockNo, from: usize)
        ensures { self.new ≡ self.old }
    {
        let last = self.len().saturating_sub(1);
        if from < last {
            self.note_gone(from);
        }
        self.hints[hint_of(block)] = last as u8;
    }

    /// An entry has gone from a place: those behind it have moved up.
    fn note_gone(&mut self, place: usize)
        ensures { self.new ≡ self.old }
    {
        if place < self.len() {
            lower(&mut self.hints, place as u8);
        }
    }
}

/// How many keys a search compares at once.
const GROUP: usize = 8;

/// A place before which no key is a block's: a multiple of eight, and the key's own eight where it has one.
fn passed(keys: &[Key], block: BlockNo) -> usize
    ensures inside { result ≤ length keys.now }
    ensures none { IsNotBefore block keys.now result }
{
    let mut place = 0;
    while keys.len() - place >= GROUP && !has(&keys[place..place + GROUP], block) {
        place += GROUP;
    }
    place
}

/// Whether one of some keys is a block's. It looks at all of them, so that they are compared at once.
fn has(keys: &[Key], block: BlockNo) -> bool
    ensures { result ≡ false → IsNotBefore block keys.now (length keys.now) }
{
    let mut has = false;
    for key in keys {
        has |= key.block == block;
    }
    has
}

/// Which hint a block has.
fn hint_of(block: BlockNo) -> usize
    ensures { result ≡ block % 64 }
{
    block.index() % 64
}

/// Lowers by one each number above a bound.
fn lower(numbers: &mut [u8], bound: u8) {
    for number in numbers.iter_mut() {
        *number -= u8::from(*number > bound);
    }
}
