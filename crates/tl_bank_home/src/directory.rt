//! The directory with home's copies: where each block lies, its bytes, whether they are dirty, and what home records
//! for each client.
ghost use Rattle.std.specs.Prelude.{◌≡◌, ◌≢◌, ℕ, ◌<◌, ◌==◌, ◌&&◌, IfNone, IfOk, IfSome, IsSome, IsTrue, MatchOption, None, Some, false, true, is_none, option_copied, if◌then◌else◌};
ghost use Rattle.std.specs.Option.{option_map};
ghost use Rattle.tl_types.specs.declared.permission.Perm.TheVariants.{None as NoAccess, Branch, Tip};
ghost use Rattle.tl_map.specs.Places.{bank_of, set_of};
ghost use Rattle.tl_protocol.specs.declared.home.Line.{Line};
ghost use Rattle.tl_ways.specs.Entries.{IsOfClients, entry_perm};
ghost use Rattle.tl_ways.specs.Orders.{chosen, is_busy, rising};
ghost use Rattle.tl_bank_home.specs.Directories.{way_of, line_of, recorded_of, free_in, order_of, is_way, order_after, perm_in, IsHeld, SameBank};

use std::alloc::{AllocError, Global};
use std::marker::Model;
use tl_map::{Geometry, Place, Set};
use tl_types::{BankNo, BlockBytes, BlockNo, ClientId, Perm};
use tl_ways::{BankedStore, Entry, Way, Ways};

/// The entries of one bank's sets, and beside each way the bytes of the block that lies there.
#[derive(Drop)]
pub struct Directory {
    geometry: Geometry,
    bank: BankNo,
    ways: Ways,
    store: BankedStore,
}

impl Model for Directory {
    ghost use Rattle.tl_bank_home.specs.Directories.{Directory, IsDirectory};

    ghost Value = { Directory };

    ghost view = { λ d. record { geometry = d.geometry; bank = d.bank; table = d.ways; store = d.store } };

    ghost invariant = { λ d. IsDirectory
        (record { geometry = d.geometry; bank = d.bank; table = d.ways; store = d.store }) };
}

impl Directory {
    /// A directory in which no block lies. All memory that it ever uses is taken here; the error is want of it.
    pub fn new(alloc: Global, geometry: Geometry, bank: BankNo) -> Result<Directory, AllocError>
        ensures geometry { IfOk result (λ d. d.geometry ≡ geometry) }
        ensures bank { IfOk result (λ d. d.bank ≡ bank) }
        ensures ways { IfOk result (λ d. (b : ℕ) → way_of d b ≡ None) }
        ensures lines { IfOk result (λ d. (b : ℕ) → line_of d b ≡ None) }
        ensures recorded { IfOk result (λ d. (c b : ℕ) → recorded_of d c b ≡ NoAccess) }
        ensures free { IfOk result (λ d. (set way : ℕ) → free_in d set way ≡ true) }
        ensures orders { IfOk result (λ d. (set : ℕ) → set < geometry.sets → order_of d set ≡ rising geometry.ways) }
    {
        let ways = Ways::new(alloc, geometry)?;
        let store = BankedStore::new(alloc, geometry)?;
        Ok(Directory {
            geometry,
            bank,
            ways,
            store,
        })
    }

    /// The bank.
    pub fn bank(&self) -> BankNo
        ensures { result ≡ self.now.bank }
    {
        self.bank
    }

    /// The way in which a block lies, if home holds it.
    pub fn way(&self, block: BlockNo) -> Option<Way>
        requires { block < self.now.geometry.memory_blocks }
        ensures { result ≡ way_of self.now block }
    {
        let held = self.find(block)?;
        Some(held.way)
    }

    /// Whether home's copy of a block is dirty, if home holds it.
    pub fn is_dirty(&self, block: BlockNo) -> Option<bool>
        requires { block < self.now.geometry.memory_blocks }
        ensures { result ≡ option_map (λ (line : Line). line.dirty) (line_of self.now block) }
    {
        let held = self.find(block)?;
        Some(held.entry.is_dirty())
    }

    /// The bytes of home's copy of a block, if home holds it.
    pub fn bytes(&self, block: BlockNo) -> Option<&BlockBytes>
        requires { block < self.now.geometry.memory_blocks }
        ensures { option_copied result ≡ option_map (λ (line : Line). line.bytes) (line_of self.now block) }
    {
        let held = self.find(block)?;
        Some(self.store.read(held.set, held.way))
    }

    /// The entry of a block, if home holds it.
    pub fn entry(&self, block: BlockNo) -> Option<Entry>
        requires { block < self.now.geometry.memory_blocks }
        ensures dirty { MatchOption result (line_of self.now block ≡ None)
            (λ entry. option_map (λ (line : Line). line.dirty) (line_of self.now block) ≡ Some entry.dirty) }
        ensures recorded { (client : ℕ) → perm_in result client ≡ recorded_of self.now client block }
        ensures clients { IfSome result (λ entry. IsOfClients self.now.geometry.clients entry) }
    {
        // For the prover: what the directory keeps of its entries.
        let _ = &self.ways;
        let held = self.find(block)?;
        Some(held.entry)
    }

    /// The entry and the bytes of a block, and the way in which it lies, if home holds it.
    pub fn line(&self, block: BlockNo) -> Option<(Entry, &BlockBytes, Way)>
        requires { block < self.now.geometry.memory_blocks }
        ensures is { MatchOption result (line_of self.now block ≡ None)
            (λ line. line_of self.now block ≡ Some (record { bytes = line.1.now; dirty = line.0.dirty })) }
        ensures recorded { IfSome result
            (λ line. (client : ℕ) → recorded_of self.now client block ≡ entry_perm line.0 client) }
        ensures way { IfSome result (λ line. way_of self.now block ≡ Some line.2) }
    {
        let held = self.find(block)?;
        let bytes = self.store.read(held.set, held.way);
        Some((held.entry, bytes, held.way))
    }

    /// The permission that home records for a client of a block: None where home does not hold it.
    pub fn recorded(&self, client: ClientId, block: BlockNo) -> Perm
        requires { block < self.now.geometry.memory_blocks }
        ensures { result ≡ recorded_of self.now client block }
    {
        match self.find(block) {
            Some(held) => held.entry.perm(client),
            None => Perm::None,
        }
    }

    /// The way of a set that is taken next, of those that are not busy: the lowest free one, else the first in the
    /// order.
    pub fn choose(&self, set: Set, busy: &[Way]) -> Option<Way>
        requires { set < self.now.geometry.sets }
        ensures is { result
            ≡ chosen (λ way. free_in self.now set way) self.now.geometry.ways (order_of self.now set) busy.now }
        ensures inside { IfSome result (λ way. way < self.now.geometry.ways) }
        ensures none { IfNone result ((way : ℕ) → way < self.now.geometry.ways → IsTrue (is_busy busy.now way)) }
    {
        self.ways.choose(set, busy)
    }

    /// The block that lies in a way of a set.
    pub fn occupant(&self, set: Set, way: Way) -> Option<BlockNo>
        requires { set < self.now.geometry.sets }
        ensures inside { IfSome result (λ block. block < self.now.geometry.memory_blocks) }
        ensures set { IfSome result (λ block. set_of self.now.geometry block ≡ set) }
        ensures way { IfSome result (λ block. way_of self.now block ≡ Some way) }
        ensures free { is_none result ≡ free_in self.now set way }
    {
        let entry = self.ways.entry(set, way)?;
        self.geometry.block_of(Place {
            bank: self.bank,
            set,
            tag: entry.tag(),
        })
    }

    /// Records a permission for a client of a block that home holds, and answers the way in which it lies. Beside Tip
    /// no other client may have any.
    pub fn record(&mut self, client: ClientId, block: BlockNo, perm: Perm) -> Way
        requires block { block < self.old.geometry.memory_blocks }
        requires held { IsSome (line_of self.old block) }
        requires known { client < self.old.geometry.clients }
        requires tip { perm ≡ Tip → (other : ℕ) → other ≢ client → recorded_of self.old other block ≡ NoAccess }
        requires branch { perm ≡ Branch → (other : ℕ) → other ≢ client → recorded_of self.old other block ≢ Tip }
        ensures same { SameBank self.old self.new }
        ensures ways { (b : ℕ) → way_of self.new b ≡ way_of self.old b }
        ensures lines { (b : ℕ) → line_of self.new b ≡ line_of self.old b }
        ensures recorded { (c b : ℕ)
            → recorded_of self.new c b ≡ (if c == client && b == block then perm else recorded_of self.old c b) }
        ensures free { (set way : ℕ) → free_in self.new set way ≡ free_in self.old set way }
        ensures orders { (set : ℕ) → order_of self.new set ≡ order_of self.old set }
        ensures way { way_of self.old block ≡ Some result }
    {
        // For the prover: a lawful geometry has at most as many clients as an entry can record.
        let _ = self.geometry.clients();
        let mut held = self.find(block).unwrap();
        held.entry.set(client, perm);
        self.ways.place(held.set, held.way, held.entry);
        held.way
    }

    /// Writes the bytes of a block that lies in a way: home's copy is then dirty.
    pub fn write(&mut self, block: BlockNo, way: Way, bytes: BlockBytes)
        requires block { block < self.old.geometry.memory_blocks }
        requires lies { way_of self.old block ≡ Some way }
        ensures same { SameBank self.old self.new }
        ensures ways { (b : ℕ) → way_of self.new b ≡ way_of self.old b }
        ensures lines { (b : ℕ)
            → line_of self.new b
            ≡ (if b == block then Some (record { bytes = bytes; dirty = true }) else line_of self.old b) }
        ensures recorded { (c b : ℕ) → recorded_of self.new c b ≡ recorded_of self.old c b }
        ensures free { (set way : ℕ) → free_in self.new set way ≡ free_in self.old set way }
        ensures orders { (set : ℕ) → order_of self.new set ≡ order_of self.old set }
    {
        let mut held = self.at(block, way);
        held.entry.set_dirty(true);
        self.ways.place(held.set, held.way, held.entry);
        self.store.write(held.set, held.way, bytes);
    }

    /// Records a permission for a client of a block that lies in a way, and moves this way last in the order of its
    /// set. Beside Tip no other client may have any.
    pub fn grant(&mut self, client: ClientId, block: BlockNo, way: Way, perm: Perm)
        requires block { block < self.old.geometry.memory_blocks }
        requires lies { way_of self.old block ≡ Some way }
        requires known { client < self.old.geometry.clients }
        requires tip { perm ≡ Tip → (other : ℕ) → other ≢ client → recorded_of self.old other block ≡ NoAccess }
        requires branch { perm ≡ Branch → (other : ℕ) → other ≢ client → recorded_of self.old other block ≢ Tip }
        ensures same { SameBank self.old self.new }
        ensures ways { (b : ℕ) → way_of self.new b ≡ way_of self.old b }
        ensures lines { (b : ℕ) → line_of self.new b ≡ line_of self.old b }
        ensures recorded { (c b : ℕ)
            → recorded_of self.new c b ≡ (if c == client && b == block then perm else recorded_of self.old c b) }
        ensures free { (set way : ℕ) → free_in self.new set way ≡ free_in self.old set way }
        ensures orders { (set : ℕ)
            → order_of self.new set
            ≡ (if set == set_of self.old.geometry block
            then order_after (way_of self.old block) (order_of self.old set)
            else order_of self.old set) }
    {
        // For the prover: a lawful geometry has at most as many clients as an entry can record.
        let _ = self.geometry.clients();
        let mut held = self.at(block, way);
        held.entry.set(client, perm);
        self.ways.place(held.set, held.way, held.entry);
        self.ways.touch(held.set, held.way);
    }

    /// Gives up home's copy of a block that home holds, and what it records of it.
    pub fn clear(&mut self, block: BlockNo)
        requires block { block < self.old.geometry.memory_blocks }
        requires held { IsSome (line_of self.old block) }
        ensures same { SameBank self.old self.new }
        ensures ways { (b : ℕ) → way_of self.new b ≡ (if b == block then None else way_of self.old b) }
        ensures lines { (b : ℕ) → line_of self.new b ≡ (if b == block then None else line_of self.old b) }
        ensures recorded { (c b : ℕ)
            → recorded_of self.new c b ≡ (if b == block then NoAccess else recorded_of self.old c b) }
        ensures free { (set way : ℕ)
            → free_in self.new set way
            ≡ (if set == set_of self.old.geometry block && is_way (way_of self.old block) way
            then true
            else free_in self.old set way) }
        ensures orders { (set : ℕ) → order_of self.new set ≡ order_of self.old set }
    {
        let held = self.find(block).unwrap();
        self.ways.clear(held.set, held.way);
    }

    /// Places a clean copy of a block that home does not hold into a free way of its set.
    pub fn place(&mut self, block: BlockNo, way: Way, bytes: BlockBytes)
        requires block { block < self.old.geometry.memory_blocks }
        requires own { bank_of self.old.geometry block ≡ self.old.bank }
        requires away { line_of self.old block ≡ None }
        requires way { way < self.old.geometry.ways }
        requires free { free_in self.old (set_of self.old.geometry block) way ≡ true }
        ensures same { SameBank self.old self.new }
        ensures ways { (b : ℕ) → way_of self.new b ≡ (if b == block then Some way else way_of self.old b) }
        ensures lines { (b : ℕ)
            → line_of self.new b
            ≡ (if b == block then Some (record { bytes = bytes; dirty = false }) else line_of self.old b) }
        ensures recorded { (c b : ℕ) → recorded_of self.new c b ≡ recorded_of self.old c b }
        ensures free { (x y : ℕ)
            → free_in self.new x y
            ≡ (if x == set_of self.old.geometry block && y == way then false else free_in self.old x y) }
        ensures orders { (set : ℕ) → order_of self.new set ≡ order_of self.old set }
    {
        let place = self.geometry.place(block);
        self.ways
            .place(place.set, way, Entry::new(place.tag, false));
        self.store.write(place.set, way, bytes);
    }

    /// The entry of a block that lies in a way.
    fn at(&self, block: BlockNo, way: Way) -> Held
        requires block { block < self.now.geometry.memory_blocks }
        requires lies { way_of self.now block ≡ Some way }
        ensures { IsHeld self.now block result.set result.way result.entry }
    {
        let set = self.geometry.place(block).set;
        let entry = self.ways.entry(set, way).unwrap();
        Held { set, way, entry }
    }

    /// Where a block lies, and its entry, if home holds it.
    fn find(&self, block: BlockNo) -> Option<Held>
        requires { block < self.now.geometry.memory_blocks }
        ensures is { MatchOption result (way_of self.now block ≡ None)
            (λ held. IsHeld self.now block held.set held.way held.entry) }
        ensures none { IfNone result (line_of self.now block ≡ None) }
    {
        let Place { bank, set, tag } = self.geometry.place(block);
        if bank != self.bank {
            return None;
        }
        let way = self.ways.find(set, tag)?;
        let entry = self.ways.entry(set, way)?;
        Some(Held { set, way, entry })
    }
}

/// Where a block lies, and its entry.
#[derive(Clone, Copy)]
struct Held {
    set: Set,
    way: Way,
    entry: Entry,
}
