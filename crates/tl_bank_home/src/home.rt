//! What home holds of the blocks of one bank.
ghost use Rattle.std.specs.Prelude.{◌≡◌, ◌≢◌, ◌↔◌, ℕ, ◌+◌, ◌*◌, ◌^◌, ◌<◌, ◌≤◌, ◌==◌, ◌&&◌, length, IfNone, IfOk, IfSome, IsSome, IsTrue, MatchOption, None, Some, false, true, is_none, option_copied, if◌then◌else◌};
ghost use Rattle.std.specs.Option.{option_map};
ghost use Rattle.tl_types.specs.Bytes.{image_bytes};
ghost use Rattle.tl_types.specs.declared.permission.Perm.TheVariants.{None as NoAccess, Branch, Tip};
ghost use Rattle.tl_map.specs.Places.{bank_of, set_of};
ghost use Rattle.tl_memory.specs.Blocks.{IsServable};
ghost use Rattle.tl_protocol.specs.Home.{IsRequest, IsData};
ghost use Rattle.tl_protocol.specs.Protocol.{home_after, home_bytes};
ghost use Rattle.tl_protocol.specs.Sizes.{IsWhole, outward_bytes};
ghost use Rattle.tl_protocol.specs.declared.home.Line.{Line};
ghost use Rattle.tl_protocol.specs.declared.home.Outward.TheVariants.{Quiet, Get, Put, PutAck};
ghost use Rattle.tl_ways.specs.Entries.{IsOfClients, entry_perm};
ghost use Rattle.tl_ways.specs.Orders.{chosen, is_busy, rising};
ghost use Rattle.tl_bank_home.specs.Directories.{is_way, order_after, perm_in};
ghost use Rattle.tl_bank_home.specs.Homes.{geometry_in, bank_in, line_in, recorded_in, outward_in, crossing_count, memory_in, way_in, free_at, order_at, SameBank, SameWays, SameOutward, SameHome, SameMemory, EachHasHolder, request_of, reply_to, arriving, served_outward, served_memory, fetched};

use crate::crossings::Crossings;
use crate::directory::Directory;
use std::alloc::{AllocError, Global};
use std::marker::Model;
use tl_map::{Geometry, Set};
use tl_memory::{Burst, Memory, Reply, Request};
use tl_protocol::Outward;
use tl_types::{BankNo, BlockBytes, BlockNo, ClientId, Perm};
use tl_ways::{Entry, Way};

/// Of how many blocks something can pass between home and the memory at one time.
pub const MOST_CROSSINGS: usize = 8;

/// Home's part of the blocks of one bank, and the memory's.
#[derive(Drop)]
pub struct Home {
    directory: Directory,
    crossings: Crossings,
    memory: Memory,
}

impl Model for Home {
    ghost use Rattle.tl_bank_home.specs.Homes.{HomeState, IsHome};

    ghost Value = { HomeState };

    ghost view = { λ h. record { directory = h.directory; crossings = h.crossings; memory = h.memory } };

    ghost invariant = { λ h. IsHome (record { directory = h.directory; crossings = h.crossings; memory = h.memory }) };
}

#[tactic(auto, unfolding(crate::specs::Homes::geometry_in, crate::specs::Homes::bank_in, crate::specs::Homes::line_in, crate::specs::Homes::recorded_in, crate::specs::Homes::outward_in, crate::specs::Homes::crossing_count, crate::specs::Homes::memory_in, crate::specs::Homes::way_in, crate::specs::Homes::free_at, crate::specs::Homes::order_at))]
impl Home {
    /// Home of one bank over a memory that holds an image no longer than it, and 0 past the image: it holds no block.
    /// All memory that it ever uses is taken here, and only the bytes of the bank's own blocks grow with the blocks;
    /// the error is want of it.
    pub fn new(
        alloc: Global,
        geometry: Geometry,
        bank: BankNo,
        image: &[u8],
    ) -> Result<Home, AllocError>
        requires { length image.now ≤ geometry.memory_blocks * geometry.block_bytes }
        ensures geometry { IfOk result (λ h. geometry_in h ≡ geometry) }
        ensures bank { IfOk result (λ h. bank_in h ≡ bank) }
        ensures lines { IfOk result (λ h. (b : ℕ) → line_in h b ≡ None) }
        ensures recorded { IfOk result (λ h. (c b : ℕ) → recorded_in h c b ≡ NoAccess) }
        ensures outward { IfOk result (λ h. (b : ℕ) → outward_in h b ≡ Quiet) }
        ensures count { IfOk result (λ h. crossing_count h ≡ 0) }
        ensures memory { IfOk result
            (λ h. (b : ℕ) → b < geometry.memory_blocks → bank_of geometry b ≡ bank
            → memory_in h b ≡ image_bytes image.now (b * geometry.block_bytes) geometry.block_bytes) }
        ensures ways { IfOk result (λ h. (b : ℕ) → way_in h b ≡ None) }
        ensures free { IfOk result (λ h. (set way : ℕ) → free_at h set way ≡ true) }
        ensures orders { IfOk result (λ h. (set : ℕ) → set < geometry.sets → order_at h set ≡ rising geometry.ways) }
    {
        let directory = Directory::new(alloc, geometry, bank)?;
        let memory = Memory::of_bank(alloc, geometry, bank, image)?;
        Ok(Home {
            directory,
            crossings: Crossings::new(),
            memory,
        })
    }

    /// The geometry.
    pub fn geometry(&self) -> Geometry
        ensures { result ≡ geometry_in self.now }
    {
        self.memory.geometry()
    }

    /// The bank.
    pub fn bank(&self) -> BankNo
        ensures { result ≡ bank_in self.now }
    {
        self.directory.bank()
    }

    /// The way in which a block lies, if home holds it.
    pub fn way(&self, block: BlockNo) -> Option<Way>
        requires { block < (geometry_in self.now).memory_blocks }
        ensures { result ≡ way_in self.now block }
    {
        self.directory.way(block)
    }

    /// Whether home's copy of a block is dirty, if home holds it.
    pub fn is_dirty(&self, block: BlockNo) -> Option<bool>
        requires { block < (geometry_in self.now).memory_blocks }
        ensures { result ≡ option_map (λ (line : Line). line.dirty) (line_in self.now block) }
    {
        self.directory.is_dirty(block)
    }

    /// The bytes of home's copy of a block, if home holds it.
    pub fn bytes(&self, block: BlockNo) -> Option<&BlockBytes>
        requires { block < (geometry_in self.now).memory_blocks }
        ensures { option_copied result ≡ option_map (λ (line : Line). line.bytes) (line_in self.now block) }
    {
        self.directory.bytes(block)
    }

    /// The entry of a block in home's directory, if home holds it. It records the geometry's clients alone.
    pub fn entry(&self, block: BlockNo) -> Option<Entry>
        requires { block < (geometry_in self.now).memory_blocks }
        ensures dirty { MatchOption result (line_in self.now block ≡ None)
            (λ entry. option_map (λ (line : Line). line.dirty) (line_in self.now block) ≡ Some entry.dirty) }
        ensures recorded { (client : ℕ) → perm_in result client ≡ recorded_in self.now client block }
        ensures clients { IfSome result (λ entry. IsOfClients (geometry_in self.now).clients entry) }
    {
        self.directory.entry(block)
    }

    /// The entry of a block in home's directory, the bytes of home's copy, and the way in which it lies, if home holds
    /// it.
    pub fn line(&self, block: BlockNo) -> Option<(Entry, &BlockBytes, Way)>
        requires { block < (geometry_in self.now).memory_blocks }
        ensures is { MatchOption result (line_in self.now block ≡ None)
            (λ line. line_in self.now block ≡ Some (record { bytes = line.1.now; dirty = line.0.dirty })) }
        ensures recorded { IfSome result
            (λ line. (client : ℕ) → recorded_in self.now client block ≡ entry_perm line.0 client) }
        ensures way { IfSome result (λ line. way_in self.now block ≡ Some line.2) }
    {
        self.directory.line(block)
    }

    /// The permission that home records for a client of a block: None where home does not hold it.
    pub fn recorded(&self, client: ClientId, block: BlockNo) -> Perm
        requires { block < (geometry_in self.now).memory_blocks }
        ensures { result ≡ recorded_in self.now client block }
    {
        self.directory.recorded(client, block)
    }

    /// The memory's bytes of a block of the bank.
    pub fn in_memory(&self, block: BlockNo) -> BlockBytes
        requires block { block < (geometry_in self.now).memory_blocks }
        requires own { bank_of (geometry_in self.now) block ≡ bank_in self.now }
        ensures { result ≡ memory_in self.now block }
    {
        self.memory.read(block)
    }

    /// What passes of a block between home and the memory, if anything does.
    pub fn outward(&self, block: BlockNo) -> Option<&Outward>
        ensures { MatchOption result (outward_in self.now block ≡ Quiet)
            (λ outward. outward_in self.now block ≡ outward.now) }
    {
        self.crossings.of(block)
    }

    /// Whether nothing of a block passes between home and the memory.
    pub fn is_quiet(&self, block: BlockNo) -> bool
        ensures { IsTrue result ↔ (outward_in self.now block ≡ Quiet) }
    {
        self.crossings.is_quiet(block)
    }

    /// Whether the memory has a request of a block to answer.
    pub fn may_serve(&self, block: BlockNo) -> bool
        ensures { IsTrue result ↔ IsRequest (outward_in self.now block) }
    {
        self.crossings.may_serve(block)
    }

    /// Whether the bytes of a block that home asked for wait for it.
    pub fn is_data(&self, block: BlockNo) -> bool
        ensures { IsTrue result ↔ IsData (outward_in self.now block) }
    {
        self.crossings.is_data(block)
    }

    /// Whether the acknowledgement of a Put of a block waits for home.
    pub fn is_put_ack(&self, block: BlockNo) -> bool
        ensures { IsTrue result ↔ (outward_in self.now block ≡ PutAck) }
    {
        self.crossings.is_put_ack(block)
    }

    /// Of how many blocks something passes between home and the memory.
    pub fn crossings(&self) -> usize
        ensures is { result ≡ crossing_count self.now }
        ensures few { result ≤ MOST_CROSSINGS }
        ensures each { (n : ℕ) (holder : ℕ → ℕ) → EachHasHolder self.now n holder → result ≤ n }
    {
        self.crossings.len()
    }

    /// The way of a set that is taken next, of those that are not busy: the lowest free one, else the first in the
    /// order.
    pub fn choose(&self, set: Set, busy: &[Way]) -> Option<Way>
        requires { set < (geometry_in self.now).sets }
        ensures is { result
            ≡ chosen (λ way. free_at self.now set way) (geometry_in self.now).ways (order_at self.now set) busy.now }
        ensures inside { IfSome result (λ way. way < (geometry_in self.now).ways) }
        ensures none { IfNone result ((way : ℕ) → way < (geometry_in self.now).ways → IsTrue (is_busy busy.now way)) }
    {
        self.directory.choose(set, busy)
    }

    /// The block that lies in a way of a set.
    pub fn occupant(&self, set: Set, way: Way) -> Option<BlockNo>
        requires { set < (geometry_in self.now).sets }
        ensures inside { IfSome result (λ block. block < (geometry_in self.now).memory_blocks) }
        ensures set { IfSome result (λ block. set_of (geometry_in self.now) block ≡ set) }
        ensures way { IfSome result (λ block. way_in self.now block ≡ Some way) }
        ensures free { is_none result ≡ free_at self.now set way }
    {
        self.directory.occupant(set, way)
    }

    /// Home takes what a client gives up of a block that home holds: what is recorded then, and the bytes where they
    /// were dirty. Beside Tip no other client may have any permission.
    pub fn receive(&mut self, client: ClientId, block: BlockNo, to: Perm, bytes: Option<BlockBytes>)
        requires block { block < (geometry_in self.old).memory_blocks }
        requires held { IsSome (line_in self.old block) }
        requires known { client < (geometry_in self.old).clients }
        requires tip { to ≡ Tip → (other : ℕ) → other ≢ client → recorded_in self.old other block ≡ NoAccess }
        requires branch { to ≡ Branch → (other : ℕ) → other ≢ client → recorded_in self.old other block ≢ Tip }
        ensures bank { SameBank self.old self.new }
        ensures lines { (b : ℕ)
            → line_in self.new b
            ≡ (if b == block then home_after (line_in self.old block) bytes else line_in self.old b) }
        ensures recorded { (c b : ℕ)
            → recorded_in self.new c b ≡ (if c == client && b == block then to else recorded_in self.old c b) }
        ensures ways { SameWays self.old self.new }
        ensures outward { SameOutward self.old self.new }
        ensures memory { SameMemory self.old self.new }
    {
        let way = self.directory.record(client, block, to);
        if let Some(bytes) = bytes {
            self.directory.write(block, way, bytes);
        }
    }

    /// Home grants a permission of a block that lies in a way: it records it, and the way goes last in the order of its
    /// set. Beside Tip no other client may have any permission.
    pub fn grant(&mut self, client: ClientId, block: BlockNo, way: Way, perm: Perm)
        requires block { block < (geometry_in self.old).memory_blocks }
        requires lies { way_in self.old block ≡ Some way }
        requires known { client < (geometry_in self.old).clients }
        requires tip { perm ≡ Tip → (other : ℕ) → other ≢ client → recorded_in self.old other block ≡ NoAccess }
        requires branch { perm ≡ Branch → (other : ℕ) → other ≢ client → recorded_in self.old other block ≢ Tip }
        ensures bank { SameBank self.old self.new }
        ensures lines { (b : ℕ) → line_in self.new b ≡ line_in self.old b }
        ensures recorded { (c b : ℕ)
            → recorded_in self.new c b ≡ (if c == client && b == block then perm else recorded_in self.old c b) }
        ensures ways { (b : ℕ) → way_in self.new b ≡ way_in self.old b }
        ensures free { (set way : ℕ) → free_at self.new set way ≡ free_at self.old set way }
        ensures orders { (set : ℕ)
            → order_at self.new set
            ≡ (if set == set_of (geometry_in self.old) block
            then order_after (way_in self.old block) (order_at self.old set)
            else order_at self.old set) }
        ensures outward { SameOutward self.old self.new }
        ensures memory { SameMemory self.old self.new }
    {
        self.directory.grant(client, block, way, perm);
    }

    /// Home asks the memory for a block of which nothing passes.
    pub fn send_get(&mut self, block: BlockNo)
        requires quiet { outward_in self.old block ≡ Quiet }
        requires room { crossing_count self.old < MOST_CROSSINGS }
        ensures bank { SameBank self.old self.new }
        ensures home { SameHome self.old self.new }
        ensures outward { (b : ℕ) → outward_in self.new b ≡ (if b == block then Get else outward_in self.old b) }
        ensures count { crossing_count self.new ≡ crossing_count self.old + 1 }
        ensures memory { SameMemory self.old self.new }
    {
        self.crossings.put(block, Outward::Get);
    }

    /// Home gives up its copy of a block that it holds, and what it records of it.
    pub fn drop_line(&mut self, block: BlockNo)
        requires block { block < (geometry_in self.old).memory_blocks }
        requires held { IsSome (line_in self.old block) }
        ensures bank { SameBank self.old self.new }
        ensures lines { (b : ℕ) → line_in self.new b ≡ (if b == block then None else line_in self.old b) }
        ensures recorded { (c b : ℕ)
            → recorded_in self.new c b ≡ (if b == block then NoAccess else recorded_in self.old c b) }
        ensures ways { (b : ℕ) → way_in self.new b ≡ (if b == block then None else way_in self.old b) }
        ensures free { (set way : ℕ)
            → free_at self.new set way
            ≡ (if set == set_of (geometry_in self.old) block && is_way (way_in self.old block) way
            then true
            else free_at self.old set way) }
        ensures orders { (set : ℕ) → order_at self.new set ≡ order_at self.old set }
        ensures outward { SameOutward self.old self.new }
        ensures memory { SameMemory self.old self.new }
    {
        self.directory.clear(block);
    }

    /// Home gives up its copy of a block that it holds, and what it records of it, and sends the bytes to the memory.
    pub fn send_put(&mut self, block: BlockNo)
        requires block { block < (geometry_in self.old).memory_blocks }
        requires held { IsSome (line_in self.old block) }
        requires quiet { outward_in self.old block ≡ Quiet }
        requires room { crossing_count self.old < MOST_CROSSINGS }
        ensures bank { SameBank self.old self.new }
        ensures lines { (b : ℕ) → line_in self.new b ≡ (if b == block then None else line_in self.old b) }
        ensures recorded { (c b : ℕ)
            → recorded_in self.new c b ≡ (if b == block then NoAccess else recorded_in self.old c b) }
        ensures ways { (b : ℕ) → way_in self.new b ≡ (if b == block then None else way_in self.old b) }
        ensures free { (set way : ℕ)
            → free_at self.new set way
            ≡ (if set == set_of (geometry_in self.old) block && is_way (way_in self.old block) way
            then true
            else free_at self.old set way) }
        ensures orders { (set : ℕ) → order_at self.new set ≡ order_at self.old set }
        ensures outward { (b : ℕ)
            → outward_in self.new b
            ≡ (if b == block then Put (home_bytes (line_in self.old block)) else outward_in self.old b) }
        ensures count { crossing_count self.new ≡ crossing_count self.old + 1 }
        ensures memory { SameMemory self.old self.new }
    {
        let bytes = self.directory.bytes(block).unwrap().copied();
        self.drop_line(block);
        self.crossings.put(block, Outward::Put(bytes));
    }

    /// The memory answers the request of a block: a Get with the block's bytes, a Put, which brings a whole block, once
    /// it is written. Its reply is on the way to home then.
    pub fn serve(&mut self, block: BlockNo) -> Reply
        requires block { block < (geometry_in self.old).memory_blocks }
        requires own { bank_of (geometry_in self.old) block ≡ bank_in self.old }
        requires request { IsRequest (outward_in self.old block) }
        requires whole { IsWhole (geometry_in self.old).block_bytes (outward_bytes (outward_in self.old block)) }
        ensures reply { (size : ℕ)
            × (2 ^ size ≡ (geometry_in self.old).block_bytes)
            × (result ≡ reply_to size (memory_in self.old block) (outward_in self.old block)) }
        ensures bank { SameBank self.old self.new }
        ensures home { SameHome self.old self.new }
        ensures outward { (b : ℕ)
            → outward_in self.new b
            ≡ (if b == block
            then served_outward (memory_in self.old block) (outward_in self.old block)
            else outward_in self.old b) }
        ensures count { crossing_count self.new ≡ crossing_count self.old }
        ensures memory { (b : ℕ)
            → memory_in self.new b
            ≡ (if b == block
            then served_memory (memory_in self.old block) (outward_in self.old block)
            else memory_in self.old b) }
    {
        let request = self.request(block);
        let reply = self.memory.serve(request);
        self.crossings.change(block, arriving(&reply));
        reply
    }

    /// Home's request of a block to the memory.
    fn request(&self, block: BlockNo) -> Request
        requires block { block < (geometry_in self.now).memory_blocks }
        requires own { bank_of (geometry_in self.now) block ≡ bank_in self.now }
        requires request { IsRequest (outward_in self.now block) }
        requires whole { IsWhole (geometry_in self.now).block_bytes (outward_bytes (outward_in self.now block)) }
        ensures servable { IsServable self.now.memory result }
        ensures is { (size : ℕ)
            × (2 ^ size ≡ (geometry_in self.now).block_bytes)
            × (result ≡ request_of size (block * (geometry_in self.now).block_bytes) (outward_in self.now block)) }
    {
        let geometry = self.geometry();
        let size = geometry.block_size();
        let address = block.number() * geometry.block_bytes();
        match self.crossings.of(block) {
            Some(Outward::Put(bytes)) => Request::Put {
                size,
                address,
                burst: whole_burst(geometry, bytes),
            },
            _ => Request::Get { size, address },
        }
    }

    /// Home takes the bytes of a block that it asked for, and places them, clean, into a free way of its set.
    pub fn take_data(&mut self, block: BlockNo, way: Way)
        requires block { block < (geometry_in self.old).memory_blocks }
        requires own { bank_of (geometry_in self.old) block ≡ bank_in self.old }
        requires asked { IsData (outward_in self.old block) }
        requires away { line_in self.old block ≡ None }
        requires way { way < (geometry_in self.old).ways }
        requires free { free_at self.old (set_of (geometry_in self.old) block) way ≡ true }
        ensures bank { SameBank self.old self.new }
        ensures lines { (b : ℕ)
            → line_in self.new b ≡ (if b == block then fetched (outward_in self.old block) else line_in self.old b) }
        ensures recorded { (c b : ℕ) → recorded_in self.new c b ≡ recorded_in self.old c b }
        ensures ways { (b : ℕ) → way_in self.new b ≡ (if b == block then Some way else way_in self.old b) }
        ensures free { (x y : ℕ)
            → free_at self.new x y
            ≡ (if x == set_of (geometry_in self.old) block && y == way then false else free_at self.old x y) }
        ensures orders { (set : ℕ) → order_at self.new set ≡ order_at self.old set }
        ensures outward { (b : ℕ) → outward_in self.new b ≡ (if b == block then Quiet else outward_in self.old b) }
        ensures count { crossing_count self.new + 1 ≡ crossing_count self.old }
        ensures memory { SameMemory self.old self.new }
    {
        if let Outward::Data(bytes) = self.crossings.take(block) {
            self.directory.place(block, way, bytes);
        }
    }

    /// Home takes the acknowledgement of a Put.
    pub fn take_put_ack(&mut self, block: BlockNo)
        requires { outward_in self.old block ≡ PutAck }
        ensures bank { SameBank self.old self.new }
        ensures home { SameHome self.old self.new }
        ensures outward { (b : ℕ) → outward_in self.new b ≡ (if b == block then Quiet else outward_in self.old b) }
        ensures count { crossing_count self.new + 1 ≡ crossing_count self.old }
        ensures memory { SameMemory self.old self.new }
    {
        let _ = self.crossings.take(block);
    }
}

/// What a reply of the memory leaves on the way to home.
fn arriving(reply: &Reply) -> Outward
    ensures { result ≡ arriving reply.now }
{
    match reply {
        Reply::AccessAckData { size: _, burst } => Outward::Data(burst.block()),
        Reply::AccessAck { size: _ } => Outward::PutAck,
    }
}

/// The beats of a block's bytes.
fn whole_burst(geometry: Geometry, bytes: &BlockBytes) -> Burst
    requires { length bytes.now ≡ geometry.block_bytes }
    ensures bytes { result ≡ bytes.now }
    ensures len { length result ≡ geometry.block_bytes }
{
    // For the prover: the numbers are lawful, and so beats fill a block.
    let _ = geometry.block_bytes();
    Burst::of_block(bytes.copied())
}
