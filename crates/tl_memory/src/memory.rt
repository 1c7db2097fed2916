//! The bytes of all blocks.
ghost use Rattle.std.specs.Prelude.{◌≡◌, ℕ, ◌+◌, ◌*◌, ◌%◌, ◌^◌, ◌<◌, ◌≤◌, ◌==◌, ◌↔◌, length, replicate, vec_capacity, IsTrue, IfOk, None, Some, if◌then◌else◌};
ghost use Rattle.tl_map.specs.Places.{block_of_address, bank_of, slot_count};
ghost use Rattle.tl_types.specs.Bytes.{image_bytes};
ghost use Rattle.tl_memory.specs.Blocks.{block_in, block_after, filled_up, is_kept, place_in, reply_of_memory, IsOfBlock, IsServable};

use crate::burst::Burst;
use crate::request::{Reply, Request};
use std::alloc::{AllocError, Global};
use std::marker::Model;
use std::mem;
use tl_map::Geometry;
use tl_types::{BankNo, BlockBytes, BlockNo};

/// A memory of the blocks of a geometry, or of those of one bank alone. The room for all its bytes is taken when it is
/// made; they are laid down as far as the last block written, and 0 behind.
#[derive(Drop)]
pub struct Memory {
    geometry: Geometry,
    bank: Option<BankNo>,
    bytes: Vec<u8>,
}

impl Model for Memory {
    ghost use Rattle.std.specs.Prelude.{◌≡◌, ◌*◌, ◌≤◌, length, vec_capacity};
    ghost use Rattle.tl_memory.specs.Blocks.{Contents, filled_up, place_count};

    ghost Value = { Contents };

    ghost view = { λ m. record {
      geometry = m.geometry;
      bank = m.bank;
      room = vec_capacity m.bytes;
      bytes = filled_up (vec_capacity m.bytes) m.bytes.items;
    } };

    ghost invariant = { λ m.
        (length m.bytes.items ≤ vec_capacity m.bytes)
        × (vec_capacity m.bytes ≡ place_count m.geometry m.bank * m.geometry.block_bytes) };
}

impl Memory {
    /// A memory that holds an image no longer than it, and 0 past the image. All memory that it ever uses is taken
    /// here; the error is want of it.
    #[tactic(auto, unfolding(crate::specs::Blocks::block_in))]
    pub fn new(alloc: Global, geometry: Geometry, image: &[u8]) -> Result<Memory, AllocError>
        requires { length image.now ≤ geometry.memory_blocks * geometry.block_bytes }
        ensures geometry { IfOk result (λ m. m.geometry ≡ geometry) }
        ensures bank { IfOk result (λ m. m.bank ≡ None) }
        ensures blocks { IfOk result
            (λ m. (b : ℕ)
            → b < geometry.memory_blocks
            → block_in m b ≡ image_bytes image.now (b * geometry.block_bytes) geometry.block_bytes) }
    {
        let len = geometry.memory_bytes() as usize;
        let mut bytes = Vec::with_capacity(alloc, len)?;
        lay_down(&mut bytes, image.len());
        bytes.as_mut_slice().copy_from_slice(image);
        Ok(Memory {
            geometry,
            bank: None,
            bytes,
        })
    }

    /// The blocks of one bank of a memory that holds an image no longer than the whole memory, and 0 past the image.
    /// All memory that it ever uses is taken here, for the bank's part of the whole; the error is want of it.
    pub fn of_bank(
        alloc: Global,
        geometry: Geometry,
        bank: BankNo,
        image: &[u8],
    ) -> Result<Memory, AllocError>
        requires { length image.now ≤ geometry.memory_blocks * geometry.block_bytes }
        ensures geometry { IfOk result (λ m. m.geometry ≡ geometry) }
        ensures bank { IfOk result (λ m. m.bank ≡ Some bank) }
        ensures part { IfOk result (λ m. length m.bytes ≡ slot_count geometry * geometry.block_bytes) }
        ensures room { IfOk result (λ m. m.room ≡ slot_count geometry * geometry.block_bytes) }
        ensures blocks { IfOk result
            (λ m. (b : ℕ) → b < geometry.memory_blocks → bank_of geometry b ≡ bank
            → block_in m b ≡ image_bytes image.now (b * geometry.block_bytes) geometry.block_bytes) }
    {
        let mut memory = Memory::zeroed(alloc, geometry, bank)?;
        let block_bytes = geometry.block_bytes();
        for number in 0..(image.len() as u32).div_ceil(block_bytes) {
            let block = BlockNo::new(number);
            if memory.keeps(block) {
                let from = (number * block_bytes) as usize;
                memory.write(
                    block,
                    &BlockBytes::from_image(image, from, block_bytes as usize),
                );
            }
        }
        Ok(memory)
    }

    /// The blocks of one bank, all 0.
    #[tactic(auto, unfolding(crate::specs::Blocks::block_in))]
    fn zeroed(alloc: Global, geometry: Geometry, bank: BankNo) -> Result<Memory, AllocError>
        ensures geometry { IfOk result (λ m. m.geometry ≡ geometry) }
        ensures bank { IfOk result (λ m. m.bank ≡ Some bank) }
        ensures part { IfOk result (λ m. length m.bytes ≡ slot_count geometry * geometry.block_bytes) }
        ensures room { IfOk result (λ m. m.room ≡ slot_count geometry * geometry.block_bytes) }
        ensures blocks { IfOk result
            (λ m. (b : ℕ) → b < geometry.memory_blocks → bank_of geometry b ≡ bank
            → block_in m b ≡ replicate geometry.block_bytes 0) }
    {
        let len = geometry.slots() as usize * geometry.block_bytes() as usize;
        let bytes = Vec::with_capacity(alloc, len)?;
        Ok(Memory {
            geometry,
            bank: Some(bank),
            bytes,
        })
    }

    /// The geometry. Each block of the memory that is kept has its bytes.
    #[tactic(auto, unfolding(crate::specs::Blocks::block_in))]
    pub fn geometry(&self) -> Geometry
        ensures value { result ≡ self.now.geometry }
        ensures sized { (b : ℕ)
            → b < self.now.geometry.memory_blocks → IsTrue (is_kept self.now.geometry self.now.bank b)
            → length (block_in self.now b) ≡ self.now.geometry.block_bytes }
    {
        // For the prover: the numbers are lawful.
        let _ = self.geometry.banks();
        self.geometry
    }

    /// Whether a request is for a whole block that is kept.
    pub fn has(&self, request: &Request) -> bool
        ensures { IsTrue result ↔ IsServable self.now request.now }
    {
        match request {
            Request::Get { size, address } => self.has_block(*size, *address),
            Request::Put {
                size,
                address,
                burst,
            } => self.has_block(*size, *address)
                && burst.beats() * 8 == self.geometry.block_bytes() as usize,
        }
    }

    /// Reads or writes the block of a request, and answers it.
    #[tactic(auto, unfolding(crate::specs::Blocks::block_in))]
    pub fn serve(&mut self, request: Request) -> Reply
        requires { IsServable self.old request }
        ensures geometry { self.new.geometry ≡ self.old.geometry }
        ensures bank { self.new.bank ≡ self.old.bank }
        ensures room { self.new.room ≡ self.old.room }
        ensures reply { result ≡ reply_of_memory self.old request }
        ensures blocks { (b : ℕ) → block_in self.new b ≡ block_after self.old request b }
    {
        match request {
            Request::Get { size, address } => Reply::AccessAckData {
                size,
                burst: Burst::of_block(self.read(self.geometry.block_at(address))),
            },
            Request::Put {
                size,
                address,
                burst,
            } => {
                self.write(self.geometry.block_at(address), burst.as_block());
                Reply::AccessAck { size }
            }
        }
    }

    /// Whether a block of this size is at this address, and kept.
    #[tactic(auto, using(crate::proofs::BlockLaws::sizes))]
    fn has_block(&self, size: u32, address: u32) -> bool
        ensures { IsTrue result ↔ IsOfBlock self.now size address }
    {
        if size != self.geometry.block_size() {
            return false;
        }
        self.geometry.offset(address) == 0
            && address < self.geometry.memory_bytes()
            && self.keeps(self.geometry.block_at(address))
    }

    /// Whether a block is kept, where it is of the memory.
    fn keeps(&self, block: BlockNo) -> bool
        ensures { result ≡ is_kept self.now.geometry self.now.bank block }
    {
        match self.bank {
            Some(bank) => self.geometry.bank(block) == bank,
            None => true,
        }
    }

    /// Where the bytes of a block begin.
    fn start(&self, block: BlockNo) -> usize
        requires { block < self.now.geometry.memory_blocks }
        ensures is { result ≡ place_in self.now.geometry self.now.bank block * self.now.geometry.block_bytes }
        ensures inside { result + self.now.geometry.block_bytes ≤ length self.now.bytes }
        ensures small { result < 2 ^ 32 }
    {
        let place = match self.bank {
            Some(_) => self.geometry.slot(block),
            None => block.number(),
        };
        (place * self.geometry.block_bytes()) as usize
    }

    /// The bytes of a block that is kept.
    #[tactic(auto, unfolding(crate::specs::Blocks::block_in))]
    pub fn read(&self, block: BlockNo) -> BlockBytes
        requires inside { block < self.now.geometry.memory_blocks }
        requires kept { IsTrue (is_kept self.now.geometry self.now.bank block) }
        ensures block { result ≡ block_in self.now block }
        ensures len { length result ≡ self.now.geometry.block_bytes }
        ensures beats { length result % 8 ≡ 0 }
    {
        let from = self.start(block);
        BlockBytes::from_image(
            self.bytes.as_slice(),
            from,
            self.geometry.block_bytes() as usize,
        )
    }

    /// Writes a block that is kept.
    #[tactic(auto, unfolding(crate::specs::Blocks::block_in))]
    pub fn write(&mut self, block: BlockNo, bytes: &BlockBytes)
        requires inside { block < self.old.geometry.memory_blocks }
        requires kept { IsTrue (is_kept self.old.geometry self.old.bank block) }
        requires len { length bytes.now ≡ self.old.geometry.block_bytes }
        ensures geometry { self.new.geometry ≡ self.old.geometry }
        ensures bank { self.new.bank ≡ self.old.bank }
        ensures room { self.new.room ≡ self.old.room }
        ensures len { length self.new.bytes ≡ length self.old.bytes }
        ensures blocks { (b : ℕ) → block_in self.new b ≡ (if b == block then bytes.now else block_in self.old b) }
    {
        let from = self.start(block);
        let to = from + self.geometry.block_bytes() as usize;
        lay_down(&mut self.bytes, to);
        let laid = self.bytes.as_mut_slice();
        laid[from..to].copy_from_slice(bytes.as_slice());
    }
}

/// Lays down 0 behind some bytes until there are `len`, for which there is room: no memory is taken.
fn lay_down(bytes: &mut Vec<u8>, len: usize)
    requires { len ≤ vec_capacity bytes.old }
    ensures items { bytes.new.items ≡ filled_up len bytes.old.items }
    ensures room { vec_capacity bytes.new ≡ vec_capacity bytes.old }
{
    let none = Vec::new(*bytes.allocator());
    let owned = mem::replace(bytes, none);
    *bytes = laid_down(owned, len);
}

// The bytes are owned, so that no other can be seen through them while they grow, and a row of them is laid down at
// once.
fn laid_down(mut bytes: Vec<u8>, len: usize) -> Vec<u8>
    requires { len ≤ vec_capacity bytes }
    ensures items { result.items ≡ filled_up len bytes.items }
    ensures room { vec_capacity result ≡ vec_capacity bytes }
{
    'laying: while bytes.len() < len {
        bytes.push_reserved(0);
    }
    bytes
}
