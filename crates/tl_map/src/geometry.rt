//! A lawful geometry, and the place of each block and each address in it.
ghost use Rattle.std.specs.Prelude.{◌≡◌, ◌≢◌, ℕ, ◌*◌, ◌^◌, ◌<◌, ◌≤◌, IfErr, IfNone, IfOk, IfSome, None, Some};
ghost use Rattle.tl_map.specs.Limits.{most_clients, most_copies, IsLawful};
ghost use Rattle.tl_map.specs.Places.{xor_of_groups, bank_of, slot_of, slot_count, place_of, has_block, block_of_address, offset_of, has_bytes};
ghost use Rattle.tl_map.specs.Refusals.{refusal_of, numbers_of};

use crate::numbers::{GeometryError, GeometryNumbers, one_of, within};
use crate::place::{Place, Set, Tag};
use std::marker::Model;
use tl_types::{BLOCKS, BankNo, BlockNo, CLIENTS, COPIES, REGISTERS, WAYS};

/// The numbers of a cache, each within its limits.
#[derive(Clone, Debug, PartialEq, Eq)]
pub struct Geometry {
    version: u32,
    clients: u32,
    banks: u32,
    block_bytes: u32,
    sets: u32,
    ways: u32,
    registers: u32,
    copies: u32,
    memory_blocks: u32,
}

impl Model for Geometry {
    ghost use Rattle.tl_map.specs.Numbers.{Numbers};
    ghost use Rattle.tl_map.specs.Limits.{IsLawful};

    ghost Value = { Numbers };

    ghost use Rattle.tl_map.specs.Shown.{shown, held};

    ghost view = { shown };

    ghost invariant = { λ g. IsLawful (shown g) };

    ghost inverse = { held };
}

impl Copy for Geometry {}

impl Geometry {
    /// The geometry of these numbers. The error is the first number that is out of its range (`GeometryError`): the
    /// version first, then in the order of the fields.
    pub fn new(numbers: GeometryNumbers) -> Result<Geometry, GeometryError>
        ensures refused { IfErr result (λ e. refusal_of numbers ≡ Some e) }
        ensures made { IfOk result (λ g. (refusal_of numbers ≡ None) × (numbers_of g ≡ numbers)) }
    {
        let version = within(numbers.version, 1, 2).ok_or(GeometryError::Version)?;
        let clients = within(numbers.clients, 1, most_clients(version)).ok_or(
            GeometryError::Clients,
        )?;
        let banks = one_of(numbers.banks, &[1, 2, 4, 8]).ok_or(GeometryError::Banks)?;
        let block_bytes = one_of(numbers.block_bytes, &[8, 16, 32, 64]).ok_or(
            GeometryError::BlockBytes,
        )?;
        let sets = one_of(numbers.sets, &[1, 2, 4, 8, 16, 32, 64]).ok_or(GeometryError::Sets)?;
        let ways = within(numbers.ways, 1, WAYS as u32).ok_or(GeometryError::Ways)?;
        let registers = within(numbers.registers, 1, REGISTERS as u32).ok_or(
            GeometryError::Registers,
        )?;
        let copies = within(numbers.copies, 1, most_copies(version)).ok_or(GeometryError::Copies)?;
        let memory_blocks = within(numbers.memory_blocks, 1, BLOCKS as u32).ok_or(
            GeometryError::MemoryBlocks,
        )?;
        Ok(Geometry {
            version,
            clients,
            banks,
            block_bytes,
            sets,
            ways,
            registers,
            copies,
            memory_blocks,
        })
    }

    /// The numbers that it was made of.
    pub fn numbers(self) -> GeometryNumbers
        ensures { result ≡ numbers_of self }
    {
        GeometryNumbers {
            version: i64::from(self.version),
            clients: i64::from(self.clients),
            banks: i64::from(self.banks),
            block_bytes: i64::from(self.block_bytes),
            sets: i64::from(self.sets),
            ways: i64::from(self.ways),
            registers: i64::from(self.registers),
            copies: i64::from(self.copies),
            memory_blocks: i64::from(self.memory_blocks),
        }
    }

    /// The version, which sets the limits of clients and copies.
    pub fn version(self) -> u32
        ensures is { result ≡ self.version }
        ensures lawful { IsLawful self }
    {
        self.version
    }

    /// How many clients share the cache.
    pub fn clients(self) -> u32
        ensures is { result ≡ self.clients }
        ensures lawful { IsLawful self }
    {
        self.clients
    }

    /// How many banks the cache has.
    pub fn banks(self) -> u32
        ensures is { result ≡ self.banks }
        ensures lawful { IsLawful self }
    {
        self.banks
    }

    /// How many bytes a block has.
    pub fn block_bytes(self) -> u32
        ensures is { result ≡ self.block_bytes }
        ensures lawful { IsLawful self }
    {
        self.block_bytes
    }

    /// How many sets each bank has.
    pub fn sets(self) -> u32
        ensures is { result ≡ self.sets }
        ensures lawful { IsLawful self }
    {
        self.sets
    }

    /// How many ways each set has.
    pub fn ways(self) -> u32
        ensures is { result ≡ self.ways }
        ensures lawful { IsLawful self }
    {
        self.ways
    }

    /// How many miss registers each bank has.
    pub fn registers(self) -> u32
        ensures is { result ≡ self.registers }
        ensures lawful { IsLawful self }
    {
        self.registers
    }

    /// How many copies a client holds at most of each bank's blocks.
    pub fn copies(self) -> u32
        ensures is { result ≡ self.copies }
        ensures lawful { IsLawful self }
    {
        self.copies
    }

    /// How many blocks the memory has.
    pub fn memory_blocks(self) -> u32
        ensures is { result ≡ self.memory_blocks }
        ensures lawful { IsLawful self }
    {
        self.memory_blocks
    }

    /// How many bytes the memory has.
    pub fn memory_bytes(self) -> u32
        ensures is { result ≡ self.memory_blocks * self.block_bytes }
        ensures few { result ≤ 2 ^ 22 }
    {
        self.memory_blocks * self.block_bytes
    }

    /// The size of a block as messages to the memory give it: the base-2 logarithm of its bytes.
    pub fn block_size(self) -> u32
        ensures { 2 ^ result ≡ self.block_bytes }
    {
        self.block_bits()
    }

    /// Whether the memory has this block.
    pub fn has(self, block: BlockNo) -> bool
        ensures { result ≡ has_block self block }
    {
        block.number() < self.memory_blocks
    }

    /// The bank of a block.
    #[tactic(auto, unfolding(crate::specs::Places::bank_of))]
    pub fn bank(self, block: BlockNo) -> BankNo
        ensures is { result ≡ bank_of self block }
        ensures inside { result < self.banks }
    {
        BankNo::new(self.xor_of_groups(block.number()))
    }

    /// The number of a block among those of its bank, of which no other block has it.
    #[tactic(auto, using(crate::proofs::PlaceLaws::slots), unfolding(crate::specs::Places::slot_of))]
    pub fn slot(self, block: BlockNo) -> u32
        ensures is { result ≡ slot_of self block }
        ensures alone { (other : ℕ) → bank_of self other ≡ bank_of self block → slot_of self other ≡ result
            → other ≡ block }
        ensures inside { block < self.memory_blocks → result < slot_count self }
    {
        block.number() >> self.bank_bits()
    }

    /// How many slots the blocks of a bank have.
    pub fn slots(self) -> u32
        ensures { result ≡ slot_count self }
    {
        (self.memory_blocks + self.banks - 1) >> self.bank_bits()
    }

    /// The bank, the set and the tag of a block of the memory. No other block has them.
    #[tactic(auto, using(crate::proofs::PlaceLaws::places), unfolding(crate::specs::Places::bank_of, crate::specs::Places::slot_of, crate::specs::Places::set_of, crate::specs::Places::tag_of))]
    pub fn place(self, block: BlockNo) -> Place
        requires { block < self.memory_blocks }
        ensures is { result ≡ place_of self block }
        ensures bank { result.bank < self.banks }
        ensures set { result.set < self.sets }
        ensures alone { (other : ℕ) → place_of self other ≡ place_of self block → other ≡ block }
    {
        let slot = block.number() >> self.bank_bits();
        Place {
            bank: BankNo::new(self.xor_of_groups(block.number())),
            set: Set::new(slot & (self.sets - 1)),
            tag: Tag::new(slot >> self.set_bits()),
        }
    }

    /// The block of the memory with this place, if there is one.
    pub fn block_of(self, place: Place) -> Option<BlockNo>
        ensures found { IfSome result (λ block. (block < self.memory_blocks) × (place_of self block ≡ place)) }
        ensures none { IfNone result ((block : ℕ) → block < self.memory_blocks → place_of self block ≢ place) }
    {
        if place.bank.number() >= self.banks || place.set.number() >= self.sets {
            return None;
        }
        let slot = u64::from(place.tag.number()) * u64::from(self.sets)
            + u64::from(place.set.number());
        if slot >= u64::from(self.memory_blocks) {
            return None;
        }
        let slot = slot as u32;
        let block = BlockNo::new(
            slot * self.banks + (place.bank.number() ^ self.xor_of_groups(slot)),
        );
        if self.has(block) { Some(block) } else { None }
    }

    /// The block of an address.
    pub fn block_at(self, address: u32) -> BlockNo
        ensures { result ≡ block_of_address self address }
    {
        BlockNo::new(address >> self.block_bits())
    }

    /// The place of an address in its block, in bytes.
    pub fn offset(self, address: u32) -> u32
        ensures is { result ≡ offset_of self address }
        ensures inside { result < self.block_bytes }
    {
        address & (self.block_bytes - 1)
    }

    /// Whether the `len` bytes from an address on lie in one block of the memory.
    pub fn has_bytes(self, address: u32, len: usize) -> bool
        ensures { result ≡ has_bytes self address len }
    {
        self.has(self.block_at(address))
            && len <= (self.block_bytes - self.offset(address)) as usize
    }

    /// The exclusive or of the 16 lowest groups of a number's bits that are as wide as the number of a bank: 0 in one
    /// bank.
    fn xor_of_groups(self, number: u32) -> u32
        ensures is { result ≡ xor_of_groups self.banks 16 number }
        ensures group { result < self.banks }
    {
        if self.banks == 1 {
            return 0;
        }
        self.folded(number)
    }

    /// That exclusive or for any number of banks: four times the groups above the half are folded into those below.
    fn folded(self, number: u32) -> u32
        ensures is { result ≡ xor_of_groups self.banks 16 number }
        ensures group { result < self.banks }
    {
        let bits = self.bank_bits();
        let folded = number ^ (number >> (8 * bits));
        let folded = folded ^ (folded >> (4 * bits));
        let folded = folded ^ (folded >> (2 * bits));
        (folded ^ (folded >> bits)) & (self.banks - 1)
    }

    /// The base-2 logarithm of the number of banks.
    fn bank_bits(self) -> u32
        ensures power { 2 ^ result ≡ self.banks }
        ensures few { result ≤ 3 }
    {
        self.banks.ilog2()
    }

    /// The base-2 logarithm of the bytes of a block.
    fn block_bits(self) -> u32
        ensures power { 2 ^ result ≡ self.block_bytes }
        ensures few { result < 32 }
    {
        self.block_bytes.ilog2()
    }

    /// The base-2 logarithm of the number of sets.
    fn set_bits(self) -> u32
        ensures power { 2 ^ result ≡ self.sets }
        ensures few { result < 32 }
    {
        self.sets.ilog2()
    }
}

/// The most clients in a version.
fn most_clients(version: u32) -> u32
    ensures { result ≡ most_clients version }
{
    if version == 1 { 8 } else { CLIENTS as u32 }
}

/// The most copies of a client in a bank in a version.
fn most_copies(version: u32) -> u32
    ensures { result ≡ most_copies version }
{
    if version == 1 { 16 } else { COPIES as u32 }
}
