//! The messages between home and the memory, and the size that they give (TileLink 1.8, section 7).

ghost use Rattle.std.specs.Prelude.{◌≡◌, ◌^◌, Some, decimal};
ghost use Rattle.tl_text.specs.Memory.{bytes_of_size, log_of_size, memory_kind, operands_text};

use std::fmt;
use tl_map::Geometry;
use tl_script_words::{Address, Hex};
use tl_types::{BlockBytes, Kind};

/// The size of a block: 8, 16, 32 or 64 bytes. It prints as the base-2 logarithm of its bytes.
#[derive(Clone, Copy, Debug, PartialEq, Eq)]
pub enum BlockSize {
    Bytes8,
    Bytes16,
    Bytes32,
    Bytes64,
}

impl BlockSize {
    /// The size of a geometry's blocks.
    pub fn of(geometry: Geometry) -> BlockSize
        ensures { bytes_of_size result ≡ geometry.block_bytes }
    {
        match geometry.block_bytes() {
            8 => BlockSize::Bytes8,
            16 => BlockSize::Bytes16,
            32 => BlockSize::Bytes32,
            _ => BlockSize::Bytes64,
        }
    }

    /// The base-2 logarithm of the block's bytes.
    pub fn log2(self) -> u32
        ensures value { result ≡ log_of_size self }
        ensures power { 2 ^ result ≡ bytes_of_size self }
    {
        match self {
            BlockSize::Bytes8 => 3,
            BlockSize::Bytes16 => 4,
            BlockSize::Bytes32 => 5,
            BlockSize::Bytes64 => 6,
        }
    }
}

impl fmt::Display for BlockSize {
    ghost output = { λ size. Some (decimal (log_of_size size)) };

    fn fmt<W: fmt::Write>(&self, f: &mut fmt::Formatter<W>) -> fmt::Result {
        let log = self.log2();
        write!(f, "{log}")
    }
}

/// A message between home and the memory about one block, with the address of the block's first byte where it names one
/// and the block's bytes where it carries them.
#[derive(Debug, Drop)]
pub enum MemoryMessage {
    /// Home asks for the block's bytes.
    Get { address: u32 },
    /// Home writes the block's bytes.
    PutFullData { address: u32, bytes: BlockBytes },
    /// The memory answers a Get.
    AccessAckData { bytes: BlockBytes },
    /// The memory answers a PutFullData.
    AccessAck,
}

impl MemoryMessage {
    /// Its kind.
    pub fn kind(&self) -> Kind
        ensures { result ≡ memory_kind self.now }
    {
        match self {
            MemoryMessage::Get { address: _ } => Kind::Get,
            MemoryMessage::PutFullData {
                address: _,
                bytes: _,
            } => Kind::PutFullData,
            MemoryMessage::AccessAckData { bytes: _ } => Kind::AccessAckData,
            MemoryMessage::AccessAck => Kind::AccessAck,
        }
    }
}

/// What follows the size of a message: its address and its bytes, as far as it has them, with a space before each.
#[derive(Clone, Copy)]
pub(crate) struct Operands<'a>(pub(crate) &'a MemoryMessage);

impl fmt::Display for Operands<'_> {
    ghost output = { λ o. Some (operands_text o.0.now) };

    fn fmt<W: fmt::Write>(&self, f: &mut fmt::Formatter<W>) -> fmt::Result {
        match self.0 {
            MemoryMessage::Get { address } => write!(f, " {}", Address(*address)),
            MemoryMessage::PutFullData { address, bytes } => {
                write!(f, " {} {}", Address(*address), Hex(bytes.as_slice()))
            }
            MemoryMessage::AccessAckData { bytes } => write!(f, " {}", Hex(bytes.as_slice())),
            MemoryMessage::AccessAck => Ok(()),
        }
    }
}
