//! The bytes of a bank's memory.
ghost use Rattle.std.specs.Prelude.{◌≡◌, ◌<◌, IfOk};
ghost use Rattle.tl_bank_rest.specs.Image.{bytes_in_memory, image_of};

use std::alloc::{AllocError, Global};
use tl_bank::Bank;
use tl_types::{BlockBytes, BlockNo};

/// The bytes of the memory, as long as it is: of each block of the bank those that its memory has, of a block of
/// another bank those of the image that the bank was made over. After `flush` they are the bytes last stored, so a
/// new bank over them goes on where this one stopped. What it does not have of this one is the log, the clock, the
/// tickets' serials and the order of the ways in each set.
///
/// The error is want of memory for them.
pub fn image_of(bank: &Bank, alloc: Global) -> Result<Vec<u8>, AllocError>
    ensures { IfOk result (λ bytes. bytes.items ≡ image_of bank.now) }
{
    let geometry = bank.geometry();
    let mut bytes = Vec::with_capacity(alloc, geometry.memory_bytes() as usize)?;
    for number in 0..geometry.memory_blocks() {
        let block = in_memory(bank, BlockNo::new(number));
        bytes.extend_from_slice(block.as_slice())?;
    }
    Ok(bytes)
}

/// The bytes of a block in the memory, or of another bank's block in the image.
fn in_memory(bank: &Bank, block: BlockNo) -> BlockBytes
    requires { block < bank.now.geometry.memory_blocks }
    ensures { result ≡ bytes_in_memory bank.now block }
{
    if let Some(bytes) = bank.memory(block) {
        return bytes;
    }
    let size = bank.geometry().block_bytes();
    let number = block.number();
    let start = number * size;
    BlockBytes::from_image(bank.image(), start as usize, size as usize)
}
