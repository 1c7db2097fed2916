//! The lines of a record of events before its events.
ghost use Rattle.std.specs.Prelude.{◌≡◌, IfOk, ◌<◌, ◌≤◌, bytes_eq};
ghost use Rattle.std.specs.Option.{option_map};
ghost use Rattle.tl_script_words.specs.Words.{texts};
ghost use Rattle.tlcheck_record.specs.Cause.{Gives};
ghost use Rattle.tlcheck_record.specs.Header.{blocks_in, bytes_in, field_of, head_in, head_of, image_line, image_of, in_range, is_in_range, key_text, order_in, order_named};

use crate::cause::{Cause, LineError};
use crate::words::{read_image, read_number};
use std::alloc::Global;
use tl_rules::Shape;
use tl_script_words::split_words;
use tl_types::{BLOCK_BYTES, BLOCKS};
use tlcheck_rules::ChannelOrder;

/// What the first line of a record says: how many clients and blocks there are and how large a block is, and which
/// order of a channel is asked for.
#[derive(Clone, Copy, Drop)]
pub struct Head {
    pub shape: Shape,
    pub order: ChannelOrder,
}

fn is_in_range(shape: Shape) -> bool
    ensures { result ≡ is_in_range shape }
{
    1 <= shape.clients
        && shape.clients <= 64
        && (shape.block_bytes == 8
            || shape.block_bytes == 16
            || shape.block_bytes == 32
            || shape.block_bytes == 64)
        && 1 <= shape.blocks
        && shape.blocks as usize <= BLOCKS
}

/// The geometry that a line writes, `clients N block_bytes N memory_blocks N`, and the order behind it:
/// `order each_block`, or that of whole channels where there is none. `Wrong` with the cause where it writes none,
/// `Memory` where memory is refused.
pub fn read_head(alloc: Global, line: &str) -> Result<Head, LineError>
    ensures value { Gives (λ x. x) result (head_of line.now) }
    ensures bytes { IfOk result (λ head. (0 < head.shape.block_bytes) × (head.shape.block_bytes ≤ BLOCK_BYTES)) }
    ensures blocks { IfOk result (λ head. head.shape.blocks ≤ BLOCKS) }
{
    let words = split_words(alloc, line)?;
    geometry(&words)
}

/// A key of the geometry.
#[derive(Clone, Copy, Debug, PartialEq, Eq)]
pub enum Key {
    Clients,
    BlockBytes,
    MemoryBlocks,
}

/// Whether a word is this key.
fn is_key(key: Key, word: &str) -> bool
    ensures { result ≡ bytes_eq word.now (key_text key) }
{
    match key {
        Key::Clients => word == "clients",
        Key::BlockBytes => word == "block_bytes",
        Key::MemoryBlocks => word == "memory_blocks",
    }
}

/// The number at a key.
#[tactic(auto, unfolding(crate::specs::Header::field_of))]
fn field(key: Key, word: &str, value: &str) -> Result<u32, LineError>
    ensures { Gives (λ x. x) result (field_of key word.now value.now) }
{
    if is_key(key, word) {
        Ok(read_number(value)?)
    } else {
        Err(LineError::Wrong(Cause::Geometry))
    }
}

/// The order that the words behind the word `order` write.
#[tactic(auto, unfolding(crate::specs::Header::order_named))]
fn order_named(words: &[&str]) -> Result<ChannelOrder, LineError>
    ensures { Gives (λ x. x) result (order_named (texts words.now)) }
{
    match words {
        [] => Err(LineError::Wrong(Cause::Order)),
        [word, rest @ ..] => {
            if *word != "each_block" {
                return Err(LineError::Wrong(Cause::Order));
            }
            if !rest.is_empty() {
                return Err(LineError::Wrong(Cause::MoreWords));
            }
            Ok(ChannelOrder::EachBlock)
        }
    }
}

/// The order that the words behind the geometry write: that of whole channels where there are none.
#[tactic(auto, unfolding(crate::specs::Header::order_in))]
fn order(words: &[&str]) -> Result<ChannelOrder, LineError>
    ensures { Gives (λ x. x) result (order_in (texts words.now)) }
{
    match words {
        [] => Ok(ChannelOrder::Whole),
        [word, rest @ ..] => {
            if *word == "order" {
                order_named(rest)
            } else {
                Err(LineError::Wrong(Cause::MoreWords))
            }
        }
    }
}

/// The geometry, where it is in range.
fn in_range(order: ChannelOrder, shape: Shape) -> Result<Head, LineError>
    ensures value { Gives (λ x. x) result (in_range shape order) }
    ensures bytes { IfOk result (λ head. (0 < head.shape.block_bytes) × (head.shape.block_bytes ≤ BLOCK_BYTES)) }
    ensures blocks { IfOk result (λ head. head.shape.blocks ≤ BLOCKS) }
{
    if is_in_range(shape) {
        Ok(Head { shape, order })
    } else {
        Err(LineError::Wrong(Cause::Range))
    }
}

#[tactic(auto, unfolding(crate::specs::Header::blocks_in))]
fn blocks(clients: u32, block_bytes: u32, words: &[&str]) -> Result<Head, LineError>
    ensures value { Gives (λ x. x) result (blocks_in clients block_bytes (texts words.now)) }
    ensures bytes { IfOk result (λ head. (0 < head.shape.block_bytes) × (head.shape.block_bytes ≤ BLOCK_BYTES)) }
    ensures blocks { IfOk result (λ head. head.shape.blocks ≤ BLOCKS) }
{
    match words {
        [] | [_] => Err(LineError::Wrong(Cause::Geometry)),
        [key, value, rest @ ..] => {
            let blocks = field(Key::MemoryBlocks, key, value)?;
            let order = order(rest)?;
            in_range(
                order,
                Shape {
                    clients,
                    block_bytes,
                    blocks,
                },
            )
        }
    }
}

#[tactic(auto, unfolding(crate::specs::Header::bytes_in))]
fn bytes(clients: u32, words: &[&str]) -> Result<Head, LineError>
    ensures value { Gives (λ x. x) result (bytes_in clients (texts words.now)) }
    ensures bytes { IfOk result (λ head. (0 < head.shape.block_bytes) × (head.shape.block_bytes ≤ BLOCK_BYTES)) }
    ensures blocks { IfOk result (λ head. head.shape.blocks ≤ BLOCKS) }
{
    match words {
        [] | [_] => Err(LineError::Wrong(Cause::Geometry)),
        [key, value, rest @ ..] => {
            let block_bytes = field(Key::BlockBytes, key, value)?;
            blocks(clients, block_bytes, rest)
        }
    }
}

#[tactic(auto, unfolding(crate::specs::Header::head_in))]
fn geometry(words: &[&str]) -> Result<Head, LineError>
    ensures value { Gives (λ x. x) result (head_in (texts words.now)) }
    ensures bytes { IfOk result (λ head. (0 < head.shape.block_bytes) × (head.shape.block_bytes ≤ BLOCK_BYTES)) }
    ensures blocks { IfOk result (λ head. head.shape.blocks ≤ BLOCKS) }
{
    match words {
        [] | [_] => Err(LineError::Wrong(Cause::Geometry)),
        [key, value, rest @ ..] => {
            let clients = field(Key::Clients, key, value)?;
            bytes(clients, rest)
        }
    }
}

/// The image of a memory that a line writes: `image HEX`. None where the first word is another. `Wrong` with the cause
/// where the bytes are none of a memory of this shape, `Memory` where memory is refused.
pub fn read_image_line(
    alloc: Global,
    shape: Shape,
    line: &str,
) -> Result<Option<Vec<u8>>, LineError>
    ensures { Gives (λ x. option_map (λ v. v.items) x) result (image_of shape line.now) }
{
    let words = split_words(alloc, line)?;
    image(alloc, shape, &words)
}

#[tactic(auto, unfolding(crate::specs::Header::image_line))]
fn image(alloc: Global, shape: Shape, words: &[&str]) -> Result<Option<Vec<u8>>, LineError>
    ensures { Gives (λ x. option_map (λ v. v.items) x) result (image_line shape (texts words.now)) }
{
    match words {
        [] => Ok(None),
        [word, rest @ ..] => match *word {
            "image" => Ok(Some(read_image(alloc, shape, rest)?)),
            _ => Ok(None),
        },
    }
}
