//! A judge in a room of a caller in C: open, or closed for a reason.
ghost use Rattle.std.specs.Prelude.{◌≡◌, None};
ghost use Rattle.tlcheck_embed.specs.Opens.{OpensJudge, OpensOver, SeesRoom, closed, numbers_refusal, order_of, shape_of, shape_refusal};

use crate::bench::Bench;
use crate::entry::BenchEntry;
use crate::verdict::Verdict;
use std::alloc::Global;
use tl_rules::Shape;
use tlcheck_rules::ChannelOrder;

/// The numbers of a judge.
#[repr(C)]
#[derive(Clone, Copy, Drop)]
pub struct JudgeNumbers {
    /// How many clients there are: 1 to 64.
    pub clients: u32,
    /// How many bytes a block has: 8, 16, 32 or 64.
    pub block_bytes: u32,
    /// How many blocks the memory has: 1 to 65,536.
    pub memory_blocks: u32,
    /// The order of a channel that is asked for: 0 that of the whole channel, 1 that of each block alone.
    pub order: u32,
}

/// A judge, until it is closed.
#[derive(Drop)]
pub struct JudgeRoom {
    /// 0 where it was opened; else why it is closed: 20, 22, 27, 17, 10 or 14 as `opened` says, 18 by its caller.
    pub status: u32,
    /// The judge, where it is open.
    pub bench: Option<Bench>,
}

/// A judge at reset over an image; one that is closed where a number is not lawful (20 clients, 22 block bytes, 27
/// memory blocks, 17 the order), the image is longer than the memory (10) or there is no memory (14).
pub fn opened(alloc: Global, numbers: &JudgeNumbers, image: &[u8]) -> JudgeRoom
    ensures { OpensJudge numbers.now image.now result }
{
    match numbers_refusal(numbers) {
        Some(status) => closed(status),
        None => opened_over(alloc, numbers, image),
    }
}

/// The same where the numbers are lawful.
fn opened_over(alloc: Global, numbers: &JudgeNumbers, image: &[u8]) -> JudgeRoom
    requires { numbers_refusal numbers.now ≡ None }
    ensures { OpensOver numbers.now image.now result }
{
    let bytes = numbers.block_bytes as usize * numbers.memory_blocks as usize;
    if image.len() > bytes {
        return closed(10);
    }
    match Bench::new(alloc, order_of(numbers), shape_of(numbers), image) {
        Ok(bench) => JudgeRoom {
            status: 0,
            bench: Some(bench),
        },
        Err(_) => closed(14),
    }
}

/// The order of a channel that is asked for.
fn order_of(numbers: &JudgeNumbers) -> ChannelOrder
    ensures { result ≡ order_of numbers.now }
{
    if numbers.order == 0 {
        ChannelOrder::Whole
    } else {
        ChannelOrder::EachBlock
    }
}

/// The status of the first number that is not lawful: 20 clients, 22 block bytes, 27 memory blocks, 17 the order.
fn numbers_refusal(numbers: &JudgeNumbers) -> Option<u32>
    ensures { result ≡ numbers_refusal numbers.now }
{
    match shape_refusal(numbers) {
        Some(status) => Some(status),
        None if numbers.order > 1 => Some(17),
        None => None,
    }
}

/// The shape with these numbers.
pub fn shape_of(numbers: &JudgeNumbers) -> Shape
    ensures { result ≡ shape_of numbers.now }
{
    Shape {
        clients: numbers.clients,
        block_bytes: numbers.block_bytes,
        blocks: numbers.memory_blocks,
    }
}

/// The status of the first number of the shape that is not lawful: 20 clients, 22 block bytes, 27 memory blocks.
pub fn shape_refusal(numbers: &JudgeNumbers) -> Option<u32>
    ensures { result ≡ shape_refusal numbers.now }
{
    if numbers.clients == 0 || numbers.clients > 64 {
        return Some(20);
    }
    if numbers.block_bytes != 8
        && numbers.block_bytes != 16
        && numbers.block_bytes != 32
        && numbers.block_bytes != 64
    {
        return Some(22);
    }
    if numbers.memory_blocks == 0 || numbers.memory_blocks > 65_536 {
        return Some(27);
    }
    None
}

fn closed(status: u32) -> JudgeRoom
    ensures { result ≡ closed status }
{
    JudgeRoom {
        status,
        bench: None,
    }
}

/// Hands an entry to a judge. The event 255 closes it.
pub fn see(room: &mut JudgeRoom, seen: &BenchEntry) -> Verdict
    ensures { SeesRoom room.old seen.now room.new result }
{
    match &mut room.bench {
        None => Verdict {
            why: room.status,
            ..Verdict::only(18)
        },
        Some(bench) => {
            if seen.event != 255 {
                return bench.see(seen);
            }
            close(room);
            Verdict::only(0)
        }
    }
}

/// Closes a judge.
fn close(room: &mut JudgeRoom)
    ensures { room.new ≡ closed 18 }
{
    *room = closed(18);
}
