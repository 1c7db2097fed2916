//! What no clause says: that a whole memory is made with ample room, and a Put and a Get of blocks of each size. A bank
//! makes its part of a memory.
use std::alloc::Global;
use std::marker::Model;
use std::test::Fail;
use tl_map::{Geometry, GeometryNumbers};
use tl_memory::{Burst, Memory, Reply, Request};

/// A geometry of four blocks.
fn four_blocks(block_bytes: i64) -> Result<Geometry, Fail> {
    Ok(Geometry::new(GeometryNumbers {
        version: 1,
        clients: 1,
        banks: 1,
        block_bytes,
        sets: 1,
        ways: 1,
        registers: 1,
        copies: 1,
        memory_blocks: 4,
    })?)
}

/// The first byte of a block, its last one, and how many it has.
type Ends = (u8, u8, usize);

/// Beats with the bytes 0x80, 0x81 and so on.
fn counted(beats: u8) -> Burst {
    let mut burst = Burst::new();
    for i in 0..beats {
        if burst.beats() < 8 && i < 8 {
            let first = 0x80 + 8 * i;
            burst.push_beat([
                first,
                first + 1,
                first + 2,
                first + 3,
                first + 4,
                first + 5,
                first + 6,
                first + 7,
            ]);
        }
    }
    burst
}

/// The first byte of the first beat, the last one of the last beat, and how many bytes there are.
fn ends(burst: &Burst) -> Option<Ends> {
    let last = burst.beats().checked_sub(1)?;
    let (first, last) = (burst.beat(0), burst.beat(last));
    Some((first[0], last[7], burst.block().as_slice().len()))
}

/// A memory. Its model says nothing, so that a test of many calls has their answers alone to carry along.
#[derive(Drop)]
struct Blocks {
    memory: Memory,
}

impl Model for Blocks {
    ghost Value = { Unit {0} };

    ghost view = { λ _. tt };
}

impl Blocks {
    /// The whole memory of four blocks.
    fn new(alloc: Global, block_bytes: u32, image: &[u8]) -> Result<Blocks, Fail> {
        let geometry = four_blocks(i64::from(block_bytes))?;
        let bytes = geometry.memory_bytes();
        if bytes != block_bytes.saturating_mul(4) || image.len() > bytes as usize {
            return Err("another memory".into());
        }
        Ok(Blocks {
            memory: Memory::new(alloc, geometry, image)?,
        })
    }

    /// Serves a Put of these beats at an address. Whether it has the block, and acknowledges its size.
    fn put(&mut self, size: u32, address: u32, burst: Burst) -> bool {
        let request = Request::Put {
            size,
            address,
            burst,
        };
        if !self.memory.has(&request) {
            return false;
        }
        match self.memory.serve(request) {
            Reply::AccessAck { size: answered } => answered == size,
            _ => false,
        }
    }

    /// The first and the last byte of the block at an address, and how many bytes it has. `None` where it has no such
    /// block, or answers otherwise.
    fn get(&mut self, size: u32, address: u32) -> Option<Ends> {
        let request = Request::Get { size, address };
        if !self.memory.has(&request) {
            return None;
        }
        match self.memory.serve(request) {
            Reply::AccessAckData {
                size: answered,
                burst,
            } if answered == size => { ends(&burst) }
            _ => None,
        }
    }
}

/// Whether a block of a memory was put, and what blocks 2, 0 and 3 hold then: the first of these is that block.
type AfterPut = (bool, [Option<Ends>; 3]);

/// The same of a memory with blocks of a size.
fn blocks_after_put(alloc: Global, size: u32, bytes: u32, beats: u8) -> Result<AfterPut, Fail> {
    let mut blocks = Blocks::new(alloc, bytes, &[1, 2, 3, 4, 5, 6, 7, 8, 9])?;
    let was_put = blocks.put(size, bytes.saturating_mul(2), counted(beats));
    let held = [
        blocks.get(size, bytes.saturating_mul(2)),
        blocks.get(size, 0),
        blocks.get(size, bytes.saturating_mul(3)),
    ];
    Ok((was_put, held))
}

/// Sizes of blocks, their bytes and beats, the last byte that is put, and the last one of block 0.
const SIZES: &[(u32, u32, u8, u8, u8)] = &[
    (3, 8, 1, 0x87, 8),
    (4, 16, 2, 0x8f, 0),
    (5, 32, 4, 0x9f, 0),
    (6, 64, 8, 0xbf, 0),
];

#[test]
fn a_put_is_read_back(rt: HostRuntime) -> Result<(), Fail> {
    for (size, bytes, beats, last, rest) in SIZES {
        let len = *bytes as usize;
        assert_eq!(rt;
            blocks_after_put(rt.alloc(), *size, *bytes, *beats)?,
            (
                true,
                [
                    Some((0x80, *last, len)),
                    Some((1, *rest, len)),
                    Some((0, 0, len))
                ]
            )
        );
    }
    Ok(())
}
