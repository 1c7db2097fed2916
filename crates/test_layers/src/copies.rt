//! What no clause says: that what a client holds of a block is answered with its bytes, as it was kept.
use std::alloc::Global;
use std::marker::Model;
use std::test::Fail;
use tl_copies::{Copies, Held};
use tl_map::{Geometry, GeometryNumbers};
use tl_types::{Awaited, BankNo, BlockBytes, BlockNo, ClientId, Perm};

/// One client, with room for one block.
const NUMBERS: GeometryNumbers = GeometryNumbers {
    version: 1,
    clients: 1,
    banks: 1,
    block_bytes: 8,
    sets: 1,
    ways: 1,
    registers: 1,
    copies: 1,
    memory_blocks: 2,
};

/// The client's table. Its model says nothing, so that a test of many calls has their answers alone to carry along.
#[derive(Drop)]
struct OneTable {
    copies: Copies,
}

impl Model for OneTable {
    ghost Value = { Unit {0} };

    ghost view = { λ _. tt };
}

/// The permission, whether the copy is dirty, its first byte, and what is waited for.
type Shown = (Perm, bool, Option<u8>, Awaited);

impl OneTable {
    fn new(alloc: Global) -> Result<OneTable, Fail> {
        let copies = Copies::new(alloc, Geometry::new(NUMBERS)?, BankNo::new(0))?;
        Ok(OneTable { copies })
    }

    /// Keeps a dirty copy of a block, with one byte. Whether there was room.
    fn keep(&mut self, block: u32, byte: u8) -> bool {
        let held = Held {
            perm: Perm::Tip,
            dirty: true,
            bytes: BlockBytes::from_slice(&[byte]).unwrap_or(BlockBytes::new()),
            wait: Awaited::ForReleaseAck,
        };
        self.copies.clients() > 0
            && block < self.copies.blocks()
            && self
                .copies
                .keep(ClientId::new(0), BlockNo::new(block), held)
                .is_ok()
    }

    /// What the client holds of a block.
    fn of(&self, block: u32) -> Option<Shown> {
        if self.copies.clients() == 0 {
            return None;
        }
        let held = self.copies.of(ClientId::new(0), BlockNo::new(block))?;
        let first = held.bytes.as_slice().first().copied();
        Some((held.perm, held.dirty, first, held.wait))
    }
}

/// Whether a first and a second block find room, and what is held of each then.
fn kept(table: &mut OneTable) -> (bool, bool, Option<Shown>, Option<Shown>) {
    (table.keep(0, 7), table.keep(1, 8), table.of(0), table.of(1))
}

#[test]
fn a_kept_copy_is_answered(rt: HostRuntime) -> Result<(), Fail> {
    let mut table = OneTable::new(rt.alloc())?;
    assert_eq!(rt;
        kept(&mut table),
        (
            true,
            false,
            Some((Perm::Tip, true, Some(7), Awaited::ForReleaseAck)),
            None
        )
    );
    Ok(())
}
