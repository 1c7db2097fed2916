//! What a bank shows of its miss registers, and of what lies in the ways of its sets. No view takes memory.
ghost use Rattle.std.specs.Prelude.{◌≡◌, ◌≤◌, ℕ, length, true};
ghost use Rattle.tl_registers.specs.Agree.{Agree};
ghost use Rattle.tl_registers.specs.Registers.{is_busy};
ghost use Rattle.tl_bank.specs.Contents.{next_at, slot_shown};
ghost use Rattle.tl_bank_spec.specs.Own.{IsOwn};
ghost use Rattle.tl_bank_spec.specs.View.{end_at, shape_of};

use crate::bank::Bank;
use tl_map::Set;
use tl_registers::{BlockView, Due, Register};
use tl_types::BlockNo;
use tl_ways::Way;

impl Bank {
    /// The open miss registers, the oldest first, no more than the geometry has. They agree with what the bank holds:
    /// whom each has probed, and what it waits for; no two work on one block, and all work on blocks of this bank.
    pub fn registers(&self) -> &[Register]
        ensures is { result.now ≡ self.now.registers }
        ensures agree { Agree (shape_of self.now.geometry) (end_at self.now) self.now.registers }
        ensures few { length self.now.registers ≤ self.now.geometry.registers }
        ensures own { (block : ℕ) → is_busy block self.now.registers ≡ true
            → IsOwn self.now.geometry self.now.number block }
    {
        self.registers.as_slice()
    }

    /// What the miss register of a block does next: None where it waits, and where the block is no register's own. None
    /// also where the block is not of the memory or of another bank.
    pub fn next_of(&self, block: BlockNo) -> Option<Due>
        ensures { result ≡ next_at self.now block }
    {
        if self.is_not_own(block) {
            return None;
        }
        let view = BlockView { block, view: self };
        self.registers.next_action(&view)
    }

    /// The block that lies in a way of a set, where one does. None also where there is no such set or way.
    pub fn occupant(&self, set: Set, way: Way) -> Option<BlockNo>
        ensures { result ≡ slot_shown self.now set way }
    {
        if set.number() >= self.geometry.sets() || way.number() >= self.geometry.ways() {
            return None;
        }
        self.block_in(set, way)
    }
}
