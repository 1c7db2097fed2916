//! Where a script's clients meet.
use crate::dice::Dice;
use crate::request::Request;
use tl_map::Geometry;
use tl_types::{BlockNo, ClientId};

/// The blocks that a script speaks of: so few that clients share them, and where their stride is that of a set, that
/// they drive each other out.
#[derive(Drop)]
pub(crate) struct Spots {
    geometry: Geometry,
    first: u32,
    stride: u32,
    count: u32,
}

impl Spots {
    /// As many as are asked for, else 1 to 8.
    pub(crate) fn new(dice: &mut Dice, request: &Request<'_>, geometry: Geometry) -> Spots {
        let stride = match dice.below(2) {
            0 => 1,
            _ => geometry.banks().saturating_mul(geometry.sets()),
        };
        Spots {
            geometry,
            first: dice.below(geometry.memory_blocks()),
            stride,
            count: request.number("spots").unwrap_or(1 + dice.below(8)),
        }
    }

    /// One of the blocks.
    pub(crate) fn block(&self, dice: &mut Dice) -> BlockNo {
        let far = self.stride.wrapping_mul(dice.below(self.count));
        let number = self.first.wrapping_add(far);
        BlockNo::new(
            number
                .checked_rem(self.geometry.memory_blocks())
                .unwrap_or(0),
        )
    }

    /// An address in one of the blocks, from which on so many bytes lie in that block.
    pub(crate) fn address(&self, dice: &mut Dice, len: u32) -> u32 {
        let block_bytes = self.geometry.block_bytes();
        let offset = dice.below(block_bytes.saturating_sub(len).saturating_add(1));
        let block = self.block(dice).number();
        block.saturating_mul(block_bytes).saturating_add(offset)
    }

    /// A client, now and then the one behind the last.
    pub(crate) fn client(&self, dice: &mut Dice) -> ClientId {
        let clients = self.geometry.clients();
        let stray = if dice.below(32) == 0 { 1 } else { 0 };
        ClientId::new(dice.below(clients.saturating_add(stray)))
    }
}
