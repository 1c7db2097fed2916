//! One bank, call by call, in one thread.

use crate::numbers::{Digest, Numbers};
use crate::session::{Session, Sizes};
use std::alloc::{AllocError, Global};

/// Blocks that wander among all clients, of which few are hot.
const WIDE: Sizes = Sizes {
    clients: 16,
    blocks: 4_096,
    hot: 96,
    block_bytes: 64,
    sets: 16,
    ways: 4,
    registers: 8,
    copies: 32,
};

/// All clients on the blocks of one set of two ways with one register.
const NARROW: Sizes = Sizes {
    clients: 16,
    blocks: 16,
    hot: 4,
    block_bytes: 64,
    sets: 1,
    ways: 2,
    registers: 1,
    copies: 4,
};

fn drive(session: &mut Session, seed: u32, steps: u32) -> Result<(), AllocError> {
    let mut numbers = Numbers::new(seed);
    for _ in 0..steps {
        session.forget_if_full();
        session.step(&mut numbers)?;
    }
    Ok(())
}

/// Drives a bank of a size so many steps; its log is forgotten where it has no room.
fn run_bank(alloc: Global, seed: u32, sizes: Sizes, steps: u32) -> Result<Digest, AllocError> {
    let Some(mut session) = Session::new(alloc, sizes, None) else {
        return Ok(Digest::new());
    };
    session.reserve(100_000);
    drive(&mut session, seed, steps)?;
    Ok(session.digest())
}

/// Drives a bank of each size.
pub(crate) fn run_banks(alloc: Global, seed: u32, steps: u32) -> Result<Digest, AllocError> {
    let wide = run_bank(alloc, seed, WIDE, steps)?;
    let narrow = run_bank(alloc, seed, NARROW, steps / 2)?;
    Ok(wide.and(narrow))
}
