//! The data of one message in beats of eight bytes (TileLink 1.8, section 4.1).
ghost use Rattle.std.specs.Prelude.{◌≡◌, ◌*◌, ◌%◌, ◌<◌, ◌≤◌, ◌++◌, [], length};
ghost use Rattle.std.specs.Fork.{slice_chunk};

use std::marker::Model;
use tl_types::{AccessBytes, BLOCK_BYTES, BlockBytes};

/// The bytes of a beat.
const BEAT: usize = 8;

/// The bytes of a block in at most eight beats: beat i carries bytes 8i to 8i + 7. The beats lie side by side, as the
/// block's bytes do, so that a burst is moved whole. Contracts see the bytes of all beats joined.
#[derive(Debug, Drop)]
pub struct Burst {
    bytes: BlockBytes,
}

impl Model for Burst {
    ghost use Rattle.std.specs.Prelude.{◌≡◌, ◌%◌, List, ℕ, length};

    ghost Value = { List ℕ };

    ghost view = { λ b. b.bytes };

    ghost invariant = { λ b. length b.bytes % 8 ≡ 0 };
}

impl Burst {
    /// No beats.
    pub fn new() -> Burst
        ensures { result ≡ [] }
    {
        Burst {
            bytes: BlockBytes::new(),
        }
    }

    /// The beats of a block whose bytes fill them.
    pub fn of_block(block: BlockBytes) -> Burst
        requires { length block % 8 ≡ 0 }
        ensures { result ≡ block }
    {
        Burst { bytes: block }
    }

    /// How many beats there are.
    pub fn beats(&self) -> usize
        ensures count { result * 8 ≡ length self.now }
        ensures few { result ≤ 8 }
    {
        self.bytes.as_slice().len() / BEAT
    }

    /// The bytes of a beat.
    pub fn beat(&self, index: usize) -> [u8; 8]
        requires { index * 8 < length self.now }
        ensures { result ≡ slice_chunk self.now 8 index }
    {
        let bytes = self.bytes.as_slice();
        let from = index * BEAT;
        let mut beat = [0; BEAT];
        beat.copy_from_slice(&bytes[from..from + BEAT]);
        beat
    }

    /// Puts a beat behind the others, of which there are fewer than eight.
    pub fn push_beat(&mut self, beat: [u8; 8])
        requires { length self.old < BLOCK_BYTES }
        ensures { self.new ≡ self.old ++ beat }
    {
        let len = self.bytes.as_slice().len();
        let beat = AccessBytes::from_slice(&beat).unwrap();
        self.bytes.overwrite(len, &beat);
    }

    /// The beats joined.
    pub fn block(&self) -> BlockBytes
        ensures value { result ≡ self.now }
        ensures whole { length self.now % 8 ≡ 0 }
    {
        self.bytes.copied()
    }

    /// The beats joined, to look at.
    pub fn as_block(&self) -> &BlockBytes
        ensures value { result.now ≡ self.now }
        ensures whole { length self.now % 8 ≡ 0 }
    {
        &self.bytes
    }
}
