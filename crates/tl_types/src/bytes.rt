//! The bytes of an access and of a block. Contracts see both as lists of numbers below 256.
ghost use Rattle.std.specs.Prelude.{◌≡◌, ◌↔◌, ◌+◌, ◌^◌, ◌<◌, ◌≤◌, IsTrue, IfSome, IsSome, List, ℕ, [], length, slice_range};
ghost use Rattle.tl_types.specs.Bytes.{overwrite, image_bytes};

use crate::limits::{ACCESS_BYTES, BLOCK_BYTES};
use std::marker::Model;

/// The bytes of one access, at most eight.
#[derive(Debug, Drop)]
pub struct AccessBytes {
    bytes: [u8; ACCESS_BYTES],
    len: u32,
}

impl Model for AccessBytes {
    ghost use Rattle.std.specs.Prelude.{List, ℕ, ◌≤◌, take};
    ghost use Rattle.tl_types.specs.declared.limits.TheConstants.{ACCESS_BYTES};

    ghost Value = { List ℕ };

    ghost view = { λ w. take w.len w.bytes };

    ghost invariant = { λ w. w.len ≤ ACCESS_BYTES };
}

impl AccessBytes {
    /// A copy of the bytes.
    pub fn copied(&self) -> AccessBytes
        ensures { result ≡ self.now }
    {
        AccessBytes {
            bytes: self.bytes,
            len: self.len,
        }
    }

    /// No bytes.
    pub fn new() -> AccessBytes
        ensures { result ≡ [] }
    {
        AccessBytes {
            bytes: [0; ACCESS_BYTES],
            len: 0,
        }
    }

    /// These bytes, if they are at most eight.
    pub fn from_slice(bytes: &[u8]) -> Option<AccessBytes>
        ensures some { IsSome result ↔ (length bytes.now ≤ ACCESS_BYTES) }
        ensures bytes { IfSome result (λ w. w ≡ bytes.now) }
    {
        let len = bytes.len();
        if len > ACCESS_BYTES {
            return None;
        }
        let mut kept = [0; ACCESS_BYTES];
        kept[..len].copy_from_slice(bytes);
        Some(AccessBytes {
            bytes: kept,
            len: len as u32,
        })
    }

    /// The bytes, in rising order of address.
    pub fn as_slice(&self) -> &[u8]
        ensures value { result.now ≡ self.now }
        ensures fits { length self.now ≤ ACCESS_BYTES }
    {
        &self.bytes[..self.len as usize]
    }
}

/// The bytes of one block, at most `BLOCK_BYTES`.
#[derive(Debug, Drop)]
pub struct BlockBytes {
    bytes: [u8; BLOCK_BYTES],
    len: u8,
}

impl Model for BlockBytes {
    ghost use Rattle.std.specs.Prelude.{List, ℕ, ◌≤◌, take};
    ghost use Rattle.tl_types.specs.declared.limits.TheConstants.{BLOCK_BYTES};

    ghost Value = { List ℕ };

    ghost view = { λ b. take b.len b.bytes };

    ghost invariant = { λ b. b.len ≤ BLOCK_BYTES };
}

impl BlockBytes {
    /// No bytes.
    pub fn new() -> BlockBytes
        ensures { result ≡ [] }
    {
        BlockBytes {
            bytes: [0; BLOCK_BYTES],
            len: 0,
        }
    }

    /// The bytes, in rising order of address.
    pub fn as_slice(&self) -> &[u8]
        ensures value { result.now ≡ self.now }
        ensures fits { length self.now ≤ BLOCK_BYTES }
    {
        &self.bytes[..self.len as usize]
    }

    /// These bytes, if they are at most `BLOCK_BYTES`.
    pub fn from_slice(bytes: &[u8]) -> Option<BlockBytes>
        ensures some { IsSome result ↔ (length bytes.now ≤ BLOCK_BYTES) }
        ensures bytes { IfSome result (λ b. b ≡ bytes.now) }
    {
        let len = bytes.len();
        if len > BLOCK_BYTES {
            return None;
        }
        let mut kept = [0; BLOCK_BYTES];
        kept[..len].copy_from_slice(bytes);
        Some(BlockBytes {
            bytes: kept,
            len: len as u8,
        })
    }

    /// The `len` bytes of an image from `from` on, 0 past its end.
    pub fn from_image(image: &[u8], from: usize, len: usize) -> BlockBytes
        requires len { len ≤ BLOCK_BYTES }
        requires from { from < 2 ^ 32 }
        ensures { result ≡ image_bytes image.now from len }
    {
        let from = from.min(image.len());
        let to = image.len().min(from + len);
        let mut bytes = [0; BLOCK_BYTES];
        bytes[..to - from].copy_from_slice(&image[from..to]);
        BlockBytes {
            bytes,
            len: len as u8,
        }
    }

    /// A copy of the bytes.
    pub fn copied(&self) -> BlockBytes
        ensures { result ≡ self.now }
    {
        BlockBytes {
            bytes: self.bytes,
            len: self.len,
        }
    }

    /// The `len` bytes from `offset` on, where they are there and at most eight.
    pub fn access_at(&self, offset: u32, len: u32) -> Option<AccessBytes>
        ensures some { IsSome result ↔ ((offset + len ≤ length self.now) × (len ≤ ACCESS_BYTES)) }
        ensures bytes { IfSome result
            (λ access. (access ≡ slice_range self.now offset (offset + len)) × (length access ≡ len)) }
    {
        let from = offset as usize;
        if from + len as usize > self.len as usize || len as usize > ACCESS_BYTES {
            return None;
        }
        if from + ACCESS_BYTES > BLOCK_BYTES {
            return AccessBytes::from_slice(&self.bytes[from..from + len as usize]);
        }
        // Eight bytes are read at once, of which the first `len` count.
        let mut bytes = [0; ACCESS_BYTES];
        bytes.copy_from_slice(&self.bytes[from..from + ACCESS_BYTES]);
        Some(AccessBytes { bytes, len })
    }

    /// Writes `access` over the bytes from `offset` on.
    pub fn overwrite(&mut self, offset: usize, access: &AccessBytes)
        requires { offset + length access.now ≤ BLOCK_BYTES }
        ensures { self.new ≡ overwrite offset access.now self.old }
    {
        let access = access.as_slice();
        let from = offset.min(self.len as usize);
        let to = from + access.len();
        self.bytes[from..to].copy_from_slice(access);
        self.len = self.len.max(to as u8);
    }

    /// Whether the bytes from `offset` on are those of `access`.
    pub fn reads_as(&self, offset: usize, access: &AccessBytes) -> bool
        requires nonempty { 0 < length access.now }
        requires inside { offset ≤ BLOCK_BYTES }
        ensures { IsTrue result ↔ (slice_range self.now offset (offset + length access.now) ≡ access.now) }
    {
        let block = self.as_slice();
        let bytes = access.as_slice();
        if offset + bytes.len() <= block.len() {
            &block[offset..offset + bytes.len()] == bytes
        } else {
            false
        }
    }
}
