//! When an access takes place, and what a load answers.
ghost use Rattle.std.specs.Prelude.{◌≡◌};

use arrayvec::ArrayVec;
use tl_types::AccessBytes;

/// What the client says of an access: its own clock (the last stamp that it got), and the index of the command.
#[derive(Clone, Copy, Debug, PartialEq, Eq)]
pub struct When {
    pub clock: u64,
    pub index: u32,
}

/// What a load answers.
#[derive(Debug, Drop)]
pub struct Loaded {
    /// The bytes, at most eight, in rising order of address.
    pub bytes: ArrayVec<u8, 8>,
    /// The stamp of the access: one more than the greater of the bank's clock and the client's.
    pub stamp: u64,
}

impl Loaded {
    /// Its bytes as those of an access.
    pub fn access(&self) -> AccessBytes
        ensures { result ≡ self.now.bytes.items }
    {
        AccessBytes::from_slice(self.bytes.as_slice()).unwrap()
    }
}
