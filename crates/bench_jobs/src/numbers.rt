//! Numbers that look random, the same for each seed, and a digest of bytes.
ghost use Rattle.std.specs.Prelude.{◌<◌};

/// Numbers from a seed, by splitmix64 (Steele, Lea and Flood, 2014).
#[derive(Drop)]
pub(crate) struct Numbers {
    state: u64,
}

impl Numbers {
    pub(crate) fn new(seed: u32) -> Numbers {
        Numbers {
            state: u64::from(seed).wrapping_mul(0xd134_2543_de82_ef95),
        }
    }

    /// The next 64 bits.
    pub(crate) fn next(&mut self) -> u64 {
        self.state = self.state.wrapping_add(0x9e37_79b9_7f4a_7c15);
        let one = (self.state ^ (self.state >> 30)).wrapping_mul(0xbf58_476d_1ce4_e5b9);
        let two = (one ^ (one >> 27)).wrapping_mul(0x94d0_49bb_1331_11eb);
        two ^ (two >> 31)
    }

    /// The next number below a limit.
    pub(crate) fn below(&mut self, limit: u32) -> u32
        requires { 0 < limit }
        ensures { result < limit }
    {
        (self.next() % u64::from(limit)) as u32
    }
}

/// A digest of results so far (FNV-1a, of 64 bits), and the last digits of their statuses.
#[derive(Clone, Copy, Debug, PartialEq, Eq)]
pub(crate) struct Digest {
    pub(crate) key: u64,
    pub(crate) statuses: u64,
}

impl Digest {
    pub(crate) fn new() -> Digest {
        Digest {
            key: 0xcbf2_9ce4_8422_2325,
            statuses: 0,
        }
    }

    /// The digest with a number more.
    pub(crate) fn with(self, number: u64) -> Digest {
        Digest {
            key: (self.key ^ number).wrapping_mul(0x0000_0100_0000_01b3),
            statuses: self.statuses,
        }
    }

    /// The digest with a status more.
    pub(crate) fn with_status(self, status: u8) -> Digest {
        let statuses = self
            .statuses
            .wrapping_mul(10)
            .wrapping_add(u64::from(status));
        Digest {
            key: self.key,
            statuses,
        }
        .with(u64::from(status))
    }

    /// The digest with that of what comes next.
    pub(crate) fn and(self, next: Digest) -> Digest {
        Digest {
            key: self.with(next.key).key,
            statuses: self
                .statuses
                .wrapping_mul(100_000_000)
                .wrapping_add(next.statuses),
        }
    }

    /// The digest with more bytes.
    pub(crate) fn with_bytes(self, bytes: &[u8]) -> Digest {
        let mut digest = self;
        for byte in bytes {
            digest = digest.with(u64::from(*byte));
        }
        digest
    }
}
