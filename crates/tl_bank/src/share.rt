//! A client's share of a bank: how many copies it has there.
ghost use Rattle.std.specs.Prelude.{◌≡◌, ◌+◌, ◌-◌, ◌<◌, ◌^◌, false};
ghost use Rattle.tl_bank_spec.specs.Share.{recounted};
ghost use Rattle.tl_protocol.specs.Protocol.{is_none};

use std::default::Default;
use std::marker::Model;
use tl_types::{BankNo, ClientId, Perm};

/// The number of one client's copies above None in one bank. Only the calls of the bank that take it change it.
#[derive(Debug, Drop)]
pub struct Share {
    client: ClientId,
    bank: BankNo,
    count: u32,
}

impl Model for Share {
    ghost use Rattle.tl_bank_spec.specs.Share.{ShareView};

    ghost Value = { ShareView };

    ghost view = { λ s. record { client = s.client; bank = s.bank; count = s.count } };
}

/// A share of no client and no bank, which stands in an unused place: every bank refuses it.
impl Default for Share {
    ghost is_default = { λ s. s ≡ record { client = 2 ^ 32 - 1; bank = 2 ^ 32 - 1; count = 0 } };

    fn default() -> Share {
        Share::new(ClientId::new(u32::MAX), BankNo::new(u32::MAX))
    }
}

impl Share {
    /// The share of a client that has no copies in a bank.
    pub(crate) fn new(client: ClientId, bank: BankNo) -> Share
        ensures { result ≡ record { client = client; bank = bank; count = 0 } }
    {
        Share {
            client,
            bank,
            count: 0,
        }
    }

    /// The client.
    pub fn client(&self) -> ClientId
        ensures { result ≡ self.now.client }
    {
        self.client
    }

    /// The bank.
    pub fn bank(&self) -> BankNo
        ensures { result ≡ self.now.bank }
    {
        self.bank
    }

    /// How many copies the client has in the bank.
    pub fn count(&self) -> u32
        ensures { result ≡ self.now.count }
    {
        self.count
    }

    /// Counts a copy that went from one permission to another.
    pub(crate) fn recount(&mut self, before: Perm, later: Perm)
        requires counted { is_none before ≡ false → 0 < self.old.count }
        requires few { self.old.count < 2 ^ 31 }
        ensures { self.new ≡ recounted before later self.old }
    {
        match (before, later) {
            (Perm::None, Perm::None) => {}
            (Perm::None, _) => self.count += 1,
            (_, Perm::None) => self.count -= 1,
            (_, _) => {}
        }
    }
}
