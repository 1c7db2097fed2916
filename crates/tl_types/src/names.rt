//! Names: numbers that stand for a client, a bank or a block.
ghost use Rattle.std.specs.Prelude.{◌≡◌, ℕ, Some, decimal};

use std::default::Default;
use std::fmt;
use std::marker::Model;

/// A client core, by its number.
#[derive(Clone, Debug, PartialEq, Eq)]
pub struct ClientId {
    number: u32,
}

impl Model for ClientId {
    ghost Value = { ℕ };

    ghost view = { λ c. c.number };

    ghost inverse = { λ n. record { number = n } };
}

impl Copy for ClientId {}

impl ClientId {
    /// The client with this number.
    pub fn new(number: u32) -> ClientId
        ensures { result ≡ number }
    {
        ClientId { number }
    }

    /// The client's number.
    pub fn number(self) -> u32
        ensures { result ≡ self }
    {
        self.number
    }

    /// The client's place in a list of all clients.
    pub fn index(self) -> usize
        ensures { result ≡ self }
    {
        self.number as usize
    }
}

impl fmt::Display for ClientId {
    ghost output = { λ c. Some (decimal c) };

    fn fmt<W: fmt::Write>(&self, f: &mut fmt::Formatter<W>) -> fmt::Result {
        let number = self.number;
        write!(f, "{number}")
    }
}

/// A bank of the cache, by its number.
#[derive(Clone, Debug, PartialEq, Eq)]
pub struct BankNo {
    number: u32,
}

impl Model for BankNo {
    ghost Value = { ℕ };

    ghost view = { λ b. b.number };

    ghost inverse = { λ n. record { number = n } };
}

impl Copy for BankNo {}

impl BankNo {
    /// The bank with this number.
    pub fn new(number: u32) -> BankNo
        ensures { result ≡ number }
    {
        BankNo { number }
    }

    /// The bank's number.
    pub fn number(self) -> u32
        ensures { result ≡ self }
    {
        self.number
    }

    /// The bank's place in a list of all banks.
    pub fn index(self) -> usize
        ensures { result ≡ self }
    {
        self.number as usize
    }
}

impl fmt::Display for BankNo {
    ghost output = { λ b. Some (decimal b) };

    fn fmt<W: fmt::Write>(&self, f: &mut fmt::Formatter<W>) -> fmt::Result {
        let number = self.number;
        write!(f, "{number}")
    }
}

/// A block of memory, by its number: its address in bytes divided by the size of a block.
#[derive(Clone, Debug, PartialEq, Eq)]
pub struct BlockNo {
    number: u32,
}

impl Model for BlockNo {
    ghost Value = { ℕ };

    ghost view = { λ b. b.number };

    ghost inverse = { λ n. record { number = n } };
}

impl Default for BlockNo {
    /// Block 0.
    fn default() -> BlockNo {
        BlockNo { number: 0 }
    }
}

impl Copy for BlockNo {}

impl BlockNo {
    /// The block with this number.
    pub fn new(number: u32) -> BlockNo
        ensures { result ≡ number }
    {
        BlockNo { number }
    }

    /// The block's number.
    pub fn number(self) -> u32
        ensures { result ≡ self }
    {
        self.number
    }

    /// The block's place in a list of all blocks of the memory.
    pub fn index(self) -> usize
        ensures { result ≡ self }
    {
        self.number as usize
    }
}

impl fmt::Display for BlockNo {
    ghost output = { λ b. Some (decimal b) };

    fn fmt<W: fmt::Write>(&self, f: &mut fmt::Formatter<W>) -> fmt::Result {
        let number = self.number;
        write!(f, "{number}")
    }
}
