//! Why a call of a bank was refused.
ghost use Rattle.std.specs.Prelude.{◌≡◌, Some, decimal};
ghost use Rattle.tl_bank_spec.specs.Refusal.{refusal_number};

use std::error::Error;
use std::fmt;

/// Why a call of a bank was refused. It prints as its number. After a refusal the bank and the shares are as before.
#[derive(Clone, Copy, Debug, PartialEq, Eq)]
pub enum Refusal {
    /// A load below Branch, or a store below Tip.
    NoPermission = 1,
    /// An Acquire or a Release of the block by the client is unanswered.
    Waiting = 2,
    /// The grow or prune value does not start from the copy's permission.
    WrongFrom = 3,
    /// The channel is empty, or nothing of the kind is outward for the block.
    NothingThere = 4,
    /// The ticket names another channel, or not the channel's first message, or that is of another kind.
    NotHead = 5,
    /// A Probe is answered before the ReleaseAck was taken.
    ReleasePending = 6,
    /// All registers are in use, or every way of the set is held by a register.
    NoRegister = 7,
    /// The block is the own block or the victim of an open register.
    BlockBusy = 8,
    /// The block is no register's own, or its register has nothing to do now; or home does not hold the block to evict.
    NotYet = 9,
    /// A client, block, address or length that is not there, or a share that does not fit.
    OutOfRange = 10,
    /// The address, block, ticket or share belongs to another bank.
    WrongBank = 11,
    /// The client's table of copies is full and has no entry of the block.
    CopiesFull = 12,
    /// `MESSAGES` messages are on the channel that the call sends on.
    LinkFull = 13,
    /// The log could not grow.
    Memory = 14,
    /// The clocks stand at their end.
    ClockFull = 15,
}

impl Refusal {
    /// The number that it prints as.
    pub fn number(self) -> u8
        ensures { result ≡ refusal_number self }
    {
        self as u8
    }
}

impl fmt::Display for Refusal {
    ghost output = { λ r. Some (decimal (refusal_number r)) };

    fn fmt<W: fmt::Write>(&self, f: &mut fmt::Formatter<W>) -> fmt::Result {
        let number = self.number();
        write!(f, "{number}")
    }
}

impl Error for Refusal {}
