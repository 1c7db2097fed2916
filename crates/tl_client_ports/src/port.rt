//! The calls through which a client's agent and a bank's home reach the banks.
ghost use Rattle.std.specs.Prelude.{◌≡◌, ◌++◌, ◌∷◌, [], List, MatchResult};
ghost use Rattle.tl_client_ports.specs.Ports.{Asks};
ghost use Rattle.tl_client_ports.specs.declared.port.Asked.{Asked};
ghost use Rattle.tl_client_ports.specs.declared.port.Success.{Success};
ghost use Rattle.tl_client_ports.specs.declared.port.Success.TheVariants.{Loaded as WasLoaded, Stored as WasStored};

use arrayvec::ArrayVec;
use tl_bank::{Action, Loaded, Refusal, Reply, Share, When};
use tl_types::{AccessBytes, BankNo, BlockNo, ClientId, Grow, Perm, Prune, Ticket};

/// A load or a store that succeeded at a port: what was asked, when, and the stamp that the bank gave it.
#[derive(Debug, Drop)]
pub enum Success {
    /// `len` bytes were asked for from an address on, and these were read.
    Loaded {
        client: ClientId,
        address: u32,
        len: usize,
        bytes: AccessBytes,
        when: When,
        stamp: u64,
    },
    /// These bytes were written from an address on.
    Stored {
        client: ClientId,
        address: u32,
        bytes: AccessBytes,
        when: When,
        stamp: u64,
    },
}

/// A call that asked a ticket, and whether it served it.
#[derive(Clone, Copy, Debug, PartialEq, Eq)]
pub struct Asked {
    pub ticket: Ticket,
    pub served: bool,
}

/// The own blocks of open registers, by rising number, and what the first one's register did.
#[derive(Drop)]
pub struct FirstStep {
    pub open: ArrayVec<BlockNo, 8>,
    pub answer: Option<Result<Action, Refusal>>,
}

/// A client's calls of the banks. `asked` is the list of the tickets that were asked in a turn, in order, each with
/// whether the call served it.
///
/// The calls have the meanings and the refusals of the bank's calls of the same names (`tl_bank::Bank`), and a port may
/// refuse any of them for `Memory`. A refused call adds no success.
pub trait Port {
    ghost successes: { Self → List Success };

    ghost asked: { Self → List Asked };

    /// A turn begins, in which nothing was asked yet.
    fn begin(&mut self)
        ensures asked { asked self.new ≡ [] }
        ensures successes { successes self.new ≡ successes self.old };

    /// The loads and stores that succeeded at this port, oldest first. The port stores them.
    fn successes(&self) -> &[Success]
        ensures { result.now ≡ successes self.now };

    /// Reads `len` bytes of a client's copy, from an address on, and stores that as a success. The errors are those of
    /// `Bank::load`.
    fn load(
        &mut self,
        client: ClientId,
        address: u32,
        len: usize,
        when: When,
    ) -> Result<Loaded, Refusal>
        ensures successes { MatchResult result
            (λ loaded. successes self.new
            ≡ successes self.old ++ WasLoaded client address len loaded.bytes.items when loaded.stamp ∷ [])
            (λ _. successes self.new ≡ successes self.old) }
        ensures asked { asked self.new ≡ asked self.old };

    /// Writes bytes over a client's copy, from an address on, and stores that as a success; the answer is the stamp.
    /// The errors are those of `Bank::store`.
    fn store(
        &mut self,
        client: ClientId,
        address: u32,
        bytes: &[u8],
        when: When,
    ) -> Result<u64, Refusal>
        ensures successes { MatchResult result
            (λ stamp. successes self.new ≡ successes self.old ++ WasStored client address bytes.now when stamp ∷ [])
            (λ _. successes self.new ≡ successes self.old) }
        ensures asked { asked self.new ≡ asked self.old };

    /// Asks home for a copy, or for a better one: the ticket of the Acquire. The errors are those of `Bank::acquire`.
    fn acquire(&mut self, client: ClientId, block: BlockNo, grow: Grow) -> Result<Ticket, Refusal>
        ensures successes { successes self.new ≡ successes self.old }
        ensures asked { asked self.new ≡ asked self.old };

    /// Gives up a part of a copy, or all of it: the ticket of the Release. The errors are those of `Bank::release`.
    fn release(
        &mut self,
        client: ClientId,
        block: BlockNo,
        prune: Prune,
        share: &mut Share,
    ) -> Result<Ticket, Refusal>
        ensures successes { successes self.new ≡ successes self.old }
        ensures asked { asked self.new ≡ asked self.old };

    /// Answers a Probe: the ticket of the ProbeAck. The errors are those of `Bank::answer_probe`.
    fn answer_probe(&mut self, ticket: Ticket, share: &mut Share) -> Result<Ticket, Refusal>
        ensures successes { successes self.new ≡ successes self.old }
        ensures asked { Asks ticket result (asked self.old) (asked self.new) };

    /// Takes a Grant: the ticket of the GrantAck. The errors are those of `Bank::take_grant`.
    fn take_grant(&mut self, ticket: Ticket, share: &mut Share) -> Result<Ticket, Refusal>
        ensures successes { successes self.new ≡ successes self.old }
        ensures asked { Asks ticket result (asked self.old) (asked self.new) };

    /// Takes the answer to a Release. The errors are those of `Bank::take_release_ack`.
    fn take_release_ack(&mut self, ticket: Ticket) -> Result<(), Refusal>
        ensures successes { successes self.new ≡ successes self.old }
        ensures asked { Asks ticket result (asked self.old) (asked self.new) };

    /// What a client may do with a block.
    fn perm(&self, client: ClientId, block: BlockNo) -> Perm;

    /// Of a client's copies in a bank, the one that was granted longest ago.
    fn oldest_copy(&self, client: ClientId, bank: BankNo) -> Option<BlockNo>;
}

/// The calls of a bank's home. `asked` is the list of the tickets that were asked in a turn, in order, each with
/// whether the call served it.
///
/// The calls have the meanings and the refusals of the bank's calls of the same names (`tl_bank::Bank`), and a port may
/// refuse any of them for `Memory`.
pub trait HomePort {
    ghost asked: { Self → List Asked };

    /// A turn begins, in which nothing was asked yet.
    fn begin(&mut self)
        ensures { asked self.new ≡ [] };

    /// Takes an Acquire, and opens a register for it. The errors are those of `Bank::accept`.
    fn accept(&mut self, ticket: Ticket) -> Result<(), Refusal>
        ensures { Asks ticket result (asked self.old) (asked self.new) };

    /// Takes a ProbeAck or a Release: the ticket of the ReleaseAck, where it is a Release. The errors are those of
    /// `Bank::take_c`.
    fn take_c(&mut self, ticket: Ticket) -> Result<Option<Ticket>, Refusal>
        ensures { Asks ticket result (asked self.old) (asked self.new) };

    /// Takes a GrantAck, and closes the register. The errors are those of `Bank::take_grant_ack`.
    fn take_grant_ack(&mut self, ticket: Ticket) -> Result<(), Refusal>
        ensures { Asks ticket result (asked self.old) (asked self.new) };

    /// Carries out what the register of a block does next. The errors are those of `Bank::advance`.
    fn advance(&mut self, block: BlockNo) -> Result<Action, Refusal>
        ensures { asked self.new ≡ asked self.old };

    /// Opens a register that sends a block away. The errors are those of `Bank::evict`.
    fn evict(&mut self, block: BlockNo) -> Result<(), Refusal>
        ensures { asked self.new ≡ asked self.old };

    /// The memory answers what home asked of it. The errors are those of `Bank::serve_memory`.
    fn serve_memory(&mut self, block: BlockNo) -> Result<Reply, Refusal>
        ensures { asked self.new ≡ asked self.old };

    /// Home takes what the memory answered. The errors are those of `Bank::take_memory`.
    fn take_memory(&mut self, block: BlockNo) -> Result<(), Refusal>
        ensures { asked self.new ≡ asked self.old };

    /// The own blocks of open registers, by rising number.
    fn open_blocks(&self) -> ArrayVec<BlockNo, 8>;

    /// Those blocks, and one step of the first one's register: `open_blocks` and then `advance`, for a port that can
    /// ask both at once.
    fn advance_first(&mut self) -> FirstStep
        ensures { asked self.new ≡ asked self.old }
    {
        let open = self.open_blocks();
        let answer = match open.as_slice().first() {
            Some(block) => Some(self.advance(*block)),
            None => None,
        };
        FirstStep { open, answer }
    }

    /// The memory serves what was asked of a block, and home takes its answer: `serve_memory` and then `take_memory`,
    /// for a port that can ask both at once. The error is the first of the two that is refused.
    fn pass_memory(&mut self, block: BlockNo) -> Result<(), Refusal>
        ensures { asked self.new ≡ asked self.old }
    {
        self.serve_memory(block)?;
        self.take_memory(block)
    }

    /// Whether nothing is under way in the bank.
    fn is_quiet(&self) -> bool;
}
