//! What a bank shows of its end, besides what its clients may do. No view takes memory.
ghost use Rattle.std.specs.Prelude.{◌≡◌, ◌≢◌, ◌↔◌, ◌+◌, ◌<◌, ◌≤◌, ℕ, IfSome, IsSome, IsTrue, None, Some};
ghost use Rattle.std.specs.List.{All};
ghost use Rattle.std.specs.List.Sorted.{IsNonDecreasing, IsPermutation};
ghost use Rattle.tl_types.specs.Permission.{rank};
ghost use Rattle.tl_types.specs.declared.permission.Perm.{Perm};
ghost use Rattle.tl_map.specs.Places.{block_of_address};
ghost use Rattle.tl_protocol.specs.Coherent.{last};
ghost use Rattle.tl_protocol.specs.Ledger.{count_clients, has_copy, is_recorded, is_under_way};
ghost use Rattle.tl_bank_spec.specs.Kept.{LiesAlone, ServesByRegisters};
ghost use Rattle.tl_bank_spec.specs.View.{end_at, perm_at};
ghost use Rattle.tl_bank_spec.specs.Own.{IsOwn};
ghost use Rattle.tl_bank_spec.specs.Views.{not_own, no_part, recorded_at, byte_at, peeked, HasCopy, MayRead, MayWrite, in_flight_at, dirty_at, outward_at, own_blocks, is_at_home, blocks_at_home, HasNoMessage, AwaitsNothing, IsQuiet, pairs_at, copies_below};
ghost use Rattle.tl_bank_spec.specs.Ways.{slot_at};
ghost use Rattle.tl_bank_laws.specs.Found.{times, one_of};

use crate::bank::Bank;
use arrayvec::ArrayVec;
use tl_map::Set;
use tl_protocol::Outward;
use tl_types::{BlockNo, CLIENTS, Channel, ClientId, Message, Perm, Ticket};
use tl_ways::Way;

impl Bank {
    /// The permission that home records for a client of a block: None also where there is no such client, and where the
    /// block is not of the memory or of another bank.
    pub fn directory(&self, client: ClientId, block: BlockNo) -> Perm
        ensures value { result ≡ recorded_at self.now client block }
        ensures covers { client < self.now.geometry.clients → IsOwn self.now.geometry self.now.number block
            → rank (perm_at self.now client block) ≤ rank result }
    {
        if self.has_no_part(client, block) {
            return Perm::None;
        }
        self.home.recorded(client, block)
    }

    /// The byte at an address of a client's copy, where that may be read. None also where there is no such client, and
    /// where the address is not of the memory or of another bank.
    pub fn peek(&self, client: ClientId, address: u32) -> Option<u8>
        ensures value { result ≡ peeked self.now client address }
        ensures readable { IsSome result ↔ MayRead self.now client address }
        ensures newest { IfSome result (λ byte. byte ≡ last self.now.image self.now.log address) }
    {
        if self.has_no_part(client, self.geometry.block_at(address)) {
            return None;
        }
        self.byte(client, address)
    }

    /// The client whose copy of a block may be written, if there is one. None also where the block is not of the memory
    /// or of another bank.
    pub fn writer(&self, block: BlockNo) -> Option<ClientId>
        ensures writes { (client : ℕ) → (result ≡ Some client) ↔ MayWrite self.now client block }
        ensures alone { IfSome result
            (λ client. (other : ℕ) → other ≢ client → perm_at self.now other block ≡ Perm.None) }
    {
        if self.is_not_own(block) {
            return None;
        }
        for number in 0..self.geometry.clients() {
            let client = ClientId::new(number);
            if self.perm_of(client, block) == Perm::Tip {
                return Some(client);
            }
        }
        None
    }

    /// The block of this bank of a client's copy that was granted longest ago: a copy that is new, or that was granted
    /// anew, is the latest. None just where the client has no copy in this bank, or is not there.
    pub fn oldest_copy(&self, client: ClientId) -> Option<BlockNo>
        ensures copy { IfSome result (λ block. HasCopy self.now client block) }
        ensures none { (result ≡ None) ↔ ((block : ℕ) → HasCopy self.now client block → ⊥) }
    {
        if client.number() >= self.geometry.clients() {
            return None;
        }
        self.copies.oldest(client)
    }

    /// The message that a ticket names, where it still waits, wherever in its channel's line. None also where the
    /// ticket is of a client that is not there or of another bank.
    pub fn in_flight(&self, ticket: Ticket) -> Option<Message>
        ensures { result ≡ in_flight_at self.now ticket }
    {
        if ticket.client.number() >= self.geometry.clients() || ticket.bank != self.number {
            return None;
        }
        Some(self.links.message(ticket)?.copied())
    }

    /// Whether home's copy of a block is dirty, where home has one. None also where the block is not of the memory or
    /// of another bank.
    pub fn home(&self, block: BlockNo) -> Option<bool>
        ensures { result ≡ dirty_at self.now block }
    {
        if self.is_not_own(block) {
            return None;
        }
        self.home.is_dirty(block)
    }

    /// What passes of a block between home and the memory, if anything does. None also where the block is not of the
    /// memory or of another bank.
    pub fn outward(&self, block: BlockNo) -> Option<Outward>
        ensures { result ≡ outward_at self.now block }
    {
        if self.is_not_own(block) || self.home.is_quiet(block) {
            return None;
        }
        Some(self.home.outward(block)?.copied())
    }

    /// The own blocks of the open registers, by rising number. Home serves of each block the Acquire that its register
    /// is open for.
    pub fn open_blocks(&self) -> ArrayVec<BlockNo, 8>
        ensures blocks { IsPermutation (own_blocks self.now) result.items }
        ensures rising { IsNonDecreasing result.items }
        ensures serves { ServesByRegisters self.now }
    {
        // For the prover: what the bank holds is what its log leaves.
        let _ = &self.registers;
        let mut blocks = self.blocks_by_age();
        blocks
            .as_mut_slice()
            .sort_unstable_by_key(|own| own.number());
        blocks
    }

    /// Whether nothing is under way: no register is open, no message waits, no client waits for an answer, and nothing
    /// passes between home and the memory. (What passes is a register's, so with no register nothing does.)
    pub fn is_quiet(&self) -> bool
        ensures { IsTrue result ↔ IsQuiet self.now }
    {
        if !self.registers.is_empty() {
            return false;
        }
        for number in 0..self.geometry.clients() {
            let client = ClientId::new(number);
            if !self.has_no_message(client) || !self.awaits_nothing(client) {
                return false;
            }
        }
        true
    }

    /// How many pairs there are of a client and a block of this bank of which the client has a copy: the sum of what
    /// `copies_of` says of each client.
    pub fn held(&self) -> u64
        ensures value { result ≡ pairs_at has_copy self.now }
        ensures shares { result ≡ copies_below self.now self.now.geometry.clients }
    {
        let mut count = 0;
        for number in 0..self.geometry.clients() {
            count += u64::from(self.count(ClientId::new(number)));
        }
        count
    }

    /// How many pairs there are of a client and a block of this bank that home has recorded above None: as many as are
    /// held and under way together, and as are held where nothing is under way.
    pub fn outstanding(&self) -> u64
        ensures value { result ≡ pairs_at is_recorded self.now }
        ensures ledger { result ≡ pairs_at has_copy self.now + pairs_at is_under_way self.now }
        ensures quiet { IsQuiet self.now → result ≡ pairs_at has_copy self.now }
    {
        // For the prover: what the bank holds is what its log leaves.
        let _ = &self.geometry;
        let mut count = 0;
        for block in self.blocks_at_home().as_slice() {
            count += u64::from(self.sharers(*block));
        }
        count
    }

    /// The blocks of this bank of which home has a copy, by rising number. Just they lie in ways of their sets, each
    /// alone.
    pub fn blocks_at_home(&self) -> ArrayVec<BlockNo, 512>
        ensures is { result.items ≡ blocks_at_home self.now }
        ensures own { All (λ block. IsOwn self.now.geometry self.now.number block) result.items }
        ensures ways { LiesAlone self.now }
    {
        // For the prover: what the bank holds is what its log leaves.
        let _ = &self.home;
        let mut blocks = self.blocks_by_way();
        blocks
            .as_mut_slice()
            .sort_unstable_by_key(|block| block.number());
        blocks
    }

    /// The blocks that home holds, each once, way by way of each set.
    fn blocks_by_way(&self) -> ArrayVec<BlockNo, 512>
        ensures { (block : ℕ) → times block result.items ≡ one_of (is_at_home self.now block) }
    {
        let ways = self.geometry.ways();
        let mut blocks = ArrayVec::new();
        for place in 0..self.geometry.sets() * ways {
            if let Some(block) = self.block_in(Set::new(place / ways), Way::new(place % ways)) {
                blocks.push(block);
            }
        }
        blocks
    }

    /// The block in a way of a set.
    pub(super) fn block_in(&self, set: Set, way: Way) -> Option<BlockNo>
        requires set { set < self.now.geometry.sets }
        requires way { way < self.now.geometry.ways }
        ensures { result ≡ slot_at self.now set way }
    {
        self.home.occupant(set, way)
    }

    /// Whether a block is not of the memory, or of another bank.
    pub(super) fn is_not_own(&self, block: BlockNo) -> bool
        ensures { result ≡ not_own self.now block }
    {
        !self.geometry.has(block) || self.is_elsewhere(block)
    }

    /// Whether a client is not there, or a block not of the memory or of another bank.
    pub(crate) fn has_no_part(&self, client: ClientId, block: BlockNo) -> bool
        ensures { result ≡ no_part self.now client block }
    {
        client.number() >= self.geometry.clients() || self.is_not_own(block)
    }

    /// The byte at an address of a client's copy, where it has one.
    fn byte(&self, client: ClientId, address: u32) -> Option<u8>
        requires client { client < self.now.geometry.clients }
        requires block { block_of_address self.now.geometry address < self.now.geometry.memory_blocks }
        ensures { result ≡ byte_at self.now client address }
    {
        let offset = self.geometry.offset(address) as usize;
        let copy = self.copy_of(client, self.geometry.block_at(address));
        copy.into_bytes().as_slice().get(offset).copied()
    }

    /// The open registers' own blocks, the oldest register first.
    fn blocks_by_age(&self) -> ArrayVec<BlockNo, 8>
        ensures { result.items ≡ own_blocks self.now }
    {
        let mut blocks = ArrayVec::new();
        for register in self.registers.as_slice() {
            blocks.push(register.own);
        }
        blocks
    }

    /// Whether no message waits on a channel of a client.
    fn has_no_message(&self, client: ClientId) -> bool
        requires { client < self.now.geometry.clients }
        ensures { IsTrue result ↔ HasNoMessage self.now client }
    {
        self.links.waiting(client, Channel::A) == 0
            && self.links.waiting(client, Channel::B) == 0
            && self.links.waiting(client, Channel::C) == 0
            && self.links.waiting(client, Channel::D) == 0
            && self.links.waiting(client, Channel::E) == 0
    }

    /// Whether a client waits for no answer about a block of this bank.
    fn awaits_nothing(&self, client: ClientId) -> bool
        requires { client < self.now.geometry.clients }
        ensures { IsTrue result ↔ AwaitsNothing self.now client }
    {
        self.copies.awaits_nothing(client)
    }

    /// For how many clients home has recorded a permission of a block of this bank above None.
    fn sharers(&self, block: BlockNo) -> u32
        requires { IsOwn self.now.geometry self.now.number block }
        ensures value { result ≡ count_clients is_recorded self.now.geometry.clients (end_at self.now block).client }
        ensures few { result ≤ CLIENTS }
    {
        let mut count = 0;
        for number in 0..self.geometry.clients() {
            if self.home.recorded(ClientId::new(number), block) != Perm::None {
                count += 1;
            }
        }
        count
    }
}
