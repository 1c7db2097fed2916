//! The tables of all clients.
ghost use Rattle.std.specs.Prelude.{◌≡◌, ◌↔◌, ◌≤◌, ◌<◌, ◌+◌, ℕ, ◌==◌, [], None, Some, IfErr, IfOk, IfSome, IsErr, IsTrue, MatchOption, OnErr, OnOk, true, false, length, map, option_copied, option_map, slice_index_or, if◌then◌else◌};
ghost use Rattle.std.specs.List.{find};
ghost use Rattle.tl_copies.specs.Entries.{Entry, found, IsTable};
ghost use Rattle.tl_copies.specs.Held.{has_copy, is_renewed_entry, is_awaited, stored, waiting};
ghost use Rattle.tl_copies.specs.Copies.{clients_of, held_at, order_in, is_cell, entries, copies, order_without, order_after, SameSize};

use crate::held::Held;
use crate::table::{Full, Table};
use std::alloc::{AllocError, Global};
use std::marker::Model;
use tl_map::Geometry;
use tl_types::{AccessBytes, Awaited, BLOCK_BYTES, BankNo, BlockNo, COPIES, ClientId};

/// The copies of one bank's blocks. Each client has at most as many entries as the geometry says.
#[derive(Drop)]
pub struct Copies {
    bank: BankNo,
    limit: u32,
    blocks: u32,
    tables: Vec<Table>,
}

impl Model for Copies {
    ghost use Rattle.std.specs.Prelude.{◌≤◌, All};
    ghost use Rattle.tl_copies.specs.Entries.{IsTable};
    ghost use Rattle.tl_copies.specs.Copies.{Tables};
    ghost use Rattle.tl_types.specs.declared.limits.TheConstants.{COPIES};

    ghost Value = { Tables };

    ghost view = { λ c. record { bank = c.bank; limit = c.limit; blocks = c.blocks; tables = c.tables.items } };

    ghost invariant = { λ c. (c.limit ≤ COPIES) × All (λ t. IsTable c.limit c.blocks t) c.tables.items };
}

impl Copies {
    /// The tables of the clients of a geometry for one bank, with no entry. All memory that they ever use is taken
    /// here; the error is want of it.
    #[tactic(auto, unfolding(crate::specs::Copies::clients_of, crate::specs::Copies::held_at, crate::specs::Copies::order_in))]
    pub fn new(alloc: Global, geometry: Geometry, bank: BankNo) -> Result<Copies, AllocError>
        ensures bank { IfOk result (λ v. v.bank ≡ bank) }
        ensures limit { IfOk result (λ v. v.limit ≡ geometry.copies) }
        ensures blocks { IfOk result (λ v. v.blocks ≡ geometry.memory_blocks) }
        ensures clients { IfOk result (λ v. clients_of v ≡ geometry.clients) }
        ensures empty { IfOk result (λ v. (x y : ℕ) → held_at v x y ≡ None) }
        ensures order { IfOk result (λ v. (x : ℕ) → order_in v x ≡ []) }
    {
        let mut tables = Vec::with_capacity(alloc, geometry.clients() as usize)?;
        for _ in 0..geometry.clients() {
            tables.push(Table::new())?;
        }
        Ok(Copies {
            bank,
            limit: geometry.copies(),
            blocks: geometry.memory_blocks(),
            tables,
        })
    }

    /// The bank.
    pub fn bank(&self) -> BankNo
        ensures { result ≡ self.now.bank }
    {
        self.bank
    }

    /// What a client holds of a block, where its table has an entry of it.
    pub fn of(&self, client: ClientId, block: BlockNo) -> Option<Held>
        requires { client < clients_of self.now }
        ensures { result ≡ held_at self.now client block }
    {
        let held = self.held(client, block)?;
        Some(held.copied())
    }

    /// What a client holds of a block, where it lies in the table: for a call that only looks at it.
    pub fn held(&self, client: ClientId, block: BlockNo) -> Option<&Held>
        requires { client < clients_of self.now }
        ensures { option_copied result ≡ held_at self.now client block }
    {
        self.table(client).of(block)
    }

    /// Where a client's table has its entry of a block, in the order of age: for a call that takes a place, and then
    /// needs no search of its own.
    pub fn place(&self, client: ClientId, block: BlockNo) -> Option<usize>
        requires { client < clients_of self.now }
        ensures { MatchOption result (held_at self.now client block ≡ None)
            (λ place. (default : ℕ) → slice_index_or (order_in self.now client) place default ≡ block) }
    {
        self.table(client).place_of(block)
    }

    /// What a client holds of a block, where its table has an entry of it. It is looked for at `place` first.
    pub fn near(&self, client: ClientId, block: BlockNo, place: usize) -> Option<&Held>
        requires { client < clients_of self.now }
        ensures { option_copied result ≡ held_at self.now client block }
    {
        self.table(client).near(block, place)
    }

    /// How many entries a client's table has.
    pub fn entries(&self, client: ClientId) -> u32
        requires { client < clients_of self.now }
        ensures value { result ≡ entries self.now client }
        ensures few { result ≤ self.now.limit }
    {
        self.table(client).len() as u32
    }

    /// Whether a client's table has as many entries as it may have.
    pub fn is_full(&self, client: ClientId) -> bool
        requires { client < clients_of self.now }
        ensures { IsTrue result ↔ (self.now.limit ≤ entries self.now client) }
    {
        self.limit <= self.entries(client)
    }

    /// How many clients there are.
    #[tactic(auto, unfolding(crate::specs::Copies::clients_of))]
    pub fn clients(&self) -> usize
        ensures { result ≡ clients_of self.now }
    {
        self.tables.len()
    }

    /// How many blocks the memory has.
    pub fn blocks(&self) -> u32
        ensures { result ≡ self.now.blocks }
    {
        self.blocks
    }

    /// How many copies above None a client has.
    pub fn count(&self, client: ClientId) -> u32
        requires { client < clients_of self.now }
        ensures value { result ≡ copies self.now client }
        ensures few { result ≤ self.now.limit }
    {
        self.table(client).count()
    }

    /// The block of the client's copy above None that was granted longest ago; None just where it has no copy.
    pub fn oldest(&self, client: ClientId) -> Option<BlockNo>
        requires { client < clients_of self.now }
        ensures value { result ≡ find (λ block. has_copy (held_at self.now client block)) (order_in self.now client) }
        ensures copy { IfSome result
            (λ block. (block < self.now.blocks) × (has_copy (held_at self.now client block) ≡ true)) }
        ensures none { result ≡ None → (block : ℕ) → has_copy (held_at self.now client block) ≡ false }
    {
        self.table(client).oldest()
    }

    /// Whether a client waits for no answer about a block of the memory.
    pub fn awaits_nothing(&self, client: ClientId) -> bool
        requires { client < clients_of self.now }
        ensures { IsTrue result
            ↔ ((block : ℕ) → block < self.now.blocks → is_awaited (held_at self.now client block) ≡ false) }
    {
        self.table(client).awaits_nothing()
    }

    /// Keeps what a client holds of a block. A new entry goes last in the order of age, and so does one that waited for
    /// a Grant and no longer does; every other one stays in its place. `Full`, with the copy, where the table has no
    /// entry of the block and may have no more; nothing changes then.
    #[tactic(auto, unfolding(crate::specs::Copies::clients_of, crate::specs::Copies::held_at, crate::specs::Copies::order_in))]
    pub fn keep(&mut self, client: ClientId, block: BlockNo, held: Held) -> Result<(), Full>
        requires client { client < clients_of self.old }
        requires block { block < self.old.blocks }

        ensures same { SameSize self.old self.new }
        ensures after { OnOk result
            ((x y : ℕ)
            → held_at self.new x y ≡ (if is_cell client block x y then Some held else held_at self.old x y)) }
        ensures order { OnOk result
            ((x : ℕ)
            → order_in self.new x
            ≡ (if x == client
            then order_after (is_renewed_entry (held_at self.old client block) held) block (order_in self.old x)
            else order_in self.old x)) }

        ensures full { IsErr result
            ↔ ((held_at self.old client block ≡ None) × (self.old.limit ≤ entries self.old client)) }
        ensures held { IfErr result (λ full. full.held ≡ held) }
        ensures unchanged { OnErr result (self.new ≡ self.old) }
    {
        let limit = self.limit as usize;
        self.tables[client.index()].keep(limit, block, held)
    }

    /// A client waits for an answer about a block from then on, or for none, and keeps the copy that it has; where its
    /// table has no entry of the block it has a new one, for which there has to be room. A new entry goes last in the
    /// order of age, and so does one that waited for a Grant and no longer does.
    #[tactic(auto, unfolding(crate::specs::Copies::clients_of, crate::specs::Copies::held_at, crate::specs::Copies::order_in))]
    pub fn wait_for(&mut self, client: ClientId, block: BlockNo, wait: Awaited)
        requires client { client < clients_of self.old }
        requires block { block < self.old.blocks }
        requires room { held_at self.old client block ≡ None → entries self.old client < self.old.limit }
        ensures same { SameSize self.old self.new }
        ensures after { (x y : ℕ)
            → held_at self.new x y
            ≡ (if is_cell client block x y
            then Some (waiting wait (held_at self.old client block))
            else held_at self.old x y) }
        ensures order { (x : ℕ)
            → order_in self.new x
            ≡ (if x == client
            then order_after
            (is_renewed_entry (held_at self.old client block) (waiting wait (held_at self.old client block))) block
            (order_in self.old x)
            else order_in self.old x) }
    {
        self.tables[client.index()].wait_for(block, wait);
    }

    /// Writes the bytes of a store over what a client holds of a block from `offset` on, which makes it dirty. Nothing
    /// changes where the table has no entry of the block. The entry is looked for at `place` first.
    #[tactic(auto, unfolding(crate::specs::Copies::clients_of, crate::specs::Copies::held_at, crate::specs::Copies::order_in))]
    pub fn store(
        &mut self,
        client: ClientId,
        block: BlockNo,
        place: usize,
        offset: usize,
        access: &AccessBytes,
    )
        requires client { client < clients_of self.old }
        requires room { offset + length access.now ≤ BLOCK_BYTES }
        ensures same { SameSize self.old self.new }
        ensures after { (x y : ℕ)
            → held_at self.new x y
            ≡ (if is_cell client block x y then option_map (stored offset access.now) (held_at self.old client block)
            else held_at self.old x y) }
        ensures order { (x : ℕ) → order_in self.new x ≡ order_in self.old x }
    {
        self.tables[client.index()].store(block, place, offset, access);
    }

    /// Takes the entry of a block out of a client's table, if there is one.
    #[tactic(auto, unfolding(crate::specs::Copies::clients_of, crate::specs::Copies::held_at, crate::specs::Copies::order_in))]
    pub fn clear(&mut self, client: ClientId, block: BlockNo)
        requires { client < clients_of self.old }
        ensures same { SameSize self.old self.new }
        ensures after { (x y : ℕ)
            → held_at self.new x y ≡ (if is_cell client block x y then None else held_at self.old x y) }
        ensures order { (x : ℕ)
            → order_in self.new x
            ≡ (if x == client then order_without block (order_in self.old x) else order_in self.old x) }
    {
        self.tables[client.index()].clear(block);
    }

    /// A client's table.
    #[tactic(auto, unfolding(crate::specs::Copies::clients_of, crate::specs::Copies::held_at, crate::specs::Copies::order_in))]
    fn table(&self, client: ClientId) -> &Table
        requires { client < clients_of self.now }
        ensures held { (block : ℕ) → held_at self.now client block ≡ found block result.now }
        ensures order { order_in self.now client ≡ map (λ (e : Entry). e.block) result.now }
        ensures sound { IsTable self.now.limit self.now.blocks result.now }
        ensures few { self.now.limit ≤ COPIES }
    {
        &self.tables[client.index()]
    }
}
