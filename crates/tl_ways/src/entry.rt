//! An entry of the directory: what home records of one block that it holds.
ghost use Rattle.std.specs.Prelude.{◌≡◌, ◌≢◌, ◌↔◌, ℕ, ◌<◌, ◌≤◌, ◌==◌, IfSome, IsTrue, MatchOption, if◌then◌else◌};
ghost use Rattle.std.specs.Int.{bit_at};
ghost use Rattle.tl_types.specs.Permission.{rank};
ghost use Rattle.tl_types.specs.declared.permission.Perm.TheVariants.{None as NoAccess, Branch, Tip};
ghost use Rattle.tl_ways.specs.Entries.{entry_perm};

use std::marker::Model;
use tl_map::Tag;
use tl_types::{CLIENTS, ClientId, Perm};

/// What home records of one block: its tag, whether home's copy is dirty, and a permission for each client.
#[derive(Clone, Debug)]
pub struct Entry {
    tag: Tag,
    dirty: bool,
    owner: Option<ClientId>,
    branches: u16,
}

impl Model for Entry {
    ghost use Rattle.tl_ways.specs.Entries.{Entry, IsEntry};

    ghost Value = { Entry };

    ghost view = { λ e. record { tag = e.tag; dirty = e.dirty; owner = e.owner; branches = e.branches } };

    ghost invariant = { λ e. IsEntry
        (record { tag = e.tag; dirty = e.dirty; owner = e.owner; branches = e.branches }) };

    ghost inverse = { λ e. record { tag = e.tag; dirty = e.dirty; owner = e.owner; branches = e.branches } };
}

impl Copy for Entry {}

impl Entry {
    /// An entry that records no permission.
    pub fn new(tag: Tag, dirty: bool) -> Entry
        ensures tag { result.tag ≡ tag }
        ensures dirty { result.dirty ≡ dirty }
        ensures perms { (client : ℕ) → entry_perm result client ≡ NoAccess }
    {
        Entry {
            tag,
            dirty,
            owner: None,
            branches: 0,
        }
    }

    /// The tag of its block.
    pub fn tag(self) -> Tag
        ensures { result ≡ self.tag }
    {
        self.tag
    }

    /// Whether home's copy differs from memory's.
    pub fn is_dirty(self) -> bool
        ensures { result ≡ self.dirty }
    {
        self.dirty
    }

    /// Makes home's copy dirty or clean.
    pub fn set_dirty(&mut self, dirty: bool)
        ensures dirty { self.new ≡ record self.old { dirty = dirty } }
        ensures perms { (client : ℕ) → entry_perm self.new client ≡ entry_perm self.old client }
    {
        self.dirty = dirty;
    }

    /// The client that has Tip, if one has: then no other client has any permission.
    pub fn owner(self) -> Option<ClientId>
        ensures is { result ≡ self.owner }
        ensures alone { IfSome result (λ owner. self.branches ≡ 0) }
    {
        self.owner
    }

    /// The mask of the clients that have Branch: bit c is set where client c has it.
    pub fn branches(self) -> u16
        ensures { result ≡ self.branches }
    {
        self.branches
    }

    /// The permission that home records for a client. Where one has Tip, no other has any.
    pub fn perm(self, client: ClientId) -> Perm
        ensures is { result ≡ entry_perm self client }
        ensures alone { result ≡ Tip → (other : ℕ) → other ≢ client → entry_perm self other ≡ NoAccess }
    {
        let number = client.number();
        if self.owner == Some(client) {
            return Perm::Tip;
        }
        if number >= CLIENTS as u32 {
            return Perm::None;
        }
        if self.branches >> number & 1 == 1 {
            Perm::Branch
        } else {
            Perm::None
        }
    }

    /// Whether it records no permission for any client.
    pub fn is_unshared(self) -> bool
        ensures { IsTrue result ↔ ((client : ℕ) → entry_perm self client ≡ NoAccess) }
    {
        self.owner.is_none() && self.branches == 0
    }

    /// The lowest client for which it records more than a permission.
    pub fn first_above(self, perm: Perm) -> Option<ClientId>
        ensures { MatchOption result ((client : ℕ) → rank (entry_perm self client) ≤ rank perm)
            (λ first. (rank perm < rank (entry_perm self first))
            × ((client : ℕ) → client < first → rank (entry_perm self client) ≤ rank perm)) }
    {
        match (self.owner, perm) {
            (Some(_), Perm::Tip) => None,
            (Some(owner), _) => Some(owner),
            (None, Perm::None) => self.first_branch(),
            (None, _) => None,
        }
    }

    /// The lowest client whose bit is set.
    fn first_branch(self) -> Option<ClientId>
        ensures { MatchOption result (self.branches ≡ 0)
            (λ first. (bit_at self.branches first ≡ 1)
            × ((client : ℕ) → client < first → bit_at self.branches client ≡ 0)) }
    {
        if self.branches == 0 {
            return None;
        }
        Some(ClientId::new(self.branches.trailing_zeros()))
    }

    /// Records a permission for a client. Beside Tip no other client may have any permission.
    pub fn set(&mut self, client: ClientId, perm: Perm)
        requires known { client < CLIENTS }
        requires tip { perm ≡ Tip → (other : ℕ) → other ≢ client → entry_perm self.old other ≡ NoAccess }
        requires branch { perm ≡ Branch → (other : ℕ) → other ≢ client → entry_perm self.old other ≢ Tip }
        ensures tag { self.new.tag ≡ self.old.tag }
        ensures dirty { self.new.dirty ≡ self.old.dirty }
        ensures perms { (other : ℕ)
            → entry_perm self.new other ≡ (if other == client then perm else entry_perm self.old other) }
    {
        let bit = 1u16 << client.number();
        match perm {
            Perm::None => {
                if self.owner == Some(client) {
                    self.owner = None;
                }
                self.branches &= !bit;
            }
            Perm::Branch => {
                self.owner = None;
                self.branches |= bit;
            }
            Perm::Tip => {
                self.owner = Some(client);
                self.branches = 0;
            }
        }
    }
}
