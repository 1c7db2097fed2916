//! The banks, each behind a lock of its own.
ghost use Rattle.std.specs.Prelude.{◌≡◌, ◌≢◌, [], true, length, slice_get, vec_len, IfOk, MatchOption, Some};
ghost use Rattle.tl_client_ports.specs.Locks.{numbers_of};
ghost use Rattle.tl_map.specs.Places.{block_of_address, has_block, place_of};

use crate::bank_port::BankPort;
use crate::client_port::ClientPort;
use crate::gate::Gate;
use std::alloc::{AllocError, Global};
use std::hint;
use std::marker::Model;
use std::sync::{Mutex, MutexGuard, Wait};
use tl_bank::Bank;
use tl_map::Geometry;
use tl_types::{BankNo, BlockNo, ClientId};

// How often a thread asks for a bank's lock before it sleeps at it. A call holds the lock for less than a microsecond,
// and to sleep and to be woken takes many; a lock at which somebody sleeps would send each other thread to sleep at
// once.
const LOOKS: u32 = 300;

/// A bank behind its lock, with its number.
#[derive(Drop)]
pub(crate) struct LockedBank {
    pub(crate) number: BankNo,
    pub(crate) bank: Mutex<Bank>,
}

impl LockedBank {
    /// Takes the bank's lock: asks for it some times before it sleeps at it.
    #[inline(always)]
    pub(crate) fn lock<R: Wait>(&self, rt: &R) -> MutexGuard<'_, Bank> {
        match self.bank.try_lock() {
            Some(bank) => bank,
            None => self.wait_for_lock(rt),
        }
    }

    /// Takes the bank's lock, which somebody has.
    fn wait_for_lock<R: Wait>(&self, rt: &R) -> MutexGuard<'_, Bank> {
        for _ in 0..LOOKS {
            hint::spin_loop();
            if let Some(bank) = self.bank.try_lock() {
                return bank;
            }
        }
        self.bank.lock(rt)
    }
}

/// The banks of a geometry, each behind a lock of its own. Contracts see the geometry, and the number beside each lock:
/// what is behind a lock is known by the bank's type alone.
#[derive(Drop)]
pub struct Locked {
    geometry: Geometry,
    banks: Vec<LockedBank>,
}

impl Model for Locked {
    ghost use Rattle.std.specs.Prelude.{map};
    ghost use Rattle.tl_client_ports.specs.Locks.{Locks};
    ghost use Rattle.tl_client_ports.specs.declared.locked.LockedBank.{LockedBank};

    ghost Value = { Locks };

    ghost view = { λ l. record { geometry = l.geometry; numbers = map (λ (b : LockedBank). b.number) l.banks.items } };
}

impl Locked {
    /// The banks behind locks, in the order of their numbers. The error is want of memory.
    pub fn new(alloc: Global, geometry: Geometry, banks: Vec<Bank>) -> Result<Locked, AllocError>
        ensures { IfOk result (λ l. l ≡ record { geometry = geometry; numbers = numbers_of banks.items }) }
    {
        let mut locks = Vec::with_capacity(alloc, banks.len())?;
        for bank in banks {
            let number = bank.number();
            let bank = Mutex::new(bank);
            locks.push(LockedBank { number, bank })?;
        }
        Ok(Locked {
            geometry,
            banks: locks,
        })
    }

    /// The bank of an address; bank 0 where the memory does not have it, which refuses it.
    pub(crate) fn bank_at(&self, address: u32) -> BankNo
        ensures { has_block self.now.geometry (block_of_address self.now.geometry address) ≡ true
            → result ≡ (place_of self.now.geometry (block_of_address self.now.geometry address)).bank }
    {
        self.bank_of(self.geometry.block_at(address))
    }

    /// The bank of a block; bank 0 where the memory does not have it, which refuses it.
    pub(crate) fn bank_of(&self, block: BlockNo) -> BankNo
        ensures { has_block self.now.geometry block ≡ true → result ≡ (place_of self.now.geometry block).bank }
    {
        if self.geometry.has(block) {
            self.geometry.place(block).bank
        } else {
            BankNo::new(0)
        }
    }

    /// The bank with a number, where its lock is the one with that place.
    pub(crate) fn bank(&self, number: BankNo) -> Option<&LockedBank>
        ensures { MatchOption result (slice_get self.now.numbers number ≢ Some number)
            (λ bank. bank.now.number ≡ number) }
    {
        let bank = self.banks.get(number.index())?;
        if bank.number == number {
            Some(bank)
        } else {
            None
        }
    }

    /// A client's own port, at which nothing has succeeded and nothing was asked yet.
    pub fn client_port<'a, R: Wait, G: Gate>(
        &'a self,
        rt: &'a R,
        alloc: Global,
        gate: &'a G,
        client: ClientId,
    ) -> ClientPort<'a, R, G>
        ensures { result ≡ record { client = client; successes = []; room = 0; asked = [] } }
    {
        ClientPort::new(rt, alloc, self, gate, client)
    }

    /// A port for the home of a bank, if there is one with this number, at which nothing was asked yet.
    pub fn home_port<'a, R: Wait, G: Gate>(
        &'a self,
        rt: &'a R,
        gate: &'a G,
        number: BankNo,
    ) -> Option<BankPort<'a, R, G>>
        ensures { MatchOption result (slice_get self.now.numbers number ≢ Some number)
            (λ p. (p.bank ≡ number) × (p.asked ≡ [])) }
    {
        let bank = self.bank(number)?;
        Some(BankPort::new(rt, bank, gate))
    }

    /// The banks again, as many as there are locks. The error is want of memory.
    pub fn into_banks(self, alloc: Global) -> Result<Vec<Bank>, AllocError>
        ensures { IfOk result (λ banks. vec_len banks ≡ length self.numbers) }
    {
        let mut banks = Vec::with_capacity(alloc, self.banks.len())?;
        for locked in self.banks {
            banks.push(locked.bank.into_inner())?;
        }
        Ok(banks)
    }
}
