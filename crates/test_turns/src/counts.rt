//! A gate that counts its calls.
use std::cell::Cell;
use tl_client::{Gate, Who};
use tl_types::{BankNo, ClientId};

/// A gate that counts its calls.
#[derive(Drop)]
pub struct Counts {
    pub before: Cell<u32>,
    pub answered: Cell<u32>,
    pub locked: Cell<u32>,
    pub left: Cell<u32>,
}

/// One more.
pub fn count(calls: &Cell<u32>) {
    calls.set(calls.get().saturating_add(1));
}

impl Counts {
    /// No call yet.
    pub fn new() -> Counts {
        Counts {
            before: Cell::new(0),
            answered: Cell::new(0),
            locked: Cell::new(0),
            left: Cell::new(0),
        }
    }
}

impl Gate for Counts {
    fn before(&self, _client: ClientId, _index: usize) {
        count(&self.before);
    }

    fn locked(&self, _bank: BankNo, _who: Who) {
        count(&self.locked);
    }

    fn left(&self, _bank: BankNo, _who: Who) {
        count(&self.left);
    }

    fn answered(&self, _client: ClientId, _index: usize) {
        count(&self.answered);
    }
}
