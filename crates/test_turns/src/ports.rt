//! What a client's port keeps, and what a gate may do while its bank's lock is not held.
use crate::silent::{fetch, fresh};
use crate::turns::lock_up;
use std::alloc::Global;
use std::cell::Cell;
use std::sync::Wait;
use tl_bank::{Refusal, When};
use tl_client::{Free, Gate, HomePort, Locked, Port, Success, Who};
use tl_map::{Geometry, GeometryNumbers};
use tl_types::{BankNo, BlockNo, ClientId, Perm};

/// Two clients, one bank with one way and one register, and two blocks of eight bytes.
const NUMBERS: GeometryNumbers = GeometryNumbers {
    version: 1,
    clients: 2,
    banks: 1,
    block_bytes: 8,
    sets: 1,
    ways: 1,
    registers: 1,
    copies: 1,
    memory_blocks: 2,
};

fn first() -> ClientId {
    ClientId::new(0)
}

/// The bank behind its lock, once client 0 has block 0 to write it.
fn lock(alloc: Global) -> Option<Locked> {
    let geometry = Geometry::new(NUMBERS).ok()?;
    let (mut bank, mut share, _other) = fresh(alloc, geometry)?;
    fetch(&mut bank, &mut share).ok()?;
    let (locked, _shares) = lock_up(alloc, geometry, bank, share)?;
    Some(locked)
}

/// The client, the address and the first byte of a success, and its index; whether it is a store.
type Kept = (u32, u32, Option<u8>, u32, bool);

fn kept(success: &Success) -> Kept {
    match success {
        Success::Loaded {
            client,
            address,
            len: _,
            bytes,
            when,
            stamp: _,
        } => (
            client.number(),
            *address,
            bytes.as_slice().first().copied(),
            when.index,
            false,
        ),
        Success::Stored {
            client,
            address,
            bytes,
            when,
            stamp: _,
        } => (
            client.number(),
            *address,
            bytes.as_slice().first().copied(),
            when.index,
            true,
        ),
    }
}

/// A store, a load of a block that the client does not have, and a load: what each answers, and what the port keeps.
fn accesses<P: Port>(port: &mut P) -> ([Option<Refusal>; 3], usize, Option<Kept>, Option<Kept>) {
    let stored = port.store(first(), 1, &[0xab], When { clock: 0, index: 0 });
    let refused = port.load(first(), 8, 1, When { clock: 1, index: 1 });
    let loaded = port.load(first(), 1, 1, When { clock: 1, index: 2 });
    let successes = port.successes();
    (
        [stored.err(), refused.err(), loaded.err()],
        successes.len(),
        successes.first().map(kept),
        successes.last().map(kept),
    )
}

/// The same of client 0's port, and how many successes another client's port keeps then.
fn observed<R: Wait>(
    rt: &R,
    alloc: Global,
) -> Option<
    (
        ([Option<Refusal>; 3], usize, Option<Kept>, Option<Kept>),
        usize,
    ),
> {
    let locked = lock(alloc)?;
    let mut port = locked.client_port(rt, alloc, &Free, first());
    let other = locked.client_port(rt, alloc, &Free, ClientId::new(1));
    Some((accesses(&mut port), other.successes().len()))
}

#[test]
fn a_port_keeps_what_succeeded(rt: HostRuntime) {
    assert_eq!(rt;
        observed(&rt, rt.alloc()),
        Some((
            (
                [None, Some(Refusal::NoPermission), None],
                2,
                Some((0, 1, Some(0xab), 0, true)),
                Some((0, 1, Some(0xab), 2, false))
            ),
            0
        ))
    );
}

/// A gate that asks the bank itself once its lock was given back: it would wait for ever if the lock were still held.
#[derive(Drop)]
struct Asker<'a, R: Wait> {
    rt: &'a R,
    alloc: Global,
    locked: &'a Locked,
    /// What client 0 may do with block 0, as the bank said last.
    said: Cell<Option<Perm>>,
}

impl<'a, R: Wait> Gate for Asker<'a, R> {
    fn before(&self, _client: ClientId, _index: usize) {}

    fn locked(&self, _bank: BankNo, _who: Who) {}

    fn left(&self, _bank: BankNo, _who: Who) {
        let port = self.locked.client_port(self.rt, self.alloc, &Free, first());
        self.said.set(Some(port.perm(first(), BlockNo::new(0))));
    }

    fn answered(&self, _client: ClientId, _index: usize) {}
}

/// What such a gate was told after a call of a client, and after one of a home.
fn asked_when_left<R: Wait>(rt: &R, alloc: Global) -> Option<(Option<Perm>, Option<Perm>)> {
    let locked = lock(alloc)?;
    let gate = Asker {
        rt,
        alloc,
        locked: &locked,
        said: Cell::new(None),
    };
    let port = locked.client_port(rt, alloc, &gate, first());
    let _perm = port.perm(first(), BlockNo::new(1));
    let after_client = gate.said.take();
    let home = locked.home_port(rt, &gate, BankNo::new(0))?;
    let _is_quiet = home.is_quiet();
    Some((after_client, gate.said.take()))
}

#[test]
fn a_lock_is_free_once_a_gate_is_told_so(rt: HostRuntime) {
    assert_eq!(rt;
        asked_when_left(&rt, rt.alloc()),
        Some((Some(Perm::Tip), Some(Perm::Tip)))
    );
}
