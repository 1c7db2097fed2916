//! Gates that hold one thread until another came to some place: a thread that did the work of both would never come
//! there.
//!
//! Two banks with a block each. A client's thread holds a bank's lock while another client is served by the other bank,
//! so each bank has a lock of its own; a client waits before its command until the other's was answered, so each has a
//! thread of its own; and the two homes are inside their banks at once.
use std::alloc::Global;
use std::sync::Wait;
use std::sync::atomic::{AtomicU64, Ordering};
use std::thread;
use std::thread::Threads;
use std::time::Clock;
use tl_runner::{Gate, Who, read_script, run};
use tl_script::Script;
use tl_text::Report;
use tl_types::{BankNo, ClientId};

/// How often a held thread yields before the test has failed.
const PATIENCE: u32 = 1_000_000;

const NUMBERS: &str = "\
version = 1\n\
clients = 2\n\
banks = 2\n\
block_bytes = 8\n\
sets = 1\n\
ways = 1\n\
registers = 1\n\
copies = 1\n\
memory_blocks = 2\n\
turns = 1000000\n";

/// The clients' addresses, in order: each in a bank of its own.
const STRAIGHT: [&str; 2] = ["0x0", "0x8"];

/// The same, exchanged.
const CROSSED: [&str; 2] = ["0x8", "0x0"];

/// Whether something has happened.
#[derive(Drop)]
struct Flag(AtomicU64);

impl Flag {
    fn new() -> Flag {
        Flag(AtomicU64::new(0))
    }

    fn set(&self) {
        self.0.store(1, Ordering::SeqCst);
    }

    fn is_set(&self) -> bool {
        self.0.load(Ordering::SeqCst) != 0
    }

    /// Yields until it happened. `false` where it did not in all that time.
    fn is_set_in_time(&self) -> bool {
        for _ in 0..PATIENCE {
            if self.is_set() {
                return true;
            }
            thread::yield_now();
        }
        false
    }
}

/// Holds client 1 before its command until client 0 has the lock of bank 0, and client 0 there until client 1 has left
/// bank 1.
#[derive(Drop)]
struct OneLockIsHeld {
    has_locked: Flag,
    has_left: Flag,
    has_failed: Flag,
}

impl Gate for OneLockIsHeld {
    fn before(&self, client: ClientId, index: usize) {
        if client.number() == 1 && index == 0 && !self.has_locked.is_set_in_time() {
            self.has_failed.set();
        }
    }

    fn locked(&self, bank: BankNo, who: Who) {
        if let Who::Client(client) = who {
            if client.number() == 0 && bank.number() == 0 && !self.has_locked.is_set() {
                self.has_locked.set();
                if !self.has_left.is_set_in_time() {
                    self.has_failed.set();
                }
            }
        }
    }

    fn left(&self, bank: BankNo, who: Who) {
        if let Who::Client(client) = who {
            if client.number() == 1 && bank.number() == 1 {
                self.has_left.set();
            }
        }
    }

    fn answered(&self, _client: ClientId, _index: usize) {}
}

/// Holds a client before its command until the other client's was answered.
#[derive(Drop)]
struct OneClientWaits {
    waiting: ClientId,
    has_answered: Flag,
    has_failed: Flag,
}

impl Gate for OneClientWaits {
    fn before(&self, client: ClientId, index: usize) {
        if client.number() == self.waiting.number()
            && index == 0
            && !self.has_answered.is_set_in_time()
        {
            self.has_failed.set();
        }
    }

    fn locked(&self, _bank: BankNo, _who: Who) {}

    fn left(&self, _bank: BankNo, _who: Who) {}

    fn answered(&self, client: ClientId, index: usize) {
        if client.number() != self.waiting.number() && index == 0 {
            self.has_answered.set();
        }
    }
}

/// Holds each home inside its bank until the other is inside its own.
#[derive(Drop)]
struct HomesMeet {
    is_inside: [Flag; 2],
    has_failed: Flag,
}

impl Gate for HomesMeet {
    fn before(&self, _client: ClientId, _index: usize) {}

    fn locked(&self, bank: BankNo, who: Who) {
        if let Who::Home = who {
            let [first, second] = &self.is_inside;
            let (own, other) = if bank.number() == 0 {
                (first, second)
            } else {
                (second, first)
            };
            if !own.is_set() {
                own.set();
                if !other.is_set_in_time() {
                    self.has_failed.set();
                }
            }
        }
    }

    fn left(&self, _bank: BankNo, _who: Who) {}

    fn answered(&self, _client: ClientId, _index: usize) {}
}

/// The script of each client loading from its address.
fn script_of(alloc: Global, addresses: [&str; 2]) -> Option<Script> {
    let [first, second] = addresses;
    let text = format!(in alloc;
        "{NUMBERS}commands = [[\"load {first} 1\"], [\"load {second} 1\"]]\n"
    ).ok()?;
    read_script(alloc, text.as_bytes()).ok()
}

/// Whether a report has this text. `None` where a request for memory was refused.
fn has_text(alloc: Global, report: &Report, wanted: &str) -> Option<bool> {
    let text = report.text(alloc).ok()?;
    Some(text.as_str() == wanted)
}

/// Whether this is the report of a run under a gate.
fn reports<R: Threads + Wait + Clock + Sync, G: Gate + Sync>(
    rt: &R,
    alloc: Global,
    script: &Script,
    gate: &G,
    wanted: &str,
) -> Option<bool> {
    let report = run(rt, alloc, script, gate).ok()?;
    has_text(alloc, &report, wanted)
}

/// Whether this is the report of each client loading from its address, under a gate.
fn loads<R: Threads + Wait + Clock + Sync, G: Gate + Sync>(
    rt: &R,
    alloc: Global,
    addresses: [&str; 2],
    gate: &G,
    wanted: &str,
) -> Option<bool> {
    let script = script_of(alloc, addresses)?;
    reports(rt, alloc, &script, gate, wanted)
}

/// The same where this client waits for the other one, and whether it waited in vain.
fn loads_in_turn<R: Threads + Wait + Clock + Sync>(
    rt: &R,
    alloc: Global,
    waiting: u32,
    addresses: [&str; 2],
    wanted: &str,
) -> (Option<bool>, bool) {
    let gate = OneClientWaits {
        waiting: ClientId::new(waiting),
        has_answered: Flag::new(),
        has_failed: Flag::new(),
    };
    let is_reported = loads(rt, alloc, addresses, &gate, wanted);
    (is_reported, gate.has_failed.is_set())
}

const STRAIGHT_REPORT: &str = "\
client 0\n\
0 load 0x00000000 00\n\
client 1\n\
0 load 0x00000008 00\n\
bank 0 held 1 recorded 1\n\
bank 1 held 1 recorded 1\n\
ok\n";

const CROSSED_REPORT: &str = "\
client 0\n\
0 load 0x00000008 00\n\
client 1\n\
0 load 0x00000000 00\n\
bank 0 held 1 recorded 1\n\
bank 1 held 1 recorded 1\n\
ok\n";

/// Whether the report is `STRAIGHT_REPORT` where one lock is held, and whether it was held in vain.
fn loads_beside_a_lock<R: Threads + Wait + Clock + Sync>(
    rt: &R,
    alloc: Global,
) -> (Option<bool>, bool) {
    let gate = OneLockIsHeld {
        has_locked: Flag::new(),
        has_left: Flag::new(),
        has_failed: Flag::new(),
    };
    let is_reported = loads(rt, alloc, STRAIGHT, &gate, STRAIGHT_REPORT);
    (is_reported, gate.has_failed.is_set())
}

#[test]
fn each_bank_has_a_lock_of_its_own(rt: HostRuntime) {
    assert_eq!(rt; loads_beside_a_lock(&rt, rt.alloc()), (Some(true), false));
}

/// A client that waits, the clients' addresses, and the report.
const IN_TURN: &[(u32, [&str; 2], &str)] = &[
    (0, STRAIGHT, STRAIGHT_REPORT),
    (0, CROSSED, CROSSED_REPORT),
    (1, STRAIGHT, STRAIGHT_REPORT),
    (1, CROSSED, CROSSED_REPORT),
];

#[test]
fn each_client_has_a_thread_of_its_own(rt: HostRuntime) {
    for (waiting, addresses, wanted) in IN_TURN {
        assert_eq!(rt;
            loads_in_turn(&rt, rt.alloc(), *waiting, *addresses, *wanted),
            (Some(true), false)
        );
    }
}

/// Whether the report is `STRAIGHT_REPORT` where the homes meet, and whether one waited in vain.
fn loads_as_homes_meet<R: Threads + Wait + Clock + Sync>(
    rt: &R,
    alloc: Global,
) -> (Option<bool>, bool) {
    let gate = HomesMeet {
        is_inside: [Flag::new(), Flag::new()],
        has_failed: Flag::new(),
    };
    let is_reported = loads(rt, alloc, STRAIGHT, &gate, STRAIGHT_REPORT);
    (is_reported, gate.has_failed.is_set())
}

#[test]
fn each_home_has_a_thread_of_its_own(rt: HostRuntime) {
    assert_eq!(rt; loads_as_homes_meet(&rt, rt.alloc()), (Some(true), false));
}
