//! One client and one bank, turn by turn in one thread.
use crate::counts::Counts;
use crate::mails::{open_two, two_mails};
use crate::turns::{Played, Workers, bank_of, lock_up, play_out};
use std::alloc::Global;
use std::sync::Wait;
use std::time::Clock;
use tl_bank::{Bank, Share};
use tl_client::{Agent, Command, Locked, Turn};
use tl_map::{Geometry, GeometryNumbers};
use tl_types::{BankNo, BlockNo, ClientId, Perm};

/// One client with one copy, one bank with one way and one register, and four blocks of eight bytes.
const NUMBERS: GeometryNumbers = GeometryNumbers {
    version: 1,
    clients: 1,
    banks: 1,
    block_bytes: 8,
    sets: 1,
    ways: 2,
    registers: 1,
    copies: 2,
    memory_blocks: 4,
};

/// What is seen of a script that ended: how many commands were answered, the first byte that the last one has, how many
/// copies the client holds, and what it may do with block 2.
type Outcome = (usize, Option<u8>, u64, Perm);

/// The bank behind its lock, and the client's share.
fn lock(alloc: Global, geometry: Geometry) -> Option<(Locked, Vec<Share>)> {
    let (bank, mut given) = Bank::new(alloc, geometry, BankNo::new(0), &[]).ok()?;
    let share = given.pop()?;
    lock_up(alloc, geometry, bank, share)
}

/// The turns of an agent and of a home over inboxes and bells of their own.
fn exchange<R: Wait + Clock>(
    rt: &R,
    alloc: Global,
    locked: &Locked,
    gate: &Counts,
    agent: Option<Agent<'_>>,
) -> Option<Played> {
    let (rooms, keys) = open_two(alloc)?;
    let mails = two_mails(alloc, &rooms, keys);
    let workers = Workers::new(alloc, ClientId::new(0), agent, mails);
    play_out(rt, alloc, locked, gate, workers, 1)
}

/// How many copies the client holds, and what it may do with block 2.
fn held(bank: Option<Bank>) -> Option<(u64, Perm)> {
    let bank = bank?;
    Some((bank.held(), bank.perm(ClientId::new(0), BlockNo::new(2))))
}

/// What is seen, where both have finished.
fn outcome(played: Option<Played>, held: Option<(u64, Perm)>) -> Option<Outcome> {
    let (played, (copies, perm)) = played.zip(held)?;
    if (played.ours, played.theirs) == (Turn::Finished, Turn::Finished) {
        Some((played.answered, played.last, copies, perm))
    } else {
        None
    }
}

/// Plays a script with its client's agent and its bank's home. `None` where it did not end, or memory was refused.
fn play<R: Wait + Clock>(
    rt: &R,
    alloc: Global,
    gate: &Counts,
    commands: &[Command],
) -> Option<Outcome> {
    let geometry = Geometry::new(NUMBERS).ok()?;
    let (locked, shares) = lock(alloc, geometry)?;
    let agent = Agent::new(alloc, ClientId::new(0), geometry, commands, shares).ok();
    let played = exchange(rt, alloc, &locked, gate, agent);
    outcome(played, held(bank_of(alloc, locked)))
}

/// The same at a gate that nobody asks.
fn outcome_of<R: Wait + Clock>(rt: &R, alloc: Global, commands: &[Command]) -> Option<Outcome> {
    play(rt, alloc, &Counts::new(), commands)
}

/// How often a gate was asked before a command and was told an answer, and whether each lock that it saw taken was
/// left.
fn gate_of<R: Wait + Clock>(
    rt: &R,
    alloc: Global,
    commands: &[Command],
) -> Option<(u32, u32, bool)> {
    let gate = Counts::new();
    let _outcome = play(rt, alloc, &gate, commands)?;
    Some((
        gate.before.get(),
        gate.answered.get(),
        gate.locked.get() == gate.left.get(),
    ))
}

fn load(address: u32) -> Command {
    Command::Load { address, len: 1 }
}

#[test]
fn a_full_table_gives_up_the_oldest(rt: HostRuntime) {
    let commands = [load(16), load(0), load(8)];
    assert_eq!(rt;
        outcome_of(&rt, rt.alloc(), &commands),
        Some((3, Some(0), 2, Perm::None))
    );
}

#[test]
fn a_gate_sees_each_try_and_one_answer(rt: HostRuntime) {
    let commands = [load(0), load(0)];
    // The first load is tried before its Acquire and after its Grant, the second once.
    assert_eq!(rt; gate_of(&rt, rt.alloc(), &commands), Some((3, 2, true)));
}
