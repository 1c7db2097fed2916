//! A client that holds a block and has no thread: the others wait for ever, and nothing is broken.
ghost use Rattle.tl_tickets.specs.Inbox.{IsReceiverOf, IsSenderOf};
ghost use Rattle.tl_tickets.specs.Bell.{IsSeatOf};

use crate::mails::{
    Key, Keys, Room, Rooms, inside, mail, mail_of, open_outside, open_two, outside, way,
};
use crate::turns::{Played, Workers, bank_of, lock_up, play_out};
use crossbeam_utils::sync::{Parker, Unparker};
use std::alloc::Global;
use std::sync::Wait;
use std::time::Clock;
use tl_bank::{Action, Bank, Refusal, Share};
use tl_client::{Agent, Command, Free, Locked, Mail, Turn};
use tl_client_mail::Sending;
use tl_map::{Geometry, GeometryNumbers};
use tl_protocol::{Event, Shape};
use tl_rules::{BlockState, Plain};
use tl_tickets::{Receiver, Ringer, Sender};
use tl_types::{BankNo, BlockNo, ClientId, Grow, Perm};

/// Two clients, one bank with one way and one register, and two blocks of eight bytes.
const NUMBERS: GeometryNumbers = GeometryNumbers {
    version: 1,
    clients: 2,
    banks: 1,
    block_bytes: 8,
    sets: 1,
    ways: 1,
    registers: 1,
    copies: 1,
    memory_blocks: 2,
};

const SHAPE: Shape = Shape {
    clients: 2,
    blocks: 2,
    block_bytes: 8,
};

/// Client 0 gets block 0 to write it, by calls alone. The errors are those of the calls, and `NotYet` where home sends
/// a Probe or a block away first.
pub fn fetch(bank: &mut Bank, share: &mut Share) -> Result<(), Refusal> {
    let block = BlockNo::new(0);
    let asked = bank.acquire(ClientId::new(0), block, Grow::NtoT)?;
    bank.accept(asked)?;
    for _ in 0..2 {
        match bank.advance(block)? {
            Action::Get => {
                let _reply = bank.serve_memory(block)?;
                bank.take_memory(block)?;
            }
            Action::Grant(ticket) => {
                let ack = bank.take_grant(ticket, share)?;
                bank.take_grant_ack(ack)?;
            }
            Action::Probe(_) | Action::Put(_) | Action::Drop => return Err(Refusal::NotYet),
        }
    }
    Ok(())
}

/// Whether these events, one after another, are permitted in the plain map.
fn apply(plain: &mut Plain, events: &[Event]) -> bool {
    for event in events {
        if plain.apply(event).is_err() {
            return false;
        }
    }
    true
}

/// Whether the plain map and the bank show the same of a client at a block: what it holds, and what is recorded of it.
fn is_same_client(plain: &BlockState, bank: &Bank, client: ClientId, block: BlockNo) -> bool {
    let Some(state) = plain.client(client) else {
        return false;
    };
    plain.perm(client) == bank.perm(client, block)
        && state.recorded == bank.directory(client, block)
}

/// Whether they show the same of a block: of both clients, and of home's copy, with its dirty flag.
fn is_same_block(plain: &Plain, bank: &Bank, block: BlockNo) -> bool {
    let Some(state) = plain.block(block.number()) else {
        return false;
    };
    state.home().map(|line| line.dirty) == bank.home(block)
        && is_same_client(state, bank, ClientId::new(0), block)
        && is_same_client(state, bank, ClientId::new(1), block)
}

/// How many copies the plain map has above None, and how many are recorded so.
fn counts(plain: &Plain) -> (u64, u64) {
    let mut held = 0u64;
    let mut recorded = 0u64;
    for number in 0..SHAPE.blocks {
        if let Some(block) = plain.block(number) {
            held = held.saturating_add(block.held() as u64);
            recorded = recorded.saturating_add(block.recorded() as u64);
        }
    }
    (held, recorded)
}

/// Whether the plain map and the bank show the same: permissions, directory, home and counts.
fn are_same(plain: &Plain, bank: &Bank) -> bool {
    is_same_block(plain, bank, BlockNo::new(0))
        && is_same_block(plain, bank, BlockNo::new(1))
        && counts(plain) == (bank.held(), bank.outstanding())
}

/// Whether the bank's log, applied to the plain map, leaves what the bank shows. `None` where a request for memory was
/// refused.
fn replays(alloc: Global, bank: &Bank) -> Option<bool> {
    let mut plain = Plain::new(alloc, SHAPE, &[]).ok()?;
    Some(apply(&mut plain, bank.log()) && are_same(&plain, bank))
}

/// The bank at reset, and the shares of client 0 and client 1.
pub fn fresh(alloc: Global, geometry: Geometry) -> Option<(Bank, Share, Share)> {
    let (bank, mut given) = Bank::new(alloc, geometry, BankNo::new(0), &[]).ok()?;
    match (given.pop(), given.pop()) {
        (Some(second), Some(first)) => Some((bank, first, second)),
        _ => None,
    }
}

/// The bank behind its lock, once client 0 has block 0, and client 1's share.
fn lock(alloc: Global, geometry: Geometry) -> Option<(Locked, Vec<Share>)> {
    let (mut bank, mut first, second) = fresh(alloc, geometry)?;
    fetch(&mut bank, &mut first).ok()?;
    lock_up(alloc, geometry, bank, second)
}

/// The ways of a home to its two clients, in order.
fn both_ways<'a>(
    alloc: Global,
    first: (Sender<'a>, Ringer<'a>),
    second: (Sender<'a>, Ringer<'a>),
    rest: &Unparker,
) -> Option<Vec<Sending<'a>>> {
    let (first, second) = way(alloc, first, rest).zip(way(alloc, second, rest))?;
    Vec::from_array(alloc, [first, second]).ok()
}

/// The same, and where the home rests.
fn both_ways_and_rest<'a>(
    alloc: Global,
    first: (Sender<'a>, Ringer<'a>),
    second: (Sender<'a>, Ringer<'a>),
) -> Option<(Vec<Sending<'a>>, Parker)> {
    let parker = Parker::new(alloc).ok()?;
    both_ways(alloc, first, second, parker.unparker()).zip(Some(parker))
}

/// The mail of a home to its two clients. One thread plays both, so that a ring need wake nobody: each way wakes the
/// home.
fn home_mail<'a>(
    alloc: Global,
    own: (Receiver<'a>, Ringer<'a>),
    to_silent: (Sender<'a>, Ringer<'a>),
    to_waiting: (Sender<'a>, Ringer<'a>),
    done: Ringer<'a>,
) -> Option<Mail<'a>> {
    mail_of(own, both_ways_and_rest(alloc, to_silent, to_waiting), done)
}

/// The mails of the client that waits, whose room is the first of the two, and of the home. `None` where a request for
/// memory was refused.
fn mails<'a>(
    alloc: Global,
    silent: &'a Room,
    to_silent: Key,
    rooms: &'a Rooms,
    keys: Keys,
) -> (Option<Mail<'a>>, Option<Mail<'a>>)
    requires to_silent { IsSenderOf silent.now.inbox to_silent.pass × IsSeatOf silent.now.bell to_silent.seat }
    requires waiting { IsReceiverOf rooms.now.one.inbox keys.one.pass × IsSeatOf rooms.now.one.bell keys.one.seat }
    requires to_waiting { IsSenderOf rooms.now.one.inbox keys.to_one.pass
        × IsSeatOf rooms.now.one.bell keys.to_one.seat }
    requires home { IsReceiverOf rooms.now.other.inbox keys.other.pass × IsSeatOf rooms.now.other.bell keys.other.seat }
    requires to_home { IsSenderOf rooms.now.other.inbox keys.to_other.pass
        × IsSeatOf rooms.now.other.bell keys.to_other.seat }
    requires done { IsSeatOf rooms.now.done keys.rings × IsSeatOf rooms.now.done keys.hears }
{
    let first = mail(
        alloc,
        inside(&rooms.one, keys.one),
        outside(&rooms.other, keys.to_other),
        Ringer::new(&rooms.done, keys.rings),
    );
    let second = home_mail(
        alloc,
        inside(&rooms.other, keys.other),
        outside(silent, to_silent),
        outside(&rooms.one, keys.to_one),
        Ringer::new(&rooms.done, keys.hears),
    );
    (first, second)
}

/// The turns of client 1's agent and of the home, where the home also sends to a room in which nobody is.
fn wait_for<R: Wait + Clock>(
    rt: &R,
    alloc: Global,
    locked: &Locked,
    agent: Option<Agent<'_>>,
    silent: &Room,
    to_silent: Key,
) -> Option<Played>
    requires { IsSenderOf silent.now.inbox to_silent.pass × IsSeatOf silent.now.bell to_silent.seat }
{
    let (rooms, keys) = open_two(alloc)?;
    let mails = mails(alloc, silent, to_silent, &rooms, keys);
    let workers = Workers::new(alloc, ClientId::new(1), agent, mails);
    play_out(rt, alloc, locked, &Free, workers, 2)
}

/// The turns of client 1's agent and of the home, while client 0 is silent.
fn wait_for_the_silent<R: Wait + Clock>(
    rt: &R,
    alloc: Global,
    locked: &Locked,
    agent: Option<Agent<'_>>,
) -> Option<Played> {
    let (silent, to_silent) = open_outside(alloc)?;
    wait_for(rt, alloc, locked, agent, &silent, to_silent)
}

/// What is seen of the bank: what each client may do with block 0, whether it is quiet, and whether its log replays to
/// what it shows.
type Shown = (Perm, Perm, bool, bool);

/// What each client may do with block 0.
fn perms(bank: &Bank) -> (Perm, Perm) {
    let block = BlockNo::new(0);
    (
        bank.perm(ClientId::new(0), block),
        bank.perm(ClientId::new(1), block),
    )
}

/// What is seen of a bank. `None` where a request for memory was refused.
fn seen(alloc: Global, bank: &Bank) -> Option<Shown> {
    let replays = replays(alloc, bank)?;
    let (first, second) = perms(bank);
    Some((first, second, bank.is_quiet(), replays))
}

/// What is seen of a bank, where there is one.
fn shown(alloc: Global, bank: Option<Bank>) -> Option<Shown> {
    seen(alloc, &bank?)
}

/// Whether client 1's agent or the home finished, and how many answers the agent had.
fn answered(played: Option<Played>) -> Option<(bool, usize)> {
    let played = played?;
    let has_finished = played.ours == Turn::Finished || played.theirs == Turn::Finished;
    Some((has_finished, played.answered))
}

/// What is seen of a load of block 0 by client 1, for which the home waits for client 0.
fn observed<R: Wait + Clock>(rt: &R, alloc: Global) -> Option<((bool, usize), Shown)> {
    let geometry = Geometry::new(NUMBERS).ok()?;
    let (locked, shares) = lock(alloc, geometry)?;
    let commands = [Command::Load { address: 0, len: 1 }];
    let agent = Agent::new(alloc, ClientId::new(1), geometry, &commands, shares).ok();
    let played = wait_for_the_silent(rt, alloc, &locked, agent);
    answered(played).zip(shown(alloc, bank_of(alloc, locked)))
}

#[test]
fn nothing_is_answered_and_nothing_broken(rt: HostRuntime) {
    assert_eq!(rt;
        observed(&rt, rt.alloc()),
        Some(((false, 0), (Perm::Tip, Perm::None, false, true)))
    );
}
