//! A worker makes no turn after one in which the stop bell was rung.

use crate::mails::{open_bell, open_two, two_mails};
use crate::turns::lock_up;
use arrayvec::ArrayVec;
use std::alloc::Global;
use std::sync::Wait;
use std::time::Clock;
use tl_bank::{Action, Bank, Loaded, Refusal, Reply, Share, When};
use tl_client::{Agent, Command, Free, Home, HomePort, Locked, Mail, Port, Success};
use tl_map::{Geometry, GeometryNumbers};
use tl_runner_threads::{Course, End, Shared, client_turns, home_turns};
use tl_tickets::Ringer;
use tl_types::{BankNo, BlockNo, ClientId, Grow, Perm, Prune, Ticket};

/// One client, and one bank with one block of eight bytes.
const NUMBERS: GeometryNumbers = GeometryNumbers {
    version: 1,
    clients: 1,
    banks: 1,
    block_bytes: 8,
    sets: 1,
    ways: 1,
    registers: 1,
    copies: 1,
    memory_blocks: 1,
};

/// How many turns a worker may make. One that makes the second has none left, and ends Stalled.
const TURNS: u32 = 2;

/// A port to no bank, which rings the stop bell when a turn begins, and counts the turns. It refuses all that it is
/// asked.
#[derive(Drop)]
struct Rings<'x> {
    stop: Ringer<'x>,
    turns: u32,
}

impl<'x> Rings<'x> {
    fn begin_turn(&mut self) {
        self.turns = self.turns.saturating_add(1);
        self.stop.ring();
    }
}

impl<'x> Port for Rings<'x> {
    ghost use Rattle.std.specs.Prelude.{[]};

    ghost successes = { λ p. [] };

    ghost asked = { λ p. [] };

    fn begin(&mut self) {
        self.begin_turn();
    }

    fn successes(&self) -> &[Success] {
        &[]
    }

    fn load(
        &mut self,
        _client: ClientId,
        _address: u32,
        _len: usize,
        _when: When,
    ) -> Result<Loaded, Refusal> {
        Err(Refusal::NoPermission)
    }

    fn store(
        &mut self,
        _client: ClientId,
        _address: u32,
        _bytes: &[u8],
        _when: When,
    ) -> Result<u64, Refusal> {
        Err(Refusal::NoPermission)
    }

    fn acquire(
        &mut self,
        _client: ClientId,
        _block: BlockNo,
        _grow: Grow,
    ) -> Result<Ticket, Refusal> {
        Err(Refusal::NotYet)
    }

    fn release(
        &mut self,
        _client: ClientId,
        _block: BlockNo,
        _prune: Prune,
        _share: &mut Share,
    ) -> Result<Ticket, Refusal> {
        Err(Refusal::NotYet)
    }

    fn answer_probe(&mut self, _ticket: Ticket, _share: &mut Share) -> Result<Ticket, Refusal> {
        Err(Refusal::Memory)
    }

    fn take_grant(&mut self, _ticket: Ticket, _share: &mut Share) -> Result<Ticket, Refusal> {
        Err(Refusal::Memory)
    }

    fn take_release_ack(&mut self, _ticket: Ticket) -> Result<(), Refusal> {
        Err(Refusal::Memory)
    }

    fn perm(&self, _client: ClientId, _block: BlockNo) -> Perm {
        Perm::None
    }

    fn oldest_copy(&self, _client: ClientId, _bank: BankNo) -> Option<BlockNo> {
        None
    }
}

impl<'x> HomePort for Rings<'x> {
    ghost use Rattle.std.specs.Prelude.{[]};

    ghost asked = { λ p. [] };

    fn begin(&mut self) {
        self.begin_turn();
    }

    fn accept(&mut self, _ticket: Ticket) -> Result<(), Refusal> {
        Err(Refusal::Memory)
    }

    fn take_c(&mut self, _ticket: Ticket) -> Result<Option<Ticket>, Refusal> {
        Err(Refusal::Memory)
    }

    fn take_grant_ack(&mut self, _ticket: Ticket) -> Result<(), Refusal> {
        Err(Refusal::Memory)
    }

    fn advance(&mut self, _block: BlockNo) -> Result<Action, Refusal> {
        Err(Refusal::NotYet)
    }

    fn evict(&mut self, _block: BlockNo) -> Result<(), Refusal> {
        Err(Refusal::NotYet)
    }

    fn serve_memory(&mut self, _block: BlockNo) -> Result<Reply, Refusal> {
        Err(Refusal::NotYet)
    }

    fn take_memory(&mut self, _block: BlockNo) -> Result<(), Refusal> {
        Err(Refusal::NotYet)
    }

    fn open_blocks(&self) -> ArrayVec<BlockNo, 8> {
        ArrayVec::new()
    }

    fn is_quiet(&self) -> bool {
        false
    }
}

/// What is seen of a worker's turns: how they end, and how many there were.
type Seen = (End, u32);

/// What is seen of the turns of a client's agent at such a port.
fn client_seen<R: Wait + Clock>(
    rt: &R,
    shared: &Shared<'_, Free>,
    mut port: Rings<'_>,
    stop: Ringer<'_>,
    own: Option<(Agent<'_>, Mail<'_>)>,
) -> Option<Seen> {
    let (mut agent, mut mail) = own?;
    let mut course = Course::new(stop, shared.turns);
    let end = client_turns(rt, shared, &mut port, &mut agent, &mut mail, &mut course);
    Some((end, port.turns))
}

/// What is seen of the turns of a home at such a port.
fn home_seen<R: Wait + Clock>(
    rt: &R,
    shared: &Shared<'_, Free>,
    mut port: Rings<'_>,
    stop: Ringer<'_>,
    own: Option<(Home, Mail<'_>)>,
) -> Option<Seen> {
    let (mut home, mut mail) = own?;
    let mut course = Course::new(stop, shared.turns);
    let end = home_turns(rt, shared, &mut port, &mut home, &mut mail, &mut course);
    Some((end, port.turns))
}

/// Whose worker is looked at.
#[derive(Clone, Copy)]
enum Whose {
    Client,
    Home,
}

/// What is seen of one of the workers with these mails and shares. The client has two drops to do, each of which takes
/// a turn.
fn seen_with<R: Wait + Clock>(
    rt: &R,
    shared: &Shared<'_, Free>,
    geometry: Geometry,
    whose: Whose,
    mails: (Option<Mail<'_>>, Option<Mail<'_>>),
    bells: (Ringer<'_>, Ringer<'_>),
    shares: Vec<Share>,
) -> Option<Seen> {
    let (rings, hears) = bells;
    let port = Rings {
        stop: rings,
        turns: 0,
    };
    match whose {
        Whose::Client => {
            let drops = [Command::Drop { address: 0 }, Command::Drop { address: 0 }];
            let client = ClientId::new(0);
            let agent = Agent::new(shared.alloc, client, geometry, &drops, shares).ok();
            client_seen(rt, shared, port, hears, agent.zip(mails.0))
        }
        Whose::Home => {
            let home = Home::new(shared.alloc, BankNo::new(0)).ok();
            home_seen(rt, shared, port, hears, home.zip(mails.1))
        }
    }
}

/// The same over inboxes and bells of their own.
fn seen_in<R: Wait + Clock>(
    rt: &R,
    shared: &Shared<'_, Free>,
    geometry: Geometry,
    whose: Whose,
    shares: Vec<Share>,
) -> Option<Seen> {
    let (rooms, keys) = open_two(shared.alloc)?;
    let (bell, rings, hears) = open_bell(shared.alloc)?;
    let bells = (Ringer::new(&bell, rings), Ringer::new(&bell, hears));
    let mails = two_mails(shared.alloc, &rooms, keys);
    seen_with(rt, shared, geometry, whose, mails, bells, shares)
}

/// The bank behind its lock, and the client's share.
fn lock(alloc: Global, geometry: Geometry) -> Option<(Locked, Vec<Share>)> {
    let (bank, mut given) = Bank::new(alloc, geometry, BankNo::new(0), &[]).ok()?;
    let share = given.pop()?;
    lock_up(alloc, geometry, bank, share)
}

/// The same over a bank of their own. `None` where a request for memory was refused.
fn seen<R: Wait + Clock>(rt: &R, alloc: Global, whose: Whose) -> Option<Seen> {
    let geometry = Geometry::new(NUMBERS).ok()?;
    let (locked, shares) = lock(alloc, geometry)?;
    let gate = Free;
    let shared = Shared {
        alloc,
        locked: &locked,
        gate: &gate,
        clients: 1,
        turns: TURNS,
    };
    seen_in(rt, &shared, geometry, whose, shares)
}

#[test]
fn a_client_in_whose_first_turn_the_stop_bell_is_rung_makes_no_other(rt: HostRuntime) {
    let seen = seen(&rt, rt.alloc(), Whose::Client);
    assert_eq!(rt; seen, Some((End::Stopped, 1)));
}

#[test]
fn a_home_in_whose_first_turn_the_stop_bell_is_rung_makes_no_other(rt: HostRuntime) {
    let seen = seen(&rt, rt.alloc(), Whose::Home);
    assert_eq!(rt; seen, Some((End::Stopped, 1)));
}
