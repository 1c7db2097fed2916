//! Turns without their contracts, which are long: a test of many turns compares plain answers alone.
use std::alloc::Global;
use std::marker::Model;
use std::sync::Wait;
use std::time::Clock;
use tl_bank::{Bank, Share};
use tl_client::{Agent, Gate, Home, HomePort, Locked, Mail, Port, Turn};
use tl_map::Geometry;
use tl_types::{AccessBytes, BankNo, ClientId};

/// A turn of an agent.
pub fn agent_turn<P: Port, G: Gate, R: Wait + Clock>(
    rt: &R,
    agent: &mut Agent<'_>,
    port: &mut P,
    gate: &G,
    clients: u32,
    mail: &mut Mail<'_>,
) -> Turn {
    agent.turn(rt, port, gate, clients, mail)
}

/// A turn of a home.
pub fn home_turn<P: HomePort, G: Gate, R: Wait + Clock>(
    rt: &R,
    home: &mut Home,
    port: &mut P,
    gate: &G,
    clients: u32,
    mail: &mut Mail<'_>,
) -> Turn {
    home.turn(rt, port, gate, clients, mail)
}

/// How many turns of both a script takes at most.
const TURNS: u32 = 1000;

/// A client's agent and the home of bank 0, with their mails. Its model says nothing, so that many turns have their
/// answers alone to carry along.
#[derive(Drop)]
pub struct Workers<'a> {
    agent: Agent<'a>,
    client: ClientId,
    client_mail: Mail<'a>,
    home: Home,
    home_mail: Mail<'a>,
}

impl<'a> Model for Workers<'a> {
    ghost Value = { Unit {0} };

    ghost view = { λ _. tt };
}

impl<'a> Workers<'a> {
    /// An agent of a client, and a home that has no tickets, with these mails. `None` where one of them is missing, or
    /// a request for memory was refused.
    pub fn new(
        alloc: Global,
        client: ClientId,
        agent: Option<Agent<'a>>,
        mails: (Option<Mail<'a>>, Option<Mail<'a>>),
    ) -> Option<Workers<'a>> {
        let home = Home::new(alloc, BankNo::new(0)).ok();
        let ((agent, home), (client_mail, home_mail)) = agent.zip(home).zip(mails.0.zip(mails.1))?;
        Some(Workers {
            agent,
            client,
            client_mail,
            home,
            home_mail,
        })
    }

    /// A turn of each.
    fn take_turn<P: Port, Q: HomePort, G: Gate, R: Wait + Clock>(
        &mut self,
        rt: &R,
        port: &mut P,
        home_port: &mut Q,
        gate: &G,
        clients: u32,
    ) -> (Turn, Turn) {
        let ours = agent_turn(
            rt,
            &mut self.agent,
            port,
            gate,
            clients,
            &mut self.client_mail,
        );
        let theirs = home_turn(
            rt,
            &mut self.home,
            home_port,
            gate,
            clients,
            &mut self.home_mail,
        );
        (ours, theirs)
    }

    /// The turns of both, one after another, until both have finished or 1,000 times. What the last one of each was.
    fn take_turns<P: Port, Q: HomePort, G: Gate, R: Wait + Clock>(
        &mut self,
        rt: &R,
        port: &mut P,
        home_port: &mut Q,
        gate: &G,
        clients: u32,
    ) -> (Turn, Turn) {
        let mut last = (Turn::Idle, Turn::Idle);
        for _ in 0..TURNS {
            last = self.take_turn(rt, port, home_port, gate, clients);
            if last == (Turn::Finished, Turn::Finished) {
                break;
            }
        }
        last
    }

    /// The same at the ports of these banks. `None` where there is no bank 0.
    fn take_turns_at<G: Gate, R: Wait + Clock>(
        &mut self,
        rt: &R,
        alloc: Global,
        locked: &Locked,
        gate: &G,
        clients: u32,
    ) -> Option<(Turn, Turn)> {
        let mut home_port = locked.home_port(rt, gate, BankNo::new(0))?;
        let mut port = locked.client_port(rt, alloc, gate, self.client);
        Some(self.take_turns(rt, &mut port, &mut home_port, gate, clients))
    }

    /// How many commands were answered, and the first byte that the last one has.
    fn into_answers(self) -> (usize, Option<u8>) {
        let (answered, _shares) = self.agent.into_parts();
        (answered.len(), answered.last().and_then(first_byte))
    }
}

fn first_byte(bytes: &AccessBytes) -> Option<u8> {
    bytes.as_slice().first().copied()
}

/// What the last turn of an agent and of a home was, how many commands were answered, and the first byte that the last
/// one has.
#[derive(Clone, Copy)]
pub struct Played {
    pub ours: Turn,
    pub theirs: Turn,
    pub answered: usize,
    pub last: Option<u8>,
}

/// The turns that were taken, and the answers.
fn together(turns: Option<(Turn, Turn)>, answers: (usize, Option<u8>)) -> Option<Played> {
    let (ours, theirs) = turns?;
    let (answered, last) = answers;
    Some(Played {
        ours,
        theirs,
        answered,
        last,
    })
}

/// What is seen once these workers took their turns. `None` where there are none, or no bank 0.
pub fn play_out<G: Gate, R: Wait + Clock>(
    rt: &R,
    alloc: Global,
    locked: &Locked,
    gate: &G,
    workers: Option<Workers<'_>>,
    clients: u32,
) -> Option<Played> {
    let mut workers = workers?;
    let turns = workers.take_turns_at(rt, alloc, locked, gate, clients);
    together(turns, workers.into_answers())
}

/// A cache of one bank behind its lock.
fn cache_of(alloc: Global, geometry: Geometry, bank: Bank) -> Option<Locked> {
    let banks = Vec::from_array(alloc, [bank]).ok()?;
    Locked::new(alloc, geometry, banks).ok()
}

/// A cache of one bank behind its lock, and a list of this share.
pub fn lock_up(
    alloc: Global,
    geometry: Geometry,
    bank: Bank,
    share: Share,
) -> Option<(Locked, Vec<Share>)> {
    cache_of(alloc, geometry, bank).zip(Vec::from_array(alloc, [share]).ok())
}

/// The bank behind its lock, where there is one.
pub fn bank_of(alloc: Global, locked: Locked) -> Option<Bank> {
    locked.into_banks(alloc).ok()?.pop()
}
