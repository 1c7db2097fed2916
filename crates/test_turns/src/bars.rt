//! A ticket of an agent that was refused bars the later ones of its bank and channel, and is asked again before them.
use crate::mails::{first_mail, open_two};
use crate::order::are_serials;
use crate::recorder::Recorder;
use crate::turns::agent_turn;
use std::alloc::Global;
use std::marker::Model;
use std::sync::Wait;
use std::time::Clock;
use tl_bank::{Bank, Share};
use tl_client::{Agent, Free, Mail, Turn};
use tl_map::{Geometry, GeometryNumbers};
use tl_tickets::{Ringer, Sender};
use tl_types::{BankNo, Channel, ClientId, Ticket};

/// One client, and one bank with one block.
pub const NUMBERS: GeometryNumbers = GeometryNumbers {
    version: 1,
    clients: 1,
    banks: 1,
    block_bytes: 8,
    sets: 1,
    ways: 1,
    registers: 1,
    copies: 1,
    memory_blocks: 1,
};

/// Two Probes and two Grants.
const SENT: &[(Channel, u64)] = &[
    (Channel::B, 0),
    (Channel::B, 1),
    (Channel::D, 5),
    (Channel::D, 6),
];

/// An agent, with its port and its mail, and the ends of the one who sends to it. Its model says nothing, so that its
/// turns have their answers alone to carry along.
#[derive(Drop)]
pub struct Scene<'a> {
    agent: Agent<'a>,
    pub port: Recorder,
    mail: Mail<'a>,
    put: Sender<'a>,
    bell: Ringer<'a>,
}

impl<'a> Model for Scene<'a> {
    ghost Value = { Unit {0} };

    ghost view = { λ _. tt };
}

impl Scene<'_> {
    /// Puts tickets of these channels and serials, and then rings. Whether there was room.
    pub fn send<R: Wait>(&mut self, rt: &R, tickets: &[(Channel, u64)]) -> bool {
        for (channel, serial) in tickets {
            let sent = Ticket {
                bank: BankNo::new(0),
                client: ClientId::new(0),
                channel: *channel,
                serial: *serial,
            };
            if self.put.put(rt, sent).is_err() {
                return false;
            }
        }
        self.bell.ring()
    }

    /// Whether a turn worked, and asked just the tickets with these serials, in order. There are two clients, of which
    /// one is never done.
    pub fn asks<R: Wait + Clock>(&mut self, rt: &R, serials: &[u64]) -> bool {
        let turn = agent_turn(
            rt,
            &mut self.agent,
            &mut self.port,
            &Free,
            2,
            &mut self.mail,
        );
        turn == Turn::Worked && are_serials(self.port.asked.as_slice(), serials)
    }

    /// Whether the first ticket of each channel alone is asked while it is refused, and then all of them.
    fn plays<R: Wait + Clock>(&mut self, rt: &R) -> bool {
        if !self.send(rt, SENT) || !self.asks(rt, &[5, 0]) || !self.asks(rt, &[5, 0]) {
            return false;
        }
        self.port.refuses = false;
        self.asks(rt, &[5, 6, 0, 1])
    }
}

/// The share of the one client in the one bank.
pub fn shares(alloc: Global, geometry: Geometry) -> Option<Vec<Share>> {
    let (_bank, mut given) = Bank::new(alloc, geometry, BankNo::new(0), &[]).ok()?;
    Vec::from_array(alloc, [given.pop()?]).ok()
}

/// The scene of an agent with this mail. `None` where a request for memory was refused.
pub fn scene_of<'a>(
    alloc: Global,
    agent: Option<Agent<'a>>,
    mail: Option<Mail<'a>>,
    to: (Sender<'a>, Ringer<'a>),
) -> Option<Scene<'a>> {
    let (agent, mail) = agent.zip(mail)?;
    let (put, bell) = to;
    let port = Recorder::new(alloc);
    Some(Scene {
        agent,
        port,
        mail,
        put,
        bell,
    })
}

/// Whether it goes so, where there is a scene.
fn played<R: Wait + Clock>(rt: &R, scene: Option<Scene<'_>>) -> Option<bool> {
    let mut scene = scene?;
    Some(scene.plays(rt))
}

/// The same over inboxes and bells of their own.
fn played_by_mail<R: Wait + Clock>(
    rt: &R,
    alloc: Global,
    agent: Option<Agent<'_>>,
) -> Option<bool> {
    let (rooms, keys) = open_two(alloc)?;
    let (mail, to, _done) = first_mail(alloc, &rooms, keys);
    played(rt, scene_of(alloc, agent, mail, to))
}

/// The same with the client's share.
fn played_with_shares<R: Wait + Clock>(rt: &R, alloc: Global) -> Option<bool> {
    let geometry = Geometry::new(NUMBERS).ok()?;
    let shares = shares(alloc, geometry)?;
    let agent = Agent::new(alloc, ClientId::new(0), geometry, &[], shares).ok();
    played_by_mail(rt, alloc, agent)
}

#[test]
fn a_refused_ticket_bars_the_later_ones(rt: HostRuntime) {
    assert_eq!(rt; played_with_shares(&rt, rt.alloc()), Some(true));
}
