//! Idle turns of an agent: they ask nothing, and take nothing of the inbox.
use crate::counts::Counts;
use crate::mails::{first_mail, open_two};
use crate::recorder::Recorder;
use crate::turns::agent_turn;
use std::alloc::Global;
use std::sync::Wait;
use std::time::Clock;
use tl_client::{Agent, Command, Mail, Turn};
use tl_map::{Geometry, GeometryNumbers};
use tl_tickets::{Receiver, Sender};
use tl_types::{BankNo, Channel, ClientId, Ticket};

/// One client, and one bank with one block.
const NUMBERS: GeometryNumbers = GeometryNumbers {
    version: 1,
    clients: 1,
    banks: 1,
    block_bytes: 8,
    sets: 1,
    ways: 1,
    registers: 1,
    copies: 1,
    memory_blocks: 1,
};

/// Puts a Grant to client 0, without a ring. Whether there was room.
fn put_grant<R: Wait>(rt: &R, mut sender: Sender<'_>) -> bool {
    let grant = Ticket {
        bank: BankNo::new(0),
        client: ClientId::new(0),
        channel: Channel::D,
        serial: 0,
    };
    match sender.put(rt, grant) {
        Ok(()) => true,
        Err(_) => false,
    }
}

/// How many tickets wait in an inbox of eight.
fn waiting<R: Wait>(rt: &R, mut receiver: Receiver<'_>) -> u32 {
    let mut waiting = 0u32;
    for _ in 0..8 {
        if let Some(_ticket) = receiver.take(rt) {
            waiting = waiting.saturating_add(1);
        }
    }
    waiting
}

/// What is seen of two turns: which they were, how many calls the port had after each, and how many tickets wait at the
/// end.
type Seen = ([Turn; 2], [u32; 2], u32);

/// Two turns, and before the second a ticket that nobody rings for.
fn two_turns<R: Wait + Clock>(
    rt: &R,
    alloc: Global,
    agent: &mut Agent<'_>,
    gate: &Counts,
    mail: &mut Mail<'_>,
    put: Sender<'_>,
) -> Option<([Turn; 2], [u32; 2])> {
    let mut port = Recorder::new(alloc);
    let first = agent_turn(rt, agent, &mut port, gate, 1, mail);
    let asked = port.calls.get();
    if !put_grant(rt, put) {
        return None;
    }
    let second = agent_turn(rt, agent, &mut port, gate, 1, mail);
    Some(([first, second], [asked, port.calls.get()]))
}

/// The same, and how many tickets wait at the end.
fn with_left(turns: Option<([Turn; 2], [u32; 2])>, left: u32) -> Option<Seen> {
    let (turns, asked) = turns?;
    Some((turns, asked, left))
}

/// What is seen of an agent's two turns with its mail.
fn seen<R: Wait + Clock>(
    rt: &R,
    alloc: Global,
    agent: Option<Agent<'_>>,
    gate: &Counts,
    mail: Option<Mail<'_>>,
    put: Sender<'_>,
) -> Option<Seen> {
    let (mut agent, mut mail) = agent.zip(mail)?;
    let turns = two_turns(rt, alloc, &mut agent, gate, &mut mail, put);
    let left = waiting(rt, mail.into_receiver());
    with_left(turns, left)
}

/// The same over inboxes and bells of their own. `None` where a request for memory was refused.
fn seen_by_mail<R: Wait + Clock>(
    rt: &R,
    alloc: Global,
    agent: Option<Agent<'_>>,
    gate: &Counts,
) -> Option<Seen> {
    let (rooms, keys) = open_two(alloc)?;
    let (mail, (put, _bell), _done) = first_mail(alloc, &rooms, keys);
    seen(rt, alloc, agent, gate, mail, put)
}

/// The two turns of an agent with one load to do.
fn observed<R: Wait + Clock>(rt: &R, alloc: Global, gate: &Counts) -> Option<Seen> {
    let geometry = Geometry::new(NUMBERS).ok()?;
    let commands = [Command::Load { address: 0, len: 1 }];
    let shares = Vec::new(alloc);
    let agent = Agent::new(alloc, ClientId::new(0), geometry, &commands, shares).ok();
    seen_by_mail(rt, alloc, agent, gate)
}

/// The same, and how often the gate was asked before a command and saw a lock taken.
fn observed_at_a_gate<R: Wait + Clock>(rt: &R, alloc: Global) -> Option<(Seen, u32, u32)> {
    let gate = Counts::new();
    let seen = observed(rt, alloc, &gate)?;
    Some((seen, gate.before.get(), gate.locked.get()))
}

#[test]
fn an_idle_agent_asks_nothing_and_takes_nothing(rt: HostRuntime) {
    // The first turn tries the load, and asks for the copy that it needs. The second finds its bell silent: the ticket
    // stays.
    assert_eq!(rt;
        observed_at_a_gate(&rt, rt.alloc()),
        Some((([Turn::Worked, Turn::Idle], [2, 2], 1), 1, 0))
    );
}
