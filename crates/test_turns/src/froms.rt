//! From which permission an agent asks to grow, and is pruned, where a bank answers that it is another.
use crate::bars::{NUMBERS, shares};
use crate::counts::Counts;
use crate::mails::{first_mail, open_two};
use crate::recorder::Recorder;
use crate::turns::agent_turn;
use std::alloc::Global;
use std::sync::Wait;
use std::time::Clock;
use tl_bank::Refusal;
use tl_client::{Agent, Command, Mail, Turn};
use tl_map::Geometry;
use tl_types::{AccessBytes, ClientId, Grow, Perm, Prune};

/// A port that answers WrongFrom, and says that a client may read.
fn wrong_from(alloc: Global) -> Recorder {
    let mut port = Recorder::new(alloc);
    port.why = Refusal::WrongFrom;
    port.perm = Perm::Branch;
    port
}

/// Whether an agent's first turn works, and asks the port just so to grow and to be pruned.
fn asks<R: Wait + Clock>(
    rt: &R,
    alloc: Global,
    agent: Option<Agent<'_>>,
    mail: Option<Mail<'_>>,
    grows: &[Grow],
    prunes: &[Prune],
) -> Option<bool> {
    let (mut agent, mut mail) = agent.zip(mail)?;
    let mut port = wrong_from(alloc);
    let turn = agent_turn(rt, &mut agent, &mut port, &Counts::new(), 1, &mut mail);
    Some(turn == Turn::Worked && port.grows.as_slice() == grows && port.prunes.as_slice() == prunes)
}

/// The same over inboxes and bells of their own.
fn asks_by_mail<R: Wait + Clock>(
    rt: &R,
    alloc: Global,
    agent: Option<Agent<'_>>,
    grows: &[Grow],
    prunes: &[Prune],
) -> Option<bool> {
    let (rooms, keys) = open_two(alloc)?;
    let (mail, _to, _done) = first_mail(alloc, &rooms, keys);
    asks(rt, alloc, agent, mail, grows, prunes)
}

/// The same of an agent that has one command to do. `None` where a request for memory was refused.
fn asks_for<R: Wait + Clock>(
    rt: &R,
    alloc: Global,
    command: Command,
    grows: &[Grow],
    prunes: &[Prune],
) -> Option<bool> {
    let geometry = Geometry::new(NUMBERS).ok()?;
    let shares = shares(alloc, geometry)?;
    let commands = [command];
    let agent = Agent::new(alloc, ClientId::new(0), geometry, &commands, shares).ok();
    asks_by_mail(rt, alloc, agent, grows, prunes)
}

#[test]
fn a_load_grows_from_none_alone(rt: HostRuntime) {
    let load = Command::Load { address: 0, len: 1 };
    assert_eq!(rt;
        asks_for(&rt, rt.alloc(), load, &[Grow::NtoB], &[]),
        Some(true)
    );
}

#[test]
fn a_store_grows_from_none_and_then_from_branch(rt: HostRuntime) {
    let store = Command::Store {
        address: 0,
        bytes: AccessBytes::new(),
    };
    let grows = [Grow::NtoT, Grow::BtoT];
    assert_eq!(rt; asks_for(&rt, rt.alloc(), store, &grows, &[]), Some(true));
}

#[test]
fn a_drop_prunes_from_tip_and_then_from_branch(rt: HostRuntime) {
    let prunes = [Prune::TtoN, Prune::BtoN];
    let drop = Command::Drop { address: 0 };
    assert_eq!(rt; asks_for(&rt, rt.alloc(), drop, &[], &prunes), Some(true));
}
