//! Which served ticket ends an agent's waiting: a Grant does, a Probe does not, nor does a Grant that is refused.
use crate::bars::{NUMBERS, Scene, scene_of, shares};
use crate::mails::{first_mail, open_two};
use std::alloc::Global;
use std::sync::Wait;
use std::time::Clock;
use tl_client::{Agent, Command};
use tl_map::Geometry;
use tl_types::{Channel, ClientId};

/// Whether a turn asks just the tickets with these serials, and this many loads were then asked for in all.
fn loads_after<R: Wait + Clock>(
    scene: &mut Scene<'_>,
    rt: &R,
    serials: &[u64],
    loads: u32,
) -> bool {
    scene.asks(rt, serials) && scene.port.loads == loads
}

/// An agent that waits for a Grant asks for its load again once that was served, and not before.
fn waits<R: Wait + Clock>(rt: &R, scene: Option<Scene<'_>>) -> Option<bool> {
    let mut scene = scene?;
    scene.port.acquires = true;
    scene.port.refuses = false;
    let asked = loads_after(&mut scene, rt, &[], 1);
    let probed = scene.send(rt, &[(Channel::B, 0)]) && loads_after(&mut scene, rt, &[0], 1);
    scene.port.refuses = true;
    let refused = scene.send(rt, &[(Channel::D, 5)]) && loads_after(&mut scene, rt, &[5], 1);
    scene.port.refuses = false;
    let served = loads_after(&mut scene, rt, &[5], 2);
    Some(asked && probed && refused && served)
}

/// The same over inboxes and bells of their own.
fn waits_by_mail<R: Wait + Clock>(rt: &R, alloc: Global, agent: Option<Agent<'_>>) -> Option<bool> {
    let (rooms, keys) = open_two(alloc)?;
    let (mail, to, _done) = first_mail(alloc, &rooms, keys);
    waits(rt, scene_of(alloc, agent, mail, to))
}

/// The same of an agent that has one load to do. `None` where a request for memory was refused.
fn waits_with_shares<R: Wait + Clock>(rt: &R, alloc: Global) -> Option<bool> {
    let geometry = Geometry::new(NUMBERS).ok()?;
    let shares = shares(alloc, geometry)?;
    let commands = [Command::Load { address: 0, len: 1 }];
    let agent = Agent::new(alloc, ClientId::new(0), geometry, &commands, shares).ok();
    waits_by_mail(rt, alloc, agent)
}

#[test]
fn a_served_grant_alone_ends_the_waiting(rt: HostRuntime) {
    assert_eq!(rt; waits_with_shares(&rt, rt.alloc()), Some(true));
}
