//! The bound on how far a run goes by itself is reached: one Acquire, which brings sixteen events of clients, home and
//! the memory, and one Release, which brings two. Expected figures are counted from docs/PROTOCOL.md.
use std::alloc::Global;
use std::test::Fail;
use tl_protocol::{Access, Event, Shape};
use tl_rules::{Plain, may_follow};
use tl_types::{AccessBytes, BlockNo, ClientId, Grow, ProbeCap, Prune};

/// One client, and one block of eight bytes.
const SHAPE: Shape = Shape {
    clients: 1,
    block_bytes: 8,
    blocks: 1,
};

fn client() -> ClientId {
    ClientId::new(0)
}

fn block() -> BlockNo {
    BlockNo::new(0)
}

/// A store of one byte.
fn store() -> Event {
    let bytes = match AccessBytes::from_slice(&[9]) {
        Some(bytes) => bytes,
        None => AccessBytes::new(),
    };
    Event::Store(Access::bare(client(), 0, bytes))
}

/// The client asks to write, and home fetches the block and grants it.
fn granted() -> [Event; 8] {
    [
        Event::SendAcquire(client(), block(), Grow::NtoT),
        Event::AcceptAcquire(client(), block()),
        Event::SendGet(block()),
        Event::Serve(block()),
        Event::TakeData(block()),
        Event::SendGrant(client(), block()),
        Event::TakeGrant(client(), block()),
        Event::TakeGrantAck(client(), block()),
    ]
}

/// Home takes the dirty copy in two steps, and writes its own back.
fn taken_away() -> [Event; 9] {
    [
        Event::SendProbe(client(), block(), ProbeCap::ToB),
        Event::AnswerProbe(client(), block()),
        Event::TakeC(client(), block()),
        Event::SendProbe(client(), block(), ProbeCap::ToN),
        Event::AnswerProbe(client(), block()),
        Event::TakeC(client(), block()),
        Event::SendPut(block()),
        Event::Serve(block()),
        Event::TakePutAck(block()),
    ]
}

/// The client gives its copy up by itself.
fn given_up() -> [Event; 3] {
    [
        Event::SendRelease(client(), block(), Prune::TtoN),
        Event::TakeC(client(), block()),
        Event::TakeReleaseAck(client(), block()),
    ]
}

/// Each event that no client starts.
fn received() -> [Event; 15] {
    [
        Event::AnswerProbe(client(), block()),
        Event::TakeGrant(client(), block()),
        Event::TakeReleaseAck(client(), block()),
        Event::AcceptAcquire(client(), block()),
        Event::SendProbe(client(), block(), ProbeCap::ToB),
        Event::SendProbe(client(), block(), ProbeCap::ToN),
        Event::TakeC(client(), block()),
        Event::SendGrant(client(), block()),
        Event::TakeGrantAck(client(), block()),
        Event::SendGet(block()),
        Event::Serve(block()),
        Event::TakeData(block()),
        Event::Drop(block()),
        Event::SendPut(block()),
        Event::TakePutAck(block()),
    ]
}

/// Whether it is any event but those that a client starts.
fn is_received(event: &Event) -> bool {
    !matches!(
        event,
        Event::Load(_) | Event::Store(_) | Event::SendAcquire(_, _, _) | Event::SendRelease(_, _, _)
    )
}

/// Each may come next, one after another.
fn all_follow(plain: &mut Plain, events: &[Event]) -> bool {
    for event in events {
        if plain.apply(event).is_err() {
            return false;
        }
    }
    true
}

/// What is shown of the block: how many clients hold it, for how many home records it, and the client's first byte.
fn shown(plain: &Plain) -> Option<(usize, usize, Option<u8>)> {
    let block = block();
    if block.number() >= plain.shape().blocks {
        return None;
    }
    let byte = match plain.read(client(), 0, 1) {
        Some(bytes) => bytes.as_slice().first().copied(),
        None => None,
    };
    Some((plain.held(block), plain.recorded(block), byte))
}

#[test]
fn an_acquire_brings_sixteen_events(rt: HostRuntime) -> Result<(), Fail> {
    let mut plain = Plain::new(rt.alloc(), SHAPE, &[])?;
    assert!(rt; all_follow(&mut plain, &granted()));
    assert!(rt; all_follow(&mut plain, &[store()]));
    assert_eq!(rt; shown(&plain), Some((1, 1, Some(9))));
    assert!(rt; all_follow(&mut plain, &taken_away()));
    let first = granted().iter().filter(|event| is_received(event)).count();
    let second = taken_away()
        .iter()
        .filter(|event| is_received(event))
        .count();
    assert_eq!(rt; (first, second), (7, 9));
    for event in &received() {
        assert!(rt; !may_follow(&plain, event));
    }
    Ok(())
}

#[test]
fn a_release_brings_two_events(rt: HostRuntime) -> Result<(), Fail> {
    let mut plain = Plain::new(rt.alloc(), SHAPE, &[])?;
    assert!(rt; all_follow(&mut plain, &granted()));
    assert!(rt; all_follow(&mut plain, &given_up()));
    assert_eq!(rt;
        given_up().iter().filter(|event| is_received(event)).count(),
        2
    );
    assert!(rt; all_follow(&mut plain, &[Event::Drop(block())]));
    for event in &received() {
        assert!(rt; !may_follow(&plain, event));
    }
    Ok(())
}
