//! What moves a bank on, how it comes to rest, and what its memory has then. Expected answers are worked out from the
//! rules.
use crate::session::Session;
use std::alloc::Global;
use std::test::Fail;
use tl_bank::{Refusal, When};
use tl_bank_rest::Receiving;
use tl_map::GeometryNumbers;
use tl_types::{BankNo, BlockNo, Channel, ClientId, Grow, Perm, Prune, Ticket};

/// Two clients with two copies each, one bank with one set of two ways, two registers, and four blocks of eight bytes.
const NUMBERS: GeometryNumbers = GeometryNumbers {
    version: 1,
    clients: 2,
    banks: 1,
    block_bytes: 8,
    sets: 1,
    ways: 2,
    registers: 2,
    copies: 2,
    memory_blocks: 4,
};

const NOW: When = When { clock: 0, index: 0 };

fn client(number: u32) -> ClientId {
    ClientId::new(number)
}

fn block(number: u32) -> BlockNo {
    BlockNo::new(number)
}

fn at(number: u32, channel: Channel, serial: u64) -> Ticket {
    Ticket {
        bank: BankNo::new(0),
        client: client(number),
        channel,
        serial,
    }
}

impl Session {
    /// Makes a call that moves the bank on. The errors are the call's.
    fn make(&mut self, call: Receiving) -> Result<(), Refusal> {
        match call {
            Receiving::TakeReleaseAck(ticket) => self.take_release_ack(ticket),
            Receiving::TakeGrantAck(ticket)
            | Receiving::TakeGrant(ticket)
            | Receiving::TakeC(ticket)
            | Receiving::AnswerProbe(ticket)
            | Receiving::Accept(ticket) => {
                let _sent = self.take(ticket)?;
                Ok(())
            }
            Receiving::ServeMemory(block) => self.serve_memory(block),
            Receiving::TakeMemory(block) => self.take_memory(block),
            Receiving::Advance(block) => {
                let _action = self.advance(block)?;
                Ok(())
            }
        }
    }

    /// Whether just these calls move the bank on, one after another, until it is quiet.
    fn goes(&mut self, calls: &[Receiving]) -> bool {
        for call in calls {
            if self.next_call() != Some(*call) || self.make(*call).is_err() {
                return false;
            }
        }
        self.next_call().is_none() && self.is_quiet()
    }

    /// Whether a client asks for a block.
    fn asks(&mut self, number: u32, asked: u32, grow: Grow) -> bool {
        self.acquire(client(number), block(asked), grow).is_ok()
    }

    /// Whether a client stores a byte.
    fn writes(&mut self, number: u32, address: u32, byte: u8) -> bool {
        self.store(client(number), address, &[byte], NOW).is_ok()
    }
}

/// Whether a miss goes so, of a block that home lacks.
fn misses(session: &mut Session) -> bool {
    session.asks(0, 0, Grow::NtoT)
        && session.goes(&[
            Receiving::Accept(at(0, Channel::A, 0)),
            Receiving::Advance(block(0)),
            Receiving::ServeMemory(block(0)),
            Receiving::TakeMemory(block(0)),
            Receiving::Advance(block(0)),
            Receiving::TakeGrant(at(0, Channel::D, 0)),
            Receiving::TakeGrantAck(at(0, Channel::E, 0)),
        ])
}

/// Whether the dirty copy is sent away so.
fn sends_away(session: &mut Session) -> bool {
    session.writes(0, 0, 0xaa)
        && session.evict(block(0)).is_ok()
        && session.goes(&[
            Receiving::Advance(block(0)),
            Receiving::AnswerProbe(at(0, Channel::B, 0)),
            Receiving::TakeC(at(0, Channel::C, 0)),
            Receiving::Advance(block(0)),
            Receiving::ServeMemory(block(0)),
            Receiving::TakeMemory(block(0)),
        ])
}

/// Whether a copy is given up so.
fn gives_up(session: &mut Session) -> bool {
    session.fetch(0, 1, Grow::NtoT).is_ok()
        && session
            .release(client(0), block(1), Prune::TtoN, client(0))
            .is_ok()
        && session.goes(&[
            Receiving::TakeC(at(0, Channel::C, 1)),
            Receiving::TakeReleaseAck(at(0, Channel::D, 2)),
        ])
}

/// Which of these go so at a new bank.
fn moved_on(alloc: Global) -> Result<(bool, bool, bool), Fail> {
    let mut session = Session::new(alloc, NUMBERS)?;
    Ok((
        misses(&mut session),
        sends_away(&mut session),
        gives_up(&mut session),
    ))
}

#[test]
fn a_bank_moves_on_call_by_call(rt: HostRuntime) -> Result<(), Fail> {
    assert_eq!(rt; moved_on(rt.alloc())?, (true, true, true));
    Ok(())
}

/// Two clients ask for one block, and one of them has written another, whose way the second Acquire needs: whether it
/// takes so many events, whether nobody has more to do then, and the events of another drain.
fn comes_to_rest(
    session: &mut Session,
) -> (bool, Result<u64, Refusal>, bool, Result<u64, Refusal>) {
    let is_asked = session.fetch(0, 0, Grow::NtoT).is_ok()
        && session.writes(0, 0, 0xaa)
        && session.asks(0, 1, Grow::NtoT)
        && session.asks(1, 1, Grow::NtoB)
        && session.asks(1, 2, Grow::NtoT);
    let drained = session.drain();
    let is_done = session.next_call().is_none() && session.is_quiet();
    (is_asked, drained, is_done, session.drain())
}

/// What each client holds of blocks 0 to 2, and how many copies the shares count.
fn holds(session: &Session) -> ([Perm; 6], u64) {
    let perms = [
        session.perm(client(0), block(0)),
        session.perm(client(0), block(1)),
        session.perm(client(0), block(2)),
        session.perm(client(1), block(0)),
        session.perm(client(1), block(1)),
        session.perm(client(1), block(2)),
    ];
    (perms, session.shared())
}

/// What a drain answers, and what the clients hold then.
type Rest = (
    (bool, Result<u64, Refusal>, bool, Result<u64, Refusal>),
    ([Perm; 6], u64),
);

/// The same at a new bank.
fn rest(alloc: Global) -> Result<Rest, Fail> {
    let mut session = Session::new(alloc, NUMBERS)?;
    let answers = comes_to_rest(&mut session);
    Ok((answers, holds(&session)))
}

/// Client 0's block 1 is fetched and granted (7 events) and then probed for client 1, which becomes a second reader:
/// accept, Probe, answer, taking, Grant, its taking, GrantAck (7). For client 1's block 2 one way of the set is
/// needed: block 0's, which was granted first. So its register probes client 0 of block 0 (accept, Probe, answer,
/// taking), puts it (Put, served, acknowledged), and fetches and grants block 2 (6): 13.
#[test]
fn a_drain_ends_in_quiet(rt: HostRuntime) -> Result<(), Fail> {
    let perms = [
        Perm::None,
        Perm::Branch,
        Perm::None,
        Perm::None,
        Perm::Branch,
        Perm::Tip,
    ];
    assert_eq!(rt;
        rest(rt.alloc())?,
        ((true, Ok(27), true, Ok(0)), (perms, 3))
    );
    Ok(())
}

/// What a flush answers of a bank with a dirty copy, a copy that is asked for, and a block that only home has; what is
/// there then; and the bytes of the memory.
type Flushed = (
    bool,
    Result<u64, Refusal>,
    ([Perm; 6], u64),
    (u64, u64),
    [Option<bool>; 3],
    bool,
);

/// What a flush leaves.
fn flushed(session: &mut Session) -> Flushed {
    let is_asked = session.fetch(0, 0, Grow::NtoT).is_ok()
        && session.writes(0, 1, 0xbb)
        && session.fetch(1, 1, Grow::NtoT).is_ok()
        && session.writes(1, 8, 0xcc)
        && session.asks(0, 1, Grow::NtoB);
    let answer = session.flush();
    let at_home = [
        session.home(block(0)),
        session.home(block(1)),
        session.home(block(2)),
    ];
    let is_quiet = session.is_quiet();
    (
        is_asked,
        answer,
        holds(session),
        session.copies(),
        at_home,
        is_quiet,
    )
}

/// The same at a new bank over an image of two bytes, and whether the memory has the bytes last stored.
fn flush(alloc: Global) -> Result<(Flushed, bool), Fail> {
    let mut session = Session::of(alloc, NUMBERS, 0, &[1, 2])?;
    let answers = flushed(&mut session);
    let mut bytes = [0; 32];
    bytes[0] = 1;
    bytes[1] = 0xbb;
    bytes[8] = 0xcc;
    let image = session.image_of(alloc)?;
    Ok((answers, image.as_slice() == bytes.as_slice()))
}

/// Client 0 gets block 1 as a second reader (7 events, as above). Block 0, then: Probe, answer, taking, Put, served,
/// acknowledged (6). Block 1: two Probes with answers and takings, Put, served, acknowledged (9).
#[test]
fn a_flush_leaves_all_in_the_memory(rt: HostRuntime) -> Result<(), Fail> {
    let nobody = [Perm::None; 6];
    let answers = (true, Ok(22), (nobody, 0), (0, 0), [None; 3], true);
    assert_eq!(rt; flush(rt.alloc())?, (answers, true));
    Ok(())
}

/// A bank over the memory of another that was flushed reads what was stored there.
fn goes_on(alloc: Global) -> Result<(bool, Option<u8>, Option<u8>), Fail> {
    let mut session = Session::new(alloc, NUMBERS)?;
    let is_stored = session.fetch(0, 3, Grow::NtoT).is_ok()
        && session.writes(0, 31, 0xdd)
        && session.flush().is_ok();
    let image = session.image_of(alloc)?;
    let mut second = Session::of(alloc, NUMBERS, 0, image.as_slice())?;
    let is_read = second.fetch(1, 3, Grow::NtoB).is_ok();
    Ok((
        is_stored && is_read,
        second.peek(client(1), 31),
        second.peek(client(1), 30),
    ))
}

#[test]
fn a_new_bank_goes_on_over_the_image(rt: HostRuntime) -> Result<(), Fail> {
    assert_eq!(rt; goes_on(rt.alloc())?, (true, Some(0xdd), Some(0)));
    Ok(())
}

/// Whether a call that serves all clients was done, or refused for want of memory.
fn is_done(answer: Result<u64, Refusal>) -> bool {
    answer.is_ok() || answer == Err(Refusal::Memory)
}

/// Asks for a block, drains a bank twice and flushes it twice. One of the calls may find no memory: what it did before
/// that stays, and the next one goes on. Whether the shares count the clients' copies after each, and how many events there are once
/// the bank is drained, and once it is flushed.
fn rests_again(session: &mut Session) -> (bool, usize, usize) {
    let mut is_so = session.asks(0, 0, Grow::NtoT) || session.asks(0, 0, Grow::NtoT);
    is_so &= is_done(session.drain()) && session.copies().0 == session.shared();
    is_so &= session.drain().is_ok() && session.copies().0 == session.shared();
    let drained = session.events();
    is_so &= is_done(session.flush()) && session.copies().0 == session.shared();
    is_so &= session.flush().is_ok() && session.shared() == 0;
    (is_so, drained, session.events())
}

/// The same at a new bank.
fn rested_again(alloc: Global) -> Result<(bool, usize, usize), Fail> {
    let mut session = Session::new(alloc, NUMBERS)?;
    Ok(rests_again(&mut session))
}

/// An Acquire and seven events; then a Probe, its answer and taking, and a Drop.
#[test]
fn what_was_received_stays_where_memory_ends(rt: HostRuntime) -> Result<(), Fail> {
    assert_eq!(rt; rested_again(rt.alloc())?, (true, 8, 12));
    Ok(())
}
