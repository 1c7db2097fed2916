//! What only calls reach: a clock at its end, room made ahead, and that a call whose growth of the log was refused
//! changes nothing and answers the same when it is asked again. Answers are worked out from the rules.
use crate::session::{Answer, Session};
use std::alloc::Global;
use std::test::Fail;
use tl_bank::{Action, Refusal, When};
use tl_map::GeometryNumbers;
use tl_types::{BankNo, BlockNo, Channel, ClientId, Grow, Ticket};

/// Two clients with two copies each, one bank with one set of two ways, two registers, and four blocks of eight bytes.
const NUMBERS: GeometryNumbers = GeometryNumbers {
    version: 1,
    clients: 2,
    banks: 1,
    block_bytes: 8,
    sets: 1,
    ways: 2,
    registers: 2,
    copies: 2,
    memory_blocks: 4,
};

const NOW: When = When { clock: 0, index: 0 };

#[derive(Clone, Copy)]
enum Call {
    Store(u32, u32, u8),
    Acquire(u32, u32, Grow),
    /// Whichever call takes a message of the ticket's channel: on D, a Grant.
    Take(Ticket),
    Advance(u32),
    ServeMemory(u32),
    TakeMemory(u32),
}

fn client(number: u32) -> ClientId {
    ClientId::new(number)
}

fn block(number: u32) -> BlockNo {
    BlockNo::new(number)
}

fn at(number: u32, channel: Channel, serial: u64) -> Ticket {
    Ticket {
        bank: BankNo::new(0),
        client: client(number),
        channel,
        serial,
    }
}

impl Session {
    fn step(&mut self, block: BlockNo) -> Answer {
        match self.advance(block)? {
            Action::Probe(ticket) | Action::Grant(ticket) => Ok(Some(ticket)),
            Action::Get | Action::Put(_) | Action::Drop => Ok(None),
        }
    }

    fn ask(&mut self, call: Call) -> Answer {
        match call {
            Call::Store(number, address, byte) => {
                let stored = self.store(client(number), address, &[byte], NOW);
                stored.map(|_stamp| None)
            }
            Call::Acquire(number, asked, grow) => {
                self.acquire(client(number), block(asked), grow).map(Some)
            }
            Call::Take(ticket) => self.take(ticket),
            Call::Advance(asked) => self.step(block(asked)),
            Call::ServeMemory(asked) => self.serve_memory(block(asked)).map(|()| None),
            Call::TakeMemory(asked) => self.take_memory(block(asked)).map(|()| None),
        }
    }

    /// What a call answers, and whether nothing has changed where the log's growth was refused: then it is made again.
    fn ask_again(&mut self, call: &Call) -> (Answer, bool) {
        let before = self.shown();
        let given = self.ask(*call);
        if given == Err(Refusal::Memory) {
            let is_same = self.shown() == before;
            (self.ask(*call), is_same)
        } else {
            (given, true)
        }
    }

    /// Makes these calls, and makes one again where the log's growth was refused: then nothing has changed, and the
    /// answer is the same. Whether all is so.
    fn plays(&mut self, steps: &[(Call, Answer)]) -> bool {
        for (call, answer) in steps {
            if self.ask_again(call) != (*answer, true) {
                return false;
            }
        }
        true
    }

    /// Numbers that stand for what the bank and the shares show.
    fn shown(&self) -> [u64; 10] {
        let (held, recorded) = self.copies();
        [
            self.events() as u64,
            held,
            recorded,
            self.shared(),
            self.open_blocks() as u64,
            u64::from(self.is_quiet()),
            u64::from(self.home(block(0)).is_some()),
            u64::from(self.home(block(1)).is_some()),
            u64::from(self.is_outward(block(0))),
            u64::from(self.is_outward(block(1))),
        ]
    }
}

/// Client 0 acquires block 0 with Tip, and stores a byte.
fn fill_and_store() -> [(Call, Answer); 9] {
    [
        (
            Call::Acquire(0, 0, Grow::NtoT),
            Ok(Some(at(0, Channel::A, 0))),
        ),
        (Call::Take(at(0, Channel::A, 0)), Ok(None)),
        (Call::Advance(0), Ok(None)),
        (Call::ServeMemory(0), Ok(None)),
        (Call::TakeMemory(0), Ok(None)),
        (Call::Advance(0), Ok(Some(at(0, Channel::D, 0)))),
        (
            Call::Take(at(0, Channel::D, 0)),
            Ok(Some(at(0, Channel::E, 0))),
        ),
        (Call::Take(at(0, Channel::E, 0)), Ok(None)),
        (Call::Store(0, 0, 0xaa), Ok(None)),
    ]
}

/// What accesses answer at the end of the clock, whether they changed nothing, and what a store before the end answers.
type Ended = ([Result<u64, Refusal>; 3], bool, Result<u64, Refusal>);

/// Accesses at the end of the clock, and one before it.
fn access_at_the_end(session: &mut Session) -> Ended {
    let before = session.shown();
    let end = When {
        clock: u64::MAX,
        index: 0,
    };
    let refused = [
        session.load(client(0), 0, 1, end),
        session.load(client(1), 0, 1, end),
        session.store(client(0), 0, &[1], end),
    ];
    let is_same = session.shown() == before;
    let last = When {
        clock: 41,
        index: 7,
    };
    (refused, is_same, session.store(client(0), 0, &[1], last))
}

/// Whether client 0 gets block 0, and what accesses answer then.
fn fill_and_end(session: &mut Session) -> (bool, Ended) {
    let is_filled = session.plays(&fill_and_store());
    (is_filled, access_at_the_end(session))
}

/// The same at a new bank.
fn ended(alloc: Global) -> Result<(bool, Ended), Fail> {
    let mut session = Session::new(alloc, NUMBERS)?;
    Ok(fill_and_end(&mut session))
}

#[test]
fn a_clock_at_its_end_is_refused(rt: HostRuntime) -> Result<(), Fail> {
    let refused = [
        Err(Refusal::ClockFull),
        Err(Refusal::NoPermission),
        Err(Refusal::ClockFull),
    ];
    assert_eq!(rt; ended(rt.alloc())?, (true, (refused, true, Ok(42))));
    Ok(())
}

/// Makes the calls up to the first whose growth is refused. Whether none of the first two was, and that one changed
/// nothing.
fn call_in_room(session: &mut Session) -> bool {
    let mut made = 0u32;
    for (call, answer) in &fill_and_store() {
        let before = session.shown();
        let given = session.ask(*call);
        if made >= 2 && given == Err(Refusal::Memory) {
            return session.shown() == before;
        }
        if given != *answer {
            return false;
        }
        made = made.saturating_add(1);
    }
    true
}

/// The same at a new bank, once it made room for two steps.
fn goes_in_room(alloc: Global) -> Result<bool, Fail> {
    let mut session = Session::new(alloc, NUMBERS)?;
    Ok(session.reserve_steps(2).is_ok() && call_in_room(&mut session))
}

/// Two steps need no memory where there is room for them; the first later one whose growth is refused changes nothing.
#[test]
fn room_for_two_steps(rt: HostRuntime) -> Result<(), Fail> {
    assert!(rt; goes_in_room(rt.alloc())?);
    Ok(())
}
