//! What a home's turns ask, and in which order.
ghost use Rattle.std.specs.Prelude.{◌≡◌, ◌++◌, ◌∷◌, [], MatchResult};
ghost use Rattle.tl_bank_spec.specs.declared.refusal.Refusal.TheVariants.{Memory as NoMemory};
ghost use Rattle.tl_client_ports.specs.Ports.{asked};

use crate::mails::{first_mail, open_two};
use crate::turns::home_turn;
use arrayvec::ArrayVec;
use std::alloc::Global;
use std::cell::Cell;
use std::marker::Model;
use std::sync::Wait;
use std::time::Clock;
use tl_bank::{Action, Refusal, Reply};
use tl_client::{Asked, Free, Home, HomePort, Mail, Turn};
use tl_tickets::{Ringer, Sender};
use tl_types::{BankNo, BlockNo, Channel, ClientId, Ticket};

/// A port to no bank: it counts its calls, keeps what was asked, and on channel A refuses, or has no memory, as long as
/// it is told to. So many blocks, from 0 on, have an open register; those asked for a step are kept. Such a step is
/// what it is told; what was asked of the memory is kept too.
#[derive(Drop)]
pub struct Recorder {
    calls: Cell<u32>,
    asked: Vec<Asked>,
    refuses: bool,
    has_memory: bool,
    open: u32,
    advanced: Vec<BlockNo>,
    next: Next,
    memory: Vec<MemoryCall>,
    is_quiet: bool,
}

/// What the next step of each open register is.
#[derive(Clone, Copy)]
enum Next {
    /// There is none yet.
    NotYet,
    /// The block is asked of the memory.
    Get,
    /// The block with this number, the victim, goes to the memory.
    Put(u32),
}

/// What is asked of the memory for the block with a number.
#[derive(Clone, Copy, Debug, PartialEq, Eq)]
enum MemoryCall {
    /// It is to serve what was sent.
    Serve(u32),
    /// Home takes its answer.
    Take(u32),
}

impl Recorder {
    /// Keeps a ticket that was asked, and whether it was served; want of memory is a refusal.
    fn note(&mut self, ticket: Ticket, served: bool) -> Result<(), Refusal>
        ensures { MatchResult result
            (λ _. self.new.asked.items ≡ self.old.asked.items ++ asked ticket served ∷ [])
            (λ refusal. refusal ≡ NoMemory) }
    {
        self.count();
        if self.asked.push(Asked { ticket, served }).is_err() {
            return Err(Refusal::Memory);
        }
        Ok(())
    }

    fn count(&self) {
        self.calls.set(self.calls.get().saturating_add(1));
    }
}

impl HomePort for Recorder {
    ghost asked = { λ p. p.asked.items };

    fn begin(&mut self) {
        self.asked.clear();
    }

    fn accept(&mut self, ticket: Ticket) -> Result<(), Refusal> {
        if !self.has_memory {
            return Err(Refusal::Memory);
        }
        if self.refuses {
            self.note(ticket, false)?;
            Err(Refusal::BlockBusy)
        } else {
            self.note(ticket, true)
        }
    }

    fn take_c(&mut self, ticket: Ticket) -> Result<Option<Ticket>, Refusal> {
        self.note(ticket, true)?;
        Ok(None)
    }

    fn take_grant_ack(&mut self, ticket: Ticket) -> Result<(), Refusal> {
        self.note(ticket, true)
    }

    fn advance(&mut self, block: BlockNo) -> Result<Action, Refusal> {
        self.count();
        let _ = self.advanced.push(block);
        match self.next {
            Next::NotYet => Err(Refusal::NotYet),
            Next::Get => Ok(Action::Get),
            Next::Put(victim) => Ok(Action::Put(BlockNo::new(victim))),
        }
    }

    fn evict(&mut self, _block: BlockNo) -> Result<(), Refusal> {
        self.count();
        Err(Refusal::NotYet)
    }

    fn serve_memory(&mut self, block: BlockNo) -> Result<Reply, Refusal> {
        self.count();
        let _ = self.memory.push(MemoryCall::Serve(block.number()));
        Ok(Reply::AccessAck { size: 3 })
    }

    fn take_memory(&mut self, block: BlockNo) -> Result<(), Refusal> {
        self.count();
        let _ = self.memory.push(MemoryCall::Take(block.number()));
        Ok(())
    }

    fn open_blocks(&self) -> ArrayVec<BlockNo, 8> {
        self.count();
        let mut blocks = ArrayVec::new();
        for number in 0..self.open {
            let _ = blocks.try_push(BlockNo::new(number));
        }
        blocks
    }

    fn is_quiet(&self) -> bool {
        self.count();
        self.is_quiet
    }
}

fn ticket(channel: Channel, serial: u64) -> Ticket {
    Ticket {
        bank: BankNo::new(0),
        client: ClientId::new(0),
        channel,
        serial,
    }
}

/// What is done of a home's turns, or seen of them.
#[derive(Clone, Copy)]
enum Step {
    /// The home takes a turn, and it is this one.
    Turn(Turn),
    /// So many calls have been made of the port, since they were counted anew.
    Calls(u32),
    /// Just the tickets with these serials were asked in the last turn, in order.
    Asked(&'static [u64]),
    /// Just these blocks were asked for a step, in order.
    Advanced(&'static [u32]),
    /// A ticket is put into the home's inbox, without a ring.
    Put(Channel, u64),
    /// The home's bell is rung.
    Ring,
    /// The bell is rung that tells that a client is done.
    Done,
    /// The port refuses no more on channel A.
    Accept,
    /// Whether the port has memory.
    Memory(bool),
    /// So many blocks have an open register.
    Open(u32),
    /// The next step of each open register is this.
    Next(Next),
    /// Just this was asked of the memory, in order.
    Memories(&'static [MemoryCall]),
    /// The bank is quiet from now on.
    Quiet,
    /// Calls are counted anew.
    CountAnew,
}

/// The steps of the test, in order.
const STEPS: &[Step] = &[
    // The first turn asks for open registers alone, and the second nothing.
    Step::Turn(Turn::Worked),
    Step::Calls(1),
    Step::Turn(Turn::Idle),
    Step::Calls(1),
    // Tickets that nobody rang for stay in the inbox.
    Step::Put(Channel::A, 0),
    Step::Put(Channel::A, 1),
    Step::Put(Channel::C, 7),
    Step::Put(Channel::D, 8),
    Step::Put(Channel::E, 9),
    Step::Turn(Turn::Idle),
    Step::Calls(1),
    Step::Ring,
    // E, then C, then the first of A, which is refused; the second is not asked before it, and the one on D is dropped.
    Step::Turn(Turn::Worked),
    Step::Asked(&[9, 7, 0]),
    Step::Turn(Turn::Worked),
    Step::Asked(&[0]),
    // Once a ticket on A is accepted, each open register is asked for one step.
    Step::Accept,
    Step::Open(2),
    Step::Turn(Turn::Worked),
    Step::Asked(&[0, 1]),
    Step::Advanced(&[0, 1]),
    // After a Get the memory serves, and home takes its answer.
    Step::Memories(&[]),
    Step::Open(1),
    Step::Next(Next::Get),
    Step::Turn(Turn::Worked),
    Step::Memories(&[MemoryCall::Serve(0), MemoryCall::Take(0)]),
    // After a Put it is asked for the victim, and not for the register's own block.
    Step::Next(Next::Put(5)),
    Step::Turn(Turn::Worked),
    Step::Memories(&[
        MemoryCall::Serve(0),
        MemoryCall::Take(0),
        MemoryCall::Serve(5),
        MemoryCall::Take(5),
    ]),
    Step::Next(Next::NotYet),
    Step::Open(0),
    Step::Turn(Turn::Worked),
    Step::Asked(&[]),
    // A turn that finds no memory leaves what it did not come to before what comes later.
    Step::Memory(false),
    Step::Put(Channel::A, 2),
    Step::Ring,
    Step::Turn(Turn::Memory),
    Step::Put(Channel::A, 3),
    Step::Ring,
    Step::Turn(Turn::Memory),
    Step::Memory(true),
    Step::Put(Channel::A, 4),
    Step::Ring,
    Step::Turn(Turn::Worked),
    Step::Asked(&[2, 3, 4]),
    Step::Turn(Turn::Worked),
    // Once all clients are done a home asks once whether its bank is quiet, and then no more.
    Step::Done,
    Step::CountAnew,
    Step::Turn(Turn::Idle),
    Step::Turn(Turn::Idle),
    Step::Calls(1),
    // It finishes only where the bank is quiet, and it asks again once something was to be done.
    Step::Ring,
    Step::Turn(Turn::Worked),
    Step::Turn(Turn::Idle),
    Step::Quiet,
    Step::Ring,
    Step::Turn(Turn::Worked),
    Step::Turn(Turn::Finished),
];

/// Whether tickets have these serials, in order.
pub fn are_serials(asked: &[Asked], serials: &[u64]) -> bool {
    if asked.len() != serials.len() {
        return false;
    }
    for (asked, serial) in asked.iter().zip(serials) {
        if asked.ticket.serial != *serial {
            return false;
        }
    }
    true
}

/// Whether blocks have these numbers, in order.
fn are_numbers(blocks: &[BlockNo], numbers: &[u32]) -> bool {
    if blocks.len() != numbers.len() {
        return false;
    }
    for (block, number) in blocks.iter().zip(numbers) {
        if block.number() != *number {
            return false;
        }
    }
    true
}

/// The home of one client with its port and its mail, and the ends of those who send to it. Its model says nothing, so
/// that many turns have their answers alone to carry along.
#[derive(Drop)]
struct Scene<'a> {
    home: Home,
    port: Recorder,
    mail: Mail<'a>,
    put: Sender<'a>,
    bell: Ringer<'a>,
    done: Ringer<'a>,
}

impl<'a> Model for Scene<'a> {
    ghost Value = { Unit {0} };

    ghost view = { λ _. tt };
}

impl Scene<'_> {
    fn turn<R: Wait + Clock>(&mut self, rt: &R) -> Turn {
        home_turn(rt, &mut self.home, &mut self.port, &Free, 1, &mut self.mail)
    }

    /// Whether there is room for a ticket.
    fn put<R: Wait>(&mut self, rt: &R, sent: Ticket) -> bool {
        self.put.put(rt, sent).is_ok()
    }

    /// Changes what the port answers, or rings.
    fn change(&mut self, step: Step) {
        match step {
            Step::Ring => {
                self.bell.ring();
            }
            Step::Done => {
                self.done.ring();
            }
            Step::Accept => self.port.refuses = false,
            Step::Memory(has_memory) => self.port.has_memory = has_memory,
            Step::Open(open) => self.port.open = open,
            Step::Next(next) => self.port.next = next,
            Step::Quiet => self.port.is_quiet = true,
            Step::CountAnew => self.port.calls.set(0),
            _ => {}
        }
    }

    /// Whether a step can be done, or is so.
    fn goes<R: Wait + Clock>(&mut self, rt: &R, step: Step) -> bool {
        match step {
            Step::Turn(turn) => self.turn(rt) == turn,
            Step::Calls(calls) => self.port.calls.get() == calls,
            Step::Asked(serials) => are_serials(self.port.asked.as_slice(), serials),
            Step::Advanced(numbers) => are_numbers(self.port.advanced.as_slice(), numbers),
            Step::Memories(calls) => self.port.memory.as_slice() == calls,
            Step::Put(channel, serial) => self.put(rt, ticket(channel, serial)),
            _ => {
                self.change(step);
                true
            }
        }
    }

    /// The place of the first step that does not go, if there is one.
    fn first_that_fails<R: Wait + Clock>(&mut self, rt: &R, steps: &[Step]) -> Option<usize> {
        for (place, step) in steps.iter().enumerate() {
            if !self.goes(rt, *step) {
                return Some(place);
            }
        }
        None
    }
}

/// A port that refuses on channel A, of no open block.
pub fn refusing_port(alloc: Global) -> Recorder {
    Recorder {
        calls: Cell::new(0),
        asked: Vec::new(alloc),
        refuses: true,
        has_memory: true,
        open: 0,
        advanced: Vec::new(alloc),
        next: Next::NotYet,
        memory: Vec::new(alloc),
        is_quiet: false,
    }
}

/// The home of bank 0 at a port that refuses, with this mail. `None` where a request for memory was refused.
fn scene_of<'a>(
    alloc: Global,
    mail: Option<Mail<'a>>,
    put: (Sender<'a>, Ringer<'a>),
    done: Ringer<'a>,
) -> Option<Scene<'a>> {
    let (mail, home) = mail.zip(Home::new(alloc, BankNo::new(0)).ok())?;
    let (put, bell) = put;
    Some(Scene {
        home,
        port: refusing_port(alloc),
        mail,
        put,
        bell,
        done,
    })
}

/// The place of the first step that does not go, where there is a scene.
fn played<R: Wait + Clock>(rt: &R, scene: Option<Scene<'_>>) -> Option<Option<usize>> {
    let mut scene = scene?;
    Some(scene.first_that_fails(rt, STEPS))
}

/// The same over inboxes and bells of their own.
fn played_by_mail<R: Wait + Clock>(rt: &R, alloc: Global) -> Option<Option<usize>> {
    let (rooms, keys) = open_two(alloc)?;
    let (mail, put, done) = first_mail(alloc, &rooms, keys);
    played(rt, scene_of(alloc, mail, put, done))
}

#[test]
fn a_home_asks_in_order_and_idles_quietly(rt: HostRuntime) {
    assert_eq!(rt; played_by_mail(&rt, rt.alloc()), Some(None));
}
