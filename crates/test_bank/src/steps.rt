//! Tables of steps: calls of a bank with what they answer, and what it shows. A loop walks a table at a session, and
//! owns nothing.
use crate::session::{Answer, Copied, Session};
use std::alloc::Global;
use std::test::Fail;
use tl_bank::{Action, Refusal, When};
use tl_map::GeometryNumbers;
use tl_types::{Awaited, BankNo, BlockNo, Channel, ClientId, Grow, Perm, Prune, Ticket};

/// The numbers of a ticket: its bank, client, channel and serial.
pub type Numbers = (u32, u32, Channel, u64);

/// What a call answers: the ticket of the message that it sent, if it sent one.
pub type Sent = Result<Option<Numbers>, Refusal>;

/// A call. Clients, blocks, and the clients whose shares are shown, are named by their numbers.
#[derive(Clone, Copy)]
pub enum Call {
    Load(u32, u32, usize),
    Store(u32, u32, &'static [u8]),
    Acquire(u32, u32, Grow),
    Release(u32, u32, Prune, u32),
    TakeGrant(Numbers, u32),
    AnswerProbe(Numbers, u32),
    TakeReleaseAck(Numbers),
    /// The call that takes a message of the ticket's channel: on D, a Grant.
    Take(Numbers),
    ServeMemory(u32),
    TakeMemory(u32),
}

/// What `advance` did.
#[derive(Clone, Copy, Debug, PartialEq, Eq)]
pub enum Did {
    Probe(Numbers),
    Grant(Numbers),
    Get,
    Put(u32),
    Drop,
}

/// A call that is made, or what is seen.
#[derive(Clone, Copy)]
pub enum Step {
    /// A call, and its answer.
    Call(Call, Sent),
    /// Home advances a block, and what it does.
    Advance(u32, Result<Did, Refusal>),
    /// A client gets a block, and all is done until the GrantAck is taken.
    Fetch(u32, u32, Grow),
    /// A client gives a block up that it may write, until the ReleaseAck is taken.
    GiveUp(u32, u32),
    /// A client only asks for a block that it lacks.
    Ask(u32, u32),
    /// The oldest copy of a client is this.
    Oldest(u32, Option<u32>),
    /// There is room for so many steps once it is asked for.
    Room(usize),
    /// A client's share is no longer there.
    Forget(u32),
    /// The log so far is forgotten.
    ForgetLog,
    /// So many events were logged.
    Events(usize),
    /// So many of them are not forgotten.
    Kept(usize),
    /// The image of the memory at reset.
    Image(&'static [u8]),
    /// A client's copy of a block.
    Perm(u32, u32, Perm),
    /// What home records of a client and a block.
    Directory(u32, u32, Perm),
    /// The client that may write a block, if one may.
    Writer(u32, Option<u32>),
    /// A client's byte at an address, if it may read it.
    Peek(u32, u32, Option<u8>),
    /// How many copies the clients have, and how many home records.
    Copies(u64, u64),
    /// Whether nothing is under way.
    IsQuiet(bool),
    /// A client's copy of a block, with its bytes.
    Copy(u32, u32, Option<Copied>),
    /// What a client waits for about a block.
    WaitsFor(u32, u32, Option<Awaited>),
    /// How many copies a client has.
    CopiesOf(u32, Option<u64>),
    /// The client, the bank and the count of each share.
    Shares(&'static [(u32, u32, u32)]),
}

const NOW: When = When { clock: 0, index: 0 };

fn ticket_of(numbers: Numbers) -> Ticket {
    let (bank, client, channel, serial) = numbers;
    Ticket {
        bank: BankNo::new(bank),
        client: ClientId::new(client),
        channel,
        serial,
    }
}

fn answer_of(sent: Sent) -> Answer {
    match sent {
        Ok(Some(numbers)) => Ok(Some(ticket_of(numbers))),
        Ok(None) => Ok(None),
        Err(refusal) => Err(refusal),
    }
}

fn numbers_of(ticket: Ticket) -> Numbers {
    (
        ticket.bank.number(),
        ticket.client.number(),
        ticket.channel,
        ticket.serial,
    )
}

fn did_of(action: Action) -> Did {
    match action {
        Action::Probe(ticket) => Did::Probe(numbers_of(ticket)),
        Action::Grant(ticket) => Did::Grant(numbers_of(ticket)),
        Action::Get => Did::Get,
        Action::Put(block) => Did::Put(block.number()),
        Action::Drop => Did::Drop,
    }
}

impl Session {
    /// What home does when it advances a block.
    fn advanced(&mut self, block: u32) -> Result<Did, Refusal> {
        Ok(did_of(self.advance(BlockNo::new(block))?))
    }

    fn serve_some(&mut self, block: u32) -> Answer {
        self.serve_memory(BlockNo::new(block))?;
        Ok(None)
    }

    fn take_some(&mut self, block: u32) -> Answer {
        self.take_memory(BlockNo::new(block))?;
        Ok(None)
    }

    fn load_some(&mut self, client: u32, address: u32, len: usize) -> Answer {
        let _stamp = self.load(ClientId::new(client), address, len, NOW)?;
        Ok(None)
    }

    fn store_some(&mut self, client: u32, address: u32, bytes: &[u8]) -> Answer {
        let _stamp = self.store(ClientId::new(client), address, bytes, NOW)?;
        Ok(None)
    }

    fn take_ack(&mut self, ticket: Ticket) -> Answer {
        self.take_release_ack(ticket)?;
        Ok(None)
    }

    /// What a call answers.
    fn call(&mut self, call: Call) -> Answer {
        match call {
            Call::Load(client, address, len) => self.load_some(client, address, len),
            Call::Store(client, address, bytes) => self.store_some(client, address, bytes),
            Call::Acquire(client, block, grow) => {
                let block = BlockNo::new(block);
                self.acquire(ClientId::new(client), block, grow).map(Some)
            }
            Call::Release(client, block, prune, holder) => {
                let (client, holder) = (ClientId::new(client), ClientId::new(holder));
                self.release(client, BlockNo::new(block), prune, holder)
                    .map(Some)
            }
            Call::TakeGrant(numbers, holder) => {
                self.take_grant(ticket_of(numbers), ClientId::new(holder))
                    .map(Some)
            }
            Call::AnswerProbe(numbers, holder) => {
                self.answer_probe(ticket_of(numbers), ClientId::new(holder))
                    .map(Some)
            }
            Call::TakeReleaseAck(numbers) => self.take_ack(ticket_of(numbers)),
            Call::Take(numbers) => self.take(ticket_of(numbers)),
            Call::ServeMemory(block) => self.serve_some(block),
            Call::TakeMemory(block) => self.take_some(block),
        }
    }

    /// Whether a client can ask for a block that it lacks.
    fn can_ask(&mut self, client: u32, block: u32) -> bool {
        let client = ClientId::new(client);
        self.acquire(client, BlockNo::new(block), Grow::NtoB)
            .is_ok()
    }

    /// Whether a step can be done, or is so.
    fn does(&mut self, step: Step) -> bool {
        match step {
            Step::Call(call, sent) => self.call(call) == answer_of(sent),
            Step::Advance(block, wanted) => self.advanced(block) == wanted,
            Step::Fetch(client, block, grow) => self.fetch(client, block, grow).is_ok(),
            Step::GiveUp(client, block) => self.give_up(client, block).is_ok(),
            Step::Ask(client, block) => self.can_ask(client, block),
            Step::Room(count) => self.reserve_steps(count).is_ok() && self.room() >= count,
            Step::Forget(client) => {
                self.forget_share(ClientId::new(client));
                true
            }
            Step::ForgetLog => {
                self.forget_log();
                true
            }
            _ => self.shows(step),
        }
    }

    /// Whether what a step says is seen.
    fn shows(&self, step: Step) -> bool {
        match step {
            Step::Oldest(client, copy) => self.oldest(client) == copy,
            Step::Events(count) => self.events() == count,
            Step::Kept(count) => self.kept() == count,
            Step::Image(bytes) => self.image() == bytes,
            Step::Perm(client, block, perm) => {
                self.perm(ClientId::new(client), BlockNo::new(block)) == perm
            }
            Step::Directory(client, block, perm) => {
                self.directory(ClientId::new(client), BlockNo::new(block)) == perm
            }
            Step::Writer(block, client) => self.writer_of(block) == client,
            Step::Peek(client, address, byte) => self.peek(ClientId::new(client), address) == byte,
            Step::Copies(held, recorded) => self.copies() == (held, recorded),
            Step::IsQuiet(is_quiet) => self.is_quiet() == is_quiet,
            Step::Copy(client, block, copy) => {
                self.copy(ClientId::new(client), BlockNo::new(block)) == copy
            }
            Step::WaitsFor(client, block, wait) => {
                self.waits_for(ClientId::new(client), BlockNo::new(block)) == wait
            }
            Step::CopiesOf(client, copies) => self.copies_of(ClientId::new(client)) == copies,
            Step::Shares(shares) => self.shares().as_slice() == shares,
            _ => false,
        }
    }

    /// The place of the first step that does not go, if there is one.
    fn first_that_fails(&mut self, steps: &[Step]) -> Option<usize> {
        for (place, step) in steps.iter().enumerate() {
            if !self.does(*step) {
                return Some(place);
            }
        }
        None
    }

    /// The table and the place in it of the first step that does not go, if there is one.
    fn first_in_tables(&mut self, tables: &[&[Step]]) -> Option<(usize, usize)> {
        for (table, steps) in tables.iter().enumerate() {
            if let Some(place) = self.first_that_fails(steps) {
                return Some((table, place));
            }
        }
        None
    }
}

/// The table and the place in it of the first step that does not go, if there is one, at a bank of a geometry over a
/// memory of zeros. The errors are those of `Session::of`.
pub fn first_in_tables(
    alloc: Global,
    numbers: GeometryNumbers,
    tables: &[&[Step]],
) -> Result<Option<(usize, usize)>, Fail> {
    let mut session = Session::new(alloc, numbers)?;
    Ok(session.first_in_tables(tables))
}

/// The place of the first step that does not go, if there is one, at a bank of a geometry over a memory that holds an
/// image. The errors are those of `Session::of`.
pub fn first_that_fails(
    alloc: Global,
    numbers: GeometryNumbers,
    number: u32,
    image: &[u8],
    steps: &[Step],
) -> Result<Option<usize>, Fail> {
    let mut session = Session::of(alloc, numbers, number, image)?;
    Ok(session.first_that_fails(steps))
}
