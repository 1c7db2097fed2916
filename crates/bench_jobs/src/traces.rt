//! Steps over all banks of a cache, as from C: each is drawn at random, most of them so that its bank permits it.

use crate::numbers::{Digest, Numbers};
use crate::results::{with_answer, with_end, with_outlook};
use std::alloc::{AllocError, Global};
use std::marker::Model;
use tl_bank::Bank;
use tl_map::{Geometry, GeometryNumbers};
use tl_script_words::{BlockCall, STEPS, Step, TicketCall};
use tl_text::{Answer, MemoryMessage};
use tl_trace::{Network, play};
use tl_types::{AccessBytes, BankNo, BlockNo, Channel, ClientId, Grow, Perm, Prune, Ticket};

const CLIENTS: u32 = 8;

const BANKS: u32 = 4;

const BLOCK_BYTES: u32 = 16;

const BLOCKS: u32 = 1_024;

/// How many of the blocks all clients ask for often.
const HOT: u32 = 64;

/// After so many steps the logs of all banks are forgotten.
const REMEMBERED: u32 = 4_096;

/// The events that the log of a bank has room for: more than so many steps add.
const ROOM: usize = 10_000;

const NUMBERS: GeometryNumbers = GeometryNumbers {
    version: 2,
    clients: CLIENTS as i64,
    banks: BANKS as i64,
    block_bytes: BLOCK_BYTES as i64,
    sets: 8,
    ways: 4,
    registers: 6,
    copies: 4,
    memory_blocks: BLOCKS as i64,
};

/// The banks, the messages and the memory accesses under way, and the first steps. Its model says nothing, so that many
/// calls have their answers alone to carry along.
#[derive(Drop)]
struct Session {
    network: Network,
    sent: Vec<Ticket>,
    outward: Vec<BlockNo>,
    first: Vec<Step>,
    digest: Digest,
    index: u32,
}

impl Model for Session {
    ghost Value = { Unit {0} };

    ghost view = { λ _. tt };
}

/// The first half of the memory's bytes.
fn image_of(alloc: Global, numbers: &mut Numbers) -> Result<Vec<u8>, AllocError> {
    let mut image = Vec::new(alloc);
    for _ in 0..BLOCKS {
        image.extend_from_slice(&numbers.next().to_le_bytes())?;
    }
    Ok(image)
}

fn any_client(numbers: &mut Numbers) -> ClientId {
    ClientId::new(numbers.below(CLIENTS))
}

/// A block: mostly one of the client's favourites, else one that all ask for, or any.
fn any_block(client: ClientId, numbers: &mut Numbers) -> BlockNo {
    match numbers.below(8) {
        0 => BlockNo::new(numbers.below(BLOCKS)),
        1 | 2 => BlockNo::new(numbers.below(HOT)),
        _ => {
            let first = client.number().wrapping_mul(5);
            BlockNo::new(first.wrapping_add(numbers.below(8)) % BLOCKS)
        }
    }
}

/// The address of four bytes in a block.
fn any_address(block: BlockNo, numbers: &mut Numbers) -> u32 {
    block
        .number()
        .wrapping_mul(BLOCK_BYTES)
        .wrapping_add(numbers.below(BLOCK_BYTES / 4).wrapping_mul(4))
}

fn any_grow(numbers: &mut Numbers) -> Grow {
    match numbers.below(3) {
        0 => Grow::NtoB,
        1 => Grow::NtoT,
        _ => Grow::BtoT,
    }
}

fn any_prune(numbers: &mut Numbers) -> Prune {
    match numbers.below(3) {
        0 => Prune::TtoB,
        1 => Prune::TtoN,
        _ => Prune::BtoN,
    }
}

fn any_call(numbers: &mut Numbers) -> BlockCall {
    match numbers.below(4) {
        0 => BlockCall::Evict,
        1 => BlockCall::Advance,
        2 => BlockCall::ServeMemory,
        _ => BlockCall::TakeMemory,
    }
}

/// The call that takes a message of a channel: on D, that of a Grant or of a ReleaseAck.
fn taking(channel: Channel, numbers: &mut Numbers) -> TicketCall {
    match channel {
        Channel::A => TicketCall::Accept,
        Channel::B => TicketCall::AnswerProbe,
        Channel::C => TicketCall::TakeC,
        Channel::D if numbers.below(4) == 0 => TicketCall::TakeReleaseAck,
        Channel::D => TicketCall::TakeGrant,
        Channel::E => TicketCall::TakeGrantAck,
    }
}

/// The place of any of so many; none where there are none.
fn any_place(count: usize, numbers: &mut Numbers) -> Option<usize> {
    let few = count.min(1_000_000) as u32;
    if few == 0 {
        return None;
    }
    Some(numbers.below(few) as usize)
}

impl Session {
    /// All banks at reset over an image. None where it is longer than the memory.
    fn new(alloc: Global, image: &[u8]) -> Result<Option<Session>, AllocError> {
        let Ok(geometry) = Geometry::new(NUMBERS) else {
            return Ok(None);
        };
        if image.len() > geometry.memory_bytes() as usize {
            return Ok(None);
        }
        Ok(Some(Session {
            network: Network::new(alloc, geometry, image)?,
            sent: Vec::new(alloc),
            outward: Vec::new(alloc),
            first: Vec::new(alloc),
            digest: Digest::new(),
            index: 0,
        }))
    }

    /// Makes room in the log of a bank, where there is memory for it.
    fn reserve(&mut self, number: u32) {
        if number < self.network.geometry().banks() {
            let _ = self.network.reserve_steps(BankNo::new(number), ROOM);
        }
    }

    /// Makes room in the logs of all banks.
    fn reserve_all(&mut self) {
        for number in 0..BANKS {
            self.reserve(number);
        }
    }

    /// Forgets the log of a bank.
    fn forget(&mut self, number: u32) {
        if number < self.network.geometry().banks() {
            self.network.forget(BankNo::new(number));
        }
    }

    /// Forgets the logs of all banks.
    fn forget_all(&mut self) {
        for number in 0..BANKS {
            self.forget(number);
        }
    }

    /// The bank of a block, if it is there.
    fn bank_of(&self, block: BlockNo) -> Option<&Bank> {
        let geometry = self.network.geometry();
        if !geometry.has(block) {
            return None;
        }
        self.network.bank(geometry.bank(block))
    }

    /// What a client may do with a block.
    fn perm(&self, client: ClientId, block: BlockNo) -> Perm {
        match self.bank_of(block) {
            Some(bank) => bank.perm(client, block),
            None => Perm::None,
        }
    }

    /// Keeps a step, if it is one of the first.
    fn keep(&mut self, step: Step) -> Result<(), AllocError> {
        self.index = self.index.wrapping_add(1);
        if self.first.len() < STEPS {
            self.first.push(step)?;
        }
        Ok(())
    }

    /// Keeps what is under way since an answer; whether that is no refusal.
    fn note(&mut self, answer: &Answer) -> Result<bool, AllocError> {
        match answer {
            Answer::Sent { ticket, .. } => self.sent.push(*ticket)?,
            Answer::Memory { message, .. } => self.note_memory(message)?,
            Answer::Dropped | Answer::Loaded(_) | Answer::Done => {}
            Answer::Refused(_) => return Ok(false),
        }
        Ok(true)
    }

    /// Keeps the block of what home asks of the memory.
    fn note_memory(&mut self, message: &MemoryMessage) -> Result<(), AllocError> {
        match message {
            MemoryMessage::Get { address } | MemoryMessage::PutFullData { address, .. } => {
                let block = self.network.geometry().block_at(*address);
                self.outward.push(block)?;
            }
            MemoryMessage::AccessAckData { .. } | MemoryMessage::AccessAck => {}
        }
        Ok(())
    }

    /// Asks a step; whether it was done.
    fn ask(&mut self, step: Step) -> Result<bool, AllocError> {
        let answer = self.network.step(self.index, &step)?;
        self.digest = with_answer(self.digest, &answer);
        self.keep(step)?;
        self.note(&answer)
    }

    /// A load, by the call of its own or as a step.
    fn load(
        &mut self,
        client: ClientId,
        address: u32,
        numbers: &mut Numbers,
    ) -> Result<(), AllocError> {
        let step = Step::Load {
            client,
            address,
            len: 4,
        };
        if numbers.below(2) == 0 {
            let _ = self.ask(step)?;
            return Ok(());
        }
        self.digest = match self.network.load(self.index, client, address, 4) {
            Ok(bytes) => self.digest.with_bytes(bytes.as_slice()),
            Err(refusal) => self.digest.with(u64::from(refusal.number())),
        };
        self.keep(step)
    }

    /// Asks a store of four bytes, by a step or by its own call.
    fn store(
        &mut self,
        client: ClientId,
        address: u32,
        numbers: &mut Numbers,
    ) -> Result<(), AllocError> {
        let value = (numbers.next() & 0xffff_ffff).to_le_bytes();
        let Some(bytes) = AccessBytes::from_slice(&value[..4]) else {
            return Ok(());
        };
        let step = Step::Store {
            client,
            address,
            bytes,
        };
        if numbers.below(2) == 0 {
            let _ = self.ask(step)?;
            return Ok(());
        }
        self.digest = match self.network.store(self.index, client, address, &value[..4]) {
            Ok(()) => self.digest.with(0),
            Err(refusal) => self.digest.with(u64::from(refusal.number())),
        };
        self.keep(step)
    }

    fn acquire(
        &mut self,
        client: ClientId,
        block: BlockNo,
        grow: Grow,
    ) -> Result<bool, AllocError> {
        self.ask(Step::Acquire {
            client,
            block,
            grow,
        })
    }

    /// A Release; now and then it is first asked what it would send.
    fn release(
        &mut self,
        client: ClientId,
        block: BlockNo,
        prune: Prune,
    ) -> Result<(), AllocError> {
        if self.index % 4 == 0 {
            let outlook = self.network.would_release(client, block, prune);
            self.digest = with_outlook(self.digest, &outlook);
        }
        let _ = self.ask(Step::Release {
            client,
            block,
            prune,
        })?;
        Ok(())
    }

    /// A client gives up the copy that it has had longest in the bank of a block.
    fn make_place(&mut self, client: ClientId, block: BlockNo) -> Result<(), AllocError> {
        let oldest = match self.bank_of(block) {
            Some(bank) => bank.oldest_copy(client),
            None => None,
        };
        let Some(oldest) = oldest else {
            return Ok(());
        };
        match self.perm(client, oldest) {
            Perm::Tip => self.release(client, oldest, Prune::TtoN),
            Perm::Branch => self.release(client, oldest, Prune::BtoN),
            Perm::None => Ok(()),
        }
    }

    /// A client asks for a copy, or gives one up where it has no place for it.
    fn fetch(
        &mut self,
        client: ClientId,
        block: BlockNo,
        numbers: &mut Numbers,
    ) -> Result<(), AllocError> {
        let grow = if numbers.below(3) == 0 {
            Grow::NtoT
        } else {
            Grow::NtoB
        };
        let is_calm = self.sent.len() < CLIENTS as usize;
        if !is_calm || self.acquire(client, block, grow)? {
            return Ok(());
        }
        self.make_place(client, block)
    }

    /// A client that may write a block does something with it.
    fn write(
        &mut self,
        client: ClientId,
        block: BlockNo,
        numbers: &mut Numbers,
    ) -> Result<(), AllocError> {
        let address = any_address(block, numbers);
        match numbers.below(16) {
            0 => self.release(client, block, Prune::TtoB),
            1 => self.release(client, block, Prune::TtoN),
            2..9 => self.store(client, address, numbers),
            _ => self.load(client, address, numbers),
        }
    }

    /// A client that may read a block does something with it.
    fn read(
        &mut self,
        client: ClientId,
        block: BlockNo,
        numbers: &mut Numbers,
    ) -> Result<(), AllocError> {
        let address = any_address(block, numbers);
        match numbers.below(16) {
            0 => self.release(client, block, Prune::BtoN),
            1 | 2 => {
                let _ = self.acquire(client, block, Grow::BtoT)?;
                Ok(())
            }
            _ => self.load(client, address, numbers),
        }
    }

    /// A client does something.
    fn of_client(&mut self, numbers: &mut Numbers) -> Result<(), AllocError> {
        let client = any_client(numbers);
        let block = any_block(client, numbers);
        match self.perm(client, block) {
            Perm::Tip => self.write(client, block, numbers),
            Perm::Branch => self.read(client, block, numbers),
            Perm::None => self.fetch(client, block, numbers),
        }
    }

    /// One of the messages under way is taken, if it can be; before a Probe is answered it is now and then asked what
    /// that would send.
    fn deliver(&mut self, numbers: &mut Numbers) -> Result<(), AllocError> {
        let Some(place) = any_place(self.sent.len(), numbers) else {
            return Ok(());
        };
        let Some(ticket) = self.sent.get(place).copied() else {
            return Ok(());
        };
        if ticket.channel == Channel::B && self.index % 4 == 0 {
            let outlook = self.network.would_answer(ticket);
            self.digest = with_outlook(self.digest, &outlook);
        }
        let call = taking(ticket.channel, numbers);
        if self.ask(Step::Ticket(call, ticket))? && place < self.sent.len() {
            let _ = self.sent.swap_remove(place);
        }
        Ok(())
    }

    /// The own block of one of the registers of a bank.
    fn any_open(&self, numbers: &mut Numbers) -> Option<BlockNo> {
        let bank = self.network.bank(BankNo::new(numbers.below(BANKS)))?;
        let open = bank.open_blocks();
        let place = any_place(open.len(), numbers)?;
        open.as_slice().get(place).copied()
    }

    /// Home goes on with a block.
    fn of_home(&mut self, numbers: &mut Numbers) -> Result<(), AllocError> {
        if let Some(block) = self.any_open(numbers) {
            let _ = self.ask(Step::Block(BlockCall::Advance, block))?;
        }
        Ok(())
    }

    /// One of the blocks that wait for the memory is served, or home takes its answer.
    fn of_memory(&mut self, numbers: &mut Numbers) -> Result<(), AllocError> {
        let Some(place) = any_place(self.outward.len(), numbers) else {
            return Ok(());
        };
        let Some(block) = self.outward.get(place).copied() else {
            return Ok(());
        };
        if self.ask(Step::Block(BlockCall::ServeMemory, block))? {
            return Ok(());
        }
        let _ = self.ask(Step::Block(BlockCall::TakeMemory, block))?;
        if place < self.outward.len() {
            let _ = self.outward.swap_remove(place);
        }
        Ok(())
    }

    /// A step of a client, whether it is permitted or not; the client or the block may not be there.
    fn any_of_client(&mut self, numbers: &mut Numbers) -> Result<(), AllocError> {
        let client = ClientId::new(numbers.below(CLIENTS + 1));
        let block = BlockNo::new(numbers.below(BLOCKS + 1));
        let step = match numbers.below(3) {
            0 => Step::Load {
                client,
                address: any_address(block, numbers),
                len: numbers.below(10) as u8,
            },
            1 => Step::Acquire {
                client,
                block,
                grow: any_grow(numbers),
            },
            _ => Step::Release {
                client,
                block,
                prune: any_prune(numbers),
            },
        };
        let _ = self.ask(step)?;
        Ok(())
    }

    /// A step that takes a message behind one that is under way, on any bank.
    fn take_behind(&mut self, numbers: &mut Numbers) -> Result<(), AllocError> {
        let Some(place) = any_place(self.sent.len(), numbers) else {
            return Ok(());
        };
        let Some(ticket) = self.sent.get(place).copied() else {
            return Ok(());
        };
        let behind = Ticket {
            bank: BankNo::new(numbers.below(BANKS + 1)),
            serial: ticket.serial.wrapping_add(1),
            ..ticket
        };
        let call = taking(ticket.channel, numbers);
        let _ = self.ask(Step::Ticket(call, behind))?;
        Ok(())
    }

    /// Any step, whether it is permitted or not.
    fn any(&mut self, numbers: &mut Numbers) -> Result<(), AllocError> {
        match numbers.below(3) {
            0 => self.any_of_client(numbers),
            1 => self.take_behind(numbers),
            _ => {
                let block = any_block(any_client(numbers), numbers);
                let _ = self.ask(Step::Block(any_call(numbers), block))?;
                Ok(())
            }
        }
    }

    /// Somebody does something.
    fn act(&mut self, numbers: &mut Numbers) -> Result<(), AllocError> {
        match numbers.below(32) {
            0 => self.any(numbers),
            1..15 => self.of_client(numbers),
            15..24 => self.deliver(numbers),
            24..28 => self.of_home(numbers),
            _ => self.of_memory(numbers),
        }
    }

    /// So many times somebody does something.
    fn drive(&mut self, numbers: &mut Numbers, steps: u32) -> Result<(), AllocError> {
        self.reserve_all();
        for number in 0..steps {
            if number % REMEMBERED == 0 {
                self.forget_all();
            }
            self.act(numbers)?;
        }
        Ok(())
    }

    /// What was answered so far, and what each bank shows now.
    fn end(&self) -> Digest {
        let mut digest = self.digest;
        for number in 0..BANKS {
            if let Some(bank) = self.network.bank(BankNo::new(number)) {
                digest = with_end(digest, bank);
            }
        }
        digest
    }
}

/// The digest with the text of a trace of some steps.
fn with_trace(
    alloc: Global,
    digest: Digest,
    image: &[u8],
    steps: &[Step],
) -> Result<Digest, AllocError> {
    let Ok(geometry) = Geometry::new(NUMBERS) else {
        return Ok(digest);
    };
    if image.len() > geometry.memory_bytes() as usize || steps.len() > STEPS {
        return Ok(digest);
    }
    let trace = play(alloc, geometry, image, steps)?;
    let text = trace.text(alloc)?;
    Ok(digest.with_bytes(text.as_bytes()))
}

/// Asks so many steps of the banks, and plays the first ones as a trace.
pub(crate) fn play_all(alloc: Global, seed: u32, steps: u32) -> Result<Digest, AllocError> {
    let mut numbers = Numbers::new(seed);
    let image = image_of(alloc, &mut numbers)?;
    let Some(mut session) = Session::new(alloc, &image)? else {
        return Ok(Digest::new());
    };
    session.drive(&mut numbers, steps)?;
    with_trace(alloc, session.end(), &image, &session.first)
}
