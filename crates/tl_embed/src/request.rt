//! What a caller asks, in plain numbers.
ghost use Rattle.std.specs.Prelude.{◌≡◌, Some};
ghost use Rattle.tl_embed.specs.Asked.{channel_at, load_asked, store_asked, acquire_asked, release_asked, ticket_asked, block_asked, asked, of_step, ticket_named};
ghost use Rattle.tl_embed.specs.Told.{echoed};

use crate::answer::Answer;
use tl_script_words::{BlockCall, Step, TicketCall};
use tl_types::{AccessBytes, BankNo, BlockNo, Channel, ClientId, Ticket, grow_at, prune_at};

/// A call with all that any call takes; a call takes no notice of what it does not use.
#[repr(C)]
#[derive(Clone, Copy, Drop)]
pub struct Request {
    /// Which call: 0 close, 1 load, 2 store, 3 acquire, 4 release, 5 answer_probe, 6 take_grant, 7 take_release_ack, 8
    /// accept, 9 advance, 10 take_c, 11 take_grant_ack, 12 evict, 13 serve_memory, 14 take_memory, 15 reserve, 16
    /// forget, 17 drain, 18 flush; from 20 on the views.
    pub call: u32,
    /// The index of the access, which its event in the log has.
    pub index: u32,
    /// The client, also of a ticket.
    pub client: u32,
    /// The block, or the address of an access.
    pub place: u32,
    /// The param of an Acquire or a Release, or the number of an event's kind.
    pub param: u32,
    /// The bank, also of a ticket.
    pub bank: u32,
    /// The ticket's channel: 0 to 4 for A to E.
    pub channel: u32,
    /// The length of an access.
    pub len: u32,
    /// The ticket's serial, a place in a list, or a number of events.
    pub serial: u64,
    /// The bytes of a store, the first `len` of them.
    pub bytes: [u8; 8],
}

/// What a request asks for.
#[derive(Drop)]
pub enum Asked {
    /// A step of the banks.
    Step(Step),
    /// A step with a length above 8, or a param or a channel that there is not.
    BadArgument,
    /// Room in a bank's log for more events.
    Reserve,
    /// That a bank forgets its log so far.
    Forget,
    /// That all banks come to rest.
    Drain,
    /// That they do, and that home then sends each block away that it has.
    Flush,
    /// None of these.
    Other,
}

impl Request {
    /// What is asked for.
    pub fn asked(&self) -> Asked
        ensures { result ≡ asked self.now }
    {
        match self.call {
            1 => of_step(self.load()),
            2 => of_step(self.store()),
            3 => of_step(self.acquire()),
            4 => of_step(self.release()),
            5 => of_step(self.by_ticket(TicketCall::AnswerProbe)),
            6 => of_step(self.by_ticket(TicketCall::TakeGrant)),
            7 => of_step(self.by_ticket(TicketCall::TakeReleaseAck)),
            8 => of_step(self.by_ticket(TicketCall::Accept)),
            9 => Asked::Step(self.by_block(BlockCall::Advance)),
            10 => of_step(self.by_ticket(TicketCall::TakeC)),
            11 => of_step(self.by_ticket(TicketCall::TakeGrantAck)),
            12 => Asked::Step(self.by_block(BlockCall::Evict)),
            13 => Asked::Step(self.by_block(BlockCall::ServeMemory)),
            14 => Asked::Step(self.by_block(BlockCall::TakeMemory)),
            15 => Asked::Reserve,
            16 => Asked::Forget,
            17 => Asked::Drain,
            18 => Asked::Flush,
            _ => Asked::Other,
        }
    }

    fn load(&self) -> Option<Step>
        ensures { result ≡ load_asked self.now }
    {
        if self.len > 8 {
            return None;
        }
        Some(Step::Load {
            client: ClientId::new(self.client),
            address: self.place,
            len: self.len as u8,
        })
    }

    fn store(&self) -> Option<Step>
        ensures { result ≡ store_asked self.now }
    {
        if self.len > 8 {
            return None;
        }
        let bytes = AccessBytes::from_slice(&self.bytes[..self.len as usize]).unwrap();
        Some(Step::Store {
            client: ClientId::new(self.client),
            address: self.place,
            bytes,
        })
    }

    fn acquire(&self) -> Option<Step>
        ensures { result ≡ acquire_asked self.now }
    {
        let grow = grow_at(self.param)?;
        Some(Step::Acquire {
            client: ClientId::new(self.client),
            block: BlockNo::new(self.place),
            grow,
        })
    }

    fn release(&self) -> Option<Step>
        ensures { result ≡ release_asked self.now }
    {
        let prune = prune_at(self.param)?;
        Some(Step::Release {
            client: ClientId::new(self.client),
            block: BlockNo::new(self.place),
            prune,
        })
    }

    fn by_ticket(&self, call: TicketCall) -> Option<Step>
        ensures { result ≡ ticket_asked call self.now }
    {
        Some(Step::Ticket(call, self.ticket()?))
    }

    /// The ticket that is named, where its channel is one.
    pub fn ticket(&self) -> Option<Ticket>
        ensures { result ≡ ticket_named self.now }
    {
        let channel = channel_at(self.channel)?;
        Some(Ticket {
            bank: BankNo::new(self.bank),
            client: ClientId::new(self.client),
            channel,
            serial: self.serial,
        })
    }

    fn by_block(&self, call: BlockCall) -> Step
        ensures { result ≡ block_asked call self.now }
    {
        Step::Block(call, BlockNo::new(self.place))
    }

    /// The request again, each of its fields in one of an answer, so that a caller can compare its layout of both with
    /// this one.
    pub fn echo(&self) -> Answer
        ensures { result ≡ echoed self.now }
    {
        let told = Answer {
            what: self.call,
            index: self.index,
            client: self.client,
            place: self.place,
            param: self.param,
            bank: self.bank,
            channel: self.channel,
            opcode: self.len,
            address: 1,
            size: 2,
            stores: 3,
            serial: self.serial,
            ..Answer::only(0)
        };
        told.with_bytes(&self.bytes)
    }
}

fn of_step(step: Option<Step>) -> Asked
    ensures { result ≡ of_step step }
{
    match step {
        Some(step) => Asked::Step(step),
        None => Asked::BadArgument,
    }
}

/// The channel with a number: 0 to 4 for A to E.
pub fn channel_at(number: u32) -> Option<Channel>
    ensures { result ≡ channel_at number }
{
    match number {
        0 => Some(Channel::A),
        1 => Some(Channel::B),
        2 => Some(Channel::C),
        3 => Some(Channel::D),
        4 => Some(Channel::E),
        _ => None,
    }
}
