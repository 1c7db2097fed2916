//! The steps of a trace.

use crate::error::ParseError;
use crate::ticket::{parse_grow, parse_prune, parse_ticket};
use crate::words::{len_in, parse_access, parse_address, parse_number, split_words};
use std::alloc::Global;
use tl_types::{AccessBytes, BlockNo, ClientId, Grow, Prune, Ticket};

/// A call that takes a ticket.
#[derive(Clone, Copy, Debug, PartialEq, Eq)]
pub enum TicketCall {
    AnswerProbe,
    TakeGrant,
    TakeReleaseAck,
    Accept,
    TakeC,
    TakeGrantAck,
}

/// A call that takes a block.
#[derive(Clone, Copy, Debug, PartialEq, Eq)]
pub enum BlockCall {
    Advance,
    Evict,
    ServeMemory,
    TakeMemory,
}

/// One call of a trace. A name in it may name nothing that is there.
#[derive(Debug, Drop)]
pub enum Step {
    Load {
        client: ClientId,
        address: u32,
        len: u8,
    },
    Store {
        client: ClientId,
        address: u32,
        bytes: AccessBytes,
    },
    Acquire {
        client: ClientId,
        block: BlockNo,
        grow: Grow,
    },
    Release {
        client: ClientId,
        block: BlockNo,
        prune: Prune,
    },
    Ticket(TicketCall, Ticket),
    Block(BlockCall, BlockNo),
}

impl Step {
    ghost use Rattle.std.specs.Prelude.{◌≡◌};
    ghost use Rattle.tl_script_words.specs.Reads.{Reads};
    ghost use Rattle.tl_script_words.specs.Step.{load_of, store_of, acquire_of, release_of, ticket_step_of, block_step_of, step_by, step_in, step_of};
    ghost use Rattle.tl_script_words.specs.Words.{texts};

    /// The step that a text writes. `Malformed` where the text is outside the grammar, `Memory` where memory is
    /// refused.
    pub fn parse(alloc: Global, text: &str) -> Result<Step, ParseError>
        ensures { Reads (λ step. step) result (step_of text.now) }
    {
        let words = split_words(alloc, text)?;
        Step::from_words(alloc, &words)
    }

    #[tactic(auto, unfolding(crate::specs::Step::step_in))]
    fn from_words(alloc: Global, words: &[&str]) -> Result<Step, ParseError>
        ensures { Reads (λ step. step) result (step_in (texts words.now)) }
    {
        match words {
            [] => Err(ParseError::Malformed),
            [verb, arguments @ ..] => Step::by(alloc, verb, arguments),
        }
    }

    #[tactic(auto, unfolding(crate::specs::Step::step_by))]
    fn by(alloc: Global, verb: &str, arguments: &[&str]) -> Result<Step, ParseError>
        ensures { Reads (λ step. step) result (step_by verb.now (texts arguments.now)) }
    {
        match verb {
            "load" => Step::load(arguments),
            "store" => Step::store(arguments),
            "acquire" => Step::acquire(arguments),
            "release" => Step::release(arguments),
            "answer_probe" => Step::ticket(alloc, TicketCall::AnswerProbe, arguments),
            "take_grant" => Step::ticket(alloc, TicketCall::TakeGrant, arguments),
            "take_release_ack" => Step::ticket(alloc, TicketCall::TakeReleaseAck, arguments),
            "accept" => Step::ticket(alloc, TicketCall::Accept, arguments),
            "advance" => Step::block(BlockCall::Advance, arguments),
            "take_c" => Step::ticket(alloc, TicketCall::TakeC, arguments),
            "take_grant_ack" => Step::ticket(alloc, TicketCall::TakeGrantAck, arguments),
            "evict" => Step::block(BlockCall::Evict, arguments),
            "serve_memory" => Step::block(BlockCall::ServeMemory, arguments),
            "take_memory" => Step::block(BlockCall::TakeMemory, arguments),
            _ => Err(ParseError::Malformed),
        }
    }

    #[tactic(auto, unfolding(crate::specs::Step::load_of))]
    fn load(arguments: &[&str]) -> Result<Step, ParseError>
        ensures { Reads (λ step. step) result (load_of (texts arguments.now)) }
    {
        match *arguments {
            [client, address, len] => {
                let client = ClientId::new(parse_number(client).ok_or(ParseError::Malformed)?);
                let address = parse_address(address).ok_or(ParseError::Malformed)?;
                let len = len_in(len.as_bytes()).ok_or(ParseError::Malformed)?;
                Ok(Step::Load {
                    client,
                    address,
                    len,
                })
            }
            _ => Err(ParseError::Malformed),
        }
    }

    #[tactic(auto, unfolding(crate::specs::Step::store_of))]
    fn store(arguments: &[&str]) -> Result<Step, ParseError>
        ensures { Reads (λ step. step) result (store_of (texts arguments.now)) }
    {
        match *arguments {
            [client, address, bytes] => {
                let client = ClientId::new(parse_number(client).ok_or(ParseError::Malformed)?);
                let address = parse_address(address).ok_or(ParseError::Malformed)?;
                let bytes = parse_access(bytes).ok_or(ParseError::Malformed)?;
                Ok(Step::Store {
                    client,
                    address,
                    bytes,
                })
            }
            _ => Err(ParseError::Malformed),
        }
    }

    #[tactic(auto, unfolding(crate::specs::Step::acquire_of))]
    fn acquire(arguments: &[&str]) -> Result<Step, ParseError>
        ensures { Reads (λ step. step) result (acquire_of (texts arguments.now)) }
    {
        match *arguments {
            [client, block, grow] => {
                let client = ClientId::new(parse_number(client).ok_or(ParseError::Malformed)?);
                let block = BlockNo::new(parse_number(block).ok_or(ParseError::Malformed)?);
                let grow = parse_grow(grow)?;
                Ok(Step::Acquire {
                    client,
                    block,
                    grow,
                })
            }
            _ => Err(ParseError::Malformed),
        }
    }

    #[tactic(auto, unfolding(crate::specs::Step::release_of))]
    fn release(arguments: &[&str]) -> Result<Step, ParseError>
        ensures { Reads (λ step. step) result (release_of (texts arguments.now)) }
    {
        match *arguments {
            [client, block, prune] => {
                let client = ClientId::new(parse_number(client).ok_or(ParseError::Malformed)?);
                let block = BlockNo::new(parse_number(block).ok_or(ParseError::Malformed)?);
                let prune = parse_prune(prune)?;
                Ok(Step::Release {
                    client,
                    block,
                    prune,
                })
            }
            _ => Err(ParseError::Malformed),
        }
    }

    #[tactic(auto, unfolding(crate::specs::Step::ticket_step_of))]
    fn ticket(alloc: Global, call: TicketCall, arguments: &[&str]) -> Result<Step, ParseError>
        ensures { Reads (λ step. step) result (ticket_step_of call (texts arguments.now)) }
    {
        match *arguments {
            [ticket] => Ok(Step::Ticket(call, parse_ticket(alloc, ticket)?)),
            _ => Err(ParseError::Malformed),
        }
    }

    #[tactic(auto, unfolding(crate::specs::Step::block_step_of))]
    fn block(call: BlockCall, arguments: &[&str]) -> Result<Step, ParseError>
        ensures { Reads (λ step. step) result (block_step_of call (texts arguments.now)) }
    {
        match *arguments {
            [block] => {
                let block = BlockNo::new(parse_number(block).ok_or(ParseError::Malformed)?);
                Ok(Step::Block(call, block))
            }
            _ => Err(ParseError::Malformed),
        }
    }
}
