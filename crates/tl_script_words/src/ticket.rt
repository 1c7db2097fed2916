//! The words of messages: channels, tickets, and what a client gains or gives up.

ghost use Rattle.std.specs.Prelude.{◌≡◌};
ghost use Rattle.tl_script_words.specs.Reads.{Reads};
ghost use Rattle.tl_script_words.specs.Ticket.{channel_of, grow_of, prune_of, ticket_in, ticket_of};
ghost use Rattle.tl_script_words.specs.Words.{texts};

use crate::error::ParseError;
use crate::words::{parse_number, split_fields};
use std::alloc::Global;
use tl_types::{BankNo, Channel, ClientId, Grow, Prune, Ticket};

/// The channel that a letter names, A to E. `Malformed` where the text is none of them.
#[tactic(auto, unfolding(crate::specs::Ticket::channel_of))]
pub fn parse_channel(text: &str) -> Result<Channel, ParseError>
    ensures { Reads (λ channel. channel) result (channel_of text.now) }
{
    match text {
        "A" => Ok(Channel::A),
        "B" => Ok(Channel::B),
        "C" => Ok(Channel::C),
        "D" => Ok(Channel::D),
        "E" => Ok(Channel::E),
        _ => Err(ParseError::Malformed),
    }
}

/// What an Acquire starts from and asks for: `NtoB`, `NtoT` or `BtoT`. `Malformed` where the text is none of them.
#[tactic(auto, unfolding(crate::specs::Ticket::grow_of))]
pub fn parse_grow(text: &str) -> Result<Grow, ParseError>
    ensures { Reads (λ grow. grow) result (grow_of text.now) }
{
    match text {
        "NtoB" => Ok(Grow::NtoB),
        "NtoT" => Ok(Grow::NtoT),
        "BtoT" => Ok(Grow::BtoT),
        _ => Err(ParseError::Malformed),
    }
}

/// What a Release starts from and leaves: `TtoB`, `TtoN` or `BtoN`. `Malformed` where the text is none of them.
#[tactic(auto, unfolding(crate::specs::Ticket::prune_of))]
pub fn parse_prune(text: &str) -> Result<Prune, ParseError>
    ensures { Reads (λ prune. prune) result (prune_of text.now) }
{
    match text {
        "TtoB" => Ok(Prune::TtoB),
        "TtoN" => Ok(Prune::TtoN),
        "BtoN" => Ok(Prune::BtoN),
        _ => Err(ParseError::Malformed),
    }
}

/// The ticket that a text writes. `Malformed` where the text writes none, `Memory` where memory is refused.
pub fn parse_ticket(alloc: Global, text: &str) -> Result<Ticket, ParseError>
    ensures { Reads (λ ticket. ticket) result (ticket_of text.now) }
{
    let fields = split_fields(alloc, text)?;
    from_fields(&fields)
}

#[tactic(auto, unfolding(crate::specs::Ticket::ticket_in))]
fn from_fields(fields: &[&str]) -> Result<Ticket, ParseError>
    ensures { Reads (λ ticket. ticket) result (ticket_in (texts fields.now)) }
{
    match *fields {
        [bank, client, channel, serial] => {
            let bank = parse_number(bank).ok_or(ParseError::Malformed)?;
            let client = parse_number(client).ok_or(ParseError::Malformed)?;
            let channel = parse_channel(channel)?;
            let serial = parse_number(serial).ok_or(ParseError::Malformed)?;
            Ok(Ticket {
                bank: BankNo::new(bank),
                client: ClientId::new(client),
                channel,
                serial: u64::from(serial),
            })
        }
        _ => Err(ParseError::Malformed),
    }
}
