//! A line of a message, of a load or of a store.
ghost use Rattle.std.specs.Prelude.{◌≡◌, [], ◌∷◌};
ghost use Rattle.tl_script_words.specs.Words.{texts};
ghost use Rattle.tlcheck_record.specs.Cause.{Gives};
ghost use Rattle.tlwire_record.specs.Line.{access_in, channel_of_word, client_of_word, line_in, link_of, message_in, said_in};

use crate::address::read_wide_address;
use crate::fields::{Fields, parse_fields};
use tl_script_words::parse_number;
use tl_types::{AccessBytes, Channel, ClientId};
use tlcheck_record::{Cause, LineError, read_access, read_number};

/// Whose link.
#[derive(Clone, Copy, PartialEq, Eq)]
pub enum Link {
    /// A client's.
    Client(ClientId),
    /// The memory's.
    Memory,
}

/// What a line says of its link.
#[derive(Drop)]
pub enum Said {
    /// The client reads these bytes from an address on.
    Load(u64, AccessBytes),
    /// The client writes these bytes from an address on.
    Store(u64, AccessBytes),
    /// A message with this opcode is sent on a channel.
    Message(Channel, u32, Fields),
}

/// A line of a message, of a load or of a store.
#[derive(Drop)]
pub struct Line {
    /// When.
    pub cycle: u32,
    /// Where.
    pub link: Link,
    /// What.
    pub said: Said,
}

fn client_of_word(text: &str) -> Option<u32>
    ensures { result ≡ client_of_word text.now }
{
    if !text.starts_with("c") {
        return None;
    }
    let digits = &text[1..];
    parse_number(digits)
}

fn parse_link(text: &str) -> Result<Link, Cause>
    ensures { result ≡ link_of text.now }
{
    if text == "m" {
        return Ok(Link::Memory);
    }
    match client_of_word(text) {
        Some(number) => Ok(Link::Client(ClientId::new(number))),
        None => Err(Cause::Link),
    }
}

#[tactic(auto, unfolding(crate::specs::Line::channel_of_word))]
fn parse_channel(text: &str) -> Result<Channel, Cause>
    ensures { result ≡ channel_of_word text.now }
{
    match text {
        "A" => Ok(Channel::A),
        "B" => Ok(Channel::B),
        "C" => Ok(Channel::C),
        "D" => Ok(Channel::D),
        "E" => Ok(Channel::E),
        _ => Err(Cause::Channel),
    }
}

/// An address, and the bytes from it on.
#[tactic(auto, unfolding(crate::specs::Line::access_in))]
fn parse_words_of_access(words: &[&str]) -> Result<(u64, AccessBytes), LineError>
    ensures { Gives (λ x. x) result (access_in (texts words.now)) }
{
    match *words {
        [place, bytes] => {
            let address = read_wide_address(place)?;
            let bytes = read_access(bytes)?;
            Ok((address, bytes))
        }
        _ => Err(LineError::Wrong(Cause::Words)),
    }
}

/// A message's opcode and fields.
#[tactic(auto, unfolding(crate::specs::Line::message_in))]
fn message(channel: Channel, words: &[&str]) -> Result<Said, LineError>
    ensures { Gives (λ x. x) result (message_in channel (texts words.now)) }
{
    match words {
        [] => Err(LineError::Wrong(Cause::Words)),
        [opcode, rest @ ..] => {
            let opcode = read_number(opcode)?;
            let fields = parse_fields(rest)?;
            Ok(Said::Message(channel, opcode, fields))
        }
    }
}

#[tactic(auto, unfolding(crate::specs::Line::said_in))]
fn parse_said(verb: &str, words: &[&str]) -> Result<Said, LineError>
    ensures { Gives (λ x. x) result (said_in verb.now (texts words.now)) }
{
    match verb {
        "load" => {
            let (address, bytes) = parse_words_of_access(words)?;
            Ok(Said::Load(address, bytes))
        }
        "store" => {
            let (address, bytes) = parse_words_of_access(words)?;
            Ok(Said::Store(address, bytes))
        }
        _ => {
            let channel = parse_channel(verb)?;
            message(channel, words)
        }
    }
}

/// The line with this cycle, this link, this verb and these words behind it.
#[tactic(auto, unfolding(crate::specs::Line::line_in))]
fn line_of(when: &str, place: &str, verb: &str, rest: &[&str]) -> Result<Line, LineError>
    ensures { Gives (λ x. x) result (line_in (when.now ∷ place.now ∷ verb.now ∷ texts rest.now)) }
{
    let cycle = read_number(when)?;
    let link = parse_link(place)?;
    let said = parse_said(verb, rest)?;
    Ok(Line { cycle, link, said })
}

/// The line that some words write: `CYCLE LINK CHANNEL OPCODE FIELD..`, `CYCLE LINK load ADDR HEX` or
/// `CYCLE LINK store ADDR HEX`.
#[tactic(auto, unfolding(crate::specs::Line::line_in))]
pub(crate) fn parse_line(words: &[&str]) -> Result<Line, LineError>
    ensures { Gives (λ x. x) result (line_in (texts words.now)) }
{
    match words {
        [] | [_] | [_, _] => Err(LineError::Wrong(Cause::Words)),
        [when, place, verb, rest @ ..] => line_of(when, place, verb, rest),
    }
}
