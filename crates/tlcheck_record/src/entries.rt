//! The lines of a record that stand for events.
ghost use Rattle.std.specs.Prelude.{◌≡◌, None};
ghost use Rattle.tl_script_words.specs.Words.{texts};
ghost use Rattle.tlcheck_record.specs.Cause.{Gives};
ghost use Rattle.tlcheck_record.specs.Words.{number_in};
ghost use Rattle.tlcheck_record.specs.Entry.{access_in, acquire_in, client_entry, client_event, entry_by, entry_in, entry_of, home_entry, home_event, probe_in, release_in};

use crate::cause::{Cause, LineError};
use crate::cut::few_words;
use crate::shown::{parse_probe_cap, parse_shown};
use crate::words::{read_access, read_address, read_grow, read_number, read_prune};
use std::alloc::Global;
use tl_rules::{Access, Event};
use tl_script_words::split_words;
use tl_types::{BlockNo, ClientId};
use tlcheck_rules::Entry;

/// As many words as an entry may have.
const FEW: usize = 7;

/// A verb of a client and a block.
#[derive(Clone, Copy, Debug, PartialEq, Eq)]
pub enum ClientCall {
    AnswerProbe,
    TakeGrant,
    TakeReleaseAck,
    AcceptAcquire,
    TakeC,
    SendGrant,
    TakeGrantAck,
}

/// A verb of a block.
#[derive(Clone, Copy, Debug, PartialEq, Eq)]
pub enum HomeCall {
    SendGet,
    Serve,
    TakeData,
    Drop,
    SendPut,
    TakePutAck,
}

fn client_event(verb: ClientCall, c: ClientId, b: BlockNo) -> Event
    ensures { result ≡ client_event verb c b }
{
    match verb {
        ClientCall::AnswerProbe => Event::AnswerProbe(c, b),
        ClientCall::TakeGrant => Event::TakeGrant(c, b),
        ClientCall::TakeReleaseAck => Event::TakeReleaseAck(c, b),
        ClientCall::AcceptAcquire => Event::AcceptAcquire(c, b),
        ClientCall::TakeC => Event::TakeC(c, b),
        ClientCall::SendGrant => Event::SendGrant(c, b),
        ClientCall::TakeGrantAck => Event::TakeGrantAck(c, b),
    }
}

fn home_event(verb: HomeCall, b: BlockNo) -> Event
    ensures { result ≡ home_event verb b }
{
    match verb {
        HomeCall::SendGet => Event::SendGet(b),
        HomeCall::Serve => Event::Serve(b),
        HomeCall::TakeData => Event::TakeData(b),
        HomeCall::Drop => Event::Drop(b),
        HomeCall::SendPut => Event::SendPut(b),
        HomeCall::TakePutAck => Event::TakePutAck(b),
    }
}

fn client(text: &str) -> Result<ClientId, Cause>
    ensures { result ≡ number_in text.now }
{
    Ok(ClientId::new(read_number(text)?))
}

fn block(text: &str) -> Result<BlockNo, Cause>
    ensures { result ≡ number_in text.now }
{
    Ok(BlockNo::new(read_number(text)?))
}

#[tactic(auto, unfolding(crate::specs::Entry::access_in))]
fn access(arguments: &[&str]) -> Result<Access, LineError>
    ensures { Gives (λ x. x) result (access_in (texts arguments.now)) }
{
    match arguments {
        [] | [_] => Err(LineError::Wrong(Cause::Words)),
        [who, address, rest @ ..] => match *rest {
            [] => Err(LineError::Wrong(Cause::Words)),
            [bytes] => {
                let client = client(who)?;
                let address = read_address(address)?;
                let bytes = read_access(bytes)?;
                Ok(Access::bare(client, address, bytes))
            }
            _ => Err(LineError::Wrong(Cause::MoreWords)),
        },
    }
}

#[tactic(auto, unfolding(crate::specs::Entry::client_entry))]
fn client_entry(verb: ClientCall, arguments: &[&str]) -> Result<Entry, LineError>
    ensures { Gives (λ x. x) result (client_entry verb (texts arguments.now)) }
{
    match arguments {
        [] | [_] => Err(LineError::Wrong(Cause::Words)),
        [who, place, rest @ ..] => {
            let c = client(who)?;
            let b = block(place)?;
            let shown = parse_shown(rest)?;
            Ok(Entry {
                event: client_event(verb, c, b),
                shown,
            })
        }
    }
}

#[tactic(auto, unfolding(crate::specs::Entry::home_entry))]
fn home_entry(verb: HomeCall, arguments: &[&str]) -> Result<Entry, LineError>
    ensures { Gives (λ x. x) result (home_entry verb (texts arguments.now)) }
{
    match *arguments {
        [] => Err(LineError::Wrong(Cause::Words)),
        [place] => {
            let b = block(place)?;
            Ok(Entry {
                event: home_event(verb, b),
                shown: None,
            })
        }
        _ => Err(LineError::Wrong(Cause::MoreWords)),
    }
}

#[tactic(auto, unfolding(crate::specs::Entry::acquire_in))]
fn acquire(arguments: &[&str]) -> Result<Entry, LineError>
    ensures { Gives (λ x. x) result (acquire_in (texts arguments.now)) }
{
    match arguments {
        [] | [_] | [_, _] => Err(LineError::Wrong(Cause::Words)),
        [who, place, word, rest @ ..] => {
            let c = client(who)?;
            let b = block(place)?;
            let param = read_grow(word)?;
            let shown = parse_shown(rest)?;
            Ok(Entry {
                event: Event::SendAcquire(c, b, param),
                shown,
            })
        }
    }
}

#[tactic(auto, unfolding(crate::specs::Entry::release_in))]
fn release(arguments: &[&str]) -> Result<Entry, LineError>
    ensures { Gives (λ x. x) result (release_in (texts arguments.now)) }
{
    match arguments {
        [] | [_] | [_, _] => Err(LineError::Wrong(Cause::Words)),
        [who, place, word, rest @ ..] => {
            let c = client(who)?;
            let b = block(place)?;
            let param = read_prune(word)?;
            let shown = parse_shown(rest)?;
            Ok(Entry {
                event: Event::SendRelease(c, b, param),
                shown,
            })
        }
    }
}

#[tactic(auto, unfolding(crate::specs::Entry::probe_in))]
fn probe(arguments: &[&str]) -> Result<Entry, LineError>
    ensures { Gives (λ x. x) result (probe_in (texts arguments.now)) }
{
    match arguments {
        [] | [_] | [_, _] => Err(LineError::Wrong(Cause::Words)),
        [who, place, word, rest @ ..] => {
            let c = client(who)?;
            let b = block(place)?;
            let param = parse_probe_cap(word)?;
            let shown = parse_shown(rest)?;
            Ok(Entry {
                event: Event::SendProbe(c, b, param),
                shown,
            })
        }
    }
}

fn quiet(event: Event) -> Entry
    ensures { result ≡ record { event = event; shown = None } }
{
    Entry { event, shown: None }
}

#[tactic(auto, unfolding(crate::specs::Entry::entry_by))]
fn entry_by(verb: &str, arguments: &[&str]) -> Result<Entry, LineError>
    ensures { Gives (λ x. x) result (entry_by verb.now (texts arguments.now)) }
{
    match verb {
        "load" => Ok(quiet(Event::Load(access(arguments)?))),
        "store" => Ok(quiet(Event::Store(access(arguments)?))),
        "acquire" => acquire(arguments),
        "release" => release(arguments),
        "probe" => probe(arguments),
        "answer_probe" => client_entry(ClientCall::AnswerProbe, arguments),
        "take_grant" => client_entry(ClientCall::TakeGrant, arguments),
        "take_release_ack" => client_entry(ClientCall::TakeReleaseAck, arguments),
        "accept" => client_entry(ClientCall::AcceptAcquire, arguments),
        "take_c" => client_entry(ClientCall::TakeC, arguments),
        "grant" => client_entry(ClientCall::SendGrant, arguments),
        "take_grant_ack" => client_entry(ClientCall::TakeGrantAck, arguments),
        "get" => home_entry(HomeCall::SendGet, arguments),
        "serve" => home_entry(HomeCall::Serve, arguments),
        "take_data" => home_entry(HomeCall::TakeData, arguments),
        "drop" => home_entry(HomeCall::Drop, arguments),
        "put" => home_entry(HomeCall::SendPut, arguments),
        "take_put_ack" => home_entry(HomeCall::TakePutAck, arguments),
        _ => Err(LineError::Wrong(Cause::Verb)),
    }
}

#[tactic(auto, unfolding(crate::specs::Entry::entry_in))]
fn entry_in(words: &[&str]) -> Result<Entry, LineError>
    ensures { Gives (λ x. x) result (entry_in (texts words.now)) }
{
    match words {
        [] => Err(LineError::Wrong(Cause::Words)),
        [verb, arguments @ ..] => entry_by(verb, arguments),
    }
}

/// The entry that any line writes, or why it cannot be read.
fn entry_of_any(alloc: Global, line: &str) -> Result<Entry, LineError>
    ensures { Gives (λ x. x) result (entry_of line.now) }
{
    let words = split_words(alloc, line)?;
    entry_in(&words)
}

/// The entry that a line writes. `Wrong` with the cause where it writes none, `Memory` where memory is refused.
pub fn read_entry(alloc: Global, line: &str) -> Result<Entry, LineError>
    ensures { Gives (λ x. x) result (entry_of line.now) }
{
    match few_words::<FEW>(line) {
        Some(words) => entry_in(&words),
        None => entry_of_any(alloc, line),
    }
}
