//! The lines before the messages that name the agents and the addresses whose lines are left out.
ghost use Rattle.std.specs.Prelude.{◌≡◌};
ghost use Rattle.std.specs.List.{list_any};
ghost use Rattle.tl_script_words.specs.Words.{texts};
ghost use Rattle.tlcheck_record.specs.Cause.{Gives};
ghost use Rattle.tlwire_record.specs.Left.{addresses_ignored_in, ignored_addresses, ignored_in, ignored_sources, ignored_taken, is_range, names_address, names_source, numbers_between, sources_ignored_in};

use crate::address::read_wide_address;
use crate::header::{Setting, Sources};
use tl_rules::Shape;
use tl_types::ClientId;
use tlcheck_record::{Cause, LineError, read_number};

/// Whose lines are left out.
#[derive(Clone, Copy, PartialEq, Eq)]
pub enum Ignored {
    /// Those of an agent on a client's link, by its sources.
    Sources(Sources),
    /// Those at the addresses from one to another, both with them.
    Addresses(u64, u64),
}

fn names_source(ignored: &Ignored, client: ClientId, source: u32) -> bool
    ensures { result ≡ names_source client source ignored.now }
{
    match ignored {
        Ignored::Sources(sources) => sources.has(client, source),
        Ignored::Addresses(_, _) => false,
    }
}

fn names_address(ignored: &Ignored, address: u64) -> bool
    ensures { result ≡ names_address address ignored.now }
{
    match ignored {
        Ignored::Sources(_) => false,
        Ignored::Addresses(from, to) => *from <= address && address <= *to,
    }
}

/// Whether a source of a client's is named.
pub(crate) fn is_source_named(ignored: &[Ignored], client: ClientId, source: u32) -> bool
    ensures { result ≡ list_any (names_source client source) ignored.now }
{
    ignored.iter().any(|one| names_source(one, client, source))
}

/// Whether an address is named.
pub(crate) fn is_address_named(ignored: &[Ignored], address: u64) -> bool
    ensures { result ≡ list_any (names_address address) ignored.now }
{
    ignored.iter().any(|one| names_address(one, address))
}

/// Whether these are the words around two numbers.
fn is_range(from: &str, to: &str) -> bool
    ensures { result ≡ is_range from.now to.now }
{
    from == "from" && to == "to"
}

fn ignored_sources(shape: Shape, sources: Sources) -> Result<Ignored, Cause>
    ensures { result ≡ ignored_sources shape sources }
{
    if sources.client.number() >= shape.clients {
        Err(Cause::Client)
    } else if sources.from <= sources.to {
        Ok(Ignored::Sources(sources))
    } else {
        Err(Cause::Premise)
    }
}

/// `from NUM to NUM`.
#[tactic(auto, unfolding(crate::specs::Left::numbers_between))]
fn numbers_between(words: &[&str]) -> Result<(u32, u32), Cause>
    ensures { result ≡ numbers_between (texts words.now) }
{
    match *words {
        [from, first, to, last] => {
            if is_range(from, to) {
                let from = read_number(first)?;
                let to = read_number(last)?;
                Ok((from, to))
            } else {
                Err(Cause::Premise)
            }
        }
        _ => Err(Cause::Premise),
    }
}

/// `NUM from NUM to NUM`, behind `client`.
#[tactic(auto, unfolding(crate::specs::Left::sources_ignored_in))]
fn sources_of(shape: Shape, words: &[&str]) -> Result<Ignored, Cause>
    ensures { result ≡ sources_ignored_in shape (texts words.now) }
{
    match words {
        [] => Err(Cause::Premise),
        [client, rest @ ..] => {
            let client = ClientId::new(read_number(client)?);
            let (from, to) = numbers_between(rest)?;
            ignored_sources(shape, Sources { client, from, to })
        }
    }
}

fn ignored_addresses(from: u64, to: u64) -> Result<Ignored, Cause>
    ensures { result ≡ ignored_addresses from to }
{
    if from <= to {
        Ok(Ignored::Addresses(from, to))
    } else {
        Err(Cause::Premise)
    }
}

/// `from ADDR to ADDR`, behind `addresses`.
#[tactic(auto, unfolding(crate::specs::Left::addresses_ignored_in))]
fn addresses_of(words: &[&str]) -> Result<Ignored, Cause>
    ensures { result ≡ addresses_ignored_in (texts words.now) }
{
    match *words {
        [from, first, to, last] => {
            if is_range(from, to) {
                let from = read_wide_address(first)?;
                let to = read_wide_address(last)?;
                ignored_addresses(from, to)
            } else {
                Err(Cause::Premise)
            }
        }
        _ => Err(Cause::Premise),
    }
}

/// `client NUM from NUM to NUM` or `addresses from ADDR to ADDR`, behind `ignored`.
#[tactic(auto, unfolding(crate::specs::Left::ignored_in))]
fn ignored_of(shape: Shape, words: &[&str]) -> Result<Ignored, Cause>
    ensures { result ≡ ignored_in shape (texts words.now) }
{
    match words {
        [] => Err(Cause::Premise),
        [word, rest @ ..] => match *word {
            "client" => sources_of(shape, rest),
            "addresses" => addresses_of(rest),
            _ => Err(Cause::Premise),
        },
    }
}

/// The setting with what a line names, whose lines are left out.
pub(crate) fn take_ignored(mut setting: Setting, words: &[&str]) -> Result<Setting, LineError>
    ensures { Gives (λ x. x) result (ignored_taken setting (texts words.now)) }
{
    let ignored = ignored_of(setting.shape(), words)?;
    setting.add_ignored(ignored)?;
    Ok(setting)
}
