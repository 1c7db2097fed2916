//! The lines before the messages that say how the record was seen.
ghost use Rattle.std.specs.Prelude.{◌≡◌, OnErr, OnOk};
ghost use Rattle.tl_script_words.specs.Words.{texts};
ghost use Rattle.tlcheck_record.specs.Cause.{Gives};
ghost use Rattle.tlwire_record.specs.Drops.{dropping_client, drops_in, says_again};
ghost use Rattle.tlwire_record.specs.Header.{alone, at_client, is_premise_word, new_premise, place_in, place_named, premise_in, premise_taken, seen_in, skew_in, unseen_in};
ghost use Rattle.tlwire_record.specs.Premise.{least, with_line};

use crate::header::Setting;
use std::alloc::AllocError;
use tl_rules::Shape;
use tl_types::ClientId;
use tlcheck_record::{Cause, LineError, read_number};
use tlwire_search::Premises;

/// What a line of a record's header says of how the record was seen.
#[derive(Clone, Copy, PartialEq, Eq)]
pub enum Premise {
    /// `seen at client N`
    AtClient(ClientId),
    /// `seen at clients`
    AtClients,
    /// `seen at home`
    AtHome,
    /// `seen between`
    Between,
    /// `skew D`
    Skew(u32),
    /// `whole`
    Whole,
    /// `memory unseen`
    MemoryUnseen,
    /// `cores unseen`
    CoresUnseen,
    /// `drops client N`
    ClientDrops(ClientId),
    /// `drops clients`
    ClientsDrop,
}

/// The lesser of a number that may be absent and another.
pub(crate) fn least(one: Option<u32>, other: u32) -> u32
    ensures { result ≡ least one other }
{
    match one {
        Some(one) => { if one <= other { one } else { other } }
        None => other,
    }
}

/// Adds what a line says. Err is a refused request for memory, and nothing is changed.
pub(crate) fn add_line(premises: &mut Premises, premise: Premise) -> Result<(), AllocError>
    ensures added { OnOk result (premises.new ≡ with_line premises.old premise) }
    ensures kept { OnErr result (premises.new ≡ premises.old) }
{
    match premise {
        Premise::AtClient(client) => premises.pins.add(client)?,
        Premise::AtClients => premises.pins.add_all(),
        Premise::AtHome => premises.at_home = true,
        Premise::Between => premises.between = true,
        Premise::Skew(most) => premises.skew = Some(least(premises.skew, most)),
        Premise::Whole => premises.whole = true,
        Premise::MemoryUnseen => premises.memory_unseen = true,
        Premise::CoresUnseen => premises.cores_unseen = true,
        Premise::ClientDrops(client) => premises.dropping.add(client)?,
        Premise::ClientsDrop => premises.dropping.add_all(),
    }
    Ok(())
}

/// Whether a line with this first word says how the record was seen.
pub(crate) fn is_premise_word(word: &str) -> bool
    ensures { result ≡ is_premise_word word.now }
{
    word == "seen"
        || word == "skew"
        || word == "whole"
        || word == "memory"
        || word == "cores"
        || word == "drops"
}

fn at_client(shape: Shape, c: u32) -> Result<Premise, Cause>
    ensures { result ≡ at_client shape c }
{
    if c < shape.clients {
        Ok(Premise::AtClient(ClientId::new(c)))
    } else {
        Err(Cause::Client)
    }
}

/// `clients` or `home`.
fn place_named(word: &str) -> Result<Premise, Cause>
    ensures { result ≡ place_named word.now }
{
    match word {
        "clients" => Ok(Premise::AtClients),
        "home" => Ok(Premise::AtHome),
        _ => Err(Cause::Premise),
    }
}

/// `clients`, `home` or `client NUM`, behind `seen at`.
#[tactic(auto, unfolding(crate::specs::Header::place_in))]
fn place_of(shape: Shape, words: &[&str]) -> Result<Premise, Cause>
    ensures { result ≡ place_in shape (texts words.now) }
{
    match *words {
        [word] => place_named(word),
        [word, number] => {
            if word == "client" {
                at_client(shape, read_number(number)?)
            } else {
                Err(Cause::Premise)
            }
        }
        _ => Err(Cause::Premise),
    }
}

fn alone(words: &[&str], premise: Premise) -> Result<Premise, Cause>
    ensures { result ≡ alone (texts words.now) premise }
{
    match words {
        [] => Ok(premise),
        _ => Err(Cause::Premise),
    }
}

fn unseen(words: &[&str], premise: Premise) -> Result<Premise, Cause>
    ensures { result ≡ unseen_in (texts words.now) premise }
{
    match *words {
        [word] => {
            if word == "unseen" {
                Ok(premise)
            } else {
                Err(Cause::Premise)
            }
        }
        _ => Err(Cause::Premise),
    }
}

fn skew(words: &[&str]) -> Result<Premise, Cause>
    ensures { result ≡ skew_in (texts words.now) }
{
    match *words {
        [number] => Ok(Premise::Skew(read_number(number)?)),
        _ => Err(Cause::Premise),
    }
}

/// `between`, or `at` and where, behind `seen`.
#[tactic(auto, unfolding(crate::specs::Header::seen_in))]
fn seen(shape: Shape, words: &[&str]) -> Result<Premise, Cause>
    ensures { result ≡ seen_in shape (texts words.now) }
{
    match words {
        [] => Err(Cause::Premise),
        [word, rest @ ..] => match *word {
            "between" => alone(rest, Premise::Between),
            "at" => place_of(shape, rest),
            _ => Err(Cause::Premise),
        },
    }
}

fn dropping_client(shape: Shape, c: u32) -> Result<Premise, Cause>
    ensures { result ≡ dropping_client shape c }
{
    if c < shape.clients {
        Ok(Premise::ClientDrops(ClientId::new(c)))
    } else {
        Err(Cause::Client)
    }
}

/// `clients` or `client NUM`, behind `drops`.
#[tactic(auto, unfolding(crate::specs::Drops::drops_in))]
fn drops_of(shape: Shape, words: &[&str]) -> Result<Premise, Cause>
    ensures { result ≡ drops_in shape (texts words.now) }
{
    match *words {
        [word] => {
            if word == "clients" {
                Ok(Premise::ClientsDrop)
            } else {
                Err(Cause::Premise)
            }
        }
        [word, number] => {
            if word == "client" {
                dropping_client(shape, read_number(number)?)
            } else {
                Err(Cause::Premise)
            }
        }
        _ => Err(Cause::Premise),
    }
}

/// Whether an earlier line says already that a client drops, or that some do.
fn says_again(premises: &Premises, premise: &Premise) -> bool
    ensures { result ≡ says_again premises.now premise.now }
{
    match premise {
        Premise::ClientDrops(client) => premises.drops(*client),
        Premise::ClientsDrop => premises.has_drops(),
        _ => false,
    }
}

/// What a line says of how the record was seen, by its first word.
#[tactic(auto, unfolding(crate::specs::Header::premise_in))]
fn premise_of(shape: Shape, word: &str, rest: &[&str]) -> Result<Premise, Cause>
    ensures { result ≡ premise_in shape word.now (texts rest.now) }
{
    match word {
        "seen" => seen(shape, rest),
        "skew" => skew(rest),
        "whole" => alone(rest, Premise::Whole),
        "memory" => unseen(rest, Premise::MemoryUnseen),
        "drops" => drops_of(shape, rest),
        _ => unseen(rest, Premise::CoresUnseen),
    }
}

/// The same, where no earlier line says it already.
fn new_premise(setting: &Setting, word: &str, rest: &[&str]) -> Result<Premise, Cause>
    ensures { result ≡ new_premise setting.now word.now (texts rest.now) }
{
    let premise = premise_of(setting.shape(), word, rest)?;
    if says_again(setting.premises(), &premise) {
        Err(Cause::Premise)
    } else {
        Ok(premise)
    }
}

/// The setting with what a line says of how the record was seen.
pub(crate) fn take_premise(
    mut setting: Setting,
    word: &str,
    rest: &[&str],
) -> Result<Setting, LineError>
    ensures { Gives (λ x. x) result (premise_taken setting word.now (texts rest.now)) }
{
    let premise = new_premise(&setting, word, rest)?;
    setting.add_premise(premise)?;
    Ok(setting)
}
