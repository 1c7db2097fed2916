//! Lines that are left out: of the agents and at the addresses that the header names, and their answers.
ghost use Rattle.std.specs.Prelude.{◌≡◌, Ok};
ghost use Rattle.tlcheck_record.specs.Cause.{Gives};
ghost use Rattle.tlwire_record.specs.Left.{ends_before, is_access_ignored, is_at_named, is_behind, is_elsewhere, is_grant, is_ignored, is_named, is_of_agent, is_release, message_ends_before, with_id, writes_nothing};
ghost use Rattle.tlwire_record.specs.Tables.{id_on};

use crate::fields::Fields;
use crate::header::Setting;
use crate::ignored::{is_address_named, is_source_named};
use crate::line::{Link, Said};
use crate::tables::Id;
use std::alloc::Global;
use std::collections::BTreeSet;
use std::marker::Model;
use tl_types::{AccessBytes, Channel};
use tlcheck_record::LineError;

/// Messages of this size and above have more bytes than addresses of 64 bits reach.
pub const SIZES: u32 = 64;

/// The opcode of a ReleaseAck on D (TileLink 1.8, section 6).
const RELEASE_ACK: u32 = 6;

/// Whether an address lies behind the memory's last byte.
fn is_behind(setting: &Setting, address: u64) -> bool
    ensures { result ≡ is_behind setting.now address }
{
    let shape = setting.shape();
    let bytes = shape.block_bytes as u64 * shape.blocks as u64;
    setting.base() as u128 + bytes as u128 <= address as u128
}

/// Whether so many bytes from an address on end before the memory's first byte.
fn ends_before(setting: &Setting, address: u64, bytes: u64) -> bool
    ensures { result ≡ ends_before setting.now address bytes }
{
    address as u128 + bytes as u128 <= setting.base() as u128
}

/// Whether a message of this size from an address on does.
fn message_ends_before(setting: &Setting, address: u64, size: Option<u32>) -> bool
    ensures { result ≡ message_ends_before setting.now address size }
{
    match size {
        None => ends_before(setting, address, setting.shape().block_bytes as u64),
        Some(size) => size < SIZES && ends_before(setting, address, 2u64.pow(size)),
    }
}

/// Whether a message with an address is of none of the memory's bytes.
fn is_elsewhere(setting: &Setting, address: Option<u64>, size: Option<u32>) -> bool
    ensures { result ≡ is_elsewhere setting.now address size }
{
    match address {
        None => false,
        Some(address) => {
            is_behind(setting, address) || message_ends_before(setting, address, size)
        }
    }
}

/// Whether it is a Get or an Intent, which writes nothing.
fn writes_nothing(channel: Channel, opcode: u32) -> bool
    ensures { result ≡ writes_nothing channel opcode }
{
    match channel {
        Channel::A => opcode == 4 || opcode == 5,
        Channel::B | Channel::C | Channel::D | Channel::E => false,
    }
}

/// Whether it is of an agent that is named, and of none of the memory's bytes, or writes nothing.
fn is_of_agent(
    setting: &Setting,
    link: &Link,
    channel: Channel,
    opcode: u32,
    fields: &Fields,
) -> bool
    ensures { result ≡ is_of_agent setting.now link.now channel opcode fields.now fields.now.source }
{
    match (link, fields.source) {
        (Link::Client(client), Some(source)) => {
            is_source_named(setting.ignored(), *client, source)
                && (writes_nothing(channel, opcode)
                    || is_elsewhere(setting, fields.address, fields.size))
        }
        _ => false,
    }
}

fn is_named(setting: &Setting, address: Option<u64>) -> bool
    ensures { result ≡ is_named setting.now address }
{
    match address {
        None => false,
        Some(address) => is_address_named(setting.ignored(), address),
    }
}

/// Whether it is at an address that is named, and of none of the memory's bytes.
fn is_at_named(setting: &Setting, fields: &Fields) -> bool
    ensures { result ≡ is_at_named setting.now fields.now }
{
    is_named(setting, fields.address) && is_elsewhere(setting, fields.address, fields.size)
}

/// Whether a message on A, B or C is left out.
fn is_ignored(
    setting: &Setting,
    link: &Link,
    channel: Channel,
    opcode: u32,
    fields: &Fields,
) -> bool
    ensures { result ≡ is_ignored setting.now link.now channel opcode fields.now }
{
    is_of_agent(setting, link, channel, opcode, fields) || is_at_named(setting, fields)
}

/// Whether an access is left out.
fn is_access_ignored(setting: &Setting, address: u64, bytes: &AccessBytes) -> bool
    ensures { result ≡ is_access_ignored setting.now address bytes.now }
{
    is_address_named(setting.ignored(), address)
        && (is_behind(setting, address)
            || ends_before(setting, address, bytes.as_slice().len() as u64))
}

fn is_release(opcode: u32) -> bool
    ensures { result ≡ is_release opcode }
{
    opcode == 6 || opcode == 7
}

fn is_grant(opcode: u32) -> bool
    ensures { result ≡ is_grant opcode }
{
    opcode == 4 || opcode == 5
}

/// One more is open, where a number stands.
fn open_one(ids: &mut BTreeSet<Id>, link: &Link, number: Option<u32>) -> Result<(), LineError>
    ensures { Gives (λ _. ids.new.keys) result (Ok (with_id link.now number ids.old.keys)) }
{
    if let Some(number) = number {
        ids.insert(Id::on(link, number))?;
    }
    Ok(())
}

/// The exchanges that are left out and open, by their sources and sinks.
#[derive(Drop)]
pub struct LeftOut {
    requests: BTreeSet<Id>,
    releases: BTreeSet<Id>,
    grants: BTreeSet<Id>,
}

impl Model for LeftOut {
    ghost use Rattle.tlwire_record.specs.Left.{LeftState};

    ghost Value = { LeftState };

    ghost view = { λ t. record { requests = t.requests.keys; releases = t.releases.keys; grants = t.grants.keys } };
}

impl LeftOut {
    ghost use Rattle.tlwire_record.specs.Left.{after_answer, after_ignored, answer_left, end_left, message_left, none_left, or_same, said_left};

    /// None is.
    pub(crate) fn new(alloc: Global) -> LeftOut
        ensures { result ≡ none_left }
    {
        LeftOut {
            requests: BTreeSet::new(alloc),
            releases: BTreeSet::new(alloc),
            grants: BTreeSet::new(alloc),
        }
    }

    /// Opens what a message on A, B or C opens that is left out.
    fn open(
        &mut self,
        link: &Link,
        channel: Channel,
        opcode: u32,
        source: Option<u32>,
    ) -> Result<(), LineError>
        ensures { Gives (λ _. self.new) result (Ok (after_ignored self.old link.now channel opcode source)) }
    {
        match channel {
            Channel::A => open_one(&mut self.requests, link, source),
            Channel::C => {
                if is_release(opcode) {
                    open_one(&mut self.releases, link, source)
                } else {
                    Ok(())
                }
            }
            Channel::B | Channel::D | Channel::E => Ok(()),
        }
    }

    /// Closes the request of an answer, and opens its Grant, where it is one.
    fn close_request(
        &mut self,
        link: &Link,
        id: Id,
        opcode: u32,
        sink: Option<u32>,
    ) -> Result<(), LineError>
        ensures { Gives (λ _. self.new) result (Ok (after_answer self.old link.now id opcode sink)) }
    {
        self.requests.remove(&id);
        if is_grant(opcode) {
            open_one(&mut self.grants, link, sink)
        } else {
            Ok(())
        }
    }

    /// Whether a message on D answers what was left out, which is open no more.
    fn take_answer(
        &mut self,
        link: &Link,
        opcode: u32,
        source: Option<u32>,
        sink: Option<u32>,
    ) -> Result<bool, LineError>
        ensures { Gives (λ left. (left, self.new)) result
            (Ok (or_same self.old (answer_left self.old link.now opcode source sink))) }
    {
        let Some(source) = source else {
            return Ok(false);
        };
        let id = Id::on(link, source);
        if opcode == RELEASE_ACK {
            return Ok(self.releases.remove(&id));
        }
        if !self.requests.contains(&id) {
            return Ok(false);
        }
        self.close_request(link, id, opcode, sink)?;
        Ok(true)
    }

    /// Whether a GrantAck is of a Grant that was left out, which is open no more.
    fn take_end(&mut self, link: &Link, sink: Option<u32>) -> bool
        ensures { (result, self.new) ≡ or_same self.old (end_left self.old link.now sink) }
    {
        match sink {
            Some(sink) => self.grants.remove(&Id::on(link, sink)),
            None => false,
        }
    }

    /// Whether a message is left out; then it opens or closes what it does.
    fn take_message(
        &mut self,
        setting: &Setting,
        link: &Link,
        channel: Channel,
        opcode: u32,
        fields: &Fields,
    ) -> Result<bool, LineError>
        ensures { Gives (λ left. (left, self.new)) result
            (Ok (or_same self.old (message_left setting.now self.old link.now channel opcode fields.now))) }
    {
        match channel {
            Channel::D => self.take_answer(link, opcode, fields.source, fields.sink),
            Channel::E => Ok(self.take_end(link, fields.sink)),
            Channel::A | Channel::B | Channel::C => {
                if !is_ignored(setting, link, channel, opcode, fields) {
                    return Ok(false);
                }
                self.open(link, channel, opcode, fields.source)?;
                Ok(true)
            }
        }
    }

    /// Whether what a line says is left out; then it opens or closes what it does.
    pub(crate) fn take(
        &mut self,
        setting: &Setting,
        link: &Link,
        said: &Said,
    ) -> Result<bool, LineError>
        ensures { Gives (λ left. (left, self.new)) result
            (Ok (or_same self.old (said_left setting.now self.old link.now said.now))) }
    {
        match said {
            Said::Load(address, bytes) | Said::Store(address, bytes) => {
                Ok(is_access_ignored(setting, *address, bytes))
            }
            Said::Message(channel, opcode, fields) => {
                self.take_message(setting, link, *channel, *opcode, fields)
            }
        }
    }
}
