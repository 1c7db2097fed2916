//! What is open on the links: requests and releases by their sources, grants by their sinks.
ghost use Rattle.std.specs.Prelude.{◌≡◌};
ghost use Rattle.tlcheck_record.specs.Cause.{Gives};
ghost use Rattle.tlwire_record.specs.Tables.{at_address, closed, id_on, needed, opened};

use crate::code::Role;
use crate::fields::Fields;
use crate::header::Setting;
use crate::line::Link;
use crate::place::block_at;
use std::alloc::Global;
use std::collections::BTreeMap;
use std::marker::Model;
use tl_types::BlockNo;
use tlcheck_record::{Cause, LineError};

/// A source or a sink in use, on the link of a client, by its number, or with no client on the memory's.
#[derive(Clone, Copy, PartialEq, Eq, PartialOrd, Ord)]
pub struct Id {
    pub client: Option<u32>,
    pub number: u32,
}

impl Id {
    /// That number on that link.
    pub(crate) fn on(link: &Link, number: u32) -> Id
        ensures { result ≡ id_on link.now number }
    {
        let client = match link {
            Link::Client(client) => Some(client.number()),
            Link::Memory => None,
        };
        Id { client, number }
    }
}

/// The block of each exchange that is open, by its source or its sink.
type Exchanges = BTreeMap<Id, BlockNo>;

/// One more is open, unless its id is in use.
fn open_one(
    exchanges: &mut Exchanges,
    id: Id,
    block: BlockNo,
    in_use: Cause,
) -> Result<(), LineError>
    ensures { Gives (λ _. exchanges.new.entries) result (opened id block in_use exchanges.old.entries) }
{
    if exchanges.contains_key(&id) {
        return Err(LineError::Wrong(in_use));
    }
    exchanges.insert(id, block)?;
    Ok(())
}

/// What is open under an id closes; its block.
fn close_one(exchanges: &mut Exchanges, id: Id, unknown: Cause) -> Result<BlockNo, LineError>
    ensures { Gives (λ block. (block, exchanges.new.entries)) result (closed id unknown exchanges.old.entries) }
{
    match exchanges.remove(&id) {
        Some(block) => Ok(block),
        None => Err(LineError::Wrong(unknown)),
    }
}

fn needed(field: Option<u32>) -> Result<u32, Cause>
    ensures { result ≡ needed field }
{
    field.ok_or(Cause::Missing)
}

/// The block at the address that stands.
fn at_address(setting: &Setting, fields: &Fields) -> Result<BlockNo, Cause>
    ensures { result ≡ at_address setting.now fields.now }
{
    let address = fields.address.ok_or(Cause::Missing)?;
    block_at(setting.shape(), setting.base(), address)
}

/// What is open on all links.
#[derive(Drop)]
pub struct Tables {
    requests: Exchanges,
    releases: Exchanges,
    grants: Exchanges,
}

impl Model for Tables {
    ghost use Rattle.tlwire_record.specs.Tables.{TableState};

    ghost Value = { TableState };

    ghost view = { λ t. record { requests = t.requests.entries; releases = t.releases.entries; grants = t.grants.entries } };
}

impl Tables {
    ghost use Rattle.tlwire_record.specs.Tables.{alone_taken, answer_taken, end_taken, grant_taken, no_tables, release_answer_taken, release_taken, request_taken, taken};

    /// Nothing is open.
    pub(crate) fn new(alloc: Global) -> Tables
        ensures { result ≡ no_tables }
    {
        Tables {
            requests: BTreeMap::new(alloc),
            releases: BTreeMap::new(alloc),
            grants: BTreeMap::new(alloc),
        }
    }

    #[tactic(auto, unfolding(crate::specs::Tables::request_taken))]
    fn request(
        &mut self,
        setting: &Setting,
        link: &Link,
        fields: &Fields,
    ) -> Result<BlockNo, LineError>
        ensures { Gives (λ block. (block, self.new)) result (request_taken setting.now self.old link.now fields.now) }
    {
        let block = at_address(setting, fields)?;
        let id = Id::on(link, needed(fields.source)?);
        open_one(&mut self.requests, id, block, Cause::SourceInUse)?;
        Ok(block)
    }

    #[tactic(auto, unfolding(crate::specs::Tables::release_taken))]
    fn release(
        &mut self,
        setting: &Setting,
        link: &Link,
        fields: &Fields,
    ) -> Result<BlockNo, LineError>
        ensures { Gives (λ block. (block, self.new)) result (release_taken setting.now self.old link.now fields.now) }
    {
        let block = at_address(setting, fields)?;
        let id = Id::on(link, needed(fields.source)?);
        open_one(&mut self.releases, id, block, Cause::SourceInUse)?;
        Ok(block)
    }

    #[tactic(auto, unfolding(crate::specs::Tables::alone_taken))]
    fn alone(&self, setting: &Setting, fields: &Fields) -> Result<BlockNo, LineError>
        ensures { Gives (λ block. (block, self.now)) result (alone_taken setting.now self.now fields.now) }
    {
        Ok(at_address(setting, fields)?)
    }

    #[tactic(auto, unfolding(crate::specs::Tables::answer_taken))]
    fn answer(&mut self, link: &Link, fields: &Fields) -> Result<BlockNo, LineError>
        ensures { Gives (λ block. (block, self.new)) result (answer_taken self.old link.now fields.now) }
    {
        let id = Id::on(link, needed(fields.source)?);
        close_one(&mut self.requests, id, Cause::NoRequest)
    }

    #[tactic(auto, unfolding(crate::specs::Tables::release_answer_taken))]
    fn release_answer(&mut self, link: &Link, fields: &Fields) -> Result<BlockNo, LineError>
        ensures { Gives (λ block. (block, self.new)) result (release_answer_taken self.old link.now fields.now) }
    {
        let id = Id::on(link, needed(fields.source)?);
        close_one(&mut self.releases, id, Cause::NoRequest)
    }

    #[tactic(auto, unfolding(crate::specs::Tables::grant_taken))]
    fn grant(&mut self, link: &Link, fields: &Fields) -> Result<BlockNo, LineError>
        ensures { Gives (λ block. (block, self.new)) result (grant_taken self.old link.now fields.now) }
    {
        let (source, sink) = fields.source.zip(fields.sink).ok_or(Cause::Missing)?;
        let block = close_one(&mut self.requests, Id::on(link, source), Cause::NoRequest)?;
        open_one(
            &mut self.grants,
            Id::on(link, sink),
            block,
            Cause::SinkInUse,
        )?;
        Ok(block)
    }

    #[tactic(auto, unfolding(crate::specs::Tables::end_taken))]
    fn end(&mut self, link: &Link, fields: &Fields) -> Result<BlockNo, LineError>
        ensures { Gives (λ block. (block, self.new)) result (end_taken self.old link.now fields.now) }
    {
        let id = Id::on(link, needed(fields.sink)?);
        close_one(&mut self.grants, id, Cause::NoGrant)
    }

    /// The block of a message, by its address, its source or its sink; what it opens is open then, and what it closes
    /// is not.
    pub(crate) fn take(
        &mut self,
        setting: &Setting,
        role: Role,
        link: &Link,
        fields: &Fields,
    ) -> Result<BlockNo, LineError>
        ensures { Gives (λ block. (block, self.new)) result (taken setting.now self.old role link.now fields.now) }
    {
        match role {
            Role::Request => self.request(setting, link, fields),
            Role::Release => self.release(setting, link, fields),
            Role::Alone => self.alone(setting, fields),
            Role::Grant => self.grant(link, fields),
            Role::Answer => self.answer(link, fields),
            Role::ReleaseAnswer => self.release_answer(link, fields),
            Role::End => self.end(link, fields),
        }
    }
}
