//! What was seen, with the client and the block that its ids stand for.
ghost use Rattle.std.specs.Prelude.{◌≡◌};
ghost use Rattle.tlcheck_record.specs.Cause.{Gives};
ghost use Rattle.tlwire_record.specs.declared.line.Said.TheVariants as its;
ghost use Rattle.tlwire_record.specs.Messages.{began, has_own_source, is_there, is_unwatched, owner_of, seen_on, spoilt, unwatched_wire, wrong_in};

use crate::code::{is_on_link, kind_of, name_of, role_of};
use crate::fields::Fields;
use crate::header::Setting;
use crate::left::LeftOut;
use crate::line::{Line, Link, Said};
use crate::place::{has_its_data, has_other_fields, is_set, is_size, offset_of};
use crate::premise::{Premise, add_line};
use crate::tables::Tables;
use std::alloc::{AllocError, Global};
use std::marker::Model;
use tl_types::{AccessBytes, BlockNo, Channel, ClientId, Kind};
use tlcheck_record::{Cause, LineError};
use tlcheck_rules::Shown;
use tlwire_search::{Premises, Seen, Wire};

/// Whether a source that stands is one of the client's.
fn has_own_source(setting: &Setting, link: &Link, source: Option<u32>) -> bool
    ensures { result ≡ has_own_source setting.now link.now source }
{
    match link {
        Link::Memory => true,
        Link::Client(client) => match source {
            Some(source) => setting.owns(*client, source),
            None => true,
        },
    }
}

/// Whether a message was spoilt: denied, with data that is corrupt, or for some bytes of a block alone.
fn spoilt(fields: &Fields) -> Option<Cause>
    ensures { result ≡ spoilt fields.now }
{
    if is_set(fields.denied) {
        return Some(Cause::Denied);
    }
    if is_set(fields.corrupt) {
        return Some(Cause::Corrupt);
    }
    if is_set(fields.mask) {
        return Some(Cause::Mask);
    }
    None
}

/// What is wrong with a message of a kind on a link, if anything.
fn wrong_in(
    setting: &Setting,
    link: &Link,
    channel: Channel,
    kind: &Kind,
    fields: &Fields,
) -> Option<Cause>
    ensures { result ≡ wrong_in setting.now link.now channel kind.now fields.now }
{
    let shape = setting.shape();
    if !is_on_link(kind, link) {
        return Some(Cause::OffLink(name_of(kind)));
    }
    if has_other_fields(channel, fields) {
        return Some(Cause::Extra);
    }
    if !is_size(shape, fields.size) {
        return Some(Cause::Size);
    }
    if let Some(cause) = spoilt(fields) {
        return Some(cause);
    }
    if !has_own_source(setting, link, fields.source) {
        return Some(Cause::Source);
    }
    if !has_its_data(shape, kind, &fields.bytes) {
        return Some(Cause::Data);
    }
    None
}

/// A message of a block, on a link.
fn seen_on(link: &Link, block: BlockNo, shown: Shown) -> Seen
    ensures { result ≡ seen_on link.now block shown }
{
    match link {
        Link::Client(client) => Seen::OnLink(*client, block, shown),
        Link::Memory => Seen::OnMemory(block, shown),
    }
}

/// Whether a link is the memory's or that of a client that is there.
fn is_there(clients: u32, link: &Link) -> bool
    ensures { result ≡ is_there clients link.now }
{
    match link {
        Link::Client(client) => client.number() < clients,
        Link::Memory => true,
    }
}

/// The wire of a line on the memory's link, or of a load or a store.
fn unwatched_wire(link: &Link, said: &Said) -> Option<Wire>
    ensures { result ≡ unwatched_wire link.now said.now }
{
    match link {
        Link::Memory => Some(Wire::Memory(Channel::A)),
        Link::Client(client) => match said {
            Said::Load(_, _) | Said::Store(_, _) => Some(Wire::Core(*client)),
            Said::Message(_, _, _) => None,
        },
    }
}

/// Whether the header says that nobody watched where a line was seen.
fn is_unwatched(premises: &Premises, wire: Option<Wire>) -> bool
    ensures { result ≡ is_unwatched premises.now wire }
{
    match wire {
        Some(wire) => premises.is_unseen(wire),
        None => false,
    }
}

/// The client whose link it is.
fn owner_of(link: &Link) -> Result<ClientId, Cause>
    ensures { result ≡ owner_of link.now }
{
    match link {
        Link::Client(client) => Ok(*client),
        Link::Memory => Err(Cause::Client),
    }
}

/// What was seen, and the lines that stand for it.
#[derive(Drop)]
pub struct Messages {
    setting: Setting,
    image: Vec<u8>,
    cycle: u32,
    tables: Tables,
    left: LeftOut,
    seen: Vec<Seen>,
    lines: Vec<u64>,
    cycles: Vec<u32>,
    left_lines: Vec<u64>,
}

impl Model for Messages {
    ghost use Rattle.tlwire_record.specs.Messages.{MessagesState};

    ghost Value = { MessagesState };

    ghost view = { λ m. record {
      setting = m.setting;
      image = m.image.items;
      cycle = m.cycle;
      tables = m.tables;
      left = m.left;
      seen = m.seen.items;
      lines = m.lines.items;
      cycles = m.cycles.items;
      left_lines = m.left_lines.items;
    } };
}

impl Messages {
    ghost use Rattle.std.specs.Prelude.{IfOk, Ok};
    ghost use Rattle.tlwire_record.specs.Messages.{line_left, line_taken, message_taken, said_taken, supposing};
    ghost use Rattle.tlwire_record.specs.Premise.{with_line};

    /// The memory, the clients and their sources.
    pub fn setting(&self) -> &Setting
        ensures { result.now ≡ self.now.setting }
    {
        &self.setting
    }

    /// The bytes of the memory at reset, 0 past their end.
    pub fn image(&self) -> &[u8]
        ensures { result.now ≡ self.now.image }
    {
        &self.image
    }

    /// What was seen, in the order of the lines.
    pub fn seen(&self) -> &[Seen]
        ensures { result.now ≡ self.now.seen }
    {
        &self.seen
    }

    /// The number of the line of each thing seen.
    pub fn lines(&self) -> &[u64]
        ensures { result.now ≡ self.now.lines }
    {
        &self.lines
    }

    /// The cycle of each thing seen.
    pub fn cycles(&self) -> &[u32]
        ensures { result.now ≡ self.now.cycles }
    {
        &self.cycles
    }

    /// The number of each line that was left out.
    pub fn left_lines(&self) -> &[u64]
        ensures { result.now ≡ self.now.left_lines }
    {
        &self.left_lines
    }

    /// The cycle of the last line.
    pub fn end(&self) -> u32
        ensures { result ≡ self.now.cycle }
    {
        self.cycle
    }

    /// What the header would say of how the record was seen with one line more. Err is a refused request for memory.
    pub fn premises_with(&self, alloc: Global, premise: Premise) -> Result<Premises, AllocError>
        ensures { IfOk result (λ premises. premises ≡ with_line self.now.setting.premises premise) }
    {
        let mut premises = self.setting.premises().copied(alloc)?;
        add_line(&mut premises, premise)?;
        Ok(premises)
    }

    /// The header says this of how the record was seen, in place of what it said, which is given.
    pub fn suppose(&mut self, premises: Premises) -> Premises
        ensures supposed { self.new ≡ supposing self.old premises }
        ensures given { result ≡ self.old.setting.premises }
    {
        self.setting.suppose(premises)
    }

    /// Nothing was seen.
    pub(crate) fn begin(alloc: Global, setting: Setting, image: Vec<u8>) -> Messages
        ensures { result ≡ began setting image.items }
    {
        Messages {
            setting,
            image,
            cycle: 0,
            tables: Tables::new(alloc),
            left: LeftOut::new(alloc),
            seen: Vec::new(alloc),
            lines: Vec::new(alloc),
            cycles: Vec::new(alloc),
            left_lines: Vec::new(alloc),
        }
    }

    #[tactic(auto, unfolding(crate::specs::Messages::message_taken))]
    fn message(
        &mut self,
        link: &Link,
        channel: Channel,
        opcode: u32,
        fields: Fields,
    ) -> Result<Seen, LineError>
        ensures gives { Gives (λ seen. (seen, self.new.tables)) result
            (message_taken self.old.setting self.old.tables link.now channel opcode fields) }
        ensures kept { self.new ≡ record self.old { tables = self.new.tables } }
    {
        let kind = kind_of(channel, opcode, fields.param.unwrap_or(0))?;
        if let Some(cause) = wrong_in(&self.setting, link, channel, &kind, &fields) {
            return Err(LineError::Wrong(cause));
        }
        let block = self
            .tables
            .take(&self.setting, role_of(&kind), link, &fields)?;
        let shown = Shown {
            kind,
            bytes: fields.bytes,
        };
        Ok(seen_on(link, block, shown))
    }

    /// What is seen of a load.
    #[tactic(auto, unfolding(crate::specs::Messages::said_taken))]
    fn load(&self, link: &Link, address: u64, bytes: AccessBytes) -> Result<Seen, LineError>
        ensures { Gives (λ seen. (seen, self.now.tables)) result
            (said_taken self.now.setting self.now.tables link.now (its.Load address bytes)) }
    {
        let client = owner_of(link)?;
        let offset = offset_of(self.setting.shape(), self.setting.base(), address, &bytes)?;
        Ok(Seen::Load(client, offset, bytes))
    }

    /// What is seen of a store.
    #[tactic(auto, unfolding(crate::specs::Messages::said_taken))]
    fn store(&self, link: &Link, address: u64, bytes: AccessBytes) -> Result<Seen, LineError>
        ensures { Gives (λ seen. (seen, self.now.tables)) result
            (said_taken self.now.setting self.now.tables link.now (its.Store address bytes)) }
    {
        let client = owner_of(link)?;
        let offset = offset_of(self.setting.shape(), self.setting.base(), address, &bytes)?;
        Ok(Seen::Store(client, offset, bytes))
    }

    /// What is seen of what a line says, on a link of a client that is there or of the memory.
    #[tactic(auto, unfolding(crate::specs::Messages::said_taken))]
    fn said(&mut self, link: &Link, said: Said) -> Result<Seen, LineError>
        ensures gives { Gives (λ seen. (seen, self.new.tables)) result
            (said_taken self.old.setting self.old.tables link.now said) }
        ensures kept { self.new ≡ record self.old { tables = self.new.tables } }
    {
        match said {
            Said::Load(address, bytes) => self.load(link, address, bytes),
            Said::Store(address, bytes) => self.store(link, address, bytes),
            Said::Message(channel, opcode, fields) => self.message(link, channel, opcode, fields),
        }
    }

    /// The line with this number is left out.
    fn leave_out(&mut self, number: u64, cycle: u32) -> Result<(), LineError>
        ensures { Gives (λ _. self.new) result (Ok (line_left self.old number cycle)) }
    {
        self.cycle = cycle;
        self.left_lines.push(number)?;
        Ok(())
    }

    /// Takes the line with this number.
    pub(crate) fn take(&mut self, number: u64, line: Line) -> Result<(), LineError>
        ensures { Gives (λ _. self.new) result (line_taken self.old number line) }
    {
        let Line { cycle, link, said } = line;
        if cycle < self.cycle {
            return Err(LineError::Wrong(Cause::Backwards));
        }
        if !is_there(self.setting.shape().clients, &link) {
            return Err(LineError::Wrong(Cause::Client));
        }
        if self.left.take(&self.setting, &link, &said)? {
            return self.leave_out(number, cycle);
        }
        if is_unwatched(self.setting.premises(), unwatched_wire(&link, &said)) {
            return Err(LineError::Wrong(Cause::Unwatched));
        }
        let seen = self.said(&link, said)?;
        self.cycle = cycle;
        self.seen.push(seen)?;
        self.lines.push(number)?;
        self.cycles.push(cycle)?;
        Ok(())
    }
}
