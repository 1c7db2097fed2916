//! The lines before the messages: the title, the shape, whose the sources are, the image.
ghost use Rattle.std.specs.Prelude.{◌≡◌, ◌<◌, ◌≤◌, [], ◌∷◌, Ok};
ghost use Rattle.std.specs.List.{list_any};
ghost use Rattle.tl_script_words.specs.Words.{texts};
ghost use Rattle.tlcheck_record.specs.Cause.{Gives};
ghost use Rattle.tlwire_record.specs.Header.{address_at, address_part, ends_in_reach, fitting, has_source, has_sources, is_fit, is_of, is_title, number_at, number_part, numbers_in, owns, setting_in, sources_in, sources_taken, with_ignored, with_premise, with_sources};

use crate::address::read_wide_address;
use crate::expects::{Expects, nothing_expected};
use crate::fields::split_pair;
use crate::ignored::Ignored;
use crate::premise::{Premise, add_line};
use std::alloc::Global;
use std::marker::Model;
use std::mem;
use tl_rules::Shape;
use tl_types::{BLOCK_BYTES, BLOCKS, ClientId};
use tlcheck_record::{Cause, LineError, read_number};
use tlwire_search::Premises;

/// How many bytes addresses of 64 bits reach.
pub const REACH: u128 = 18_446_744_073_709_551_616;

/// The source ids from one to another, both with them, which are a client's.
#[derive(Clone, Copy, PartialEq, Eq)]
pub struct Sources {
    pub client: ClientId,
    pub from: u32,
    pub to: u32,
}

/// The memory, the clients and their sources, and how the record was seen.
#[derive(Drop)]
pub struct Setting {
    shape: Shape,
    base: u64,
    sources: Vec<Sources>,
    premises: Premises,
    expects: Expects,
    ignored: Vec<Ignored>,
}

impl Model for Setting {
    ghost use Rattle.std.specs.Prelude.{◌<◌, ◌≤◌};
    ghost use Rattle.tl_types.specs.declared.limits.TheConstants.{BLOCKS, BLOCK_BYTES};
    ghost use Rattle.tlwire_record.specs.Header.{SettingState};

    ghost Value = { SettingState };

    ghost view = { λ s.
        record {
          shape = s.shape;
          base = s.base;
          sources = s.sources.items;
          premises = s.premises;
          expects = s.expects;
          ignored = s.ignored.items;
        } };

    ghost invariant = { λ s. (0 < s.shape.block_bytes) × (s.shape.block_bytes ≤ BLOCK_BYTES)
        × (s.shape.blocks ≤ BLOCKS) };
}

impl Sources {
    /// Whether a source lies between them, and the client is theirs.
    pub(crate) fn has(&self, client: ClientId, source: u32) -> bool
        ensures { result ≡ has_source client source self.now }
    {
        self.client == client && self.from <= source && source <= self.to
    }
}

fn is_named(sources: &[Sources], client: ClientId) -> bool
    ensures { result ≡ list_any (is_of client) sources.now }
{
    sources.iter().any(|range| range.client == client)
}

fn is_owned(sources: &[Sources], client: ClientId, source: u32) -> bool
    ensures { result ≡ list_any (has_source client source) sources.now }
{
    sources.iter().any(|range| range.has(client, source))
}

fn owns(sources: &[Sources], client: ClientId, source: u32) -> bool
    ensures { result ≡ owns sources.now client source }
{
    if is_named(sources, client) {
        is_owned(sources, client, source)
    } else {
        client.number() == source
    }
}

impl Setting {
    /// The numbers of the memory and the clients.
    pub fn shape(&self) -> Shape
        ensures shape { result ≡ self.now.shape }
        ensures bytes { (0 < result.block_bytes) × (result.block_bytes ≤ BLOCK_BYTES) }
        ensures blocks { result.blocks ≤ BLOCKS }
    {
        self.shape
    }

    /// The address of block 0.
    pub fn base(&self) -> u64
        ensures { result ≡ self.now.base }
    {
        self.base
    }

    /// Whether a source is one of a client's; a client that no line gives sources has the one of its number.
    pub fn owns(&self, client: ClientId, source: u32) -> bool
        ensures { result ≡ owns self.now.sources client source }
    {
        owns(self.sources.as_slice(), client, source)
    }

    /// How the record was seen, as the header says.
    pub fn premises(&self) -> &Premises
        ensures { result.now ≡ self.now.premises }
    {
        &self.premises
    }

    /// What is expected of the exchanges of the record.
    pub fn expects(&self) -> Expects
        ensures { result ≡ self.now.expects }
    {
        self.expects
    }

    /// The agents and the addresses whose lines are left out.
    pub fn ignored(&self) -> &[Ignored]
        ensures { result.now ≡ self.now.ignored }
    {
        &self.ignored
    }

    /// One more of these.
    pub(crate) fn add_ignored(&mut self, ignored: Ignored) -> Result<(), LineError>
        ensures { Gives (λ _. self.new) result (Ok (with_ignored self.old ignored)) }
    {
        self.ignored.push(ignored)?;
        Ok(())
    }

    /// This is expected.
    pub(crate) fn set_expects(&mut self, expects: Expects)
        ensures { self.new ≡ record self.old { expects = expects } }
    {
        self.expects = expects;
    }

    /// One line more that says how.
    pub(crate) fn add_premise(&mut self, premise: Premise) -> Result<(), LineError>
        ensures { Gives (λ _. self.new) result (Ok (with_premise self.old premise)) }
    {
        add_line(&mut self.premises, premise)?;
        Ok(())
    }

    /// The header says this in place of what it said, which is given.
    pub(crate) fn suppose(&mut self, premises: Premises) -> Premises
        ensures supposed { self.new ≡ record self.old { premises = premises } }
        ensures given { result ≡ self.old.premises }
    {
        mem::replace(&mut self.premises, premises)
    }

    /// One line of sources more.
    fn add(&mut self, sources: Sources) -> Result<(), LineError>
        ensures { Gives (λ _. self.new) result (Ok (with_sources self.old sources)) }
    {
        self.sources.push(sources)?;
        Ok(())
    }
}

/// Whether a line is the title.
pub(crate) fn is_title(words: &[&str]) -> bool
    ensures { result ≡ is_title (texts words.now) }
{
    match *words {
        [name, version] => name == "jvwire" && version == "1",
        _ => false,
    }
}

fn number_part(key: &str, parts: &[&str]) -> Result<u32, Cause>
    ensures { result ≡ number_part key.now (texts parts.now) }
{
    match *parts {
        [name, value] => {
            if name == key {
                read_number(value)
            } else {
                Err(Cause::Key)
            }
        }
        _ => Err(Cause::Key),
    }
}

/// The number at a key.
fn number_at(alloc: Global, key: &str, word: &str) -> Result<u32, LineError>
    ensures { Gives (λ x. x) result (number_at key.now word.now) }
{
    let parts = split_pair(alloc, word)?;
    Ok(number_part(key, &parts)?)
}

fn address_part(key: &str, parts: &[&str]) -> Result<u64, Cause>
    ensures { result ≡ address_part key.now (texts parts.now) }
{
    match *parts {
        [name, value] => {
            if name == key {
                read_wide_address(value)
            } else {
                Err(Cause::Key)
            }
        }
        _ => Err(Cause::Key),
    }
}

/// The address at a key.
fn address_at(alloc: Global, key: &str, word: &str) -> Result<u64, LineError>
    ensures { Gives (λ x. x) result (address_at key.now word.now) }
{
    let parts = split_pair(alloc, word)?;
    Ok(address_part(key, &parts)?)
}

/// Whether the last byte of a memory has an address of 64 bits.
fn ends_in_reach(shape: Shape, base: u64) -> bool
    ensures { result ≡ ends_in_reach shape base }
{
    let bytes = shape.block_bytes as u64 * shape.blocks as u64;
    base as u128 + bytes as u128 <= REACH
}

fn is_fit(shape: Shape, base: u64) -> bool
    ensures { result ≡ is_fit shape base }
{
    1 <= shape.clients
        && shape.clients <= 64
        && (shape.block_bytes == 8
            || shape.block_bytes == 16
            || shape.block_bytes == 32
            || shape.block_bytes == 64)
        && 1 <= shape.blocks
        && shape.blocks as usize <= BLOCKS
        && base % (shape.block_bytes as u64) == 0
        && ends_in_reach(shape, base)
}

fn fitting(alloc: Global, shape: Shape, base: u64) -> Result<Setting, Cause>
    ensures { result ≡ fitting shape base }
{
    if is_fit(shape, base) {
        Ok(Setting {
            shape,
            base,
            sources: Vec::new(alloc),
            premises: Premises::new(alloc),
            expects: nothing_expected(),
            ignored: Vec::new(alloc),
        })
    } else {
        Err(Cause::Range)
    }
}

/// The setting of these four words.
#[tactic(auto, unfolding(crate::specs::Header::numbers_in))]
fn setting_of(
    alloc: Global,
    clients: &str,
    block: &str,
    blocks: &str,
    base: &str,
) -> Result<Setting, LineError>
    ensures { Gives (λ x. x) result (numbers_in (clients.now ∷ block.now ∷ blocks.now ∷ base.now ∷ [])) }
{
    let clients = number_at(alloc, "clients", clients)?;
    let block_bytes = number_at(alloc, "block", block)?;
    let blocks = number_at(alloc, "blocks", blocks)?;
    let base = address_at(alloc, "base", base)?;
    let shape = Shape {
        clients,
        block_bytes,
        blocks,
    };
    Ok(fitting(alloc, shape, base)?)
}

/// `clients=N block=N blocks=N base=ADDR`, behind the word `shape`.
#[tactic(auto, unfolding(crate::specs::Header::numbers_in))]
fn parse_numbers(alloc: Global, words: &[&str]) -> Result<Setting, LineError>
    ensures { Gives (λ x. x) result (numbers_in (texts words.now)) }
{
    match *words {
        [clients, block, blocks, base] => setting_of(alloc, clients, block, blocks, base),
        _ => Err(LineError::Wrong(Cause::Shape)),
    }
}

/// `shape clients=N block=N blocks=N base=ADDR`.
#[tactic(auto, unfolding(crate::specs::Header::setting_in))]
pub(crate) fn parse_setting(alloc: Global, words: &[&str]) -> Result<Setting, LineError>
    ensures { Gives (λ x. x) result (setting_in (texts words.now)) }
{
    match words {
        [] => Err(LineError::Wrong(Cause::Shape)),
        [word, rest @ ..] => match *word {
            "shape" => parse_numbers(alloc, rest),
            _ => Err(LineError::Wrong(Cause::Shape)),
        },
    }
}

fn has_sources(shape: Shape, sources: Sources) -> bool
    ensures { result ≡ has_sources shape sources }
{
    sources.client.number() < shape.clients && sources.from <= sources.to
}

/// The sources of these three words.
#[tactic(auto, unfolding(crate::specs::Header::sources_in))]
fn sources_of(
    alloc: Global,
    shape: Shape,
    client: &str,
    from: &str,
    to: &str,
) -> Result<Sources, LineError>
    ensures { Gives (λ x. x) result (sources_in shape (client.now ∷ from.now ∷ to.now ∷ [])) }
{
    let client = ClientId::new(number_at(alloc, "client", client)?);
    let from = number_at(alloc, "from", from)?;
    let to = number_at(alloc, "to", to)?;
    let sources = Sources { client, from, to };
    if has_sources(shape, sources) {
        Ok(sources)
    } else {
        Err(LineError::Wrong(Cause::Sources))
    }
}

/// `source client=N from=N to=N`.
#[tactic(auto, unfolding(crate::specs::Header::sources_in))]
fn parse_sources(alloc: Global, shape: Shape, words: &[&str]) -> Result<Sources, LineError>
    ensures { Gives (λ x. x) result (sources_in shape (texts words.now)) }
{
    match *words {
        [client, from, to] => sources_of(alloc, shape, client, from, to),
        _ => Err(LineError::Wrong(Cause::Sources)),
    }
}

/// The setting with what a line of sources gives.
pub(crate) fn take_sources(
    alloc: Global,
    mut setting: Setting,
    words: &[&str],
) -> Result<Setting, LineError>
    ensures { Gives (λ x. x) result (sources_taken setting (texts words.now)) }
{
    let sources = parse_sources(alloc, setting.shape(), words)?;
    setting.add(sources)?;
    Ok(setting)
}
