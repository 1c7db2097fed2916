//! What was seen on each wire, and how much of it a run has sent.
ghost use Rattle.std.specs.Prelude.{◌≡◌, ◌<◌, ◌≤◌, ◌+◌, ◌-◌, ◌^◌, ◌↔◌, ℕ, IfOk, IfSome, IfNone, IsTrue, Some, length};
ghost use Rattle.std.specs.Prelude.{slice_get, slice_index, slice_set};
ghost use Rattle.tlwire_search.specs.Lists.{AreOfTheirWires, BeginInTime, HasNoneBetween, IsMovedOn, IsNextOn, PassNoLine};
ghost use Rattle.tlwire_search.specs.Explained.{wire_of};
ghost use Rattle.tlwire_search.specs.Lists.{gap_at, list_at, list_of, number_of};
ghost use Rattle.tlwire_search.specs.Where.{block_of};

use crate::seen::{Seen, Wire};
use crate::sought::Sought;
use std::alloc::{AllocError, Global};
use tl_rules::Shape;
use tl_types::{BlockNo, Channel, ClientId};

/// How many lists all wires have together, at most, where each has one at least.
const LISTS: usize = 8192;

/// How much of what was seen is sent, and what is next. What is unsent stands in lists, by which it is looked up: a
/// list has the lines on one wire whose blocks leave one remainder by the number of lists that each wire has.
#[derive(Drop)]
pub(crate) struct Wires<'a> {
    shape: Shape,
    seen: &'a [Seen],
    /// How many lists each wire has.
    width: u16,
    /// The place of what is next on each wire, behind all where nothing is.
    next: Vec<usize>,
    /// A place for each list, before which none of its lines is unsent.
    first: Vec<usize>,
    /// For each line, the last one first, a number of lines behind it none of which is on its wire.
    on_wire: Vec<u32>,
    /// For each line, the last one first, a number of lines behind it none of which is in its list.
    in_list: Vec<u32>,
    ghost divides: { 0 < shape.block_bytes },
    ghost wide: { 0 < width },
    ghost on_wires: { AreOfTheirWires seen.now next.items },
    ghost in_time: { BeginInTime (list_at width shape.block_bytes) seen.now next.items first.items },
    ghost past_none: { PassNoLine (list_at width shape.block_bytes) seen.now in_list.items },
    ghost past_no_other: { PassNoLine (λ s. number_of (wire_of s)) seen.now on_wire.items },
}

/// A wire's number: the memory's two, then six of each client.
pub fn number(wire: &Wire) -> usize
    ensures value { result ≡ number_of wire.now }
    ensures small { result < 2 ^ 35 }
{
    match wire {
        Wire::Memory(Channel::A) => 0,
        Wire::Memory(_) => 1,
        Wire::Link(client, channel) => 2 + client.number() as usize * 6 + channel.index(),
        Wire::Core(client) => 7 + client.number() as usize * 6,
    }
}

/// The block that something seen is of.
pub fn block_of(shape: Shape, line: &Seen) -> u32
    requires { 0 < shape.block_bytes }
    ensures { result ≡ block_of shape.block_bytes line.now }
{
    match line {
        Seen::OnLink(_, block, _) | Seen::OnMemory(block, _) => block.number(),
        Seen::Load(_, address, _) | Seen::Store(_, address, _) => *address / shape.block_bytes,
    }
}

/// How many lists each of these wires has: no more than there are blocks, and all wires no more than there are lines.
fn width_of(shape: Shape, wires: usize, lines: usize) -> u16
    ensures { 0 < result }
{
    let most = lines / wires.max(1);
    most.min(shape.blocks as usize)
        .min(LISTS / wires.max(1))
        .min(LISTS)
        .max(1) as u16
}

/// The list of a block on a wire.
fn list_of(width: u16, wire: &Wire, block: u32) -> usize
    requires { 0 < width }
    ensures { result ≡ list_of width wire.now block }
{
    number(wire) * width as usize + (block % width as u32) as usize
}

/// The list of something seen.
fn list_at(shape: Shape, width: u16, line: &Seen) -> usize
    requires divides { 0 < shape.block_bytes }
    requires wide { 0 < width }
    ensures { result ≡ list_at width shape.block_bytes line.now }
{
    list_of(width, &line.wire(), block_of(shape, line))
}

/// Makes a place the beginning of a list; how many lines stand between it and the one so far, or fewer.
fn put_before(heads: &mut Vec<usize>, list: usize, place: usize) -> u32
    ensures heads { heads.new.items ≡ slice_set heads.old.items list place }
    ensures gap { result ≤ slice_index heads.old.items list - place - 1 }
{
    if list >= heads.len() {
        return 0;
    }
    let gap = heads[list].saturating_sub(place).saturating_sub(1);
    heads[list] = place;
    gap.min(u32::MAX as usize) as u32
}

/// Writes a number, where there is one.
fn set(numbers: &mut Vec<usize>, at: usize, number: usize)
    ensures { numbers.new.items ≡ slice_set numbers.old.items at number }
{
    if at < numbers.len() {
        numbers[at] = number;
    }
}

/// Moves what begins at a place, if it does, on to another one.
fn move_on(heads: &mut Vec<usize>, list: usize, place: usize, behind: usize)
    ensures { IsMovedOn heads.old.items heads.new.items list place behind }
{
    if list < heads.len() && heads[list] == place {
        heads[list] = behind;
    }
}

/// How many lines are known to stand between one and the next of its kind.
fn gap_at(gaps: &[u32], lines: usize, place: usize) -> usize
    ensures { result ≡ gap_at gaps.now lines place }
{
    match gaps.get(lines.saturating_sub(1).saturating_sub(place)) {
        Some(gap) => *gap as usize,
        None => 0,
    }
}

impl<'a> Wires<'a> {
    ghost use Rattle.tlwire_search.specs.Sought.{IsLike};
    ghost use Rattle.tlwire_search.specs.Unsent.{IsAdvanced, IsFirstUnsent, IsFresh, IsGrantedFirst};
    ghost use Rattle.tlwire_search.specs.Unsent.{IsSentAt};
    ghost use Rattle.tl_types.specs.declared.channel.Channel.TheVariants.{A, D};
    ghost use Rattle.tlwire_search.specs.declared.seen.Wire.TheVariants.{Link, Memory};
    ghost use Rattle.tlwire_search.specs.declared.sought.Sought.TheVariants.{Get, Grant, Line};

    /// Nothing is sent.
    pub(crate) fn new(
        alloc: Global,
        shape: Shape,
        seen: &'a [Seen],
    ) -> Result<Wires<'a>, AllocError>
        requires { 0 < shape.block_bytes }
        ensures { IfOk result (IsFresh shape seen.now) }
    {
        let wires = 2 + shape.clients as usize * 6;
        let width = width_of(shape, wires, seen.len());
        let mut next = vec![in alloc; seen.len(); wires]?;
        let mut first = vec![in alloc; seen.len(); wires * width as usize]?;
        let mut on_wire = Vec::with_capacity(alloc, seen.len())?;
        let mut in_list = Vec::with_capacity(alloc, seen.len())?;
        for place in (0..seen.len()).rev() {
            let line = &seen[place];
            on_wire.push(put_before(&mut next, number(&line.wire()), place))?;
            in_list.push(put_before(&mut first, list_at(shape, width, line), place))?;
        }
        Ok(Wires {
            shape,
            seen,
            width,
            next,
            first,
            on_wire,
            in_list,
        })
    }

    /// The place of what is next on a wire.
    pub(crate) fn next(&self, wire: Wire) -> Option<usize>
        ensures next { IfSome result (λ place. slice_get self.now.next.items (number_of wire) ≡ Some place) }
        ensures within { IfSome result (λ place. place < length self.now.seen.now) }
        ensures none { IfNone result
            ((place : ℕ) → slice_get self.now.next.items (number_of wire) ≡ Some place
            → length self.now.seen.now ≤ place) }
    {
        let next = *self.next.get(number(&wire))?;
        if next < self.seen.len() {
            Some(next)
        } else {
            None
        }
    }

    /// Whether what was seen at a place is sent.
    pub(crate) fn is_sent(&self, place: usize) -> bool
        ensures { IsTrue result ↔ IsSentAt self.now place }
    {
        match self.seen.get(place) {
            Some(line) => match self.next(line.wire()) {
                Some(next) => place < next,
                None => true,
            },
            None => true,
        }
    }

    /// The place of the first on a wire of this number from one on, behind all where there is none.
    fn first_on(&self, wire: usize, from: usize) -> usize
        requires { from ≤ length self.now.seen.now }
        ensures { IsNextOn self.now.seen.now wire from result }
    {
        for place in from..self.seen.len() {
            if number(&self.seen[place].wire()) == wire {
                return place;
            }
        }
        self.seen.len()
    }

    /// The place of the next on a line's wire, behind all where there is none.
    fn behind_on_wire(&self, place: usize, line: &Seen) -> usize
        requires { slice_get self.now.seen.now place ≡ Some line.now }
        ensures { IsNextOn self.now.seen.now (number_of (wire_of line.now)) (place + 1) result }
    {
        let gap = gap_at(&self.on_wire, self.seen.len(), place);
        let from = (place + 1).saturating_add(gap).min(self.seen.len());
        self.first_on(number(&line.wire()), from)
    }

    /// A place behind a line up to which its list has no other line.
    fn behind_in_list(&self, place: usize) -> usize
        requires { place < length self.now.seen.now }
        ensures on { place < result }
        ensures passed { let list = list_at self.now.width self.now.shape.block_bytes in
            HasNoneBetween list self.now.seen.now place result }
    {
        let gap = gap_at(&self.in_list, self.seen.len(), place);
        (place + 1).saturating_add(gap)
    }

    /// One more is sent on a wire.
    pub(crate) fn advance(&mut self, wire: Wire)
        ensures { IsAdvanced self.old self.new wire }
    {
        let Some(place) = self.next(wire) else {
            return;
        };
        let line = &self.seen[place];
        let list = list_at(self.shape, self.width, line);
        let next = self.behind_on_wire(place, line);
        let behind = self.behind_in_list(place);
        move_on(&mut self.first, list, place, behind);
        set(&mut self.next, number(&wire), next);
    }

    /// The place from which a list is looked at.
    fn beginning(&self, list: usize) -> usize
        ensures { result ≡ slice_index self.now.first.items list }
    {
        match self.first.get(list) {
            Some(first) => *first,
            None => 0,
        }
    }

    /// Whether this is sought of a block on a wire.
    fn is_sought(&self, line: &Seen, wire: Wire, block: BlockNo, sought: Sought) -> bool
        ensures { IsTrue result ↔ IsLike self.now.shape.block_bytes wire block sought line.now }
    {
        line.wire() == wire && block_of(self.shape, line) == block.number() && sought.is(line)
    }

    /// The place of the next that is sought of a block on a wire.
    fn next_like(&self, wire: Wire, block: BlockNo, sought: Sought) -> Option<usize>
        ensures { IsFirstUnsent self.now wire block sought result }
    {
        let next = self.next(wire)?;
        let list = list_of(self.width, &wire, block.number());
        let mut place = next.max(self.beginning(list));
        while place < self.seen.len() {
            let line = &self.seen[place];
            if self.is_sought(line, wire, block, sought) {
                return Some(place);
            }
            if list_at(self.shape, self.width, line) == list {
                place = self.behind_in_list(place);
            } else {
                place += 1;
            }
        }
        None
    }

    /// The place of what is next of a block on a wire.
    pub(crate) fn next_of(&self, wire: Wire, block: BlockNo) -> Option<usize>
        ensures { IsFirstUnsent self.now wire block Line result }
    {
        self.next_like(wire, block, Sought::Line)
    }

    /// The place of the next Grant of a block to a client.
    pub(crate) fn next_grant(&self, c: ClientId, block: BlockNo) -> Option<usize>
        ensures { IsFirstUnsent self.now (Link c D) block Grant result }
    {
        self.next_like(Wire::Link(c, Channel::D), block, Sought::Grant)
    }

    /// The place of the next Get of a block.
    pub(crate) fn next_get(&self, block: BlockNo) -> Option<usize>
        ensures { IsFirstUnsent self.now (Memory A) block Get result }
    {
        self.next_like(Wire::Memory(Channel::A), block, Sought::Get)
    }

    /// The client whose Grant of a block is seen first.
    pub(crate) fn granted_first(&self, block: BlockNo) -> Option<ClientId>
        ensures { IsGrantedFirst self.now self.now.shape.clients block result }
    {
        let mut first = None;
        let mut least = self.seen.len();
        for number in 0..self.shape.clients {
            let c = ClientId::new(number);
            if let Some(place) = self.next_grant(c, block) {
                if place < least {
                    least = place;
                    first = Some(c);
                }
            }
        }
        first
    }
}
