//! How often each situation of a table was reached.
ghost use Rattle.std.specs.Prelude.{◌≡◌, ◌≢◌, ◌↔◌, ◌<◌, ◌+◌, ◌∷◌, ◌++◌, ℕ, List, [], Some, IfErr, IfOk, IsSome, IsTrue, OnErr, OnOk, length};
ghost use Rattle.tl_protocol.specs.declared.event.Event.{Event};
ghost use Rattle.tl_protocol.specs.declared.shape.Shape.{Shape};
ghost use Rattle.tlcheck_rules.specs.declared.order.ChannelOrder.{ChannelOrder};
ghost use Rattle.tlcheck_rules.specs.Judged.{Breaks, Follows, IsPermitted};
ghost use Rattle.tlcheck_rules.specs.declared.judge.Breach.{Breach};
ghost use Rattle.tlcheck_rules.specs.declared.judge.Refusal.TheVariants.{Broken};
ghost use Rattle.tlcheck_home.specs.Tally.{HasTablesOf, IsByHome, IsCountedAt, IsCountedBeyond, IsNoted, IsSeen};
ghost use Rattle.tlcheck_home.specs.Tally.{IsSituationIn, IsUncounted, one_more};

use crate::table::HomeTable;
use std::alloc::{AllocError, Global};
use std::marker::Model;
use tl_rules::{Event, Plain};
use tlcheck_rules::{Entry, Judge, Refusal, client_of};
use tlcheck_situations::{Action, Situation, Table, situation_at};

/// An entry of a record: the record's place among those that are read, and the line, from 1 on.
#[derive(Clone, Copy, Debug, PartialEq, Eq)]
pub struct Mark {
    pub file: usize,
    pub line: u64,
}

/// How many events were in a situation, and the first of them.
#[derive(Clone, Copy, Debug, PartialEq, Eq)]
pub struct Count {
    pub events: u64,
    pub first: Option<Mark>,
}

/// A table, with a count for each situation, and the table of what this project's home reaches where it is asked for.
#[derive(Drop)]
pub struct Tally {
    table: Table,
    home: Option<HomeTable>,
    counts: Vec<Count>,
    beyond: u64,
}

impl Model for Tally {
    ghost use Rattle.std.specs.Prelude.{◌≡◌, length};
    ghost use Rattle.tlcheck_home.specs.Tally.{TallyState};

    ghost Value = { TallyState };

    ghost view = { λ t. record {
      clients = t.table.clients;
      situations = t.table.situations;
      home = t.home;
      counts = t.counts.items;
      beyond = t.beyond;
    } };

    ghost invariant = { λ t. length t.counts.items ≡ length t.table.situations };
}

fn one_more(count: Count, mark: Mark) -> Count
    requires { count.events < 18446744073709551615 }
    ensures { result ≡ one_more count mark }
{
    let first = match count.first {
        None => Some(mark),
        Some(first) => Some(first),
    };
    Count {
        events: count.events + 1,
        first,
    }
}

/// The situation of an event, if its block and its client are there.
fn situation_in(plain: &Plain, event: &Event) -> Option<Situation>
    ensures { IsSituationIn plain.now event.now result }
{
    let shape = plain.shape();
    let c = client_of(event);
    if c.number() >= shape.clients {
        return None;
    }
    match plain.block(event.block(shape)) {
        None => None,
        Some(block) => Some(situation_at(block, shape.clients, c, Action::of(event))),
    }
}

impl Tally {
    /// Nothing is counted. The error is want of memory.
    pub fn new(alloc: Global, table: Table, home: Option<HomeTable>) -> Result<Tally, AllocError>
        ensures clients { IfOk result (λ t. t.clients ≡ table.clients) }
        ensures situations { IfOk result (λ t. t.situations ≡ table.situations) }
        ensures home { IfOk result (λ t. t.home ≡ home) }
        ensures uncounted { IfOk result IsUncounted }
    {
        let none = Count {
            events: 0,
            first: None,
        };
        let counts = vec![in alloc; none; table.situations().len()]?;
        Ok(Tally {
            table,
            home,
            counts,
            beyond: 0,
        })
    }

    /// The table.
    pub fn table(&self) -> &Table
        ensures clients { result.now.clients ≡ self.now.clients }
        ensures situations { result.now.situations ≡ self.now.situations }
    {
        &self.table
    }

    /// Whether it has the table of what this project's home reaches.
    pub fn has_home(&self) -> bool
        ensures { IsTrue result ↔ IsSome self.now.home }
    {
        self.home.is_some()
    }

    /// Whether this project's home reaches a situation; None where its table was not asked for.
    pub fn by_home(&self, situation: &Situation) -> Option<bool>
        ensures { IsByHome self.now.home situation.now result }
    {
        match &self.home {
            None => None,
            Some(home) => Some(home.has(situation)),
        }
    }

    /// The counts, in the order of the table.
    pub fn counts(&self) -> &[Count]
        ensures { result.now ≡ self.now.counts }
    {
        self.counts.as_slice()
    }

    /// How many events were in none of the table's situations.
    pub fn beyond(&self) -> u64
        ensures { result ≡ self.now.beyond }
    {
        self.beyond
    }

    /// Counts an event at a place of the table. Err is a count past 64 bits: then nothing has changed.
    fn note_at(&mut self, place: usize, mark: Mark) -> Result<(), AllocError>
        requires { place < length self.old.situations }
        ensures ok { OnOk result (IsCountedAt place mark self.old self.new) }
        ensures err { OnErr result (self.new ≡ self.old) }
    {
        let count = self.counts[place];
        if count.events == u64::MAX {
            return Err(AllocError);
        }
        self.counts[place] = one_more(count, mark);
        Ok(())
    }

    /// Counts an event that is in none of the table's situations. Err is a count past 64 bits: then nothing has
    /// changed.
    fn note_beyond(&mut self) -> Result<(), AllocError>
        ensures ok { OnOk result (IsCountedBeyond self.old self.new) }
        ensures err { OnErr result (self.new ≡ self.old) }
    {
        if self.beyond == u64::MAX {
            return Err(AllocError);
        }
        self.beyond += 1;
        Ok(())
    }

    /// Counts an event in a situation. Err is a count past 64 bits: then nothing has changed.
    fn note(&mut self, situation: &Situation, mark: Mark) -> Result<(), AllocError>
        ensures ok { OnOk result (IsNoted situation.now mark self.old self.new) }
        ensures err { OnErr result (self.new ≡ self.old) }
    {
        match self.table.place_of(situation) {
            Some(place) => {
                self.note_at(place, mark)?;
                Ok(())
            }
            None => {
                self.note_beyond()?;
                Ok(())
            }
        }
    }

    /// Counts an event in a situation, after it was judged.
    fn noted(&mut self, situation: &Situation, mark: Mark) -> Result<(), Refusal>
        ensures ok { OnOk result (IsNoted situation.now mark self.old self.new) }
        ensures err { IfErr result (λ refusal. (breach : Breach) → refusal ≢ Broken breach) }
        ensures same { OnErr result (self.new ≡ self.old) }
    {
        match self.note(situation, mark) {
            Ok(()) => Ok(()),
            Err(_) => Err(Refusal::Memory),
        }
    }

    /// Judges the next entry of a record, and counts its event where it is permitted. `Broken` where it is not, with
    /// what it breaks, and all stays as it was; `Memory` where memory is refused, and nothing is claimed of the judge
    /// then. What is not counted leaves the tally as it was, and its tables stay in any case.
    pub fn see(&mut self, judge: &mut Judge, entry: &Entry, mark: Mark) -> Result<(), Refusal>
        ensures ok { OnOk result
            ((order : ChannelOrder) (shape : Shape) (image : List ℕ) (log : List Event)
            → Follows order shape image log judge.old → 0 < shape.clients
            → IsSeen order shape image log entry.now mark judge.new self.old self.new) }
        ensures permitted { OnOk result
            ((order : ChannelOrder) (shape : Shape) (image : List ℕ) (log : List Event)
            → Follows order shape image log judge.old
            → IsPermitted order shape image log entry.now
            × Follows order shape image (log ++ entry.now.event ∷ []) judge.new) }
        ensures broken { IfErr result
            (λ refusal. (breach : Breach) → refusal ≡ Broken breach
            → (order : ChannelOrder) (shape : Shape) (image : List ℕ) (log : List Event)
            → Follows order shape image log judge.old → Breaks order shape image log entry.now breach) }
        ensures tables { HasTablesOf self.old self.new }
        ensures uncounted { OnErr result (self.new ≡ self.old) }
        ensures unchanged { IfErr result
            (λ refusal. (breach : Breach) → refusal ≡ Broken breach → (self.new ≡ self.old) × (judge.new ≡ judge.old)) }
    {
        let situation = situation_in(judge.plain(), &entry.event);
        judge.step(entry)?;
        match situation {
            None => Ok(()),
            Some(situation) => self.noted(&situation, mark),
        }
    }
}
