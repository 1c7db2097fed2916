//! A tally for each number of clients that is met.
ghost use Rattle.std.specs.Prelude.{◌≡◌, ◌<◌, ◌≤◌, ◌∷◌, ◌++◌, ℕ, List, [], All, IfErr, IfOk, MatchOption, OnErr, OnOk, length, min, true, false};
ghost use Rattle.tl_protocol.specs.declared.event.Event.{Event};
ghost use Rattle.tl_protocol.specs.declared.shape.Shape.{Shape};
ghost use Rattle.tlcheck_rules.specs.Judged.{Breaks, Follows, IsPermitted};
ghost use Rattle.tlcheck_rules.specs.declared.judge.Breach.{Breach};
ghost use Rattle.tlcheck_rules.specs.declared.judge.Refusal.TheVariants.{Broken};
ghost use Rattle.tlcheck_rules.specs.declared.order.ChannelOrder.{ChannelOrder};
ghost use Rattle.tlcheck_home.specs.Tally.{IsUncounted};
ghost use Rattle.tlcheck_coverage.specs.Tallies.{HasHome, HasTables, IsOf, Opens, SeesAt};

use std::alloc::{AllocError, Global};
use std::marker::Model;
use tl_types::CLIENTS;
use tlcheck_home::{HomeTable, Mark, Tally};
use tlcheck_rules::{Entry, Judge, Refusal};
use tlcheck_situations::{Table, TableError};

/// The most clients of a table. A record of more is counted over the table of so many.
pub(crate) const MOST: u32 = 3;

/// The tallies so far, by their clients.
#[derive(Drop)]
pub struct Tallies {
    by_home: bool,
    tallies: Vec<Tally>,
}

impl Model for Tallies {
    ghost use Rattle.std.specs.Prelude.{All};
    ghost use Rattle.tlcheck_coverage.specs.Tallies.{HasTables, TalliesState};

    ghost Value = { TalliesState };

    ghost view = { λ t. record { by_home = t.by_home; tallies = t.tallies.items } };

    ghost invariant = { λ t. All (HasTables t.by_home) t.tallies.items };
}

/// The table of what this project's home reaches, if it is asked for.
fn home_asked(alloc: Global, clients: u32, by_home: bool) -> Result<Option<HomeTable>, TableError>
    requires some { 0 < clients }
    requires few { clients ≤ CLIENTS }
    ensures { IfOk result (HasHome by_home clients) }
{
    if !by_home {
        return Ok(None);
    }
    let table = HomeTable::new(alloc, clients)?;
    Ok(Some(table))
}

/// The place of the tally of so many clients, if there is one.
fn place_of(tallies: &[Tally], clients: u32) -> Option<usize>
    ensures { MatchOption result ((place : ℕ) → IsOf clients place tallies.now → ⊥)
        (λ place. IsOf clients place tallies.now) }
{
    for place in 0..tallies.len() {
        if tallies[place].table().clients() == clients {
            return Some(place);
        }
    }
    None
}

/// A tally of so many clients, with nothing counted.
fn made(alloc: Global, clients: u32, by_home: bool) -> Result<Tally, TableError>
    requires some { 0 < clients }
    requires few { clients ≤ CLIENTS }
    ensures clients { IfOk result (λ tally. tally.clients ≡ clients) }
    ensures tables { IfOk result (HasTables by_home) }
    ensures uncounted { IfOk result IsUncounted }
{
    let home = home_asked(alloc, clients, by_home)?;
    let table = Table::new(alloc, clients)?;
    let tally = Tally::new(alloc, table, home)?;
    Ok(tally)
}

impl Tallies {
    /// None.
    pub fn new(alloc: Global) -> Tallies
        ensures { result ≡ record { by_home = false; tallies = [] } }
    {
        Tallies {
            by_home: false,
            tallies: Vec::new(alloc),
        }
    }

    /// None. Each that is made has the table of what this project's home reaches.
    pub fn by_home(alloc: Global) -> Tallies
        ensures { result ≡ record { by_home = true; tallies = [] } }
    {
        Tallies {
            by_home: true,
            tallies: Vec::new(alloc),
        }
    }

    /// All of them, in the order in which they were met.
    pub fn all(&self) -> &[Tally]
        ensures value { result.now ≡ self.now.tallies }
        ensures tables { All (HasTables self.now.by_home) result.now }
    {
        self.tallies.as_slice()
    }

    /// Whether each has the table of what this project's home reaches.
    fn is_by_home(&self) -> bool
        ensures { result ≡ self.now.by_home }
    {
        self.by_home
    }

    /// One more tally, and its place. The error is want of memory; then they stay as they are.
    fn join(&mut self, tally: Tally) -> Result<usize, AllocError>
        requires { HasTables self.old.by_home tally }
        ensures place { IfOk result (λ place. place ≡ length self.old.tallies) }
        ensures joined { OnOk result (self.new.tallies ≡ self.old.tallies ++ tally ∷ []) }
        ensures by_home { self.new.by_home ≡ self.old.by_home }
        ensures same { OnErr result (self.new ≡ self.old) }
    {
        let place = self.tallies.as_slice().len();
        self.tallies.push(tally)?;
        Ok(place)
    }

    /// The place of the tally of so many clients, or of the most where they are more. It is made where there is none.
    /// Err is why it cannot be; then they stay as they are.
    pub(crate) fn place_for(&mut self, alloc: Global, clients: u32) -> Result<usize, TableError>
        requires { 0 < clients }
        ensures opens { IfOk result (λ place. Opens (min clients MOST) place self.old self.new) }
        ensures same { OnErr result (self.new ≡ self.old) }
    {
        let meant = clients.min(MOST);
        match place_of(self.all(), meant) {
            Some(place) => Ok(place),
            None => {
                let tally = made(alloc, meant, self.is_by_home())?;
                let place = self.join(tally)?;
                Ok(place)
            }
        }
    }

    /// Judges the next entry of a record, and counts its event over the tally at a place, as `Tally::see` does.
    pub(crate) fn see(
        &mut self,
        place: usize,
        judge: &mut Judge,
        entry: &Entry,
        mark: Mark,
    ) -> Result<(), Refusal>
        requires { place < length self.old.tallies }
        ensures ok { OnOk result
            ((order : ChannelOrder) (shape : Shape) (image : List ℕ) (log : List Event)
            → Follows order shape image log judge.old → 0 < shape.clients
            → SeesAt place order shape image log entry.now mark judge.new self.old self.new) }
        ensures size { length self.new.tallies ≡ length self.old.tallies }
        ensures permitted { OnOk result
            ((order : ChannelOrder) (shape : Shape) (image : List ℕ) (log : List Event)
            → Follows order shape image log judge.old
            → IsPermitted order shape image log entry.now
            × Follows order shape image (log ++ entry.now.event ∷ []) judge.new) }
        ensures broken { IfErr result
            (λ refusal. (breach : Breach) → refusal ≡ Broken breach
            → (order : ChannelOrder) (shape : Shape) (image : List ℕ) (log : List Event)
            → Follows order shape image log judge.old → Breaks order shape image log entry.now breach) }
        ensures unchanged { IfErr result
            (λ refusal. (breach : Breach) → refusal ≡ Broken breach → judge.new ≡ judge.old) }
    {
        self.tallies[place].see(judge, entry, mark)
    }
}
