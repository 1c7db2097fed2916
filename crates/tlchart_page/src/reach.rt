//! How far a step reaches: which cells it may have changed.
ghost use Rattle.std.specs.Prelude.{◌≡◌, ◌<◌, IfSome};
ghost use Rattle.tl_bank_spec.specs.View.{shape_of};
ghost use Rattle.tl_trace.specs.NetworkState.{bank_asked, bank_at};
ghost use Rattle.tlchart_page.specs.Reach.{IsKnownSpot, IsLastSpot, IsSpotOf, may_change, touches, touches_if};

use crate::parts::{Cell, Part};
use tl_bank::Bank;
use tl_map::{Geometry, Set};
use tl_protocol::{Event, Shape};
use tl_script_words::Step;
use tl_trace::{Network, bank_asked};
use tl_types::{BankNo, BlockNo};

/// The block of an event, and its set.
#[derive(Clone, Copy, Debug)]
pub(crate) struct Spot {
    block: BlockNo,
    set: Set,
}

/// The bank that a step was asked of, and what the last event of that bank was of, where there was one.
#[derive(Clone, Copy, Debug)]
pub(crate) struct Reach {
    bank: BankNo,
    spot: Option<Spot>,
}

impl Spot {
    /// Whether what happens to the block may change a part of its bank.
    fn touches(self, part: Part) -> bool
        ensures { result ≡ touches self part }
    {
        match part {
            Part::Client(_, block) | Part::Home(block) | Part::Memory(block) => block == self.block,
            Part::Set(set) => set == self.set,
            Part::Channel(_, _) | Part::Registers => true,
        }
    }
}

impl Reach {
    /// How far a step reached that was just asked of a network.
    pub(crate) fn of(network: &Network, step: &Step) -> Reach
        ensures bank { result.bank ≡ bank_asked network.now.geometry step.now }
        ensures spot { IsKnownSpot (bank_at network.now result.bank) result.spot }
    {
        let bank = BankNo::new(bank_asked(network.geometry(), step) as u32);
        Reach {
            bank,
            spot: spot_in(network, bank),
        }
    }

    /// Whether the step may have changed a part of its bank: any, where it is not known what the last event was of.
    fn touches(&self, part: Part) -> bool
        ensures { result ≡ touches_if self.now.spot part }
    {
        match self.spot {
            Some(spot) => spot.touches(part),
            None => true,
        }
    }

    /// Whether the step may have changed what a cell shows.
    pub(crate) fn has(&self, cell: &Cell) -> bool
        ensures { result ≡ may_change self.now cell.now }
    {
        cell.bank == self.bank && self.touches(cell.part)
    }
}

/// The clients, bytes and blocks of a geometry.
fn shape_of(geometry: Geometry) -> Shape
    ensures is { result ≡ shape_of geometry }
    ensures nonempty { 0 < result.block_bytes }
{
    Shape {
        clients: geometry.clients(),
        block_bytes: geometry.block_bytes(),
        blocks: geometry.memory_blocks(),
    }
}

/// The spot of an event, where its block is one of the memory.
fn spot_of(geometry: Geometry, event: &Event) -> Option<Spot>
    ensures { IfSome result (IsSpotOf geometry event.now) }
{
    let shape = shape_of(geometry);
    let block = BlockNo::new(event.block(shape));
    if !geometry.has(block) {
        return None;
    }
    let place = geometry.place(block);
    Some(Spot {
        block,
        set: place.set,
    })
}

/// The spot of the last event of a bank.
fn last_spot(bank: &Bank) -> Option<Spot>
    ensures { IfSome result (IsLastSpot bank.now) }
{
    match bank.log().last() {
        Some(event) => spot_of(bank.geometry(), event),
        None => None,
    }
}

/// The spot of the last event of a bank, where the bank is there.
fn spot_in(network: &Network, number: BankNo) -> Option<Spot>
    ensures { IsKnownSpot (bank_at network.now number) result }
{
    match network.bank(number) {
        Some(bank) => last_spot(bank),
        None => None,
    }
}
