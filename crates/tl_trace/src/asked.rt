//! What a step is asked of.
ghost use Rattle.std.specs.Prelude.{◌≡◌, ◌<◌, if◌then◌else◌, nat_lt};
ghost use Rattle.tl_map.specs.Places.{block_of_address};
ghost use Rattle.tl_trace.specs.NetworkState.{bank_asked, bank_of_block, client_named};

use tl_map::Geometry;
use tl_script_words::Step;
use tl_types::{BankNo, BlockNo, ClientId};

/// The bank that a step names by its address, block or ticket; bank 0 where that is not there.
pub fn bank_asked(geometry: Geometry, step: &Step) -> usize
    ensures is { result ≡ bank_asked geometry step.now }
    ensures inside { result < geometry.banks }
{
    match step {
        Step::Load {
            client: _,
            address,
            len: _,
        } => bank_of_block(geometry, geometry.block_at(*address)),
        Step::Store {
            client: _,
            address,
            bytes: _,
        } => bank_of_block(geometry, geometry.block_at(*address)),
        Step::Acquire {
            client: _,
            block,
            grow: _,
        } => bank_of_block(geometry, *block),
        Step::Release {
            client: _,
            block,
            prune: _,
        } => bank_of_block(geometry, *block),
        Step::Ticket(_, ticket) => bank_or_first(geometry, ticket.bank),
        Step::Block(_, block) => bank_of_block(geometry, *block),
    }
}

/// The bank of a block; bank 0 for a block that is not there.
pub(crate) fn bank_of_block(geometry: Geometry, block: BlockNo) -> usize
    ensures is { result ≡ bank_of_block geometry block }
    ensures inside { result < geometry.banks }
{
    // For the prover: a geometry has a bank.
    let _banks = geometry.banks();
    if geometry.has(block) {
        geometry.place(block).bank.index()
    } else {
        0
    }
}

/// A bank; bank 0 where it is not there.
pub(crate) fn bank_or_first(geometry: Geometry, bank: BankNo) -> usize
    ensures is { result ≡ (if nat_lt bank geometry.banks then bank else 0) }
    ensures inside { result < geometry.banks }
{
    if bank.number() < geometry.banks() {
        bank.index()
    } else {
        0
    }
}

/// The client that a step names; a call that has a block alone uses no share and no clock.
pub fn client_named(step: &Step) -> ClientId
    ensures { result ≡ client_named step.now }
{
    match step {
        Step::Load {
            client,
            address: _,
            len: _,
        } => *client,
        Step::Store {
            client,
            address: _,
            bytes: _,
        } => *client,
        Step::Acquire {
            client,
            block: _,
            grow: _,
        } => *client,
        Step::Release {
            client,
            block: _,
            prune: _,
        } => *client,
        Step::Ticket(_, ticket) => ticket.client,
        Step::Block(_, _) => ClientId::new(0),
    }
}
