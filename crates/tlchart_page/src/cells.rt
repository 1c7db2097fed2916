//! Which parts of the banks a page shows: those of the blocks that the steps name.
ghost use Rattle.std.specs.Prelude.{◌≡◌, ◌∷◌, ◌++◌, [], IfOk, OnOk};
ghost use Rattle.std.specs.List.{flat_map};
ghost use Rattle.tlchart_page.specs.Cells.{HasCells, banks_below, block_cells, cell_of, channel_cells, channels_below, clients_below};

use crate::parts::{Cell, Part};
use std::alloc::{AllocError, Global};
use tl_map::{Geometry, Set};
use tl_script_words::Step;
use tl_types::{BankNo, BlockNo, Channel, ClientId};

/// The block that a step names, where it names one itself.
fn block_named(geometry: Geometry, step: &Step) -> Option<BlockNo> {
    match step {
        Step::Load {
            client: _,
            address,
            len: _,
        } => Some(geometry.block_at(*address)),
        Step::Store {
            client: _,
            address,
            bytes: _,
        } => Some(geometry.block_at(*address)),
        Step::Acquire {
            client: _,
            block,
            grow: _,
        } => Some(*block),
        Step::Release {
            client: _,
            block,
            prune: _,
        } => Some(*block),
        Step::Block(_, block) => Some(*block),
        Step::Ticket(_, _) => None,
    }
}

/// The blocks of the memory that steps name, by rising number. A ticket names a message, about a block that another
/// step named.
pub(crate) fn blocks_named(
    alloc: Global,
    geometry: Geometry,
    steps: &[Step],
) -> Result<Vec<BlockNo>, AllocError> {
    let mut numbers = Vec::new(alloc);
    for step in steps {
        if let Some(block) = block_named(geometry, step) {
            if geometry.has(block) {
                numbers.push(block.number())?;
            }
        }
    }
    numbers.sort()?;
    each_once(alloc, &numbers)
}

/// The blocks with these numbers, which rise, each once.
fn each_once(alloc: Global, numbers: &[u32]) -> Result<Vec<BlockNo>, AllocError> {
    let mut blocks = Vec::new(alloc);
    let mut last = None;
    for number in numbers {
        if last != Some(*number) {
            blocks.push(BlockNo::new(*number))?;
            last = Some(*number);
        }
    }
    Ok(blocks)
}

/// The sets of a bank in which these blocks lie, by the order of the blocks, each once.
fn sets_named(
    alloc: Global,
    geometry: Geometry,
    bank: BankNo,
    blocks: &[BlockNo],
) -> Result<Vec<u32>, AllocError> {
    let mut sets = Vec::new(alloc);
    for block in blocks {
        if geometry.has(*block) && geometry.bank(*block) == bank {
            sets.push(geometry.place(*block).set.number())?;
        }
    }
    sets.sort()?;
    Ok(sets)
}

/// A cell at the end of some.
fn push_cell(cells: &mut Vec<Cell>, bank: BankNo, part: Part) -> Result<(), AllocError>
    ensures { OnOk result (cells.new.items ≡ cells.old.items ++ cell_of bank part ∷ []) }
{
    cells.push(Cell { bank, part })?;
    Ok(())
}

/// The first clients' parts of a block.
fn push_clients(
    cells: &mut Vec<Cell>,
    bank: BankNo,
    block: BlockNo,
    clients: u32,
) -> Result<(), AllocError>
    ensures { OnOk result (cells.new.items ≡ cells.old.items ++ clients_below bank block clients) }
{
    for number in 0..clients {
        push_cell(cells, bank, Part::Client(ClientId::new(number), block))?;
    }
    Ok(())
}

/// The cells of a block.
fn push_block(cells: &mut Vec<Cell>, geometry: Geometry, block: BlockNo) -> Result<(), AllocError>
    ensures { OnOk result (cells.new.items ≡ cells.old.items ++ block_cells geometry block) }
{
    let bank = geometry.bank(block);
    push_cell(cells, bank, Part::Home(block))?;
    push_cell(cells, bank, Part::Memory(block))?;
    push_clients(cells, bank, block, geometry.clients())
}

/// The cells of blocks.
fn push_blocks(
    cells: &mut Vec<Cell>,
    geometry: Geometry,
    blocks: &[BlockNo],
) -> Result<(), AllocError>
    ensures { OnOk result (cells.new.items ≡ cells.old.items ++ flat_map (block_cells geometry) blocks.now) }
{
    for block in blocks {
        push_block(cells, geometry, *block)?;
    }
    Ok(())
}

/// The five channels of a client.
fn push_channels_of(cells: &mut Vec<Cell>, bank: BankNo, client: ClientId) -> Result<(), AllocError>
    ensures { OnOk result (cells.new.items ≡ cells.old.items ++ channel_cells bank client) }
{
    push_cell(cells, bank, Part::Channel(client, Channel::A))?;
    push_cell(cells, bank, Part::Channel(client, Channel::B))?;
    push_cell(cells, bank, Part::Channel(client, Channel::C))?;
    push_cell(cells, bank, Part::Channel(client, Channel::D))?;
    push_cell(cells, bank, Part::Channel(client, Channel::E))
}

/// The channels of the first clients.
fn push_channels(cells: &mut Vec<Cell>, bank: BankNo, clients: u32) -> Result<(), AllocError>
    ensures { OnOk result (cells.new.items ≡ cells.old.items ++ channels_below bank clients) }
{
    for number in 0..clients {
        push_channels_of(cells, bank, ClientId::new(number))?;
    }
    Ok(())
}

/// The channels and the registers of the first banks.
fn push_banks(cells: &mut Vec<Cell>, geometry: Geometry, banks: u32) -> Result<(), AllocError>
    ensures { OnOk result (cells.new.items ≡ cells.old.items ++ banks_below geometry banks) }
{
    for number in 0..banks {
        let bank = BankNo::new(number);
        push_channels(cells, bank, geometry.clients())?;
        push_cell(cells, bank, Part::Registers)?;
    }
    Ok(())
}

/// The cells of a bank's sets, which rise.
fn push_sets(cells: &mut Vec<Cell>, bank: BankNo, sets: &[u32]) -> Result<(), AllocError> {
    let mut last = None;
    for set in sets {
        if last != Some(*set) {
            push_cell(cells, bank, Part::Set(Set::new(*set)))?;
            last = Some(*set);
        }
    }
    Ok(())
}

/// The cells of the sets in which these blocks lie.
fn set_cells(
    alloc: Global,
    geometry: Geometry,
    blocks: &[BlockNo],
) -> Result<Vec<Cell>, AllocError> {
    let mut cells = Vec::new(alloc);
    for number in 0..geometry.banks() {
        let bank = BankNo::new(number);
        push_sets(
            &mut cells,
            bank,
            &sets_named(alloc, geometry, bank, blocks)?,
        )?;
    }
    Ok(cells)
}

/// The cells of these blocks, of the sets in which they lie, and of all banks.
pub(crate) fn cells_of(
    alloc: Global,
    geometry: Geometry,
    blocks: &[BlockNo],
) -> Result<Vec<Cell>, AllocError>
    ensures { IfOk result (λ cells. HasCells geometry blocks.now cells.items) }
{
    let sets = set_cells(alloc, geometry, blocks)?;
    let mut cells = Vec::new(alloc);
    push_blocks(&mut cells, geometry, blocks)?;
    cells.extend_from_slice(&sets)?;
    push_banks(&mut cells, geometry, geometry.banks())?;
    Ok(cells)
}
