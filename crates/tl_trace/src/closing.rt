//! What a bank shows at the end.
ghost use Rattle.std.specs.Prelude.{◌≡◌, IfOk, OnOk, map};
ghost use Rattle.tl_bank_spec.specs.Coherent.{IsCoherent};
ghost use Rattle.tl_trace.specs.Closing.{Closes, line_state, lines_below, standings};

use arrayvec::ArrayVec;
use std::alloc::{AllocError, Global};
use tl_bank::Bank;
use tl_text::{BankClosing, BlockLine, Standing};
use tl_types::{BlockNo, CLIENTS, ClientId};

/// The blocks that home holds, by rising number, and the bank's counts.
pub(crate) fn closing(alloc: Global, bank: &Bank) -> Result<BankClosing, AllocError>
    ensures closes { IfOk result (Closes bank.now) }
    ensures coherent { OnOk result (IsCoherent bank.now) }
{
    // For the prover: what the log leaves is coherent.
    let _log = bank.log();
    Ok(BankClosing {
        blocks: lines(alloc, bank)?,
        held: bank.held(),
        recorded: bank.outstanding(),
        events: bank.events() as u64,
    })
}

/// The line of each block that home holds.
fn lines(alloc: Global, bank: &Bank) -> Result<Vec<BlockLine>, AllocError>
    ensures { IfOk result (λ lines. map line_state lines.items ≡ lines_below bank.now bank.now.geometry.memory_blocks) }
{
    let mut lines = Vec::new(alloc);
    for block in bank.blocks_at_home().as_slice() {
        if let Some(dirty) = bank.home(*block) {
            lines.push(BlockLine {
                block: *block,
                dirty,
                clients: standings(bank, *block),
            })?;
        }
    }
    Ok(lines)
}

/// What home records of each client, and what each holds.
fn standings(bank: &Bank, block: BlockNo) -> ArrayVec<Standing, CLIENTS>
    ensures { result.items ≡ standings bank.now block bank.now.geometry.clients }
{
    let mut clients = ArrayVec::new();
    for number in 0..bank.geometry().clients() {
        let client = ClientId::new(number);
        clients.push(Standing {
            recorded: bank.directory(client, block),
            held: bank.perm(client, block),
        });
    }
    clients
}
