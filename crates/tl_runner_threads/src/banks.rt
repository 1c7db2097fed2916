//! The banks of a script, and the clients' shares in them.
ghost use Rattle.std.specs.Prelude.{◌≡◌, ◌*◌, ◌≤◌, IfOk, length, vec_len};

use std::alloc::{AllocError, Global};
use tl_bank::{Bank, Share};
use tl_map::Geometry;
use tl_types::BankNo;

/// The banks by number, and each client's shares of them.
#[derive(Drop)]
pub(crate) struct Opened {
    pub(crate) banks: Vec<Bank>,
    pub(crate) shares: Vec<Vec<Share>>,
}

/// So many empty lists of shares.
pub(crate) fn no_shares(alloc: Global, count: u32) -> Result<Vec<Vec<Share>>, AllocError>
    ensures { IfOk result (λ lists. vec_len lists ≡ count) }
{
    let mut lists = Vec::with_capacity(alloc, count as usize)?;
    for _ in 0..count {
        lists.push(Vec::new(alloc))?;
    }
    Ok(lists)
}

/// The banks at reset over an image, each with room for so many events where there is memory for them, and the shares
/// of each client.
pub(crate) fn open_banks(
    alloc: Global,
    geometry: Geometry,
    image: &[u8],
    events: usize,
) -> Result<Opened, AllocError>
    requires { length image.now ≤ geometry.memory_blocks * geometry.block_bytes }
    ensures { IfOk result (λ opened. vec_len opened.shares ≡ geometry.clients) }
{
    let mut banks = Vec::with_capacity(alloc, geometry.banks() as usize)?;
    let mut shares = no_shares(alloc, geometry.clients())?;
    for number in 0..geometry.banks() {
        let (mut bank, given) = Bank::new(alloc, geometry, BankNo::new(number), image)?;
        // Where this is refused, the log asks again as it grows.
        let _ = bank.reserve_steps(events);
        banks.push(bank)?;
        for share in given {
            if let Some(list) = shares.get_mut(share.client().index()) {
                list.push(share)?;
            }
        }
    }
    Ok(Opened { banks, shares })
}
