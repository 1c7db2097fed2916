//! The shares of a bank, which its clients give back.
ghost use Rattle.std.specs.Prelude.{◌≡◌, ◌↔◌, ◌≤◌, Contains, IfOk, IsOk, IsTrue, length};
ghost use Rattle.tl_protocol.specs.Ledger.{has_copy};
ghost use Rattle.tl_bank_spec.specs.Views.{pairs_at};
ghost use Rattle.tl_tickets.specs.Shares.{AreShares, sum_of, copies_below};

use crate::error::Missing;
use tl_bank::{Bank, Share};
use tl_protocol::every_run;
use tl_types::{BankNo, CLIENTS, ClientId};

/// Whether a share is of a client and a bank, with a count.
fn is_share(share: &Share, client: ClientId, bank: BankNo, count: u64) -> bool
    ensures { IsTrue result ↔ (share.now ≡ record { client = client; bank = bank; count = count }) }
{
    share.client() == client && share.bank() == bank && u64::from(share.count()) == count
}

/// Whether such a share is among some.
fn has_share(shares: &[Share], client: ClientId, bank: BankNo, count: u64) -> bool
    ensures { IsTrue result ↔ Contains shares.now (record { client = client; bank = bank; count = count }) }
{
    for share in shares {
        if is_share(share, client, bank, count) {
            return true;
        }
    }
    false
}

/// The copies that a bank counts by block are those that it counts by client.
fn held_by_client(bank: &Bank)
    ensures { pairs_at has_copy bank.now ≡ copies_below bank.now bank.now.geometry.clients }
{
    // For the proof alone: the log is a run on the bank's own blocks.
    every_run();
    let _log = bank.log();
}

/// The sum of at most `CLIENTS` shares.
fn sum(shares: &[Share]) -> u64
    requires { length shares.now ≤ CLIENTS }
    ensures { result ≡ sum_of shares.now }
{
    let mut sum = 0;
    for share in shares {
        sum += u64::from(share.count());
    }
    sum
}

/// How many copies the clients hold in a bank: the sum of their shares, which each client gives back once, in any
/// order. `Missing` exactly where not each client's share of this bank is there once.
pub fn gather(bank: &Bank, shares: &[Share]) -> Result<u64, Missing>
    ensures exact { IsOk result ↔ AreShares bank.now shares.now }
    ensures sum { IfOk result (λ held. held ≡ sum_of shares.now) }
    ensures held { IfOk result (λ held. held ≡ pairs_at has_copy bank.now) }
{
    let clients = bank.geometry().clients();
    if shares.len() != clients as usize {
        return Err(Missing);
    }
    for number in 0..clients {
        let client = ClientId::new(number);
        let Some(copies) = bank.copies_of(client) else {
            unreachable!()
        };
        if !has_share(shares, client, bank.number(), copies) {
            return Err(Missing);
        }
    }
    // For the proof alone: what the clients hold is what the bank holds.
    held_by_client(bank);
    Ok(sum(shares))
}
