//! Whether the shares that a call is given are a bank's.
ghost use Rattle.std.specs.Prelude.{◌≡◌, ◌<◌, None, Some, IfErr, OnOk, length};
ghost use Rattle.tl_bank_spec.specs.Cases.{bad_share, other_share};
ghost use Rattle.tl_bank_spec.specs.Refusal.{first_of};
ghost use Rattle.tl_bank_rest.specs.Shares.{any_below, is_bad, is_other, shares_cases};

use tl_bank::{Bank, Refusal, Share};
use tl_types::ClientId;

/// Nothing but why these are not the shares of a bank's clients.
pub(crate) fn check_shares(bank: &Bank, shares: &[Share]) -> Result<(), Refusal>
    ensures refused { IfErr result (λ r. first_of (shares_cases bank.now shares.now) ≡ Some r) }
    ensures permitted { OnOk result (first_of (shares_cases bank.now shares.now) ≡ None) }
{
    if shares.len() != bank.geometry().clients() as usize {
        return Err(Refusal::OutOfRange);
    }
    if has_bad(bank, shares) {
        return Err(Refusal::OutOfRange);
    }
    if has_other(bank, shares) {
        return Err(Refusal::WrongBank);
    }
    Ok(())
}

/// Whether one of the shares is not of the client of its place, or counts otherwise than that client's copies here.
fn has_bad(bank: &Bank, shares: &[Share]) -> bool
    requires { length shares.now ≡ bank.now.geometry.clients }
    ensures { result ≡ any_below (is_bad bank.now shares.now) bank.now.geometry.clients }
{
    for number in 0..bank.geometry().clients() {
        let place = number as usize;
        if is_bad(bank, ClientId::new(number), &shares[place]) {
            return true;
        }
    }
    false
}

/// Whether one of the shares is of another bank.
fn has_other(bank: &Bank, shares: &[Share]) -> bool
    requires { length shares.now ≡ bank.now.geometry.clients }
    ensures { result ≡ any_below (is_other bank.now shares.now) bank.now.geometry.clients }
{
    for number in 0..bank.geometry().clients() {
        let place = number as usize;
        if is_other(bank, &shares[place]) {
            return true;
        }
    }
    false
}

/// Whether a share is another client's, or counts otherwise than the client's copies in its bank.
fn is_bad(bank: &Bank, client: ClientId, share: &Share) -> bool
    requires { client < bank.now.geometry.clients }
    ensures { result ≡ bad_share bank.now client share.now }
{
    share.client() != client
        || (share.bank() == bank.number()
            && Some(u64::from(share.count())) != bank.copies_of(client))
}

/// Whether a share is of another bank.
fn is_other(bank: &Bank, share: &Share) -> bool
    ensures { result ≡ other_share bank.now share.now }
{
    share.bank() != bank.number()
}
