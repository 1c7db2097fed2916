//! The banks of a script.
ghost use Rattle.std.specs.Prelude.{◌≡◌, ◌↔◌, ◌≤◌, All, IsTrue, length};
ghost use Rattle.tl_rules.specs.Certified.{events_of};
ghost use Rattle.tl_runner_report.specs.Banks.{IsBankOf, AreBanksOf, HasRun, IsWhole, logs_in};

use arrayvec::ArrayVec;
use tl_bank::Bank;
use tl_map::GeometryNumbers;
use tl_protocol::Event;
use tl_script::Script;
use tl_types::BANKS;

/// Whether two geometries have the same numbers.
fn same_numbers(one: GeometryNumbers, other: GeometryNumbers) -> bool
    ensures { IsTrue result ↔ (one ≡ other) }
{
    one == other
}

/// Whether some bytes are the same.
fn same_bytes(one: &[u8], other: &[u8]) -> bool
    ensures { IsTrue result ↔ (one.now ≡ other.now) }
{
    one == other
}

/// Whether a bank has forgotten nothing.
fn is_whole(bank: &Bank) -> bool
    ensures { IsTrue result ↔ IsWhole bank.now }
{
    bank.forgotten() == 0
}

/// Whether a bank has this number, the script's geometry and its image, and its whole log.
pub fn is_bank_of(script: &Script, number: usize, bank: &Bank) -> bool
    ensures { IsTrue result ↔ IsBankOf script.now number bank.now }
{
    if !same_numbers(bank.geometry().numbers(), script.geometry.numbers()) {
        return false;
    }
    if bank.number().number() as usize != number {
        return false;
    }
    if !is_whole(bank) {
        return false;
    }
    same_bytes(bank.image(), script.image.as_slice())
}

/// Whether these are the banks of the script.
pub(crate) fn are_banks_of(script: &Script, banks: &[Bank]) -> bool
    ensures { IsTrue result ↔ AreBanksOf script.now banks.now }
{
    if banks.len() != script.geometry().banks() as usize {
        return false;
    }
    for (number, bank) in banks.iter().enumerate() {
        if !is_bank_of(script, number, bank) {
            return false;
        }
    }
    true
}

/// The logs of at most 8 banks that have forgotten nothing. Each is a run on the bank's own blocks.
pub(crate) fn logs_of(banks: &[Bank]) -> ArrayVec<&[Event], BANKS>
    requires few { length banks.now ≤ BANKS }
    requires whole { All IsWhole banks.now }
    ensures logs { events_of result.items ≡ logs_in banks.now }
    ensures runs { All HasRun banks.now }
{
    let mut logs = ArrayVec::new();
    for bank in banks {
        logs.push(bank.log());
    }
    logs
}
