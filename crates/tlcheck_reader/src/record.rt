//! The check of a whole record.
ghost use Rattle.std.specs.Prelude.{◌≡◌, ℕ, List, [], IfOk, IfSome, Option};
ghost use Rattle.tlcheck_rules.specs.Judged.{Follows};
ghost use Rattle.tlcheck_record.specs.declared.header.Head.{Head};
ghost use Rattle.tlcheck_reader.specs.Entries.{IsAmong};
ghost use Rattle.tlcheck_reader.specs.Outcome.{IsChecked, IsOutcome};

use crate::entries::{Entries, ReadFault};
use crate::outcome::{Outcome, broken};
use std::alloc::Global;
use std::io::BufRead;
use tlcheck_rules::{Judge, Refusal};

/// Why a check answers nothing.
#[derive(Clone, Copy, Debug, PartialEq, Eq)]
pub enum CheckFault {
    /// A request for memory was refused.
    Memory,
    /// The record could not be read to its end.
    File,
}

/// Checks the entries of a record, with a judge at reset.
fn check_entries<R: BufRead>(
    alloc: Global,
    reader: &mut R,
    mut entries: Entries,
    mut judge: Judge,
) -> Result<Outcome, ReadFault>
    ensures { (known : Option (List ℕ)) (head : Head) (image : List ℕ)
        → IsAmong known (R.remaining reader.old) entries head image [] → Follows head.order head.shape image [] judge
        → IsChecked known result }
{
    for count in 0..u64::MAX {
        let Some(entry) = entries.next(alloc, reader)? else {
            return Ok(Outcome::Lawful(judge, count));
        };
        match judge.step(&entry) {
            Ok(()) => {}
            Err(Refusal::Broken(breach)) => {
                let stopped = broken(judge, &entry, count + 1, breach);
                return Ok(Outcome::Broken(entries.number(), stopped));
            }
            Err(Refusal::Memory) => return Err(ReadFault::Memory),
        }
    }
    Err(ReadFault::Memory)
}

/// Checks a record as far as it can be read.
fn check_read<R: BufRead>(alloc: Global, reader: &mut R) -> Result<Outcome, ReadFault>
    ensures { IsChecked (R.remaining reader.old) result }
{
    let Some(opening) = Entries::open(alloc, reader)? else {
        return Ok(Outcome::Empty);
    };
    let head = opening.head;
    let judge = Judge::new(alloc, head.order, head.shape, &opening.image)?;
    check_entries(alloc, reader, opening.entries, judge)
}

/// Checks a record line by line, as it is read: it takes memory for one line, for blocks, clients and the messages that
/// wait. It says whether each entry is permitted, or which is the first that is not and what it breaks, or which line
/// cannot be read and why; and it gives the judge of the entries that are permitted. `Memory` where memory is refused,
/// `File` where the record cannot be read to its end.
pub fn check<R: BufRead>(alloc: Global, reader: &mut R) -> Result<Outcome, CheckFault>
    ensures { IfOk result (λ outcome. IfSome (R.remaining reader.old) (λ text. IsOutcome text outcome)) }
{
    match check_read(alloc, reader) {
        Ok(outcome) => Ok(outcome),
        Err(ReadFault::Unreadable(line, cause)) => Ok(Outcome::Unreadable(line, cause)),
        Err(ReadFault::Memory) => Err(CheckFault::Memory),
        Err(ReadFault::File) => Err(CheckFault::File),
    }
}
