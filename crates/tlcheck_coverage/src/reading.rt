//! A record, read entry by entry, its events counted.
ghost use Rattle.std.specs.Prelude.{◌≡◌, ◌<◌, ℕ, List, [], Option, IfErr, IfOk, IfSome, length, min};
ghost use Rattle.tlcheck_rules.specs.Judged.{Follows};
ghost use Rattle.tlcheck_record.specs.declared.header.Head.{Head};
ghost use Rattle.tlcheck_reader.specs.Entries.{IsAmong};
ghost use Rattle.tlcheck_coverage.specs.Covered.{IsCovered};
ghost use Rattle.tlcheck_coverage.specs.Faults.{IsFaultOf, IsNoRefusal, fault_of};
ghost use Rattle.tlcheck_coverage.specs.Tallies.{Opens, TalliesState};
ghost use Rattle.tlcheck_coverage.specs.declared.reading.Fault.TheVariants as fault;
ghost use Rattle.tlcheck_coverage.specs.declared.tallies.TheConstants.{MOST};

use crate::tallies::Tallies;
use std::alloc::{AllocError, Global};
use std::io::BufRead;
use tlcheck_home::Mark;
use tlcheck_reader::{Entries, Outcome, ReadFault, broken};
use tlcheck_rules::{Judge, Refusal};
use tlcheck_situations::TableError;

/// Why a record is not counted to its end.
#[derive(Drop)]
pub enum Fault {
    /// It is not lawful, or cannot be read as a record.
    Refused(Outcome),
    /// A request for memory was refused.
    Memory,
    /// The file could not be read to its end.
    File,
    /// The search for all situations has missed one, or noted a way that does not lead into its situation.
    NotSearched,
}

impl From<ReadFault> for Fault {
    ghost from_gives = { λ error why. why ≡ fault_of error };

    fn from(error: ReadFault) -> Fault {
        match error {
            ReadFault::Unreadable(line, cause) => Fault::Refused(Outcome::Unreadable(line, cause)),
            ReadFault::Memory => Fault::Memory,
            ReadFault::File => Fault::File,
        }
    }
}

impl From<TableError> for Fault {
    ghost from_gives = { λ error why. IsNoRefusal why };

    fn from(error: TableError) -> Fault {
        match error {
            TableError::Memory => Fault::Memory,
            TableError::NotClosed | TableError::NotReached => Fault::NotSearched,
        }
    }
}

impl From<AllocError> for Fault {
    ghost from_gives = { λ error why. why ≡ fault.Memory };

    fn from(_error: AllocError) -> Fault {
        Fault::Memory
    }
}

/// Judges the entries of a record, with a judge at reset, and counts them over the tally at a place.
fn cover_entries<R: BufRead>(
    alloc: Global,
    reader: &mut R,
    tallies: &mut Tallies,
    place: usize,
    file: usize,
    mut entries: Entries,
    mut judge: Judge,
) -> Result<u64, Fault>
    requires { place < length tallies.old.tallies }
    ensures covered { (known : Option (List ℕ)) (head : Head) (image : List ℕ) (initial : TalliesState)
        → IsAmong known (R.remaining reader.old) entries head image [] → Follows head.order head.shape image [] judge
        → 0 < head.shape.clients → Opens (min head.shape.clients MOST) place initial tallies.old
        → IfOk result (λ count. IfSome known (λ text. IsCovered file text count initial tallies.new)) }
    ensures refused { (known : Option (List ℕ)) (head : Head) (image : List ℕ)
        → IsAmong known (R.remaining reader.old) entries head image [] → Follows head.order head.shape image [] judge
        → IfErr result (λ fault. IfSome known (λ text. IsFaultOf text fault)) }
{
    for count in 0..u64::MAX {
        let Some(entry) = entries.next(alloc, reader)? else {
            return Ok(count);
        };
        let mark = Mark {
            file,
            line: entries.number(),
        };
        match tallies.see(place, &mut judge, &entry, mark) {
            Ok(()) => {}
            Err(Refusal::Memory) => return Err(Fault::Memory),
            Err(Refusal::Broken(breach)) => {
                let stopped = broken(judge, &entry, count + 1, breach);
                return Err(Fault::Refused(Outcome::Broken(mark.line, stopped)));
            }
        }
    }
    Err(Fault::Memory)
}

/// Counts the events of a record, line by line, and answers how many there are. `file` is the record's place among
/// those that are counted. The first entry that is not permitted, or that cannot be read, ends it (`Refused`); what was
/// counted before stays. `Memory` where memory is refused, `File` where the record cannot be read to its end,
/// `NotSearched` where the search for all situations has missed one, or noted a way that does not lead into its
/// situation.
pub fn cover<R: BufRead>(
    alloc: Global,
    reader: &mut R,
    tallies: &mut Tallies,
    file: usize,
) -> Result<u64, Fault>
    ensures covered { IfOk result
        (λ count. IfSome (R.remaining reader.old) (λ text. IsCovered file text count tallies.old tallies.new)) }
    ensures refused { IfErr result
        (λ fault. IfSome (R.remaining reader.old) (λ text. IsFaultOf text fault)) }
{
    let Some(opening) = Entries::open(alloc, reader)? else {
        return Err(Fault::Refused(Outcome::Empty));
    };
    let head = opening.head;
    let place = tallies.place_for(alloc, head.shape.clients)?;
    let judge = Judge::new(alloc, head.order, head.shape, &opening.image)?;
    cover_entries(alloc, reader, tallies, place, file, opening.entries, judge)
}
