//! The check of a record, and what is written of it.
ghost use Rattle.std.specs.Prelude.{◌≡◌};
ghost use Rattle.tlcheck_reader.specs.Ending.{IsTold, MayEnd, Tells, status_of};
ghost use Rattle.tlcheck_reader.specs.declared.ending.Ending.{Ending};

use crate::ending::{Ending, lines, show};
use crate::record::{CheckFault, check};
use std::alloc::Global;
use std::io::{BufRead, Write};
use tl_streams::write_whole;

/// What a check of a record ends with.
pub fn check_record<R: BufRead>(alloc: Global, reader: &mut R) -> Ending
    ensures { MayEnd (R.remaining reader.old) result }
{
    match check(alloc, reader) {
        Ok(outcome) => Ending::Judged(outcome),
        Err(CheckFault::Memory) => Ending::Memory,
        Err(CheckFault::File) => Ending::File,
    }
}

/// Writes what a check of a record ends with: a verdict, and the state beside it, to `output`, a fault to `faults`. It
/// answers the status: 0 where the record is lawful, 1 where it is not, 3 where it cannot be read as one, 4 for want of
/// memory, 5 where the file could not be read or the verdict not written. A failing `faults` does not change it.
pub fn tell_ending<W: Write, E: Write>(
    alloc: Global,
    ending: &Ending,
    output: &mut W,
    faults: &mut E,
) -> u8
    ensures { (told : Ending)
        × Tells ending.now told
        × (result ≡ status_of told)
        × IsTold result told (W.contents output.old) (W.contents output.new) (E.contents faults.old)
        (E.contents faults.new) }
{
    let status = ending.status();
    if status > 1 {
        return show(faults, ending);
    }
    match lines(alloc, ending) {
        Ok(text) => match write_whole(output, text.as_bytes()) {
            Ok(()) => status,
            Err(_) => show(faults, &Ending::File),
        },
        Err(_) => show(faults, &Ending::Memory),
    }
}

/// Checks a record, and writes what it is, as `tell_ending` does. It answers the status.
pub fn answer<R: BufRead, W: Write, E: Write>(
    alloc: Global,
    reader: &mut R,
    output: &mut W,
    faults: &mut E,
) -> u8
    ensures { (ending : Ending)
        × MayEnd (R.remaining reader.old) ending
        × (result ≡ status_of ending)
        × IsTold result ending (W.contents output.old) (W.contents output.new) (E.contents faults.old)
        (E.contents faults.new) }
{
    let ending = check_record(alloc, reader);
    tell_ending(alloc, &ending, output, faults)
}
