//! What records have reached, and ways into situations.

use crate::names::{REACHED, Reached, WAYS};
use std::io::Write;
use std::{fs, io};
use tlcheck_coverage::{Fault, Number, Tallies, Way, cover, tell_fault, tell_tables, tell_way};

/// Counts the events of a file's record, the one at a place. It answers why it is not counted to its end, if it is not.
fn count(
    rt: &HostRuntime,
    file: &str,
    tallies: &mut Tallies,
    place: usize,
) -> io::Result<Option<Fault>> {
    let record = fs::read(rt, file)?;
    let mut rest = record.as_slice();
    Ok(cover(rt.alloc(), &mut rest, tallies, place).err())
}

/// Counts the events of the records of a row, and keeps their names. It answers the status of the first that is not
/// counted to its end, if there is one, and tells why.
fn count_all(
    rt: &HostRuntime,
    row: &Reached,
    tallies: &mut Tallies,
    names: &mut Vec<String>,
    faults: &mut Vec<u8>,
) -> io::Result<Option<u8>> {
    for (place, (name, file)) in row.records.iter().enumerate() {
        if let Some(fault) = count(rt, file, tallies, place)? {
            return Ok(Some(tell_fault(rt.alloc(), name, fault, faults)));
        }
        names.push(String::from_str(rt.alloc(), name)?)?;
    }
    Ok(None)
}

/// Tells what the records of a row have reached, or why they have no tables, and answers the status.
fn tell(rt: &HostRuntime, row: &Reached, output: &mut Vec<u8>) -> io::Result<u8> {
    let alloc = rt.alloc();
    let mut tallies = if row.by_home {
        Tallies::by_home(alloc)
    } else {
        Tallies::new(alloc)
    };
    let (mut names, mut faults) = (Vec::new(alloc), Vec::new(alloc));
    let refused = count_all(rt, row, &mut tallies, &mut names, &mut faults)?;
    let status = match refused {
        Some(status) => status,
        None => tell_tables(alloc, &tallies, &names, row.form, output, &mut faults),
    };
    output.extend_from_slice(&faults)?;
    Ok(status)
}

/// Prints whether a row's file has what is told of its records, and the status.
fn print_reached(rt: &HostRuntime, row: &Reached) -> io::Result<()> {
    let wanted = fs::read(rt, row.file)?;
    let mut output = Vec::new(rt.alloc());
    let status = tell(rt, row, &mut output)?;
    let said = if output.as_slice() == wanted.as_slice() {
        "as before"
    } else {
        "otherwise"
    };
    println!(rt; "{} told {said}: {status}", row.file)
}

/// Prints the way into the situation of a number, and the status; or that a word is no number.
fn print_way(rt: &HostRuntime, word: &str, way: Way) -> io::Result<()> {
    let Some(number) = Number::parse(word) else {
        return println!(rt; "`{word}`: no number");
    };
    let (mut output, mut faults) = (Vec::new(rt.alloc()), Vec::new(rt.alloc()));
    let status = tell_way(rt.alloc(), number, way, &mut output, &mut faults);
    println!(rt; "{word}: {status}")?;
    rt.stdout().write_all(&output)?;
    rt.stdout().write_all(&faults)
}

/// Prints what is told of records and of situations. The error is a file's or standard output's.
pub fn print_rows(rt: &HostRuntime) -> io::Result<()> {
    for row in REACHED {
        print_reached(rt, row)?;
    }
    for (word, way) in WAYS {
        print_way(rt, word, *way)?;
    }
    Ok(())
}
