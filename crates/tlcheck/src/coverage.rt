//! What records have reached, and a run that reaches a situation.

use std::fs::File;
use std::io::{BufReader, Read};
use tl_streams::{Bounded, Piped};
use tlcheck_coverage::{
    Fault, Form, Number, Tallies, Way, cover, tell_fault, tell_tables, tell_way,
};
use tlcheck_reader::{Ending, show};

/// Counts the events of what a reader has.
fn count_read<R: Read + Drop>(
    rt: &HostRuntime,
    reader: R,
    tallies: &mut Tallies,
    place: usize,
) -> Result<(), Fault> {
    match BufReader::with_capacity(rt.alloc(), 65_536, Bounded::new(reader)) {
        Ok(mut reader) => {
            cover(rt.alloc(), &mut reader, tallies, place)?;
            Ok(())
        }
        Err(_) => Err(Fault::Memory),
    }
}

/// Counts the events of a file, or of standard input where its name is `-`.
fn count(rt: &HostRuntime, name: &str, tallies: &mut Tallies, place: usize) -> Result<(), Fault> {
    if name == "-" {
        return count_read(rt, rt.reader(), tallies, place);
    }
    match File::open(rt, name) {
        Ok(file) => count_read(rt, file, tallies, place),
        Err(_) => Err(Fault::File),
    }
}

/// Counts the events of files, and tells what they have reached.
pub(crate) fn tell_coverage(rt: &HostRuntime, form: Form, by_home: bool, names: &[String]) -> u8 {
    let mut tallies = if by_home {
        Tallies::by_home(rt.alloc())
    } else {
        Tallies::new(rt.alloc())
    };
    for (place, name) in names.iter().enumerate() {
        if let Err(fault) = count(rt, name.as_str(), &mut tallies, place) {
            return tell_fault(rt.alloc(), name.as_str(), fault, &mut rt.stderr());
        }
    }
    let mut output = Piped::new(rt.stdout());
    let status = tell_tables(
        rt.alloc(),
        &tallies,
        names,
        form,
        &mut output,
        &mut rt.stderr(),
    );
    output.status(status)
}

/// Tells a way into a situation.
pub(crate) fn tell_how(rt: &HostRuntime, way: Way, word: &str) -> u8 {
    let Some(number) = Number::parse(word) else {
        return show(&mut rt.stderr(), &Ending::Usage);
    };
    let mut output = Piped::new(rt.stdout());
    let status = tell_way(rt.alloc(), number, way, &mut output, &mut rt.stderr());
    output.status(status)
}
