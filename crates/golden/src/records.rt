//! The answers to records.

use crate::names::{EVENTS, MESSAGES};
use std::io::Write;
use std::{fs, io};
use tlwire_answer::Form;

/// What a record is of, and so which program answers.
#[derive(Clone, Copy)]
enum Judged {
    /// Events: `tlcheck`.
    Events,
    /// Messages: `tlwire`.
    Messages,
}

/// Prints a record's name, the status, and what the program writes.
fn print_answer(rt: &HostRuntime, judged: Judged, name: &str, record: &[u8]) -> io::Result<()> {
    let alloc = rt.alloc();
    let (mut output, mut faults) = (Vec::new(alloc), Vec::new(alloc));
    let mut rest = record;
    let status = match judged {
        Judged::Events => tlcheck_reader::answer(alloc, &mut rest, &mut output, &mut faults),
        Judged::Messages => {
            tlwire_answer::answer(alloc, Form::Summary, record, &mut output, &mut faults)
        }
    };
    println!(rt; "{name}: {status}")?;
    rt.stdout().write_all(&output)?;
    rt.stdout().write_all(&faults)
}

/// Prints the answer to each record of a file, of which each follows a line with `=== ` and its name.
fn print_answers(rt: &HostRuntime, judged: Judged, file: &str) -> io::Result<()> {
    let text = fs::read_to_string(rt, file)?;
    for section in text.split("=== ").skip(1) {
        let (name, record) = section.split_once('\n').unwrap_or((section, ""));
        print_answer(rt, judged, name, record.as_bytes())?;
    }
    Ok(())
}

/// Prints the answers to the records of these files, of which each is one.
fn print_files(rt: &HostRuntime, judged: Judged, names: &[&str]) -> io::Result<()> {
    for name in names {
        let record = fs::read(rt, *name)?;
        print_answer(rt, judged, name, &record)?;
    }
    Ok(())
}

/// Prints the status and the answer to each record. The error is a file's or standard output's.
pub fn print_rows(rt: &HostRuntime) -> io::Result<()> {
    print_files(rt, Judged::Messages, MESSAGES)?;
    print_answers(rt, Judged::Messages, "records-of-messages.txt")?;
    print_files(rt, Judged::Events, EVENTS)?;
    print_answers(rt, Judged::Events, "records-of-events.txt")
}
