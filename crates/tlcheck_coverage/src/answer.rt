//! What the program says of records, or of a situation.

use crate::page::push_page;
use crate::reading::Fault;
use crate::script::push_script;
use crate::tallies::{MOST, Tallies};
use crate::text::{push_run, push_tally};
use std::alloc::{AllocError, Global};
use std::io::Write;
use tl_script_words::parse_number;
use tl_streams::{ProgramFault, tell, write_whole};
use tlcheck_home::HomeTable;
use tlcheck_reader::{Ending, Outcome};
use tlcheck_situations::{Situation, Table, TableError};

/// How the tables are told.
#[derive(Clone, Copy, PartialEq, Eq)]
pub enum Form {
    Text,
    Page,
}

/// A situation by its number: that of the clients of its table, and its place there, from 1 on.
#[derive(Clone, Copy, PartialEq, Eq)]
pub struct Number {
    clients: u32,
    place: u32,
}

impl Number {
    /// The number that a word writes, as `2.17`: of one to three clients.
    pub fn parse(word: &str) -> Option<Number> {
        let (clients, place) = word.split_once('.')?;
        let number = Number {
            clients: parse_number(clients)?,
            place: parse_number(place)?,
        };
        if number.clients < 1 || number.clients > MOST || number.place < 1 {
            return None;
        }
        Some(number)
    }
}

/// The status of a fault: 1 for a record that is not lawful, 3 for one that cannot be read, 4 for want of memory or of
/// a table, 5 for the file.
fn status_of(fault: &Fault) -> u8 {
    match fault {
        Fault::Refused(Outcome::Lawful(_, _)) => 0,
        Fault::Refused(Outcome::Broken(_, _)) => 1,
        Fault::Refused(Outcome::Unreadable(_, _) | Outcome::Empty) => 3,
        Fault::Memory | Fault::NotSearched => 4,
        Fault::File => 5,
    }
}

/// The line of a fault.
fn fault_text(alloc: Global, name: &str, fault: Fault) -> Result<String, AllocError> {
    match fault {
        Fault::Refused(outcome) => {
            let ending = Ending::Judged(outcome);
            format!(in alloc; "{name}: {ending}\n")
        }
        Fault::Memory => format!(in alloc; "{}\n", ProgramFault::Memory),
        Fault::File => format!(in alloc; "{name}: {}\n", ProgramFault::File),
        Fault::NotSearched => format!(in alloc; "error 54 situations\n"),
    }
}

/// Writes a text, or the line of a fault where there is none or it cannot be written. It answers the status.
fn write_text<W: Write, E: Write>(
    text: Result<String, AllocError>,
    status: u8,
    output: &mut W,
    faults: &mut E,
) -> u8 {
    let fault = match text {
        Ok(text) => match write_whole(output, text.as_bytes()) {
            Ok(()) => return status,
            Err(_) => ProgramFault::File,
        },
        Err(_) => ProgramFault::Memory,
    };
    let _ = tell(faults, &fault);
    fault.status()
}

/// Tells why a record is not counted to its end, and answers the status.
pub fn tell_fault<E: Write>(alloc: Global, name: &str, fault: Fault, faults: &mut E) -> u8 {
    let status = status_of(&fault);
    match fault_text(alloc, name, fault) {
        Ok(text) => {
            let _ = write_whole(faults, text.as_bytes());
        }
        Err(_) => {
            let _ = tell(faults, &ProgramFault::Memory);
        }
    }
    status
}

fn tables(
    alloc: Global,
    tallies: &Tallies,
    names: &[String],
    form: Form,
) -> Result<String, AllocError> {
    let mut text = String::new(alloc);
    match form {
        Form::Text => {
            for tally in tallies.all() {
                push_tally(&mut text, tally, names)?;
            }
        }
        Form::Page => push_page(alloc, &mut text, tallies, names)?,
    }
    Ok(text)
}

/// Tells the table of each number of clients that was met, and answers the status.
pub fn tell_tables<W: Write, E: Write>(
    alloc: Global,
    tallies: &Tallies,
    names: &[String],
    form: Form,
    output: &mut W,
    faults: &mut E,
) -> u8 {
    write_text(tables(alloc, tallies, names, form), 0, output, faults)
}

/// How a way into a situation is told.
#[derive(Clone, Copy, PartialEq, Eq)]
pub enum Way {
    /// A run, as a record.
    Record,
    /// Moves of clients and of this project's home, as a script for `tlcache trace`.
    Script,
}

/// What is told of a way into a situation.
#[derive(Drop)]
enum Told {
    Text(String),
    NoSituation,
    NotByHome,
}

/// The record of a run that reaches a situation, with the situation as a comment.
fn run_text(
    alloc: Global,
    table: &Table,
    number: Number,
    situation: &Situation,
) -> Result<Told, AllocError> {
    let Some(run) = table.run_to(alloc, situation)? else {
        return Ok(Told::NoSituation);
    };
    let mut text = String::new(alloc);
    push_run(&mut text, number.clients, number.place, situation, &run)?;
    Ok(Told::Text(text))
}

/// The script of moves into a situation, with the situation as a comment.
fn script_text(alloc: Global, number: Number, situation: &Situation) -> Result<Told, TableError> {
    if number.clients < 1 || number.clients > MOST {
        return Ok(Told::NoSituation);
    }
    let table = HomeTable::new(alloc, number.clients)?;
    let Some(moves) = table.moves_into(alloc, situation)? else {
        return Ok(Told::NotByHome);
    };
    let mut text = String::new(alloc);
    push_script(
        alloc,
        &mut text,
        number.clients,
        number.place,
        situation,
        &moves,
    )?;
    Ok(Told::Text(text))
}

/// What is told of a way into the situation of a number.
fn way_text(alloc: Global, number: Number, way: Way) -> Result<Told, TableError> {
    if number.clients < 1 || number.place < 1 {
        return Ok(Told::NoSituation);
    }
    let table = Table::new(alloc, number.clients)?;
    let place = number.place as usize - 1;
    let Some(situation) = table.situations().get(place) else {
        return Ok(Told::NoSituation);
    };
    match way {
        Way::Record => {
            let told = run_text(alloc, &table, number, situation)?;
            Ok(told)
        }
        Way::Script => script_text(alloc, number, situation),
    }
}

/// Tells a way into a situation, and answers the status: 3 where there is no such situation, or no moves of this
/// project's home lead into it.
pub fn tell_way<W: Write, E: Write>(
    alloc: Global,
    number: Number,
    way: Way,
    output: &mut W,
    faults: &mut E,
) -> u8 {
    match way_text(alloc, number, way) {
        Ok(Told::Text(text)) => write_text(Ok(text), 0, output, faults),
        Ok(Told::NoSituation) => {
            let _ = write_whole(faults, b"error 53 no such situation\n");
            3
        }
        Ok(Told::NotByHome) => {
            let _ = write_whole(faults, b"error 55 no run of this home leads there\n");
            3
        }
        Err(TableError::Memory) => tell_fault(alloc, "", Fault::Memory, faults),
        Err(TableError::NotClosed | TableError::NotReached) => {
            tell_fault(alloc, "", Fault::NotSearched, faults)
        }
    }
}
