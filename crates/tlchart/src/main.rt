//! `tlchart FILE`: the sequence chart of a script's trace, or a page that walks through it or through a record. `-`
//! stands for standard input.
#![tactic(auto)]

mod command_line;
mod fault;

use command_line::{Output, Request};
use fault::{Fault, show};
use std::fs::File;
use std::process::ExitCode;
use tl_streams::{ProgramFault, read_whole, words, write_whole};
use tlchart_draw::title_of;
use tlchart_page::{draw_script, page_script};
use tlchart_record::page_record;

/// The bytes of the file that is asked for.
fn bytes(rt: &HostRuntime, file: &str) -> Result<Vec<u8>, Fault> {
    if file == "-" {
        return Ok(read_whole(rt.alloc(), &mut rt.reader())?);
    }
    match File::open(rt, file) {
        Ok(mut file) => Ok(read_whole(rt.alloc(), &mut file)?),
        Err(_) => Err(Fault::Program(ProgramFault::File)),
    }
}

/// What is asked for, as text.
fn text(rt: &HostRuntime, asked: &Request) -> Result<String, Fault> {
    let bytes = bytes(rt, &asked.file)?;
    let title = title_of(&asked.file);
    match asked.output {
        Output::Picture(form, block) => Ok(draw_script(rt.alloc(), &bytes, title, form, block)?),
        Output::Page => Ok(page_script(rt.alloc(), &bytes, title)?),
        Output::RecordPage => match page_record(rt.alloc(), &bytes, title) {
            Ok(page) => Ok(page),
            Err(ending) => Err(Fault::Record(ending)),
        },
    }
}

/// What the words after the program's name ask for.
fn asked(rt: &HostRuntime) -> Result<Request, Fault> {
    Ok(Request::parse(rt.alloc(), &words(rt)?)?)
}

/// Writes what is asked for.
fn write_asked(rt: &HostRuntime) -> Result<(), Fault> {
    let text = text(rt, &asked(rt)?)?;
    match write_whole(&mut rt.stdout(), text.as_bytes()) {
        Ok(()) => Ok(()),
        Err(_) => Err(Fault::Program(ProgramFault::File)),
    }
}

fn main(rt: HostRuntime) -> ExitCode {
    let status = match write_asked(&rt) {
        Ok(()) => 0,
        Err(fault) => show(&mut rt.stderr(), &fault),
    };
    ExitCode::from(status)
}
