//! - `tlcheck [--progress] [--chart] FILE`: whether a record of events is a lawful run, or where it broke, as a chart;
//!   `-` stands for standard input.
//! - `tlcheck --coverage [--home] [--html] FILE ..`: which situations of the protocol records have reached, and with
//!   `--home` which of them this project's home reaches.
//! - `tlcheck --how N`: a run that reaches situation N; `tlcheck --how --script N`: a script for `tlcache trace` that
//!   does.
//!
//! The options stand in any order.
#![tactic(auto)]

mod chart;
mod command_line;
mod coverage;

use chart::draw;
use command_line::{Judged, Output, Request};
use coverage::{tell_coverage, tell_how};
use std::fs::File;
use std::io::{BufReader, IsTerminal, Read, Write};
use std::process::ExitCode;
use std::time::Clock;
use tl_streams::{Bounded, Piped, Progress, Watched, WordsError, words};
use tlcheck_reader::{Ending, check_record, show, tell_ending};

pub(crate) fn refuse(rt: &HostRuntime, ending: Ending) -> u8 {
    show(&mut rt.stderr(), &ending)
}

/// Checks what a reader has as it is read, and tells the verdict.
fn judge<R: Read + Drop, W: Write + Drop, C: Clock + Drop>(
    rt: &HostRuntime,
    reader: Watched<R, Option<Progress<W, C>>>,
) -> u8 {
    match BufReader::with_capacity(rt.alloc(), 65_536, Bounded::new(reader)) {
        Ok(mut reader) => {
            let ending = check_record(rt.alloc(), &mut reader);
            if let Some(progress) = reader.into_inner().into_inner().into_watcher() {
                progress.end();
            }
            let mut output = Piped::new(rt.stdout());
            let status = tell_ending(rt.alloc(), &ending, &mut output, &mut rt.stderr());
            output.status(status)
        }
        Err(_) => refuse(rt, Ending::Memory),
    }
}

/// Judges what a reader has, of so many bytes where they are known, and tells how far that is where it is asked for, or
/// where faults go to a terminal.
fn judge_read<R: Read + Drop>(
    rt: &HostRuntime,
    asked: &Judged,
    reader: R,
    size: Option<u64>,
) -> u8 {
    let is_terminal = rt.stderr().is_terminal();
    let progress = if asked.is_progress_told || is_terminal {
        Progress::begin(rt.stderr(), rt, is_terminal, size)
    } else {
        None
    };
    let reader = Watched::new(reader, progress);
    match asked.output {
        Output::Verdict => judge(rt, reader),
        Output::Chart => draw(rt, &asked.file, reader),
    }
}

/// How many bytes a file has, where it says that it has some.
fn size_of(file: &File) -> Option<u64> {
    match file.metadata() {
        Ok(known) if known.len() > 0 => Some(known.len()),
        _ => None,
    }
}

/// Judges a file.
fn judge_file(rt: &HostRuntime, asked: &Judged) -> u8 {
    if asked.file.as_str() == "-" {
        return judge_read(rt, asked, rt.reader(), None);
    }
    match File::open(rt, asked.file.as_str()) {
        Ok(file) => {
            let size = size_of(&file);
            judge_read(rt, asked, file, size)
        }
        Err(_) => refuse(rt, Ending::File),
    }
}

/// Does what the words of the command line ask for.
fn carry_out(rt: &HostRuntime, request: &Request) -> u8 {
    match request {
        Request::Judge(asked) => judge_file(rt, asked),
        Request::Cover(form, by_home, names) => tell_coverage(rt, *form, *by_home, names),
        Request::Reach(way, number) => tell_how(rt, *way, number.as_str()),
    }
}

/// What the words after the program's name ask for.
fn asked(rt: &HostRuntime) -> Result<Request, WordsError> {
    Request::parse(rt.alloc(), &words(rt)?)
}

fn main(rt: HostRuntime) -> ExitCode {
    ExitCode::from(match asked(&rt) {
        Ok(request) => carry_out(&rt, &request),
        Err(error) => refuse(&rt, Ending::from(error)),
    })
}
