//! `tlwire [--progress] [--run | --chart] FILE`: whether a run explains what a monitor on the links saw, or where it
//! broke, as a chart; `-` stands for standard input. The options stand in any order.
#![tactic(auto)]

mod command_line;

use command_line::{Output, Request};
use std::fs::File;
use std::io::{IsTerminal, Read};
use std::process::ExitCode;
use tl_streams::{Piped, Progress, Watched, WordsError, read_whole, words};
use tlchart_draw::title_of;
use tlwire_answer::{Ending, judge_lines, show, tell_ending};
use tlwire_chart::tell_chart;
use tlwire_record::split_lines;

fn refuse(rt: &HostRuntime, ending: Ending) -> u8 {
    show(&mut rt.stderr(), &ending)
}

/// Whether it is told how far the work is: where that is asked for, or where faults go to a terminal.
fn is_told(rt: &HostRuntime, asked: &Request) -> bool {
    asked.is_progress_told || rt.stderr().is_terminal()
}

/// All that a reader has, of so many bytes where they are known. It tells how far that is.
fn read_told<R: Read + Drop>(
    rt: &HostRuntime,
    reader: R,
    size: Option<u64>,
) -> Result<Vec<u8>, Ending> {
    let progress = Progress::begin(rt.stderr(), rt, rt.stderr().is_terminal(), size);
    let mut reader = Watched::new(reader, progress);
    let bytes = read_whole(rt.alloc(), &mut reader);
    if let Some(progress) = reader.into_watcher() {
        progress.end();
    }
    Ok(bytes?)
}

/// All that a reader has.
fn read_from<R: Read + Drop>(
    rt: &HostRuntime,
    asked: &Request,
    mut reader: R,
    size: Option<u64>,
) -> Result<Vec<u8>, Ending> {
    if is_told(rt, asked) {
        return read_told(rt, reader, size);
    }
    Ok(read_whole(rt.alloc(), &mut reader)?)
}

/// How many bytes a file has, where it says that it has some.
fn size_of(file: &File) -> Option<u64> {
    match file.metadata() {
        Ok(known) if known.len() > 0 => Some(known.len()),
        _ => None,
    }
}

/// The bytes of a file.
fn bytes(rt: &HostRuntime, asked: &Request) -> Result<Vec<u8>, Ending> {
    if asked.file.as_str() == "-" {
        return read_from(rt, asked, rt.reader(), None);
    }
    match File::open(rt, asked.file.as_str()) {
        Ok(file) => {
            let size = size_of(&file);
            read_from(rt, asked, file, size)
        }
        Err(_) => Err(Ending::File),
    }
}

/// What the answer to a record of these lines ends with. It tells how far closed sets are, as of the record's lines.
fn judge_told(rt: &HostRuntime, lines: &[&[u8]]) -> Ending {
    let whole = Some(lines.len() as u64);
    let mut progress = Progress::begin(rt.stderr(), rt, rt.stderr().is_terminal(), whole);
    let ending = judge_lines(rt.alloc(), lines, &mut progress);
    if let Some(progress) = progress {
        progress.end();
    }
    ending
}

/// Tells what the answer to a record of these lines ends with, as it is asked for.
fn tell(rt: &HostRuntime, asked: &Request, lines: &[&[u8]], ending: &Ending) -> u8 {
    let (mut output, mut faults) = (Piped::new(rt.stdout()), rt.stderr());
    let status = match asked.output {
        Output::Answer(form) => {
            tell_ending(rt.alloc(), form, lines, ending, &mut output, &mut faults)
        }
        Output::Chart => {
            let title = title_of(&asked.file);
            tell_chart(rt.alloc(), title, lines, ending, &mut output, &mut faults)
        }
    };
    output.status(status)
}

/// The answer to a record of these lines.
fn answer_lines(rt: &HostRuntime, asked: &Request, lines: &[&[u8]]) -> u8 {
    let ending = if is_told(rt, asked) {
        judge_told(rt, lines)
    } else {
        judge_lines(rt.alloc(), lines, &mut ())
    };
    tell(rt, asked, lines, &ending)
}

/// The answer to what a file has.
fn answer_text(rt: &HostRuntime, asked: &Request, text: &[u8]) -> u8 {
    match split_lines(rt.alloc(), text) {
        Ok(lines) => answer_lines(rt, asked, &lines),
        Err(_) => refuse(rt, Ending::Memory),
    }
}

/// What the words after the program's name ask for.
fn asked(rt: &HostRuntime) -> Result<Request, WordsError> {
    Request::parse(rt.alloc(), &words(rt)?)
}

fn status(rt: &HostRuntime) -> u8 {
    let asked = match asked(rt) {
        Ok(asked) => asked,
        Err(error) => return refuse(rt, Ending::from(error)),
    };
    match bytes(rt, &asked) {
        Ok(text) => answer_text(rt, &asked, &text),
        Err(ending) => refuse(rt, ending),
    }
}

fn main(rt: HostRuntime) -> ExitCode {
    ExitCode::from(status(&rt))
}
