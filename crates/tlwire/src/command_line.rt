//! The command line: `tlwire [--progress] [--run | --chart] FILE`, the options in any order.

use clap::{Arg, ArgAction, ArgMatches, Command};
use std::alloc::{AllocError, Global};
use tl_streams::WordsError;
use tlwire_answer::Form;

/// The options, none of which takes a value.
const OPTIONS: &[&str] = &["progress", "run", "chart"];

/// How what was said of a record is written.
#[derive(Clone, Copy)]
pub(crate) enum Output {
    /// As an answer, with a run that was found in a form.
    Answer(Form),
    /// As the chart of the last lines of the block of the line that is impossible.
    Chart,
}

/// What the words of the command line ask for.
#[derive(Drop)]
pub(crate) struct Request {
    /// The file's name, or `-` for standard input.
    pub(crate) file: String,
    pub(crate) output: Output,
    /// Whether it is told how far the work is.
    pub(crate) is_progress_told: bool,
}

/// The words that the program takes.
fn command<'a>(alloc: Global) -> Result<Command<'a>, AllocError> {
    let mut command = Command::new(alloc, "tlwire").no_binary_name(true);
    for name in OPTIONS {
        let option = Arg::new(alloc, name).long(name);
        command = command.arg(option.action(ArgAction::SetTrue))?;
    }
    let file = Arg::new(alloc, "file").required(true);
    command.arg(file.action(ArgAction::Set))
}

/// How the answer is written: as a run or as a chart, not both.
fn output_of(matches: &ArgMatches<'_>) -> Result<Output, WordsError> {
    match (matches.get_flag("run"), matches.get_flag("chart")) {
        (false, false) => Ok(Output::Answer(Form::Summary)),
        (true, false) => Ok(Output::Answer(Form::Run)),
        (false, true) => Ok(Output::Chart),
        (true, true) => Err(WordsError::Usage),
    }
}

impl Request {
    /// What the words after the program's name ask for. `Usage` where they are not so, `Memory` where memory is
    /// refused.
    pub(crate) fn parse(alloc: Global, words: &[String]) -> Result<Request, WordsError> {
        let matches = command(alloc)?.try_get_matches_from(words)?;
        let output = output_of(&matches)?;
        let file = matches.get_str("file").ok_or(WordsError::Usage)?;
        Ok(Request {
            file: String::from_str(alloc, file)?,
            output,
            is_progress_told: matches.get_flag("progress"),
        })
    }
}
