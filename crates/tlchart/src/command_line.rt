//! The command line: `tlchart [--mermaid] [--block NUM] FILE`, or `tlchart --html [--record] FILE`, the options in any
//! order.

use clap::{Arg, ArgAction, ArgMatches, Command};
use std::alloc::{AllocError, Global};
use tl_script_words::parse_number;
use tl_streams::WordsError;
use tl_types::BlockNo;
use tlchart_draw::Form;

/// The options that take no value.
const FLAGS: &[&str] = &["mermaid", "html", "record"];

/// What is made of a file.
#[derive(Clone, Copy)]
pub(crate) enum Output {
    /// A picture in a form, with bands of a block.
    Picture(Form, Option<BlockNo>),
    /// A page that walks through the trace of a script.
    Page,
    /// A page that walks through a record.
    RecordPage,
}

/// What the words of the command line ask for.
#[derive(Drop)]
pub(crate) struct Request {
    pub(crate) file: String,
    pub(crate) output: Output,
}

/// The words that the program takes.
fn command<'a>(alloc: Global) -> Result<Command<'a>, AllocError> {
    let mut command = Command::new(alloc, "tlchart").no_binary_name(true);
    for name in FLAGS {
        let flag = Arg::new(alloc, name).long(name);
        command = command.arg(flag.action(ArgAction::SetTrue))?;
    }
    let block = Arg::new(alloc, "block").long("block");
    let file = Arg::new(alloc, "file").required(true);
    command
        .arg(block.action(ArgAction::Set))?
        .arg(file.action(ArgAction::Set))
}

/// The block that is asked for, if one is.
fn block_of(matches: &ArgMatches<'_>) -> Result<Option<BlockNo>, WordsError> {
    match matches.get_str("block") {
        None => Ok(None),
        Some(text) => match parse_number(text) {
            Some(number) => Ok(Some(BlockNo::new(number))),
            None => Err(WordsError::Usage),
        },
    }
}

/// The form that is asked for.
fn form_of(matches: &ArgMatches<'_>) -> Form {
    if matches.get_flag("mermaid") {
        Form::Mermaid
    } else {
        Form::Svg
    }
}

/// What is asked for: a page has no form and no block, and a record no picture.
fn output_of(matches: &ArgMatches<'_>) -> Result<Output, WordsError> {
    let form = form_of(matches);
    let block = block_of(matches)?;
    match (
        matches.get_flag("html"),
        matches.get_flag("record"),
        form,
        block,
    ) {
        (false, false, form, block) => Ok(Output::Picture(form, block)),
        (true, false, Form::Svg, None) => Ok(Output::Page),
        (true, true, Form::Svg, None) => Ok(Output::RecordPage),
        _ => Err(WordsError::Usage),
    }
}

impl Request {
    /// What the words after the program's name ask for. `Usage` where they are not so, `Memory` where memory is
    /// refused.
    pub(crate) fn parse(alloc: Global, words: &[String]) -> Result<Request, WordsError> {
        let matches = command(alloc)?.try_get_matches_from(words)?;
        let output = output_of(&matches)?;
        let file = matches.get_str("file").ok_or(WordsError::Usage)?;
        Ok(Request {
            file: String::from_str(alloc, file)?,
            output,
        })
    }
}
