//! The command line: `tlcheck [--progress] [--chart] FILE`, `tlcheck --coverage [--home] [--html] FILE ..` or
//! `tlcheck --how [--script] N`, the options in any order.

use clap::{Arg, ArgAction, ArgMatches, Command};
use std::alloc::{AllocError, Global};
use tl_streams::WordsError;
use tlcheck_coverage::{Form, Way};

/// The options, none of which takes a value.
const OPTIONS: &[&str] = &[
    "progress", "chart", "coverage", "home", "html", "how", "script",
];

/// How what was said of a record is written.
#[derive(Clone, Copy)]
pub(crate) enum Output {
    /// As a verdict, with the state beside it.
    Verdict,
    /// As the chart of the last lines of the block of the entry that is not permitted.
    Chart,
}

/// A file to be judged.
#[derive(Drop)]
pub(crate) struct Judged {
    /// The file's name, or `-` for standard input.
    pub(crate) file: String,
    pub(crate) output: Output,
    /// Whether it is told how far the check is.
    pub(crate) is_progress_told: bool,
}

/// What the words of the command line ask for.
#[derive(Drop)]
pub(crate) enum Request {
    /// Whether a file's record is a lawful run.
    Judge(Judged),
    /// What files have reached, in a form, and whether it is told what this project's home reaches.
    Cover(Form, bool, Vec<String>),
    /// A way into the situation of a number.
    Reach(Way, String),
}

/// What is asked for, whatever its own options are.
#[derive(Clone, Copy)]
enum Job {
    Judge,
    Cover,
    Reach,
}

/// The words that the program takes.
fn command<'a>(alloc: Global) -> Result<Command<'a>, AllocError> {
    let mut command = Command::new(alloc, "tlcheck").no_binary_name(true);
    for name in OPTIONS {
        let option = Arg::new(alloc, name).long(name);
        command = command.arg(option.action(ArgAction::SetTrue))?;
    }
    let words = Arg::new(alloc, "words").required(true).num_args(1..);
    command.arg(words.action(ArgAction::Append))
}

/// Whether one of these options is given.
fn is_given(matches: &ArgMatches<'_>, options: &[&str]) -> bool {
    options.iter().any(|option| matches.get_flag(option))
}

/// What is asked for: each job has options of its own. None where they do not go together.
fn job_of(matches: &ArgMatches<'_>) -> Option<Job> {
    let judges = is_given(matches, &["progress", "chart"]);
    let covers = is_given(matches, &["home", "html"]);
    let reaches = is_given(matches, &["script"]);
    match (matches.get_flag("coverage"), matches.get_flag("how")) {
        (false, false) if !covers && !reaches => Some(Job::Judge),
        (true, false) if !judges && !reaches => Some(Job::Cover),
        (false, true) if !judges && !covers => Some(Job::Reach),
        _ => None,
    }
}

/// The one word that is no option.
fn only_word(alloc: Global, matches: &ArgMatches<'_>) -> Result<String, WordsError> {
    match matches.get_strs("words") {
        Some([word]) => Ok(String::from_str(alloc, word)?),
        _ => Err(WordsError::Usage),
    }
}

/// The words that are no options.
fn all_words(alloc: Global, matches: &ArgMatches<'_>) -> Result<Vec<String>, AllocError> {
    let mut words = Vec::new(alloc);
    for word in matches.get_strs("words").unwrap_or(&[]) {
        words.push(String::from_str(alloc, word)?)?;
    }
    Ok(words)
}

fn to_judge(alloc: Global, matches: &ArgMatches<'_>) -> Result<Request, WordsError> {
    Ok(Request::Judge(Judged {
        file: only_word(alloc, matches)?,
        output: if matches.get_flag("chart") {
            Output::Chart
        } else {
            Output::Verdict
        },
        is_progress_told: matches.get_flag("progress"),
    }))
}

fn to_cover(alloc: Global, matches: &ArgMatches<'_>) -> Result<Request, WordsError> {
    let form = if matches.get_flag("html") {
        Form::Page
    } else {
        Form::Text
    };
    let by_home = matches.get_flag("home");
    Ok(Request::Cover(form, by_home, all_words(alloc, matches)?))
}

fn to_reach(alloc: Global, matches: &ArgMatches<'_>) -> Result<Request, WordsError> {
    let way = if matches.get_flag("script") {
        Way::Script
    } else {
        Way::Record
    };
    Ok(Request::Reach(way, only_word(alloc, matches)?))
}

impl Request {
    /// What the words after the program's name ask for. `Usage` where they are not so, `Memory` where memory is
    /// refused.
    pub(crate) fn parse(alloc: Global, words: &[String]) -> Result<Request, WordsError> {
        let matches = command(alloc)?.try_get_matches_from(words)?;
        match job_of(&matches) {
            Some(Job::Judge) => to_judge(alloc, &matches),
            Some(Job::Cover) => to_cover(alloc, &matches),
            Some(Job::Reach) => to_reach(alloc, &matches),
            None => Err(WordsError::Usage),
        }
    }
}
