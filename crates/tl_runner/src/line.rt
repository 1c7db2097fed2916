//! The command line.

ghost use Rattle.std.specs.Prelude.{◌≡◌, false, IfOk, map, string_bytes};
ghost use Rattle.clap.specs.Words.{app_of, subcommand_rows_of};
ghost use Rattle.clap.specs.declared.builder.command.Command.TheViews.{out-Command};
ghost use Rattle.tl_runner.specs.Job.{with_file, tlcache, job_of, asked_of};
ghost use Rattle.tl_streams.specs.declared.command_line.WordsError.TheVariants.{Usage};

use crate::asked::{Job, JobError};
use clap::{Arg, ArgAction, ArgMatches, Command};
use std::alloc::{AllocError, Global};

// A subcommand with one required file.
fn with_file<'a>(alloc: Global, name: &'a str) -> Result<Command<'a>, AllocError>
    ensures app { IfOk result (λ c. app_of c ≡ with_file name.entry.now) }
    ensures local { IfOk result (λ c. (out-Command c).has_globals ≡ false) }
{
    let file = Arg::new(alloc, "file")
        .required(true)
        .action(ArgAction::Set);
    Command::new(alloc, name).arg(file)
}

fn command<'a>(alloc: Global) -> Result<Command<'a>, AllocError>
    ensures { IfOk result (λ c. app_of c ≡ tlcache) }
{
    let run = with_file(alloc, "run")?;
    let trace = with_file(alloc, "trace")?;
    Command::new(alloc, "tlcache")
        .no_binary_name(true)
        .subcommand_required(true)
        .subcommand(run)?
        .subcommand(trace)
}

// The job of the subcommand that was met.
fn chosen(alloc: Global, matches: &ArgMatches<'_>) -> Result<Job, JobError>
    ensures ok { IfOk result (λ j. job_of (subcommand_rows_of matches.now) ≡ Some (j.traces, string_bytes j.file)) }
    ensures usage { result ≡ Err Usage → job_of (subcommand_rows_of matches.now) ≡ None }
{
    match matches.subcommand() {
        None => Err(JobError::Usage),
        Some((name, inner)) => match inner.get_str("file") {
            None => Err(JobError::Usage),
            Some(file) => {
                let traces = name == "trace";
                let file = String::from_str(alloc, file)?;
                Ok(Job { traces, file })
            }
        },
    }
}

/// The job that the words after the program's name ask for. `Usage` only where they ask for none, `Memory` where memory
/// is refused.
pub fn job(alloc: Global, words: &[String]) -> Result<Job, JobError>
    // The job is what `clap` reads of these words.
    ensures ok { IfOk result (λ j. asked_of (map string_bytes words.now) ≡ Some (j.traces, string_bytes j.file)) }
    ensures usage { result ≡ Err Usage → asked_of (map string_bytes words.now) ≡ None }
{
    let command = command(alloc)?;
    let matches = command.try_get_matches_from(words)?;
    chosen(alloc, &matches)
}
