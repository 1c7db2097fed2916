//! What the program ends with, and how it is told.
ghost use Rattle.std.specs.Prelude.{◌≡◌, ◌++◌, Some, IfOk, OnOk, string_bytes};
ghost use Rattle.tl_streams.specs.Written.{AppendsBeginning};
ghost use Rattle.tlcheck_reader.specs.Ending.{beside, ending_of_read, ending_of_words, ending_line, ending_lines, ending_text, outcome_text, status_of};

use crate::outcome::Outcome;
use std::alloc::{AllocError, Global};
use std::fmt;
use std::io::Write;
use tl_streams::{ProgramFault, ReadError, WordsError, tell};
use tlcheck_record::{Reason, push_end, push_state};

/// What the program ends with. It prints as its first line.
#[derive(Drop)]
pub enum Ending {
    /// The words of the command line are not one file.
    Usage,
    /// What was said of the record.
    Judged(Outcome),
    /// A request for memory was refused.
    Memory,
    /// The file could not be read to its end, or the verdict not written.
    File,
}

// What was said of a record, in a line.
#[derive(Clone, Copy)]
struct OutcomeText<'a>(&'a Outcome);

impl fmt::Display for OutcomeText<'_> {
    ghost output = { λ l. Some (outcome_text l.0.now) };

    fn fmt<W: fmt::Write>(&self, f: &mut fmt::Formatter<W>) -> fmt::Result {
        match self.0 {
            Outcome::Lawful(_, count) => write!(f, "lawful: {count} entries"),
            Outcome::Broken(line, broken) => {
                write!(
                    f,
                    "not lawful: line {line}, entry {}: {}",
                    broken.number,
                    Reason(&broken.breach)
                )
            }
            Outcome::Unreadable(line, cause) => write!(f, "error 50 line {line}: {cause}"),
            Outcome::Empty => f.write_str("error 51 empty"),
        }
    }
}

impl fmt::Display for Ending {
    ghost output = { λ e. Some (ending_text e) };

    fn fmt<W: fmt::Write>(&self, f: &mut fmt::Formatter<W>) -> fmt::Result {
        match self {
            Ending::Usage => write!(f, "{}", ProgramFault::Usage),
            Ending::Judged(outcome) => write!(f, "{}", OutcomeText(outcome)),
            Ending::Memory => write!(f, "{}", ProgramFault::Memory),
            Ending::File => write!(f, "{}", ProgramFault::File),
        }
    }
}

impl From<WordsError> for Ending {
    ghost from_gives = { λ error ending. ending ≡ ending_of_words error };

    fn from(error: WordsError) -> Ending {
        match error {
            WordsError::Usage => Ending::Usage,
            WordsError::Memory => Ending::Memory,
        }
    }
}

impl From<ReadError> for Ending {
    ghost from_gives = { λ error ending. ending ≡ ending_of_read error };

    fn from(error: ReadError) -> Ending {
        match error {
            ReadError::Memory => Ending::Memory,
            ReadError::File => Ending::File,
        }
    }
}

impl Ending {
    /// The status that the program ends with: 0 and 1 are verdicts, the others faults.
    pub fn status(&self) -> u8
        ensures { result ≡ status_of self.now }
    {
        match self {
            Ending::Judged(Outcome::Lawful(_, _)) => 0,
            Ending::Judged(Outcome::Broken(_, _)) => 1,
            Ending::Usage => 2,
            Ending::Judged(Outcome::Unreadable(_, _) | Outcome::Empty) => 3,
            Ending::Memory => 4,
            Ending::File => 5,
        }
    }
}

/// What stands beside a verdict: the state at a record's end, or before the entry that is not permitted.
fn push_beside(text: &mut String, outcome: &Outcome) -> Result<(), AllocError>
    ensures { OnOk result (string_bytes text.new ≡ string_bytes text.old ++ beside outcome.now) }
{
    match outcome {
        Outcome::Lawful(judge, _) => push_end(text, judge.plain()),
        Outcome::Broken(_, broken) => push_state(text, broken.judge.plain(), broken.block),
        Outcome::Unreadable(_, _) | Outcome::Empty => Ok(()),
    }
}

/// The lines of what the program ends with: its first line, and what stands beside it. The error is want of memory.
pub fn lines(alloc: Global, ending: &Ending) -> Result<String, AllocError>
    ensures { IfOk result (λ text. string_bytes text ≡ ending_lines ending.now) }
{
    let mut text = format!(in alloc; "{ending}\n")?;
    if let Ending::Judged(outcome) = ending {
        push_beside(&mut text, outcome)?;
    }
    Ok(text)
}

/// Tells a fault, as far as `faults` takes it, and answers its status.
pub fn show<E: Write>(faults: &mut E, ending: &Ending) -> u8
    ensures status { result ≡ status_of ending.now }
    ensures line { AppendsBeginning (E.contents faults.old) (E.contents faults.new) (ending_line ending.now) }
{
    let _ = tell(faults, ending);
    ending.status()
}
