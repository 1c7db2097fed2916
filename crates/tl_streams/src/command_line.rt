//! The words of a command line, and why they ask for nothing.
ghost use Rattle.std.specs.Prelude.{◌≡◌, IfErr};
ghost use Rattle.tl_streams.specs.Words.{IsWhyNoWords};
ghost use Rattle.tl_streams.specs.declared.command_line.WordsError.TheVariants.{Memory};

use clap::error::ErrorKind;
use std::alloc::{AllocError, AllocFailed, Global};
use std::env::{Args, Env, args};
use std::io;

/// Why the words of a command line ask for nothing.
#[derive(Clone, Copy, Debug, PartialEq, Eq)]
pub enum WordsError {
    /// The words are refused, or ask for help, or one of them is no UTF-8.
    Usage,
    /// A request for memory was refused.
    Memory,
}

impl From<AllocError> for WordsError {
    ghost from_gives = { λ _ e. e ≡ Memory };

    fn from(_error: AllocError) -> WordsError {
        WordsError::Memory
    }
}

impl<T: Drop> From<AllocFailed<T>> for WordsError {
    ghost from_gives = { λ _ e. e ≡ Memory };

    fn from(_error: AllocFailed<T>) -> WordsError {
        WordsError::Memory
    }
}

impl From<io::Error> for WordsError {
    ghost use Rattle.std.specs.IoError.{error_kind};
    ghost use Rattle.tl_streams.specs.Words.{error_of_system};

    ghost from_gives = { λ error e. e ≡ error_of_system (error_kind error) };

    /// Why the system has no words: want of memory, or a word that is no UTF-8.
    fn from(error: io::Error) -> WordsError {
        if error.kind() == io::ErrorKind::OutOfMemory {
            WordsError::Memory
        } else {
            WordsError::Usage
        }
    }
}

impl From<clap::Error> for WordsError {
    ghost use Rattle.clap.specs.Words.{kind_of};
    ghost use Rattle.tl_streams.specs.Words.{error_of_parse};

    ghost from_gives = { λ error e. e ≡ error_of_parse (kind_of error) };

    /// Why `clap` reads nothing in the words: want of memory, or a refusal.
    fn from(error: clap::Error) -> WordsError {
        match error.kind() {
            ErrorKind::OutOfMemory => WordsError::Memory,
            _ => WordsError::Usage,
        }
    }
}

/// The words after the first, the program's name, of those that the system has. The error is why it has none, or want
/// of memory.
fn words_of(alloc: Global, given: io::Result<Args>) -> Result<Vec<String>, WordsError>
    ensures { IfErr result (IsWhyNoWords given) }
{
    let mut words = Vec::new(alloc);
    for word in given?.skip(1) {
        words.push(word)?;
    }
    Ok(words)
}

/// The words after the program's name. The error is Usage where one is no UTF-8, and else want of memory.
pub fn words<R: Env + AllocGlobal>(rt: &R) -> Result<Vec<String>, WordsError> {
    words_of(rt.alloc(), args(rt))
}
