//! What every program may end with, and how it is told.
ghost use Rattle.std.specs.Prelude.{◌≡◌};

use crate::command_line::WordsError;
use crate::reading::ReadError;
use std::fmt;

/// What every program may end with. It prints as the one fault line, without the line's end.
#[derive(Clone, Copy, Debug, PartialEq, Eq)]
pub enum ProgramFault {
    /// The words of the command line ask for nothing.
    Usage,
    /// The file could not be read, or the output not written.
    File,
    /// A request for memory was refused.
    Memory,
}

impl fmt::Display for ProgramFault {
    ghost use Rattle.std.specs.Prelude.{Some};
    ghost use Rattle.tl_streams.specs.Fault.{program_fault_text};

    ghost output = { λ fault. Some (program_fault_text fault) };

    fn fmt<W: fmt::Write>(&self, f: &mut fmt::Formatter<W>) -> fmt::Result {
        match self {
            ProgramFault::Usage => f.write_str("error usage"),
            ProgramFault::File => f.write_str("error file"),
            ProgramFault::Memory => f.write_str("error 41 memory"),
        }
    }
}

impl From<WordsError> for ProgramFault {
    ghost use Rattle.tl_streams.specs.Fault.{fault_of_words};

    ghost from_gives = { λ error fault. fault ≡ fault_of_words error };

    fn from(error: WordsError) -> ProgramFault {
        match error {
            WordsError::Usage => ProgramFault::Usage,
            WordsError::Memory => ProgramFault::Memory,
        }
    }
}

impl From<ReadError> for ProgramFault {
    ghost use Rattle.tl_streams.specs.Fault.{fault_of_read};

    ghost from_gives = { λ error fault. fault ≡ fault_of_read error };

    fn from(error: ReadError) -> ProgramFault {
        match error {
            ReadError::Memory => ProgramFault::Memory,
            ReadError::File => ProgramFault::File,
        }
    }
}

impl ProgramFault {
    ghost use Rattle.tl_streams.specs.Fault.{program_fault_status};

    /// The status that the program ends with: 2 for usage, 4 for want of memory, 5 for the file.
    pub fn status(self) -> u8
        ensures { result ≡ program_fault_status self }
    {
        match self {
            ProgramFault::Usage => 2,
            ProgramFault::Memory => 4,
            ProgramFault::File => 5,
        }
    }
}
