//! What stops the program, and the status that it ends with.
ghost use Rattle.std.specs.Prelude.{◌≡◌};
ghost use Rattle.tlgen.specs.Status.{status_of};

use std::alloc::{AllocError, AllocFailed};
use std::fmt;
use tl_script::ScriptError;
use tl_streams::{ProgramFault, WordsError};

/// What stops the program. It prints as the one fault line.
#[derive(Clone, Copy, Debug, PartialEq, Eq)]
pub(crate) enum Fault {
    /// The words are no request, the script could not be written, or a request for memory was refused outside its
    /// reading.
    Program(ProgramFault),
    /// What is asked for makes no script.
    Script(ScriptError),
    /// The banks of the trace refused another number of steps than the banks of the generator.
    Refusals,
}

impl fmt::Display for Fault {
    ghost use Rattle.std.specs.Prelude.{Some};
    ghost use Rattle.tlgen.specs.Status.{fault_text};

    ghost output = { λ fault. Some (fault_text fault) };

    fn fmt<W: fmt::Write>(&self, f: &mut fmt::Formatter<W>) -> fmt::Result {
        match self {
            Fault::Program(fault) => write!(f, "{fault}"),
            Fault::Script(error) => write!(f, "{error}"),
            Fault::Refusals => f.write_str("error 61 refusals"),
        }
    }
}

impl From<WordsError> for Fault {
    ghost use Rattle.tlgen.specs.Status.{fault_of_words};

    ghost from_gives = { λ error fault. fault ≡ fault_of_words error };

    fn from(error: WordsError) -> Fault {
        Fault::Program(ProgramFault::from(error))
    }
}

impl From<AllocError> for Fault {
    fn from(_error: AllocError) -> Fault {
        Fault::Program(ProgramFault::Memory)
    }
}

impl<T: Drop> From<AllocFailed<T>> for Fault {
    fn from(_error: AllocFailed<T>) -> Fault {
        Fault::Program(ProgramFault::Memory)
    }
}

impl From<ScriptError> for Fault {
    fn from(error: ScriptError) -> Fault {
        Fault::Script(error)
    }
}

impl Fault {
    /// The status that the program ends with.
    pub(crate) fn status(self) -> u8
        ensures { result ≡ status_of self }
    {
        match self {
            Fault::Program(fault) => fault.status(),
            Fault::Script(error) => error.status(),
            Fault::Refusals => 3,
        }
    }
}
