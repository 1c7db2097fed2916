//! What stops the program, and how it is told.
ghost use Rattle.std.specs.Prelude.{◌≡◌};
ghost use Rattle.tlchart.specs.declared.fault.Fault.TheVariants as its;
ghost use Rattle.tlchart.specs.Fault.{fault_of_read, fault_of_words, status_of};

use std::fmt;
use std::io::Write;
use tl_streams::{ProgramFault, ReadError, WordsError, tell};
use tlchart_page::DrawError;
use tlcheck_reader::Ending;

/// What stops the program. It prints as the one fault line.
#[derive(Drop)]
pub(crate) enum Fault {
    /// The words were refused, the file could not be read or the picture not written, or a request for memory was
    /// refused outside the drawing.
    Program(ProgramFault),
    /// The script is not drawn.
    Draw(DrawError),
    /// The record cannot be read as one.
    Record(Ending),
}

impl fmt::Display for Fault {
    ghost use Rattle.std.specs.Prelude.{Some};
    ghost use Rattle.tlchart.specs.Fault.{fault_text};

    ghost output = { λ fault. Some (fault_text fault) };

    fn fmt<W: fmt::Write>(&self, f: &mut fmt::Formatter<W>) -> fmt::Result {
        match self {
            Fault::Program(fault) => write!(f, "{fault}"),
            Fault::Draw(error) => write!(f, "{error}"),
            Fault::Record(ending) => write!(f, "{ending}"),
        }
    }
}

impl From<WordsError> for Fault {
    ghost from_gives = { λ error fault. fault ≡ fault_of_words error };

    fn from(error: WordsError) -> Fault {
        Fault::Program(ProgramFault::from(error))
    }
}

impl From<ReadError> for Fault {
    ghost from_gives = { λ error fault. fault ≡ fault_of_read error };

    fn from(error: ReadError) -> Fault {
        Fault::Program(ProgramFault::from(error))
    }
}

impl From<DrawError> for Fault {
    ghost from_gives = { λ error fault. fault ≡ its.Draw error };

    fn from(error: DrawError) -> Fault {
        Fault::Draw(error)
    }
}

impl Fault {
    /// The status that the program ends with: as `tlcache` has them, 6 for too many steps, and of a record as `tlcheck`
    /// has them.
    pub(crate) fn status(&self) -> u8
        ensures { result ≡ status_of self.now }
    {
        match self {
            Fault::Program(fault) => fault.status(),
            Fault::Draw(DrawError::Memory) => ProgramFault::Memory.status(),
            Fault::Draw(DrawError::Script(error)) => error.status(),
            Fault::Draw(DrawError::TooMany(_)) => 6,
            Fault::Record(ending) => ending.status(),
        }
    }
}

/// Tells a fault, as far as `faults` takes it, and answers its status.
pub(crate) fn show<E: Write>(faults: &mut E, fault: &Fault) -> u8
    ensures { result ≡ status_of fault.now }
{
    let _ = tell(faults, fault);
    fault.status()
}
