//! What stops a job, and the status that the program ends with.
ghost use Rattle.std.specs.Prelude.{◌≡◌};
ghost use Rattle.tl_runner.specs.declared.fault.Fault.TheVariants as its;
ghost use Rattle.tl_runner.specs.Fault.{fault_of_job, fault_of_read};
ghost use Rattle.tl_streams.specs.declared.fault.ProgramFault.TheVariants as program;

use crate::asked::JobError;
use std::alloc::AllocError;
use std::fmt;
use thiserror::Error;
use tl_runner_report::RunError;
use tl_script::ScriptError;
use tl_streams::{ProgramFault, ReadError};

/// What stops a job. It prints as the one fault line.
#[derive(Debug, Drop, Error)]
pub enum Fault {
    /// The words were refused, the file could not be read or the output not written, or a request for memory was
    /// refused outside the script's reading and its run.
    Program(ProgramFault),
    /// The script was refused, or could not be read for want of memory.
    Script(ScriptError),
    /// The run gave no report.
    Run(RunError),
}

impl fmt::Display for Fault {
    ghost use Rattle.std.specs.Prelude.{Some};
    ghost use Rattle.tl_runner.specs.Fault.{fault_text};

    ghost output = { λ fault. Some (fault_text fault) };

    fn fmt<W: fmt::Write>(&self, f: &mut fmt::Formatter<W>) -> fmt::Result {
        match self {
            Fault::Program(fault) => write!(f, "{fault}"),
            Fault::Script(error) => write!(f, "{error}"),
            Fault::Run(error) => write!(f, "{error}"),
        }
    }
}

impl From<JobError> for Fault {
    ghost from_gives = { λ error fault. fault ≡ fault_of_job error };

    fn from(error: JobError) -> Fault {
        Fault::Program(ProgramFault::from(error))
    }
}

impl From<ReadError> for Fault {
    ghost from_gives = { λ error fault. fault ≡ fault_of_read error };

    fn from(error: ReadError) -> Fault {
        Fault::Program(ProgramFault::from(error))
    }
}

impl From<ScriptError> for Fault {
    ghost from_gives = { λ error fault. fault ≡ its.Script error };

    fn from(error: ScriptError) -> Fault {
        Fault::Script(error)
    }
}

impl From<RunError> for Fault {
    ghost from_gives = { λ error fault. fault ≡ its.Run error };

    fn from(error: RunError) -> Fault {
        Fault::Run(error)
    }
}

impl From<AllocError> for Fault {
    ghost from_gives = { λ _ fault. fault ≡ its.Program program.Memory };

    fn from(_error: AllocError) -> Fault {
        Fault::Program(ProgramFault::Memory)
    }
}

impl Fault {
    ghost use Rattle.tl_runner.specs.Fault.{status_of};

    /// The status that the program ends with.
    pub fn status(&self) -> u8
        ensures { result ≡ status_of self.now }
    {
        match self {
            Fault::Program(fault) => fault.status(),
            Fault::Script(error) => error.status(),
            Fault::Run(RunError::Memory) => ProgramFault::Memory.status(),
            Fault::Run(_) => 3,
        }
    }
}
