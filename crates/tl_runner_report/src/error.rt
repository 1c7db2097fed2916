//! Why a run gave no report.
ghost use Rattle.std.specs.Prelude.{◌≡◌};
ghost use Rattle.tl_runner_report.specs.declared.error.RunError.TheVariants.{Memory as OutOfMemory};

use std::alloc::{AllocError, AllocFailed};
use std::fmt;
use thiserror::Error;
use tl_streams::ProgramFault;

/// Why a run gave no report. It prints as the one fault line.
#[derive(Debug, Drop, Error)]
pub enum RunError {
    /// A thread made the script's turns before it ended. A script of no command can meet this too.
    Stalled(u32),
    /// A request for memory was refused.
    Memory,
    /// The accesses of the banks have no order in which they carry out the script.
    NotOrdered,
    /// The shares are not those of the banks, one for each client.
    Shares,
}

impl fmt::Display for RunError {
    ghost use Rattle.std.specs.Prelude.{Some};
    ghost use Rattle.tl_runner_report.specs.RunError.{run_error_text};

    ghost output = { λ e. Some (run_error_text e) };

    fn fmt<W: fmt::Write>(&self, f: &mut fmt::Formatter<W>) -> fmt::Result {
        match self {
            RunError::Stalled(turns) => write!(f, "error 40 stalled {turns}"),
            RunError::Memory => write!(f, "{}", ProgramFault::Memory),
            RunError::NotOrdered => write!(f, "error 42 not ordered"),
            RunError::Shares => write!(f, "error 43 shares"),
        }
    }
}

impl From<AllocError> for RunError {
    ghost from_gives = { λ _ e. e ≡ OutOfMemory };

    fn from(_error: AllocError) -> RunError {
        RunError::Memory
    }
}

impl<T: Drop> From<AllocFailed<T>> for RunError {
    ghost from_gives = { λ _ e. e ≡ OutOfMemory };

    fn from(_error: AllocFailed<T>) -> RunError {
        RunError::Memory
    }
}
