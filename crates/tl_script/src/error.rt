//! Why a script could not be read.

ghost use Rattle.std.specs.Prelude.{◌≡◌};
ghost use Rattle.tl_script.specs.ScriptError.{script_error_status};
ghost use Rattle.tl_script.specs.declared.error.ScriptError.TheVariants.{Memory};

use crate::key::Key;
use std::alloc::{AllocError, AllocFailed};
use std::fmt;
use thiserror::Error;
use tl_map::GeometryError;
use tl_streams::ProgramFault;

/// Why a script could not be read: the first thing that is wrong with it, or want of memory. It prints as the one
/// fault line.
#[derive(Clone, Copy, Debug, PartialEq, Eq, Error)]
pub enum ScriptError {
    /// The bytes are no UTF-8, or no TOML.
    NotToml,
    /// The value of this key is absent, of another shape, or outside its range.
    Missing(Key),
    /// The numbers make no geometry.
    Geometry(GeometryError),
    /// The command of this client at this index is outside the grammar, or its bytes do not lie in the memory and in
    /// one block.
    Command(usize, usize),
    /// More lists of commands than clients, or more than 4,096 commands of a client or steps.
    TooMany,
    /// This step is outside the grammar.
    Step(usize),
    /// A request for memory was refused.
    Memory,
}

impl fmt::Display for ScriptError {
    ghost use Rattle.std.specs.Prelude.{Some};
    ghost use Rattle.tl_script.specs.ScriptError.{script_error_text};

    ghost output = { λ e. Some (script_error_text e) };

    fn fmt<W: fmt::Write>(&self, f: &mut fmt::Formatter<W>) -> fmt::Result {
        match *self {
            ScriptError::NotToml => write!(f, "error 30 not toml"),
            ScriptError::Missing(key) => write!(f, "error 31 missing {key}"),
            ScriptError::Geometry(cause) => write!(f, "error 32 geometry {cause}"),
            ScriptError::Command(client, index) => write!(f, "error 33 command {client} {index}"),
            ScriptError::TooMany => write!(f, "error 34 too many"),
            ScriptError::Step(index) => write!(f, "error 35 step {index}"),
            ScriptError::Memory => write!(f, "{}", ProgramFault::Memory),
        }
    }
}

impl From<AllocError> for ScriptError {
    ghost from_gives = { λ _ e. e ≡ Memory };

    fn from(_error: AllocError) -> ScriptError {
        ScriptError::Memory
    }
}

impl<T: Drop> From<AllocFailed<T>> for ScriptError {
    ghost from_gives = { λ _ e. e ≡ Memory };

    fn from(_error: AllocFailed<T>) -> ScriptError {
        ScriptError::Memory
    }
}

impl ScriptError {
    /// The status of a program that ends so: 1 for a script that is refused, and that of want of memory.
    pub fn status(self) -> u8
        ensures { result ≡ script_error_status self }
    {
        match self {
            ScriptError::Memory => ProgramFault::Memory.status(),
            _ => 1,
        }
    }
}
