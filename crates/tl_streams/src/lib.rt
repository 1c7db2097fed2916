//! What the programs read and write: the words of a command line, a file whole, the whole text or a prefix of it, the
//! line of a fault, and how far long work is.
#![tactic(auto)]

mod command_line;
mod fault;
mod progress;
mod reading;
mod writing;

pub use command_line::{WordsError, words};
pub use fault::ProgramFault;
pub use progress::{Progress, Watched, Watcher};
pub use reading::{Bounded, FILE_BYTES, LINE_BYTES, ReadError, read_at_most, read_whole};
pub use writing::{CLOSED, Piped, tell, write_whole};
