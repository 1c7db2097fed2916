//! Checks the text of a record, entry by entry.
#![tactic(auto)]

mod ending;
mod entries;
mod outcome;
mod record;
mod verdict;

pub use ending::{Ending, lines, show};
pub use entries::{Entries, Opening, ReadFault};
pub use outcome::{BrokenEntry, Outcome, broken};
pub use record::{CheckFault, check};
pub use verdict::{answer, check_record, tell_ending};
