//! A judge of events beside a bench: entries in plain numbers, a verdict at once, and after a fault that same fault.
#![tactic(auto)]

mod bench;
mod entry;
mod history;
mod kinds;
mod number;
mod room;
mod verdict;

pub use bench::Bench;
pub use entry::BenchEntry;
pub use history::every_judging;
pub use kinds::kind_shown;
pub use number::perm_number;
pub use room::{JudgeNumbers, JudgeRoom, opened, see, shape_of, shape_refusal};
pub use verdict::{Verdict, breach_told};
