//! The answer to a record of messages: a run that explains it, that no lawful run is seen so, or the first line that no
//! attempt reached.
#![tactic(auto)]

mod advice;
mod ending;
mod named;
mod order;
mod pins;
mod reply;
mod run;
mod sets;
mod verdict;
mod waits;

pub use advice::Advice;
pub use ending::{Ending, Form, show, text_of};
pub use order::Order;
pub use reply::{answer, judge_lines, tell_ending};
pub use verdict::{Undecided, Verdict};
pub use waits::Unmet;
