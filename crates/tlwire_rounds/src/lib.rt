//! Explains what a monitor on the links saw by a second search: in rounds, by looks ahead in each block.
#![tactic(auto)]

mod ahead;
mod answer;
mod lines;
mod rounds;
mod stand;
mod steps;
mod tries;

pub use answer::explain_in_rounds;
