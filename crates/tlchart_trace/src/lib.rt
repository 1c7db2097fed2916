//! The chart of a trace: what each step did.
#![tactic(auto)]

mod chart;
mod lifeline;
mod message;
mod turn;

pub use chart::chart_of;
