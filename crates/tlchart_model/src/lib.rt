//! What a sequence chart draws: what was done in each row, each message from the row that sent it to the row that took
//! it, and where clients gained and lost permissions to a block. It knows neither traces nor records.
#![tactic(auto)]

mod arrow;
mod change;
mod chart;
mod lifeline;
mod message;
mod turn;

pub use arrow::Arrow;
pub use change::Change;
pub use chart::{Chart, chart_of_turns};
pub use lifeline::{Lifeline, Place};
pub use message::{ShownMessage, link_message};
pub use turn::{Mark, Turn};
