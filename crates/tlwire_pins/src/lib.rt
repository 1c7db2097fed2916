//! Proves of a record of messages that no lawful run was seen so at a client's pins.
#![tactic(auto)]

mod full;
mod judge;
mod order;
mod pass;
mod replay;
mod tap;
mod theorem;
mod view;
mod views;

pub use full::in_full;
pub use judge::PinsJudge;
pub use order::keeps_order;
pub use pass::{Wrong, first_wrong};
pub use replay::lines_at_pins;
pub use tap::{cores_of, tap_of};
pub use theorem::every_line_may_be_seen;
pub use view::{Cores, Tap, View};
pub use views::Broken;
