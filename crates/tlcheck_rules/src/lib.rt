//! Judges a record of events: is each permitted after the ones before it, and if not, which rule does the first one
//! break.
#![tactic(auto)]

mod difference;
mod entry;
mod judge;
mod keeps;
mod order;
mod rule;
mod sent;

pub use difference::{Difference, Name, other_message};
pub use entry::{Entry, Shown};
pub use judge::{Breach, Judge, Refusal, every_record};
pub use keeps::{broken_rule, broken_rule_on};
pub use order::ChannelOrder;
pub use rule::{Rule, client_of, rules_of};
pub use sent::{sent_by, taken_channel};
