//! The text of a record of messages, as a monitor on the links writes it: its grammar, what its ids stand for, and what
//! was seen.
#![tactic(auto)]

mod address;
mod code;
mod cut;
mod expects;
mod fields;
mod header;
mod ignored;
mod left;
mod line;
mod messages;
mod place;
mod premise;
mod record;
mod stage;
mod tables;

pub use code::Role;
pub use expects::Expects;
pub use fields::{Field, Fields};
pub use header::{Setting, Sources};
pub use ignored::Ignored;
pub use left::LeftOut;
pub use line::{Line, Link, Said};
pub use messages::Messages;
pub use premise::Premise;
pub use record::{ReadFault, read, split_lines};
pub use stage::Stage;
pub use tables::{Id, Tables};
