//! The protocol's rules as a program, for one block and for all of them: which event may come next and what it leaves;
//! the order of several banks' accesses; and the theorem on every run. `tl_protocol` defines the events, their log, and
//! what contracts cite.
#![tactic(auto)]

mod block;
mod merge;
mod plain;
mod theorem;

pub use block::BlockState;
pub use merge::{certify, certify_events};
pub use plain::{ApplyError, Plain, may_follow};
pub use theorem::every_order;
pub use tl_protocol::{
    Accepted, Access, CachedCopy, Client, Event, Line, Log, Outward, Shape, every_run, some_run,
};
