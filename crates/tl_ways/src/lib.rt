//! The ways of the cache: which block lies where, whom home records with which permission, which way is taken next, and
//! the bytes of each way.
#![tactic(auto)]

mod entry;
mod row;
mod store;
mod way;
mod ways;

pub use entry::Entry;
pub use store::BankedStore;
pub use way::Way;
pub use ways::Ways;
