//! The chart of the last entries of a block, up to the one that is not permitted; and what an entry of a record did.
#![tactic(auto)]

mod entries;
mod picture;
mod reply;
mod rows;
mod serials;
mod start;
mod turns;

pub use picture::picture_of_ending;
pub use reply::tell_chart;
pub use rows::strip_of;
pub use serials::Serials;
pub use turns::turn_of;
