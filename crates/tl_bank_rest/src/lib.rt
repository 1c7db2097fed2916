//! A bank is never stuck, and comes to rest: what moves it on where it is not quiet, until it is.
#![tactic(auto)]

mod away;
mod calls;
mod image;
mod next;
mod receive;
mod receiving;
mod shares;

pub use away::flush;
pub use image::image_of;
pub use next::next_call;
pub use receive::drain;
pub use receiving::Receiving;
