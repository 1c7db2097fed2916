//! A way of a set, which has room for one block.

/// A way, by the number of its set and its own number in that set.
#[derive(Clone, Copy, Debug, PartialEq, Eq)]
pub struct WayOfSet {
    pub set: u32,
    pub way: u32,
}
