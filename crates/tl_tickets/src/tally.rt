//! What the seats of a bell know.

// How many seats stand together here, how often they rang, and the most that they have seen. No value of it is made.
pub struct Tally {
    pub parts: u64,
    pub rung: u64,
    pub seen: u64,
}
