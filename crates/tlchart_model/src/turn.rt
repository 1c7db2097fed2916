//! What a row of a chart is about.

use crate::lifeline::{Lifeline, Place};
use crate::message::ShownMessage;
use tl_types::{AccessBytes, BlockNo};

/// What is marked on the lifeline of a row that neither sent nor took a message.
#[derive(Debug, Drop)]
pub enum Mark {
    /// The client read these bytes.
    Loaded(AccessBytes),
    /// The client wrote these bytes.
    Stored(AccessBytes),
    /// Home dropped its clean copy of a block.
    Dropped,
    /// Home began to give up its copy of this block.
    Evicting(BlockNo),
    /// The step was refused, for the reason with this number.
    Refused(u8),
    /// The entry of a record is not permitted.
    Unlawful,
    /// The line of a record is the one that broke: these words say by what.
    Broken(String),
}

/// What a row did: who made it, the message that it sent, the place of the message that it took, and its mark.
#[derive(Debug, Drop)]
pub struct Turn {
    pub at: Lifeline,
    pub sends: Option<ShownMessage>,
    pub takes: Option<Place>,
    pub mark: Option<Mark>,
}
