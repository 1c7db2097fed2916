//! Why a ticket names no message that can be looked at or taken now.

/// Why a ticket does not name the first message that waits on its channel.
#[derive(Clone, Copy, Debug, PartialEq, Eq)]
pub enum TicketError {
    /// No message waits on the channel.
    NothingThere,
    /// The first message that waits has another serial.
    NotHead,
}
