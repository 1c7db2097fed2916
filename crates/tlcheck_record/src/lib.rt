//! The text of a record: a line for the geometry, one for the image, and one for each event; and what is said of it:
//! why an entry is not permitted, and the state of a block.
#![tactic(auto)]

mod cause;
mod client;
mod cut;
mod entries;
mod header;
mod home;
mod message_name;
mod reason;
mod shown;
mod state;
mod words;
mod written;

pub use cause::{Cause, LineError};
pub use client::{Held, Waits};
pub use cut::{cut_at, few_words};
pub use entries::read_entry;
pub use header::{Head, read_head, read_image_line};
pub use message_name::MessageName;
pub use reason::{Breaks, Place, Reason, Source};
pub use state::{push_end, push_state};
pub use words::{is_blank, read_access, read_block_bytes, read_image, read_number, read_text};
pub use written::{EntryLine, EventLine, lines_are_read_back};
