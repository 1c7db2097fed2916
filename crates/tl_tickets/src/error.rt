//! How the calls of this crate fail.
use tl_types::Ticket;

/// The inbox was full, and the ticket comes back.
#[derive(Debug, Clone, Copy, PartialEq, Eq)]
pub struct Full(pub Ticket);

/// Not each pass, not each seat, or not each share, was there once.
#[derive(Debug, Clone, Copy, PartialEq, Eq)]
pub struct Missing;
