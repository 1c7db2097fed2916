//! What an inbox carries, and what its passes know.
use std::collections::LinkedList;
use tl_types::Ticket;

/// A ticket, with the number of the pass that put it.
#[derive(Debug, Clone, Copy, PartialEq, Eq)]
pub struct Sent {
    pub sender: usize,
    pub ticket: Ticket,
}

// What one sender put, in order, and how many senders the inbox has. No value of it is made.
pub struct Put {
    pub sender: usize,
    pub among: usize,
    pub tickets: LinkedList<Ticket>,
}

// What a pass knows: what some senders put, and, of the pass that takes, what it took, how many senders there are, how
// many of them have their passes, and how many tickets at least wait behind the one that it took last. No value of it
// is made.
pub struct Known {
    pub takes: bool,
    pub made: usize,
    pub given: usize,
    pub behind: usize,
    pub taken: LinkedList<Sent>,
    pub puts: LinkedList<Put>,
}
