//! The words of what a bank shows.
ghost use Rattle.std.specs.Prelude.{Some};
ghost use Rattle.std.specs.Option.{option_map};
ghost use Rattle.tlchart_page.specs.Words.{bytes_text, copy_text, due_text, line_text, outward_text, slot_text, task_text, tip_letter, line_letter, wait_text, waiting_text, words_text};

use std::fmt;
use tl_protocol::{CachedCopy, Line, Outward};
use tl_registers::{Due, Task};
use tl_script_words::Hex;
use tl_types::{Awaited, BlockBytes, BlockNo, Kind, Message, Ticket};

/// A client's copy.
#[derive(Clone, Copy)]
pub(crate) struct Held<'a>(pub(crate) Option<&'a CachedCopy>);

impl fmt::Display for Held<'_> {
    ghost output = { λ x. Some (copy_text (option_map (λ c. c.now) x.0)) };

    fn fmt<W: fmt::Write>(&self, f: &mut fmt::Formatter<W>) -> fmt::Result {
        match self.0 {
            Some(CachedCopy::Absent) => f.write_str("N"),
            Some(CachedCopy::Readable(bytes)) => write!(f, "B{}", Hex(bytes.as_slice())),
            Some(CachedCopy::Writable(bytes, dirty)) => {
                write!(f, "{}{}", Tip(*dirty), Hex(bytes.as_slice()))
            }
            None => Ok(()),
        }
    }
}

// Whether a copy at Tip is dirty, as a letter.
#[derive(Clone, Copy)]
struct Tip(bool);

impl fmt::Display for Tip {
    ghost output = { λ x. Some (tip_letter x.0) };

    fn fmt<W: fmt::Write>(&self, f: &mut fmt::Formatter<W>) -> fmt::Result {
        f.write_str(if self.0 { "D" } else { "T" })
    }
}

/// The answer that a client waits for.
#[derive(Clone, Copy)]
pub(crate) struct Waits(pub(crate) Option<Awaited>);

impl fmt::Display for Waits {
    ghost output = { λ x. Some (wait_text x.0) };

    fn fmt<W: fmt::Write>(&self, f: &mut fmt::Formatter<W>) -> fmt::Result {
        match self.0 {
            Some(Awaited::Nothing) => f.write_str("-"),
            Some(Awaited::ForGrant) => f.write_str("G"),
            Some(Awaited::ForReleaseAck) => f.write_str("R"),
            None => Ok(()),
        }
    }
}

/// Home's copy.
#[derive(Clone, Copy)]
pub(crate) struct AtHome<'a>(pub(crate) Option<&'a Line>);

impl fmt::Display for AtHome<'_> {
    ghost output = { λ x. Some (line_text (option_map (λ l. l.now) x.0)) };

    fn fmt<W: fmt::Write>(&self, f: &mut fmt::Formatter<W>) -> fmt::Result {
        match self.0 {
            Some(line) => write!(f, "{}{}", Flag(line.dirty), Hex(line.bytes.as_slice())),
            None => f.write_str("-"),
        }
    }
}

// Whether home's copy is dirty, as a letter.
#[derive(Clone, Copy)]
struct Flag(bool);

impl fmt::Display for Flag {
    ghost output = { λ x. Some (line_letter x.0) };

    fn fmt<W: fmt::Write>(&self, f: &mut fmt::Formatter<W>) -> fmt::Result {
        f.write_str(if self.0 { "D" } else { "C" })
    }
}

/// What passes between home and the memory.
#[derive(Clone, Copy)]
pub(crate) struct Passing<'a>(pub(crate) Option<&'a Outward>);

impl fmt::Display for Passing<'_> {
    ghost output = { λ x. Some (outward_text (option_map (λ o. o.now) x.0)) };

    fn fmt<W: fmt::Write>(&self, f: &mut fmt::Formatter<W>) -> fmt::Result {
        match self.0 {
            Some(Outward::Quiet) | None => f.write_str("-"),
            Some(Outward::Get) => f.write_str("G"),
            Some(Outward::Data(bytes)) => write!(f, "A{}", Hex(bytes.as_slice())),
            Some(Outward::Put(bytes)) => write!(f, "P{}", Hex(bytes.as_slice())),
            Some(Outward::PutAck) => f.write_str("K"),
        }
    }
}

/// Bytes, where there are some.
#[derive(Clone, Copy)]
pub(crate) struct Bytes<'a>(pub(crate) Option<&'a BlockBytes>);

impl fmt::Display for Bytes<'_> {
    ghost output = { λ x. Some (bytes_text (option_map (λ b. b.now) x.0)) };

    fn fmt<W: fmt::Write>(&self, f: &mut fmt::Formatter<W>) -> fmt::Result {
        match self.0 {
            Some(bytes) => write!(f, "{}", Hex(bytes.as_slice())),
            None => Ok(()),
        }
    }
}

// What a message is about and what it is, with its bytes.
#[derive(Clone, Copy)]
struct Words<'a> {
    block: BlockNo,
    kind: Kind,
    bytes: Option<&'a BlockBytes>,
}

impl fmt::Display for Words<'_> {
    ghost output = { λ x. Some (words_text x.block x.kind (option_map (λ b. b.now) x.bytes)) };

    fn fmt<W: fmt::Write>(&self, f: &mut fmt::Formatter<W>) -> fmt::Result {
        write!(f, "{},{},{};", self.block, self.kind, Bytes(self.bytes))
    }
}

/// A message that waits.
#[derive(Clone, Copy)]
pub(crate) struct Waiting<'a>(pub(crate) &'a (Ticket, Message));

impl fmt::Display for Waiting<'_> {
    ghost output = { λ x. Some (waiting_text x.0.now) };

    fn fmt<W: fmt::Write>(&self, f: &mut fmt::Formatter<W>) -> fmt::Result {
        let (ticket, message) = self.0;
        let serial = ticket.serial;
        let words = Words {
            block: message.block,
            kind: message.body.kind(),
            bytes: message.body.bytes(),
        };
        write!(f, "{serial},{words}")
    }
}

/// What a register is open for.
#[derive(Clone, Copy)]
pub(crate) struct Work<'a>(pub(crate) &'a Task);

impl fmt::Display for Work<'_> {
    ghost output = { λ x. Some (task_text x.0.now) };

    fn fmt<W: fmt::Write>(&self, f: &mut fmt::Formatter<W>) -> fmt::Result {
        match self.0 {
            Task::Acquire(acquire) => write!(f, "{},{},-", acquire.client, acquire.grow),
            Task::Replace(acquire, victim) => {
                write!(f, "{},{},{victim}", acquire.client, acquire.grow)
            }
            Task::Evict => f.write_str("-,evict,-"),
        }
    }
}

/// What a register does next.
#[derive(Clone, Copy)]
pub(crate) struct Next(pub(crate) Option<Due>);

impl fmt::Display for Next {
    ghost output = { λ x. Some (due_text x.0) };

    fn fmt<W: fmt::Write>(&self, f: &mut fmt::Formatter<W>) -> fmt::Result {
        match self.0 {
            Some(Due::Probe(client, block, cap)) => write!(f, "probe {client} {block} {cap}"),
            Some(Due::Grant(client)) => write!(f, "grant {client}"),
            Some(Due::Get) => f.write_str("get"),
            Some(Due::Put(block)) => write!(f, "put {block}"),
            Some(Due::Drop(block)) => write!(f, "drop {block}"),
            None => f.write_str("-"),
        }
    }
}

/// A way, with the block that lies in it where one does.
#[derive(Clone, Copy)]
pub(crate) struct Slot(pub(crate) Option<BlockNo>);

impl fmt::Display for Slot {
    ghost output = { λ x. Some (slot_text x.0) };

    fn fmt<W: fmt::Write>(&self, f: &mut fmt::Formatter<W>) -> fmt::Result {
        match self.0 {
            Some(block) => write!(f, "{block},"),
            None => f.write_str("-,"),
        }
    }
}
