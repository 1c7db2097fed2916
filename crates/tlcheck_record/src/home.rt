//! Home's part of a block, in lines.
ghost use Rattle.std.specs.Prelude.{Some};
ghost use Rattle.std.specs.Option.{option_copied};
ghost use Rattle.tlcheck_record.specs.State.{head_line, home_copy_text, home_line, outward_text, served_text};

use std::fmt;
use tl_rules::{Accepted, Line, Outward};
use tl_script_words::Hex;

// How many clients have a copy, of how many home records one, and whether anything is under way.
#[derive(Clone, Copy)]
pub(crate) struct HeadLine {
    pub(crate) block: u32,
    pub(crate) held: usize,
    pub(crate) recorded: usize,
    pub(crate) quiet: bool,
}

impl fmt::Display for HeadLine {
    ghost output = { λ x. Some (head_line x.block x.held x.recorded x.quiet) };

    fn fmt<W: fmt::Write>(&self, f: &mut fmt::Formatter<W>) -> fmt::Result {
        let head = *self;
        if head.quiet {
            write!(
                f,
                "block {}: {} held, {} recorded, quiet\n",
                head.block, head.held, head.recorded
            )
        } else {
            write!(
                f,
                "block {}: {} held, {} recorded, not quiet\n",
                head.block, head.held, head.recorded
            )
        }
    }
}

// Home's copy.
#[derive(Clone, Copy)]
struct HomeCopy<'a>(Option<&'a Line>);

impl fmt::Display for HomeCopy<'_> {
    ghost output = { λ x. Some (home_copy_text (option_copied x.0)) };

    fn fmt<W: fmt::Write>(&self, f: &mut fmt::Formatter<W>) -> fmt::Result {
        match self.0 {
            None => f.write_str("no copy"),
            Some(line) => {
                if line.dirty {
                    write!(f, "dirty {}", Hex(line.bytes.as_slice()))
                } else {
                    write!(f, "clean {}", Hex(line.bytes.as_slice()))
                }
            }
        }
    }
}

// The Acquire that home serves.
#[derive(Clone, Copy)]
struct Served(Option<Accepted>);

impl fmt::Display for Served {
    ghost output = { λ x. Some (served_text x.0) };

    fn fmt<W: fmt::Write>(&self, f: &mut fmt::Formatter<W>) -> fmt::Result {
        match self.0 {
            None => Ok(()),
            Some(acquire) => write!(f, ", serves client {} {}", acquire.client, acquire.grow),
        }
    }
}

// What passes between home and the memory.
#[derive(Clone, Copy)]
struct Passing<'a>(&'a Outward);

impl fmt::Display for Passing<'_> {
    ghost output = { λ x. Some (outward_text x.0.now) };

    fn fmt<W: fmt::Write>(&self, f: &mut fmt::Formatter<W>) -> fmt::Result {
        match self.0 {
            Outward::Quiet => Ok(()),
            Outward::Get => f.write_str(", to the memory Get"),
            Outward::Data(bytes) => {
                write!(
                    f,
                    ", from the memory AccessAckData {}",
                    Hex(bytes.as_slice())
                )
            }
            Outward::Put(bytes) => {
                write!(f, ", to the memory PutFullData {}", Hex(bytes.as_slice()))
            }
            Outward::PutAck => f.write_str(", from the memory AccessAck"),
        }
    }
}

// Home's line.
#[derive(Clone, Copy)]
pub(crate) struct HomeLine<'a> {
    pub(crate) home: Option<&'a Line>,
    pub(crate) accepted: Option<Accepted>,
    pub(crate) outward: &'a Outward,
}

impl fmt::Display for HomeLine<'_> {
    ghost output = { λ x. Some (home_line (option_copied x.home) x.accepted x.outward.now) };

    fn fmt<W: fmt::Write>(&self, f: &mut fmt::Formatter<W>) -> fmt::Result {
        write!(
            f,
            "home: {}{}{}\n",
            HomeCopy(self.home),
            Served(self.accepted),
            Passing(self.outward)
        )
    }
}
