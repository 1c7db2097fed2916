//! What a step of a trace answers.

ghost use Rattle.std.specs.Prelude.{Some};
ghost use Rattle.tl_text.specs.Answer.{coded_text, answer_text};

use crate::memory::{BlockSize, MemoryMessage, Operands};
use std::fmt;
use tl_bank_spec::Refusal;
use tl_script_words::{Carried, Hex};
use tl_types::{AccessBytes, BlockNo, Body, Kind, Ticket, code};

/// What a step answered. It prints as the rest of the step's line, after its index.
#[derive(Debug, Drop)]
pub enum Answer {
    /// A message to or from a client about this block was sent. The block is not printed.
    Sent {
        ticket: Ticket,
        block: BlockNo,
        body: Body,
    },
    /// Home asked something of the memory, or the memory answered it, about a block of this size.
    Memory {
        size: BlockSize,
        message: MemoryMessage,
    },
    /// Home dropped its clean copy of a block.
    Dropped,
    /// A load got these bytes.
    Loaded(AccessBytes),
    /// The step did what it names, and there is nothing more to say.
    Done,
    /// The bank refused the step, and nothing changed.
    Refused(Refusal),
}

// A kind with its opcode and its parameter in front.
#[derive(Clone, Copy)]
struct Coded(Kind);

impl fmt::Display for Coded {
    ghost output = { λ c. Some (coded_text c.0) };

    fn fmt<W: fmt::Write>(&self, f: &mut fmt::Formatter<W>) -> fmt::Result {
        let (opcode, param) = code(self.0);
        write!(f, "{opcode}.{param} {}", self.0)
    }
}

impl fmt::Display for Answer {
    ghost output = { λ a. Some (answer_text a) };

    fn fmt<W: fmt::Write>(&self, f: &mut fmt::Formatter<W>) -> fmt::Result {
        match self {
            Answer::Sent {
                ticket,
                block: _,
                body,
            } => {
                write!(
                    f,
                    "sent {ticket} {}{}",
                    Coded(body.kind()),
                    Carried(body.bytes())
                )
            }
            Answer::Memory { size, message } => {
                write!(
                    f,
                    "memory {} {size}{}",
                    Coded(message.kind()),
                    Operands(message)
                )
            }
            Answer::Dropped => f.write_str("drop"),
            Answer::Loaded(bytes) => write!(f, "data {}", Hex(bytes.as_slice())),
            Answer::Done => f.write_str("ok"),
            Answer::Refused(refusal) => write!(f, "refused {refusal}"),
        }
    }
}
