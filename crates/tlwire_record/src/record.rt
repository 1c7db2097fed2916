//! A whole record of messages.
ghost use Rattle.std.specs.Prelude.{◌≡◌, IfOk};
ghost use Rattle.std.specs.Borrow.{Bor};
ghost use Rattle.tl_script_words.specs.Words.{texts};
ghost use Rattle.tlwire_record.specs.Read.{IsAfter, IsRead, ending_of};
ghost use Rattle.tlwire_record.specs.Reading.{lines_of};

use crate::messages::Messages;
use crate::stage::{Stage, take_line};
use std::alloc::{AllocError, Global};
use tlcheck_record::{Cause, LineError};

/// Why a text is no record of messages.
#[derive(Clone, Copy, PartialEq, Eq)]
pub enum ReadFault {
    /// On this line, from 1 on, this is wrong.
    Line(u64, Cause),
    /// There is no shape, or neither image nor message.
    Empty,
    /// A request for memory was refused.
    Memory,
}

/// The lines of a text, without their line feeds. The error is want of memory.
pub fn split_lines(alloc: Global, text: &[u8]) -> Result<Vec<&[u8]>, AllocError>
    ensures { IfOk result (λ lines. texts lines.items ≡ lines_of text.now) }
{
    text.split(|byte| *byte == b'\n').collect(alloc)
}

/// What is said at the end of a text.
fn ending(stage: Stage) -> Result<Messages, ReadFault>
    ensures { result ≡ ending_of stage }
{
    match stage {
        Stage::Going(messages) => Ok(messages),
        Stage::Fresh | Stage::Titled | Stage::Shaped(_) => Err(ReadFault::Empty),
    }
}

/// Where the lines of a record lead.
fn take_lines(alloc: Global, lines: &[&[u8]]) -> Result<Stage, ReadFault>
    ensures { IsAfter (texts lines.now) result }
{
    let mut stage = Stage::Fresh;
    let mut number: u64 = 0;
    for line in lines {
        number += 1;
        match take_line(alloc, &mut stage, number, line) {
            Ok(()) => {}
            Err(LineError::Wrong(cause)) => return Err(ReadFault::Line(number, cause)),
            Err(LineError::Memory) => return Err(ReadFault::Memory),
        }
    }
    Ok(stage)
}

/// What the lines of a record have seen. `Line`, with its number from 1 on and what is wrong, at the first that is
/// outside the format; `Empty` where there is no shape, or neither image nor message; `Memory` where memory is refused.
pub fn read(alloc: Global, lines: &[&[u8]]) -> Result<Messages, ReadFault>
    ensures { IsRead (texts lines.now) result }
{
    ending(take_lines(alloc, lines)?)
}
