//! A text, written whole where the writer takes it, and output that somebody may stop reading.
ghost use Rattle.std.specs.Prelude.{◌≡◌, ◌++◌, IfSome, OnErr, OnOk, codes, if◌then◌else◌};
ghost use Rattle.std.specs.Io.KnownBytes.{Appends};
ghost use Rattle.tl_streams.specs.Written.{AppendsBeginning};

use arrayvec::ArrayVec;
use std::io::{ErrorKind, Write};
use std::{fmt, io};

/// The bytes of the longest line of a fault, with room.
const LINE: usize = 128;

/// Writes the whole text and flushes, or writes a beginning of it where a write fails. The error is what the writer
/// answered, `WriteZero` where it takes no byte more.
pub fn write_whole<W: Write>(writer: &mut W, text: &[u8]) -> io::Result<()>
    ensures ok { OnOk result (Appends (W.contents writer.old) (W.contents writer.new) text.now) }
    ensures err { OnErr result (AppendsBeginning (W.contents writer.old) (W.contents writer.new) text.now) }
{
    let mut rest = text;
    for _ in 0..u64::MAX {
        if rest.is_empty() {
            return writer.flush();
        }
        match writer.write(rest) {
            Ok(0) => return Err(io::Error::from(ErrorKind::WriteZero)),
            Ok(taken) => rest = &rest[taken..],
            Err(error) => {
                if error.kind() != ErrorKind::Interrupted {
                    return Err(error);
                }
            }
        }
    }
    Err(io::Error::from(ErrorKind::TimedOut))
}

/// Writes the line of a fault, of at most 128 bytes. The error is what the writer answered, after a beginning of the
/// line. The line is made on the stack, since want of memory is one of the faults.
pub fn tell<W: Write, D: fmt::Display>(faults: &mut W, line: &D) -> io::Result<()>
    ensures ok { OnOk result
        (IfSome (D.output line.now)
        (λ text. Appends (W.contents faults.old) (W.contents faults.new) (text ++ codes "\n"))) }
    ensures line { IfSome (D.output line.now)
        (λ text. AppendsBeginning (W.contents faults.old) (W.contents faults.new) (text ++ codes "\n")) }
{
    let mut bytes: ArrayVec<u8, LINE> = ArrayVec::new();
    writeln!(bytes, "{line}")?;
    write_whole(faults, bytes.as_slice())
}

/// The status of a program whose output nobody reads any more: that of a filter which the signal of a closed pipe ends.
pub const CLOSED: u8 = 141;

/// A writer of output that somebody may stop reading, as `head` does. From then on what is written is dropped, which is
/// no fault, and the program's status is `CLOSED`.
#[derive(Drop)]
pub struct Piped<W> {
    writer: W,
    is_closed: bool,
}

impl<W> Piped<W> {
    /// A writer whose reader is there.
    pub fn new(writer: W) -> Piped<W> {
        Piped {
            writer,
            is_closed: false,
        }
    }

    /// The status that the program ends with, where it is this one as long as somebody reads.
    pub fn status(&self, status: u8) -> u8
        ensures { result ≡ (if self.now.is_closed then CLOSED else status) }
    {
        if self.is_closed { CLOSED } else { status }
    }
}

/// Whether a write or a flush found the pipe closed.
fn is_broken<T>(written: &io::Result<T>) -> bool {
    match written {
        Ok(_) => false,
        Err(error) => error.kind() == ErrorKind::BrokenPipe,
    }
}

impl<W: Write> Write for Piped<W> {
    fn write(&mut self, buf: &[u8]) -> io::Result<usize> {
        if self.is_closed {
            return Ok(buf.len());
        }
        let written = self.writer.write(buf);
        if is_broken(&written) {
            self.is_closed = true;
            return Ok(buf.len());
        }
        written
    }

    fn flush(&mut self) -> io::Result<()> {
        if self.is_closed {
            return Ok(());
        }
        let flushed = self.writer.flush();
        if is_broken(&flushed) {
            self.is_closed = true;
            return Ok(());
        }
        flushed
    }
}
