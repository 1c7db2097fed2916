//! A file, read to its end, and lines of at most so many bytes.
ghost use Rattle.std.specs.Prelude.{◌≡◌, ◌≤◌, IfOk, IfSome, length};

use std::alloc::Global;
use std::io;
use std::io::{ErrorKind, Read};

/// How many bytes a file may have that is read whole: 256 MiB.
pub const FILE_BYTES: usize = 268_435_456;

/// How many bytes a line may have of a file that is read line by line, about: 16 MiB, room for the longest image.
pub const LINE_BYTES: u64 = 16_777_216;

/// Why a file was not read to its end.
#[derive(Clone, Copy, Debug, PartialEq, Eq)]
pub enum ReadError {
    /// A request for memory was refused, or the file has more than `FILE_BYTES`.
    Memory,
    /// The file could not be read.
    File,
}

/// The bytes that the reader has left, all of them. `Memory` where memory is refused, or more than `FILE_BYTES` are
/// left, `File` where a read fails otherwise.
pub fn read_whole<R: Read>(alloc: Global, reader: &mut R) -> Result<Vec<u8>, ReadError>
    ensures bytes { IfOk result (λ bytes. IfSome (R.remaining reader.old) (λ known. bytes.items ≡ known)) }
    ensures limit { IfOk result (λ bytes. length bytes.items ≤ FILE_BYTES) }
{
    read_at_most(alloc, reader, FILE_BYTES)
}

/// The same with another limit.
pub fn read_at_most<R: Read>(
    alloc: Global,
    reader: &mut R,
    most: usize,
) -> Result<Vec<u8>, ReadError>
    ensures bytes { IfOk result (λ bytes. IfSome (R.remaining reader.old) (λ known. bytes.items ≡ known)) }
    ensures limit { IfOk result (λ bytes. length bytes.items ≤ most) }
{
    let mut capped = Capped {
        reader,
        read: 0,
        most,
    };
    let bytes = read_all(alloc, &mut capped)?;
    if bytes.len() <= most {
        Ok(bytes)
    } else {
        Err(ReadError::Memory)
    }
}

/// The bytes that the reader has left, however many.
fn read_all<R: Read>(alloc: Global, reader: &mut R) -> Result<Vec<u8>, ReadError>
    ensures { IfOk result (λ bytes. IfSome (R.remaining reader.old) (λ known. bytes.items ≡ known)) }
{
    let mut bytes = Vec::new(alloc);
    match reader.read_to_end(&mut bytes) {
        Ok(_) => Ok(bytes),
        Err(error) => match error.kind() {
            ErrorKind::OutOfMemory => Err(ReadError::Memory),
            _ => Err(ReadError::File),
        },
    }
}

// A reader of which no more is read once it gave more than so many bytes: then each read fails for want of memory.
#[derive(Drop)]
struct Capped<R> {
    reader: R,
    read: usize,
    most: usize,
}

impl<R: Read> Read for Capped<R> {
    ghost remaining = { λ c. R.remaining c.reader };

    fn read(&mut self, buf: &mut [u8]) -> io::Result<usize> {
        if self.read > self.most {
            return Err(io::Error::from(ErrorKind::OutOfMemory));
        }
        let count = self.reader.read(buf)?;
        self.read = self.read.saturating_add(count);
        Ok(count)
    }
}

/// A reader of which no line is read on without end: behind a line that has more than `LINE_BYTES` and goes on, each
/// read fails for want of memory.
#[derive(Drop)]
pub struct Bounded<R> {
    reader: R,
    line: u64,
}

impl<R> Bounded<R> {
    /// A reader whose lines are bounded.
    pub fn new(reader: R) -> Bounded<R> {
        Bounded { reader, line: 0 }
    }

    /// The reader.
    pub fn into_inner(self) -> R {
        self.reader
    }
}

/// How many bytes stand behind the last line feed of these, or how many more the line before them has.
fn line_after(line: u64, bytes: &[u8]) -> u64 {
    let behind = bytes
        .iter()
        .rev()
        .take_while(|byte| **byte != b'\n')
        .count();
    if behind < bytes.len() {
        behind as u64
    } else {
        line.saturating_add(bytes.len() as u64)
    }
}

impl<R: Read> Read for Bounded<R> {
    ghost remaining = { λ b. R.remaining b.reader };

    fn read(&mut self, buf: &mut [u8]) -> io::Result<usize> {
        if self.line > LINE_BYTES {
            return Err(io::Error::from(ErrorKind::OutOfMemory));
        }
        let count = self.reader.read(buf)?;
        self.line = line_after(self.line, &buf[..count]);
        Ok(count)
    }
}
