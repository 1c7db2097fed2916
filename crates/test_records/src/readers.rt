//! Readers that fail before the end of a record or have none, and output that nobody reads any more.
use std::io;
use std::io::{BufReader, ErrorKind, Read, Write};
use std::test::Fail;
use tl_streams::{Bounded, CLOSED, Piped, ReadError, read_at_most, write_whole};
use tlcheck_reader::{CheckFault, check};

/// A reader that fails once its bytes are read.
#[derive(Drop)]
struct Failing<'a> {
    text: &'a [u8],
    kind: ErrorKind,
}

impl Read for Failing<'_> {
    fn read(&mut self, buf: &mut [u8]) -> io::Result<usize> {
        if self.text.is_empty() {
            return Err(io::Error::from(self.kind));
        }
        self.text.read(buf)
    }
}

#[test]
fn no_verdict_without_the_whole_record(rt: HostRuntime) -> Result<(), Fail> {
    let alloc = rt.alloc();
    for text in [
        b"".as_slice(),
        b"clients 1 block_bytes 8 memory_blocks 4\nimage 00\n",
        b"clients 1 block_bytes 8 memory_blocks 4\nacquire 0 0 Nto",
    ] {
        for (kind, want) in [
            (ErrorKind::Other, CheckFault::File),
            (ErrorKind::OutOfMemory, CheckFault::Memory),
        ] {
            let mut reader = BufReader::with_capacity(alloc, 16, Failing { text, kind })?;
            let fault = match check(alloc, &mut reader) {
                Ok(_) => None,
                Err(fault) => Some(fault),
            };
            assert_eq!(rt; fault, Some(want));
        }
    }
    Ok(())
}

/// A reader whose first line has no end.
#[derive(Drop)]
struct Endless;

impl Read for Endless {
    fn read(&mut self, buf: &mut [u8]) -> io::Result<usize> {
        buf.fill(b'#');
        Ok(buf.len())
    }
}

#[test]
fn a_line_without_end_ends_for_want_of_memory(rt: HostRuntime) -> Result<(), Fail> {
    let alloc = rt.alloc();
    let mut reader = BufReader::with_capacity(alloc, 65_536, Bounded::new(Endless))?;
    let fault = match check(alloc, &mut reader) {
        Ok(_) => None,
        Err(fault) => Some(fault),
    };
    assert_eq!(rt; fault, Some(CheckFault::Memory));
    Ok(())
}

#[test]
fn a_file_past_its_limit_is_not_read(rt: HostRuntime) -> Result<(), Fail> {
    let alloc = rt.alloc();
    let mut few: &[u8] = b"12345";
    let whole = read_at_most(alloc, &mut few, 5)
        .ok()
        .expect(&rt, "five bytes are five at most");
    assert_eq!(rt; whole.as_slice(), b"12345".as_slice());
    let mut more: &[u8] = b"123456";
    let past = read_at_most(alloc, &mut more, 5).err();
    assert_eq!(rt; past, Some(ReadError::Memory));
    let endless = read_at_most(alloc, &mut Endless, 1000).err();
    assert_eq!(rt; endless, Some(ReadError::Memory));
    Ok(())
}

/// A pipe whose reader goes away once it has so many bytes.
#[derive(Drop)]
struct Pipe {
    room: usize,
}

impl Write for Pipe {
    fn write(&mut self, buf: &[u8]) -> io::Result<usize> {
        if self.room == 0 {
            return Err(io::Error::from(ErrorKind::BrokenPipe));
        }
        let taken = buf.len().min(self.room);
        self.room -= taken;
        Ok(taken)
    }

    fn flush(&mut self) -> io::Result<()> {
        Ok(())
    }
}

#[test]
fn a_closed_pipe_is_no_fault(rt: HostRuntime) -> Result<(), Fail> {
    let mut read = Piped::new(Pipe { room: 5 });
    assert!(rt; write_whole(&mut read, b"12345").is_ok());
    assert_eq!(rt; read.status(1), 1);
    let mut closed = Piped::new(Pipe { room: 4 });
    assert!(rt; write_whole(&mut closed, b"12345").is_ok());
    assert_eq!(rt; closed.status(1), CLOSED);
    Ok(())
}
