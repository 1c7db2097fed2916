//! Faults that only the world outside the program brings: words, files and memory that are not there.
use crate::asked::{SCRIPT, job_of, told};
use std::alloc::Global;
use std::io;
use std::io::{ErrorKind, Read, Write};
use std::sync::Wait;
use std::thread::Threads;
use std::time::Clock;
use tl_runner::{JobError, RunError};

/// What a trace without steps prints.
const TRACE: &str = "bank 0 held 0 recorded 0 events 0\nend\n";

/// A reader that finds no memory.
#[derive(Drop)]
struct WithoutMemory;

impl Read for WithoutMemory {
    fn read(&mut self, _buf: &mut [u8]) -> io::Result<usize> {
        Err(io::Error::from(ErrorKind::OutOfMemory))
    }
}

/// A writer that takes all, and fails when it is flushed.
#[derive(Drop)]
struct NeverFlushed {
    taken: Vec<u8>,
}

impl Write for NeverFlushed {
    fn write(&mut self, buf: &[u8]) -> io::Result<usize> {
        self.taken.write(buf)
    }

    fn flush(&mut self) -> io::Result<()> {
        Err(io::Error::from(ErrorKind::Other))
    }
}

/// What a trace tells whose file finds no memory, and whether it prints nothing.
fn without_memory<T: Threads + Wait + Clock + Sync>(rt: &T, alloc: Global) -> ((u8, bool), bool) {
    let mut output = Vec::new(alloc);
    let job = job_of(alloc, true);
    let line = "error 41 memory\n";
    let told = told(rt, alloc, job, Some(WithoutMemory), &mut output, line);
    (told, output.as_slice() == b"".as_slice())
}

#[test]
fn a_file_that_finds_no_memory(rt: HostRuntime) {
    assert_eq!(rt; without_memory(&rt, rt.alloc()), ((4, true), true));
}

/// What a trace tells whose output is never flushed, and whether it prints `TRACE`.
fn never_flushed<T: Threads + Wait + Clock + Sync>(rt: &T, alloc: Global) -> ((u8, bool), bool) {
    let taken = Vec::new(alloc);
    let mut output = NeverFlushed { taken };
    let job = job_of(alloc, true);
    let file = Some(SCRIPT.as_bytes());
    let told = told(rt, alloc, job, file, &mut output, "error file\n");
    (told, output.taken.as_slice() == TRACE.as_bytes())
}

#[test]
fn an_output_that_is_never_flushed(rt: HostRuntime) {
    assert_eq!(rt; never_flushed(&rt, rt.alloc()), ((5, true), true));
}

#[test]
fn words_that_are_not_there(rt: HostRuntime) {
    let no_text = io::Error::from(ErrorKind::InvalidData);
    let no_memory = io::Error::from(ErrorKind::OutOfMemory);
    assert_eq!(rt;
        [JobError::from(no_text), JobError::from(no_memory)],
        [JobError::Usage, JobError::Memory]
    );
}

/// The faults of a run, each with its text.
const FAULTS: &[(RunError, &str)] = &[
    (RunError::Stalled(7), "error 40 stalled 7"),
    (RunError::Memory, "error 41 memory"),
    (RunError::NotOrdered, "error 42 not ordered"),
    (RunError::Shares, "error 43 shares"),
];

/// Whether a fault has this text. `None` where a request for memory was refused.
fn has_text(alloc: Global, fault: &RunError, wanted: &str) -> Option<bool> {
    let text = fault.to_string(alloc).ok()?;
    Some(text.as_str() == wanted)
}

#[test]
fn faults_of_a_run_have_their_texts(rt: HostRuntime) {
    for (fault, wanted) in FAULTS {
        assert_eq!(rt; has_text(rt.alloc(), fault, *wanted), Some(true));
    }
}
