//! Files that fail.
use crate::asked::{SCRIPT, job_of, status_of, told};
use std::alloc::Global;
use std::io;
use std::io::{ErrorKind, Read, Write};
use std::sync::Wait;
use std::thread::Threads;
use std::time::Clock;
use tl_runner::{Job, JobError};

/// A reader and a writer that fail at each call.
#[derive(Drop)]
struct Broken;

impl Read for Broken {
    fn read(&mut self, _buf: &mut [u8]) -> io::Result<usize> {
        Err(io::Error::from(ErrorKind::Other))
    }
}

impl Write for Broken {
    fn write(&mut self, _buf: &[u8]) -> io::Result<usize> {
        Err(io::Error::from(ErrorKind::Other))
    }

    fn flush(&mut self) -> io::Result<()> {
        Err(io::Error::from(ErrorKind::Other))
    }
}

/// A reader that fails once its bytes are read.
#[derive(Drop)]
struct FailsBehind<'a> {
    text: &'a [u8],
}

impl Read for FailsBehind<'_> {
    fn read(&mut self, buf: &mut [u8]) -> io::Result<usize> {
        if self.text.is_empty() {
            return Err(io::Error::from(ErrorKind::Other));
        }
        self.text.read(buf)
    }
}

/// A writer that takes a part of the output at its first call, and fails at each later one.
#[derive(Drop)]
struct TakesAPart {
    taken: Vec<u8>,
}

impl Write for TakesAPart {
    fn write(&mut self, buf: &[u8]) -> io::Result<usize> {
        if !self.taken.is_empty() {
            return Err(io::Error::from(ErrorKind::Other));
        }
        self.taken.write(&buf[..buf.len().min(PART)])
    }

    fn flush(&mut self) -> io::Result<()> {
        Ok(())
    }
}

/// How many bytes the first call takes.
const PART: usize = 8;

/// The status of a job with this file and an output that takes all, and whether its fault line is this one.
fn told_of_file<T: Threads + Wait + Clock + Sync, R: Read + Drop>(
    rt: &T,
    alloc: Global,
    job: Result<Job, JobError>,
    file: Option<R>,
    line: &str,
) -> (u8, bool) {
    let mut output = Vec::new(alloc);
    told(rt, alloc, job, file, &mut output, line)
}

/// The same of a run, whose fault line is to tell that a file failed.
fn fails<T: Threads + Wait + Clock + Sync, R: Read + Drop>(
    rt: &T,
    alloc: Global,
    file: Option<R>,
) -> (u8, bool) {
    told_of_file(rt, alloc, job_of(alloc, false), file, "error file\n")
}

#[test]
fn files_that_are_not_read(rt: HostRuntime) {
    let no_file: Option<&[u8]> = None;
    assert_eq!(rt;
        (
            fails(&rt, rt.alloc(), no_file),
            fails(&rt, rt.alloc(), Some(Broken))
        ),
        ((5, true), (5, true))
    );
}

#[test]
fn a_file_that_fails_behind_its_text(rt: HostRuntime) {
    let text = SCRIPT.as_bytes();
    assert_eq!(rt;
        fails(&rt, rt.alloc(), Some(FailsBehind { text })),
        (5, true)
    );
}

/// What a run tells whose output fails behind a part, and how many bytes it wrote.
fn told_behind_a_part<T: Threads + Wait + Clock + Sync>(
    rt: &T,
    alloc: Global,
) -> ((u8, bool), usize) {
    let taken = Vec::new(alloc);
    let mut output = TakesAPart { taken };
    let job = job_of(alloc, false);
    let file = Some(SCRIPT.as_bytes());
    let told = told(rt, alloc, job, file, &mut output, "error file\n");
    (told, output.taken.len())
}

#[test]
fn an_output_that_fails_behind_a_part(rt: HostRuntime) {
    assert_eq!(rt; told_behind_a_part(&rt, rt.alloc()), ((5, true), PART));
}

#[test]
fn an_output_that_fails(rt: HostRuntime) {
    let job = job_of(rt.alloc(), false);
    let file = Some(SCRIPT.as_bytes());
    assert_eq!(rt;
        told(&rt, rt.alloc(), job, file, &mut Broken, "error file\n"),
        (5, true)
    );
}

/// The status of a run whose fault lines fail.
fn status<T: Threads + Wait + Clock + Sync>(rt: &T, alloc: Global) -> u8 {
    let mut output = Vec::new(alloc);
    let file = Some(SCRIPT.as_bytes());
    let job = job_of(alloc, false);
    status_of(rt, alloc, job, file, &mut output, &mut Broken)
}

#[test]
fn fault_lines_that_fail(rt: HostRuntime) {
    assert_eq!(rt; status(&rt, rt.alloc()), 0);
}

#[test]
fn words_that_are_refused(rt: HostRuntime) {
    let usage = Err(JobError::Usage);
    let file = Some(SCRIPT.as_bytes());
    assert_eq!(rt;
        told_of_file(&rt, rt.alloc(), usage, file, "error usage\n"),
        (2, true)
    );
}
