//! Asking the program.
use std::alloc::Global;
use std::io::{Read, Write};
use std::sync::Wait;
use std::thread::Threads;
use std::time::Clock;
use tl_runner::{Job, JobError, answer};

/// A script with no commands and no steps.
pub const SCRIPT: &str = "\
version = 1\n\
clients = 1\n\
banks = 1\n\
block_bytes = 8\n\
sets = 1\n\
ways = 1\n\
registers = 1\n\
copies = 1\n\
memory_blocks = 1\n\
turns = 1000000\n";

/// The job of a trace or of a run. The error is want of memory.
pub fn job_of(alloc: Global, traces: bool) -> Result<Job, JobError> {
    let file = String::from_str(alloc, "script")?;
    Ok(Job { traces, file })
}

/// The status alone: that function's contract, which is long, ends here, so that a test of several calls does not carry
/// it along.
pub fn status_of<T: Threads + Wait + Clock + Sync, R: Read + Drop, W: Write, E: Write>(
    rt: &T,
    alloc: Global,
    job: Result<Job, JobError>,
    file: Option<R>,
    output: &mut W,
    faults: &mut E,
) -> u8 {
    answer(rt, alloc, job, file, output, faults)
}

/// The status of a job with this file and this output, and whether its fault line is this one.
pub fn told<T: Threads + Wait + Clock + Sync, R: Read + Drop, W: Write>(
    rt: &T,
    alloc: Global,
    job: Result<Job, JobError>,
    file: Option<R>,
    output: &mut W,
    line: &str,
) -> (u8, bool) {
    let mut faults = Vec::new(alloc);
    let status = status_of(rt, alloc, job, file, output, &mut faults);
    (status, faults.as_slice() == line.as_bytes())
}
