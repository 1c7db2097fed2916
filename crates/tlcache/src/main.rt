//! `tlcache run FILE` and `tlcache trace FILE`.
#![tactic(auto)]

use std::fs::File;
use std::process::ExitCode;
use tl_runner::{Job, JobError, answer, job};
use tl_streams::words;

/// The job that the words ask for. A word that is no UTF-8 names no file that can be opened here, so it is none.
fn asked(rt: &HostRuntime) -> Result<Job, JobError> {
    let words = words(rt)?;
    job(rt.alloc(), &words)
}

fn main(rt: HostRuntime) -> ExitCode {
    let job = asked(&rt);
    let file = match &job {
        Ok(job) => File::open(&rt, &job.file).ok(),
        Err(_) => None,
    };
    let mut output = rt.stdout();
    let mut faults = rt.stderr();
    let status = answer(&rt, rt.alloc(), job, file, &mut output, &mut faults);
    ExitCode::from(status)
}
