//! The words of a command line.
use std::alloc::{AllocError, Global};
use tl_runner::{Job, JobError, job};

/// What words ask for: whether it is a trace, and whether its file is the last word.
type Asked = Result<(bool, bool), JobError>;

/// Words, and what they ask for.
const CASES: &[(&[&str], Asked)] = &[
    (&["run", "a.toml"], Ok((false, true))),
    (&["trace", "b"], Ok((true, true))),
    (&["walk", "x"], Err(JobError::Usage)),
    (&["run", "--help"], Err(JobError::Usage)),
    (&["help", "run"], Err(JobError::Usage)),
    (&["run", "-x"], Err(JobError::Usage)),
    (&[], Err(JobError::Usage)),
    (&["run"], Err(JobError::Usage)),
    (&["run", "a", "b"], Err(JobError::Usage)),
];

/// The words, each a text of its own.
fn owned(alloc: Global, words: &[&str]) -> Result<Vec<String>, AllocError> {
    let mut given = Vec::new(alloc);
    for word in words {
        given.push(String::from_str(alloc, word)?)?;
    }
    Ok(given)
}

/// A job beside the last of its words.
fn shown(job: &Job, last: Option<&&str>) -> (bool, bool) {
    match last {
        Some(word) => (job.traces, job.file.as_str() == *word),
        None => (job.traces, false),
    }
}

/// What these words ask for.
fn asks(alloc: Global, words: &[&str]) -> Asked {
    let given = owned(alloc, words)?;
    match job(alloc, &given) {
        Ok(job) => Ok(shown(&job, words.last())),
        Err(error) => Err(error),
    }
}

#[test]
fn words_ask_for_a_job_or_are_refused(rt: HostRuntime) {
    for (words, wanted) in CASES {
        assert_eq!(rt; asks(rt.alloc(), *words), *wanted);
    }
}
