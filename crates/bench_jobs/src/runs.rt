//! Many scripts, run one after the other, as a regression does.

use crate::asked::{Asked, Part};
use crate::numbers::{Digest, Numbers};
use crate::scripts::{Plan, plan_at, script_of};
use std::alloc::{AllocError, Global};
use std::sync::Wait;
use std::thread::Threads;
use std::time::Clock;
use tl_runner::{Job, answer};

/// The digest with a report: what each client was answered, `ok`, and the lines of the banks where these are fixed.
fn with_report(digest: Digest, report: &[u8], has_fixed_banks: bool) -> Digest {
    let mut digest = digest;
    let (mut counts, mut begins) = (true, true);
    for byte in report {
        if begins {
            counts = has_fixed_banks || *byte != b'b';
        }
        begins = *byte == b'\n';
        if counts {
            digest = digest.with(u64::from(*byte));
        }
    }
    digest
}

/// Runs the script of a plan, and digests its status and its report.
fn run_one<R: Threads + Wait + Clock + Sync>(
    rt: &R,
    alloc: Global,
    part: Part,
    plan: Plan,
    numbers: &mut Numbers,
    digest: Digest,
) -> Result<Digest, AllocError> {
    let script = script_of(alloc, plan, numbers)?;
    if part == Part::Inputs {
        return Ok(digest.with(script.len() as u64));
    }
    let mut output = Vec::new(alloc);
    let mut faults = Vec::new(alloc);
    let job = Ok(Job {
        traces: false,
        file: String::from_str(alloc, "script")?,
    });
    let status = answer(
        rt,
        alloc,
        job,
        Some(script.as_bytes()),
        &mut output,
        &mut faults,
    );
    let told = with_report(digest.with_status(status), &output, plan.has_fixed_banks());
    Ok(told.with_bytes(&faults))
}

/// Runs so many scripts, which read back or not.
pub(crate) fn run_all<R: Threads + Wait + Clock + Sync>(
    rt: &R,
    alloc: Global,
    asked: Asked,
    reads_back: bool,
) -> Result<Digest, AllocError> {
    let mut numbers = Numbers::new(asked.seed);
    let mut digest = Digest::new();
    for place in 0..asked.size {
        let plan = plan_at(place, reads_back);
        digest = run_one(rt, alloc, asked.part, plan, &mut numbers, digest)?;
    }
    Ok(digest)
}
