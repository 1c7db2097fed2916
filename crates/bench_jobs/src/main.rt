//! Jobs that users of this software wait for, each done once on an input that is made from a seed:
//! `bench_jobs JOB SEED SIZE`. It prints a digest of all results, the same at each run.
#![tactic(auto)]

mod asked;
mod banks;
mod numbers;
mod records;
mod results;
mod runs;
mod scripts;
mod session;
mod sight;
mod traces;
mod wires;

use asked::{Asked, Part};
use numbers::Digest;
use std::alloc::{AllocError, Global};
use std::io;
use std::sync::Wait;
use std::thread::Threads;
use std::time::Clock;
use tlwire_answer::Form;

/// Does a job: `runs SEED SCRIPTS`, `bank SEED STEPS`, `judge SEED STEPS`, `cover SEED CLIENTS STEPS`,
/// `wire SEED STEPS`, `closed SEED STEPS RECORDS`, `trace SEED STEPS`; or, with the same words, one as it was before
/// its results were digested in full: `runs_before`, `wire_before`, `closed_before`. With the word `inputs` at the end
/// a job makes its inputs alone; `bank` and `trace` have none, since each of their calls is drawn from what was
/// answered before. Nothing where there is no such job.
fn done<R: Threads + Wait + Clock + Sync>(
    rt: &R,
    alloc: Global,
    words: &[String],
) -> Result<Option<Digest>, AllocError> {
    let asked = Asked::new(words);
    let Some(job) = words.first() else {
        return Ok(None);
    };
    Ok(Some(match job.as_str() {
        "runs" => runs::run_all(rt, alloc, asked, true)?,
        "bank" if asked.part == Part::Whole => banks::run_banks(alloc, asked.seed, asked.size)?,
        "judge" => records::judge_all(alloc, asked)?,
        "cover" => records::cover_all(alloc, asked)?,
        "wire" => wires::search_all(alloc, Form::Run, asked)?,
        "closed" => wires::rule_out_all(alloc, Form::Run, asked)?,
        "trace" if asked.part == Part::Whole => traces::play_all(alloc, asked.seed, asked.size)?,
        "runs_before" => runs::run_all(rt, alloc, asked, false)?,
        "wire_before" => wires::search_all(alloc, Form::Summary, asked)?,
        "closed_before" => wires::rule_out_all(alloc, Form::Summary, asked)?,
        _ => return Ok(None),
    }))
}

fn main(rt: HostRuntime) -> io::Result<()> {
    let mut words = Vec::new(rt.alloc());
    for word in std::env::args(&rt)?.skip(1) {
        words.push(word)?;
    }
    match done(&rt, rt.alloc(), &words)? {
        Some(digest) => {
            let (key, statuses) = (digest.key, digest.statuses);
            println!(rt; "{key:016x} statuses {statuses}")
        }
        None => println!(rt; "usage: bench_jobs JOB SEED SIZE [NUMBER] [inputs]"),
    }
}
