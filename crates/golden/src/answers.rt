//! Whether each script is answered as it may be.

use crate::names::{DECIDED, RUNS};
use std::alloc::Global;
use std::sync::Wait;
use std::thread::Threads;
use std::time::Clock;
use std::{fs, io};
use tl_runner::{Free, Job, answer, read_script, run_sized};

/// How often a script with several reports is run, and how often with inboxes that hold one ticket.
const TIMES: u32 = 100;

const TIMES_WITH_ONE_PLACE: u32 = 10;

/// What `tlcache` writes for a script: its output, its fault line, and its status where that is not 0.
fn answer_of<R: Threads + Wait + Clock + Sync>(
    rt: &R,
    alloc: Global,
    traces: bool,
    script: &[u8],
) -> io::Result<Vec<u8>> {
    let mut output = Vec::new(alloc);
    let mut faults = Vec::new(alloc);
    let file = String::from_str(alloc, "script")?;
    let job = Ok(Job { traces, file });
    let status = answer(rt, alloc, job, Some(script), &mut output, &mut faults);
    output.extend_from_slice(&faults)?;
    if status != 0 {
        output.extend_from_slice(format!(in alloc; "status {status}\n")?.as_bytes())?;
    }
    Ok(output)
}

/// The report of a script, with inboxes that hold one ticket; nothing where there is none.
fn report_with_one_place<R: Threads + Wait + Clock + Sync>(
    rt: &R,
    alloc: Global,
    script: &[u8],
) -> io::Result<Vec<u8>> {
    let Ok(script) = read_script(alloc, script) else {
        return Ok(Vec::new(alloc));
    };
    let Ok(report) = run_sized(rt, alloc, &script, &Free, 1) else {
        return Ok(Vec::new(alloc));
    };
    Ok(report.text(alloc)?.into_bytes())
}

/// The text of a script. The error is the file's, or want of memory.
pub fn script_of(rt: &HostRuntime, name: &str) -> io::Result<Vec<u8>> {
    fs::read(rt, format!(in rt.alloc(); "{name}.toml")?.as_str())
}

/// The answer of this number that a script may have.
fn answer_told(rt: &HostRuntime, name: &str, number: u32) -> io::Result<Vec<u8>> {
    fs::read(rt, format!(in rt.alloc(); "{name}.{number}.out")?.as_str())
}

/// The answers that a script may have.
fn answers_told(rt: &HostRuntime, name: &str, count: u32) -> io::Result<Vec<Vec<u8>>> {
    let mut answers = Vec::new(rt.alloc());
    for number in 1..=count {
        answers.push(answer_told(rt, name, number)?)?;
    }
    Ok(answers)
}

fn is_among(answer: &[u8], answers: &[Vec<u8>]) -> bool {
    answers.iter().any(|may| may.as_slice() == answer)
}

/// Whether each run of a script gives one of its reports.
fn runs_as_told<R: Threads + Wait + Clock + Sync>(
    rt: &R,
    alloc: Global,
    script: &[u8],
    answers: &[Vec<u8>],
) -> io::Result<bool> {
    let is_decided = answers.len() == 1;
    for _ in 0..if is_decided { 1 } else { TIMES } {
        if !is_among(&answer_of(rt, alloc, false, script)?, answers) {
            return Ok(false);
        }
    }
    Ok(true)
}

/// Whether each run of a script, with inboxes that hold one ticket, gives one of its reports.
fn runs_with_one_place<R: Threads + Wait + Clock + Sync>(
    rt: &R,
    alloc: Global,
    script: &[u8],
    answers: &[Vec<u8>],
) -> io::Result<bool> {
    let is_decided = answers.len() == 1;
    for _ in 0..if is_decided { 1 } else { TIMES_WITH_ONE_PLACE } {
        if !is_among(&report_with_one_place(rt, alloc, script)?, answers) {
            return Ok(false);
        }
    }
    Ok(true)
}

/// Whether a script that has one answer is given it.
fn is_decided_so<R: Threads + Wait + Clock + Sync>(
    rt: &R,
    alloc: Global,
    traces: bool,
    script: &[u8],
    answer: &[u8],
) -> io::Result<bool> {
    Ok(answer_of(rt, alloc, traces, script)?.as_slice() == answer)
}

/// Whether each run of a script gives one of its reports, with ample inboxes and with inboxes that hold one ticket.
fn is_as_told<R: Threads + Wait + Clock + Sync>(
    rt: &R,
    alloc: Global,
    script: &[u8],
    answers: &[Vec<u8>],
) -> io::Result<bool> {
    Ok(
        runs_as_told(rt, alloc, script, answers)?
            && runs_with_one_place(rt, alloc, script, answers)?,
    )
}

/// Prints whether a script is answered as it may be.
fn print_row(rt: &HostRuntime, name: &str, is_as_told: bool) -> io::Result<()> {
    let told = if is_as_told {
        "as told"
    } else {
        "another answer"
    };
    println!(rt; "{name}: {told}")
}

/// Prints whether a script that has one answer is given it.
fn print_decided<R: Threads + Wait + Clock + Sync>(
    rt: &R,
    host: &HostRuntime,
    name: &str,
    traces: bool,
) -> io::Result<()> {
    let script = script_of(host, name)?;
    let wanted = answer_told(host, name, 1)?;
    let is_so = is_decided_so(rt, host.alloc(), traces, &script, &wanted)?;
    print_row(host, name, is_so)
}

/// Prints whether each run of a script gives one of its reports.
fn print_runs<R: Threads + Wait + Clock + Sync>(
    rt: &R,
    host: &HostRuntime,
    name: &str,
    count: u32,
) -> io::Result<()> {
    let script = script_of(host, name)?;
    let wanted = answers_told(host, name, count)?;
    let is_so = is_as_told(rt, host.alloc(), &script, &wanted)?;
    print_row(host, name, is_so)
}

/// Whether a run of a script is refused with this fault and status 1.
fn is_refused_so<R: Threads + Wait + Clock + Sync>(
    rt: &R,
    alloc: Global,
    fault: &str,
    script: &str,
) -> io::Result<bool> {
    let answer = answer_of(rt, alloc, false, script.as_bytes())?;
    let wanted = format!(in alloc; "{fault}\nstatus 1\n")?;
    Ok(answer.as_slice() == wanted.as_bytes())
}

/// How many of the scripts of a text are refused with their faults, and the fault of the first that is not. Each script
/// follows a line with `=== ` and its fault.
fn refused_so<'a, R: Threads + Wait + Clock + Sync>(
    rt: &R,
    alloc: Global,
    text: &'a str,
) -> io::Result<(u32, Option<&'a str>)> {
    let mut count = 0u32;
    for section in text.split("=== ").skip(1) {
        let (fault, script) = section.split_once('\n').unwrap_or((section, ""));
        if !is_refused_so(rt, alloc, fault, script)? {
            return Ok((count, Some(fault)));
        }
        count = count.saturating_add(1);
    }
    Ok((count, None))
}

/// Prints how many scripts are refused with their faults.
fn print_count(rt: &HostRuntime, count: u32, other: Option<&str>) -> io::Result<()> {
    if let Some(fault) = other {
        println!(rt; "refused.txt: another answer after {count} at {fault}")?;
    }
    println!(rt; "refused.txt: {count} scripts as told")
}

/// Prints how many scripts of `refused.txt` are refused with their faults.
fn print_refused<R: Threads + Wait + Clock + Sync>(rt: &R, host: &HostRuntime) -> io::Result<()> {
    let text = fs::read_to_string(host, "refused.txt")?;
    let (count, other) = refused_so(rt, host.alloc(), &text)?;
    print_count(host, count, other)
}

/// Prints for each script whether it is answered as it may be. The error is a file's or standard output's.
pub fn print_rows<R: Threads + Wait + Clock + Sync>(rt: &R, host: &HostRuntime) -> io::Result<()> {
    for (name, traces) in DECIDED {
        print_decided(rt, host, name, *traces)?;
    }
    for (name, count) in RUNS {
        print_runs(rt, host, name, *count)?;
    }
    print_refused(rt, host)
}
