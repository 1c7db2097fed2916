//! `tlgen SEED run|trace [KEY=NUM ..]`: a random script of the format, the same for the same words.
#![tactic(auto)]

mod answer;
mod any;
mod cache;
mod certify;
mod dice;
mod fault;
mod geometry;
mod request;
mod script;
mod spots;

use answer::answer;
use std::process::ExitCode;
use tl_streams::words;

fn status(rt: &HostRuntime) -> u8 {
    let mut output = rt.stdout();
    let mut faults = rt.stderr();
    answer(rt.alloc(), words(rt), &mut output, &mut faults)
}

fn main(rt: HostRuntime) -> ExitCode {
    ExitCode::from(status(&rt))
}
