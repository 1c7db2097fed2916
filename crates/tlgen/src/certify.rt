//! What is printed is read back first, and a trace is played.
ghost use Rattle.std.specs.Prelude.{◌≡◌, ◌++◌, IfOk, IsTrue, count_by, length, string_bytes};
ghost use Rattle.tlgen.specs.Offered.{IsPlayed, IsScript, IsTold, Offers, head_line, is_refused, refusals};

use crate::fault::Fault;
use crate::request::Request;
use crate::script::{Draft, draft_of};
use std::alloc::{AllocError, Global};
use tl_script::{Script, read_script};
use tl_text::{Answer, Trace};
use tl_trace::play;

/// Whether a step was refused.
pub(crate) fn is_refused(answer: &Answer) -> bool
    ensures { result ≡ is_refused answer.now }
{
    match answer {
        Answer::Refused(_) => true,
        Answer::Sent { .. }
        | Answer::Memory { .. }
        | Answer::Dropped
        | Answer::Loaded(_)
        | Answer::Done => false,
    }
}

/// How many steps were refused.
fn refusals(answers: &[Answer]) -> usize
    ensures { result ≡ count_by is_refused answers.now }
{
    answers.iter().filter(|answer| is_refused(answer)).count()
}

/// A draft of a script for `trace`, with its first line.
fn headed(alloc: Global, draft: &Draft) -> Result<String, AllocError>
    ensures { IfOk result
        (λ text. string_bytes text ≡ head_line draft.now.steps draft.now.refused ++ string_bytes draft.now.text) }
{
    let mut text = String::new(alloc);
    write!(
        text,
        "# {} steps, {} of them refused\n",
        draft.steps, draft.refused
    )?;
    text.push_str(&draft.text)?;
    Ok(text)
}

/// The trace of a script.
fn played(alloc: Global, script: &Script) -> Result<Trace, AllocError>
    ensures { IfOk result (IsPlayed script.now) }
{
    play(alloc, script.geometry(), &script.image, &script.steps)
}

/// Whether there are as many steps, and as many of them were refused, as a draft says.
fn is_as_told(draft: &Draft, script: &Script, trace: &Trace) -> bool
    ensures { IsTrue result
        → (length script.now.steps.items ≡ draft.now.steps) × (refusals trace.now ≡ draft.now.refused) }
{
    script.steps.len() == draft.steps && refusals(&trace.answers) == draft.refused
}

/// The text of a draft for `run`, which the format reads as a script.
fn read_back(alloc: Global, draft: Draft) -> Result<String, Fault>
    ensures { IfOk result (λ text. IsScript (string_bytes text)) }
{
    let _script = read_script(alloc, draft.text.as_bytes())?;
    Ok(draft.text)
}

/// The text of a draft for `trace`, with its first line: the format reads it as a script, and the line is true of its
/// steps.
fn played_back(alloc: Global, draft: &Draft) -> Result<String, Fault>
    ensures { IfOk result (λ text. IsTold (string_bytes text)) }
{
    let text = headed(alloc, draft)?;
    let script = read_script(alloc, text.as_bytes())?;
    let trace = played(alloc, &script)?;
    if is_as_told(draft, &script, &trace) {
        Ok(text)
    } else {
        Err(Fault::Refusals)
    }
}

/// The text of the script that is asked for.
pub(crate) fn text(alloc: Global, request: &Request<'_>) -> Result<String, Fault>
    ensures { IfOk result (λ text. Offers request.now.traces (string_bytes text)) }
{
    let draft = draft_of(alloc, request)?;
    if request.traces {
        played_back(alloc, &draft)
    } else {
        read_back(alloc, draft)
    }
}
