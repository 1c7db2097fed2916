//! The answer to a record, and what is written of it.
ghost use Rattle.std.specs.Prelude.{◌≡◌};
ghost use Rattle.tl_script_words.specs.Words.{texts};
ghost use Rattle.tlwire_record.specs.Reading.{lines_of};
ghost use Rattle.tlwire_answer.specs.Answer.{IsJudged};
ghost use Rattle.tlwire_answer.specs.Ending.{IsTold, Tells, status_of};
ghost use Rattle.tlwire_answer.specs.Replies.{IsEnding, MayEnd};
ghost use Rattle.tlwire_answer.specs.declared.ending.Ending.{Ending};

use crate::advice::with_advice;
use crate::ending::{Ending, Form, show, text_of};
use crate::verdict::{Verdict, judge};
use std::alloc::Global;
use std::io::Write;
use tl_streams::{Watcher, write_whole};
use tlwire_record::{Messages, ReadFault, read, split_lines};

/// That verdict, with a line of the header that would have decided it, where it is none.
#[tactic(auto, using(crate::proofs::Advised::said_same))]
fn advised(alloc: Global, mut messages: Messages, verdict: Verdict) -> Ending
    requires { IsJudged messages verdict }
    ensures { IsEnding messages result }
{
    match with_advice(alloc, &mut messages, verdict) {
        Ok(verdict) => Ending::Answered(messages, verdict),
        Err(_) => Ending::Memory,
    }
}

/// What the answer to what was seen ends with.
fn answered<T: Watcher>(alloc: Global, messages: Messages, watcher: &mut T) -> Ending
    ensures { IsEnding messages result }
{
    match judge(alloc, &messages, watcher) {
        Ok(verdict) => advised(alloc, messages, verdict),
        Err(_) => Ending::Memory,
    }
}

/// What the answer to a record of these lines ends with. A watcher is told of each line that closed sets pass, as of
/// one of so many.
pub fn judge_lines<T: Watcher>(alloc: Global, lines: &[&[u8]], watcher: &mut T) -> Ending
    ensures { MayEnd (texts lines.now) result }
{
    match read(alloc, lines) {
        Ok(messages) => answered(alloc, messages, watcher),
        Err(ReadFault::Line(line, cause)) => Ending::Wrong(line, cause),
        Err(ReadFault::Empty) => Ending::Empty,
        Err(ReadFault::Memory) => Ending::Memory,
    }
}

/// Writes what the answer to a record of these lines ends with: an answer in a form to `output`, a fault to `faults`.
/// It answers the status: that of the ending, or 5 where the answer could not be written, or 4 for want of memory. A
/// failing `faults` does not change it.
pub fn tell_ending<W: Write, E: Write>(
    alloc: Global,
    form: Form,
    lines: &[&[u8]],
    ending: &Ending,
    output: &mut W,
    faults: &mut E,
) -> u8
    ensures { (told : Ending)
        × Tells ending.now told
        × (result ≡ status_of told)
        × IsTold result form (texts lines.now) told (W.contents output.old) (W.contents output.new)
        (E.contents faults.old) (E.contents faults.new) }
{
    match ending {
        Ending::Answered(messages, verdict) => {
            match text_of(alloc, form, lines, messages, verdict) {
                Ok(text) => match write_whole(output, &text) {
                    Ok(()) => ending.status(),
                    Err(_) => show(faults, &Ending::File),
                },
                Err(_) => show(faults, &Ending::Memory),
            }
        }
        _ => show(faults, ending),
    }
}

/// Answers what was seen, and tells it.
fn reply<W: Write, E: Write>(
    alloc: Global,
    form: Form,
    lines: &[&[u8]],
    output: &mut W,
    faults: &mut E,
) -> u8
    ensures { (ending : Ending)
        × MayEnd (texts lines.now) ending
        × (result ≡ status_of ending)
        × IsTold result form (texts lines.now) ending (W.contents output.old) (W.contents output.new)
        (E.contents faults.old) (E.contents faults.new) }
{
    let ending = judge_lines(alloc, lines, &mut ());
    tell_ending(alloc, form, lines, &ending, output, faults)
}

/// Reads a record of messages, says what it found of it, and writes that: an answer to `output`, a fault to `faults`.
/// It answers the status: 0 where a run explains it, 1 where no lawful run is seen so, or where an exchange is not as
/// the header expects, 6 where neither was found, 3 where it cannot be read, 4 for want of memory, 5 where the answer
/// could not be written. A failing `faults` does not change it.
pub fn answer<W: Write, E: Write>(
    alloc: Global,
    form: Form,
    text: &[u8],
    output: &mut W,
    faults: &mut E,
) -> u8
    ensures { (ending : Ending)
        × MayEnd (lines_of text.now) ending
        × (result ≡ status_of ending)
        × IsTold result form (lines_of text.now) ending (W.contents output.old) (W.contents output.new)
        (E.contents faults.old) (E.contents faults.new) }
{
    match split_lines(alloc, text) {
        Ok(lines) => reply(alloc, form, &lines, output, faults),
        Err(_) => show(faults, &Ending::Memory),
    }
}
