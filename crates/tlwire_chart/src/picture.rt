//! The picture of a record of messages up to the line that is impossible.
ghost use Rattle.std.specs.Prelude.{◌≡◌, IfOk, IsSome};
ghost use Rattle.tlwire_answer.specs.Ending.{status_of, verdict_status};

use crate::ends::{broken_at, words_of};
use crate::rows::strip_of;
use std::alloc::{AllocError, Global};
use tlwire_answer::{Ending, Form, Verdict, text_of};
use tlwire_record::Messages;

/// The picture of what was seen up to a place, with what is said of it at the foot.
fn drawn(
    alloc: Global,
    title: &str,
    lines: &[&[u8]],
    messages: &Messages,
    verdict: &Verdict,
    place: usize,
) -> Result<Option<String>, AllocError> {
    let said = text_of(alloc, Form::Summary, lines, messages, verdict)?;
    let words = words_of(alloc, verdict)?;
    match strip_of(alloc, lines, messages, place, words)? {
        Some(strip) => {
            let said = std::str::from_utf8(&said).unwrap_or("");
            Ok(Some(strip.picture(alloc, title, said)?))
        }
        None => Ok(None),
    }
}

/// The picture of what was seen, where a line is impossible.
fn picture_of(
    alloc: Global,
    title: &str,
    lines: &[&[u8]],
    messages: &Messages,
    verdict: &Verdict,
) -> Result<Option<String>, AllocError>
    ensures { IfOk result (λ picture. IsSome picture → verdict_status verdict.now ≡ 1) }
{
    let Some(place) = broken_at(verdict) else {
        return Ok(None);
    };
    drawn(alloc, title, lines, messages, verdict, place)
}

/// The picture, as an SVG document, of the last lines of the block of the line that is impossible, with the answer at
/// the foot; None of a record that is explained, not decided or refused, or that is not the one that the ending was
/// told of. The error is want of memory.
pub fn picture_of_ending(
    alloc: Global,
    title: &str,
    lines: &[&[u8]],
    ending: &Ending,
) -> Result<Option<String>, AllocError>
    ensures { IfOk result (λ picture. IsSome picture → status_of ending.now ≡ 1) }
{
    match ending {
        Ending::Answered(messages, verdict) => picture_of(alloc, title, lines, messages, verdict),
        _ => Ok(None),
    }
}
