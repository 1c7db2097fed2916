//! The picture of a record up to the entry that is not permitted.
ghost use Rattle.std.specs.Prelude.{◌≡◌, IfOk, IsSome, take};
ghost use Rattle.tl_script_words.specs.Words.{texts};
ghost use Rattle.tlcheck_chart.specs.Rows.{lines_of};
ghost use Rattle.tlcheck_reader.specs.Ending.{status_of};

use crate::rows::strip_of;
use std::alloc::{AllocError, Global};
use tlcheck_reader::{BrokenEntry, Ending, Outcome, lines};

/// The lines of a text, without their line feeds. The error is want of memory.
fn split_lines(alloc: Global, text: &[u8]) -> Result<Vec<&[u8]>, AllocError>
    ensures { IfOk result (λ lines. texts lines.items ≡ lines_of text.now) }
{
    text.split(|byte| *byte == b'\n').collect(alloc)
}

/// The first lines of some, so many, or all where there are fewer.
fn first_of<'a, 'b>(lines: &'b [&'a [u8]], count: u64) -> &'b [&'a [u8]]
    ensures { result.now ≡ take count lines.now }
{
    let count = (count as usize).min(lines.len());
    &lines[..count]
}

/// The picture of an entry at the last of some lines that is not permitted, with what is said of the record.
fn picture_of(
    alloc: Global,
    title: &str,
    lines: &[&[u8]],
    broken: &BrokenEntry,
    said: &str,
) -> Result<Option<String>, AllocError> {
    let strip = match lines.split_last() {
        Some((last, before)) => strip_of(alloc, before, last, broken)?,
        None => None,
    };
    match strip {
        Some(strip) => Ok(Some(strip.picture(alloc, title, said)?)),
        None => Ok(None),
    }
}

/// The picture, as an SVG document, of the last lines of the block of the entry that is not permitted, with the verdict
/// at the foot; None of a record that has no such entry, or that is not the text that the ending was told of. The error
/// is want of memory.
pub fn picture_of_ending(
    alloc: Global,
    title: &str,
    text: &[u8],
    ending: &Ending,
) -> Result<Option<String>, AllocError>
    ensures { IfOk result (λ picture. IsSome picture → status_of ending.now ≡ 1) }
{
    let Ending::Judged(Outcome::Broken(line, broken)) = ending else {
        return Ok(None);
    };
    let said = lines(alloc, ending)?;
    let lines = split_lines(alloc, text)?;
    picture_of(alloc, title, first_of(&lines, *line), broken, said.as_str())
}
