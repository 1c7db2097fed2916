//! The judge that a record begins with.
ghost use Rattle.std.specs.Prelude.{◌≡◌, ◌<◌, ◌≤◌, IfOk, IfSome, MatchOption, None, Some};
ghost use Rattle.tl_script_words.specs.Words.{texts};
ghost use Rattle.tl_types.specs.declared.limits.TheConstants.{BLOCKS, BLOCK_BYTES};
ghost use Rattle.tlcheck_chart.specs.Rows.{head_of, record_head, said};

use std::alloc::{AllocError, Global};
use tl_rules::Shape;
use tl_types::{BLOCK_BYTES, BLOCKS};
use tlcheck_record::{Head, LineError, is_blank, read_head, read_image_line, read_text};
use tlcheck_rules::Judge;

/// The lines from the first one on that says something.
fn said<'a, 'b>(lines: &'b [&'a [u8]]) -> &'b [&'a [u8]]
    ensures { texts result.now ≡ said (texts lines.now) }
{
    for (place, line) in lines.iter().enumerate() {
        if !is_blank(line) {
            return &lines[place..];
        }
    }
    &lines[lines.len()..]
}

/// The geometry and the order that a line writes, if it writes them.
fn head_of(alloc: Global, line: &[u8]) -> Result<Option<Head>, AllocError>
    ensures value { IfOk result (λ found. found ≡ head_of line.now) }
    ensures bytes { IfOk result
        (λ found. IfSome found
        (λ head. (0 < head.shape.block_bytes) × (head.shape.block_bytes ≤ BLOCK_BYTES))) }
    ensures blocks { IfOk result (λ found. IfSome found (λ head. head.shape.blocks ≤ BLOCKS)) }
{
    let Ok(text) = read_text(line) else {
        return Ok(None);
    };
    match read_head(alloc, text) {
        Ok(head) => Ok(Some(head)),
        Err(LineError::Wrong(_)) => Ok(None),
        Err(LineError::Memory) => Err(AllocError),
    }
}

/// The image that a line writes; no bytes where it writes none.
fn image_in(alloc: Global, shape: Shape, line: &[u8]) -> Result<Vec<u8>, AllocError> {
    let Ok(text) = read_text(line) else {
        return Ok(Vec::new(alloc));
    };
    match read_image_line(alloc, shape, text) {
        Ok(Some(image)) => Ok(image),
        Ok(None) | Err(LineError::Wrong(_)) => Ok(Vec::new(alloc)),
        Err(LineError::Memory) => Err(AllocError),
    }
}

/// A judge at reset over the image that the first of some lines writes that says something.
fn judge_over(alloc: Global, head: Head, lines: &[&[u8]]) -> Result<Judge, AllocError>
    requires bytes { (0 < head.shape.block_bytes) × (head.shape.block_bytes ≤ BLOCK_BYTES) }
    requires blocks { head.shape.blocks ≤ BLOCKS }
    ensures shape { IfOk result (λ judge. judge.plain.shape ≡ head.shape) }
    ensures order { IfOk result (λ judge. judge.order ≡ head.order) }
{
    let image = match said(lines) {
        [line, ..] => image_in(alloc, head.shape, line)?,
        [] => Vec::new(alloc),
    };
    Judge::new(alloc, head.order, head.shape, &image)
}

/// A judge at reset over the image of a record that begins with these lines, with the record's geometry and in its
/// order; None where they write none. The error is want of memory.
pub(crate) fn judge_of(alloc: Global, lines: &[&[u8]]) -> Result<Option<Judge>, AllocError>
    ensures { IfOk result
        (λ found. MatchOption found (record_head (texts lines.now) ≡ None)
        (λ judge. record_head (texts lines.now)
        ≡ Some (record { shape = judge.plain.shape; order = judge.order }))) }
{
    match said(lines) {
        [] => Ok(None),
        [line, rest @ ..] => match head_of(alloc, line)? {
            Some(head) => Ok(Some(judge_over(alloc, head, rest)?)),
            None => Ok(None),
        },
    }
}
