//! What both formats have: lines as texts, numbers, addresses, bytes, the image.
ghost use Rattle.std.specs.Prelude.{◌≡◌, Ok, Err, MatchResult};
ghost use Rattle.tl_script_words.specs.Words.{texts};
ghost use Rattle.tlcheck_record.specs.Cause.{Gives};
ghost use Rattle.tlcheck_record.specs.Words.{access_bytes_in, address_in, block_bytes_in, fitted, grow_in, has_mark, has_return, image_in, is_blank, number_in, prune_in, text_in};

use crate::cause::{Cause, LineError};
use std::alloc::Global;
use tl_rules::Shape;
use tl_script_words::{
    ParseError, parse_access, parse_address, parse_block, parse_bytes, parse_grow, parse_number,
    parse_prune,
};
use tl_types::{AccessBytes, BlockBytes, Grow, Prune};

/// Whether a line says nothing: it is empty, or begins with `#`.
pub fn is_blank(line: &[u8]) -> bool
    ensures { result ≡ is_blank line.now }
{
    line.is_empty() || line[0] == b'#'
}

/// Whether a line begins with a byte order mark.
fn has_mark(line: &[u8]) -> bool
    ensures { result ≡ has_mark line.now }
{
    3 <= line.len() && line[0] == 0xef && line[1] == 0xbb && line[2] == 0xbf
}

/// Whether a line has a carriage return before its line feed.
fn has_return(line: &[u8]) -> bool
    ensures { result ≡ has_return line.now }
{
    1 <= line.len() && line[line.len() - 1] == b'\r'
}

/// The text of a line, without its line feed. `Mark` where it begins with a byte order mark, then `LineEnd` where it
/// ends with a carriage return, then `Text` where it is no UTF-8.
pub fn read_text(line: &[u8]) -> Result<&str, Cause>
    ensures { MatchResult result (λ text. text_in line.now ≡ Ok text.now) (λ cause. text_in line.now ≡ Err cause) }
{
    if has_mark(line) {
        return Err(Cause::Mark);
    }
    if has_return(line) {
        return Err(Cause::LineEnd);
    }
    match std::str::from_utf8(line) {
        Ok(text) => Ok(text),
        Err(_) => Err(Cause::Text),
    }
}

/// A number in its place; `Number` where the text is none.
pub fn read_number(text: &str) -> Result<u32, Cause>
    ensures { result ≡ number_in text.now }
{
    parse_number(text).ok_or(Cause::Number)
}

/// An address in its place; `Number` where the text is none.
pub(crate) fn read_address(text: &str) -> Result<u32, Cause>
    ensures { result ≡ address_in text.now }
{
    parse_address(text).ok_or(Cause::Number)
}

/// The bytes of an access, one to eight; `Bytes` where the text is none.
pub fn read_access(text: &str) -> Result<AccessBytes, Cause>
    ensures { result ≡ access_bytes_in text.now }
{
    parse_access(text).ok_or(Cause::Bytes)
}

/// The bytes of a block, at most 64; `Bytes` where the text is none.
pub fn read_block_bytes(text: &str) -> Result<BlockBytes, Cause>
    ensures { result ≡ block_bytes_in text.now }
{
    parse_block(text).ok_or(Cause::Bytes)
}

/// What an Acquire asks for.
pub(crate) fn read_grow(text: &str) -> Result<Grow, LineError>
    ensures { Gives (λ x. x) result (grow_in text.now) }
{
    match parse_grow(text) {
        Ok(grow) => Ok(grow),
        Err(ParseError::Malformed) => Err(LineError::Wrong(Cause::Param)),
        Err(ParseError::Memory) => Err(LineError::Memory),
    }
}

/// What a Release gives up.
pub(crate) fn read_prune(text: &str) -> Result<Prune, LineError>
    ensures { Gives (λ x. x) result (prune_in text.now) }
{
    match parse_prune(text) {
        Ok(prune) => Ok(prune),
        Err(ParseError::Malformed) => Err(LineError::Wrong(Cause::Param)),
        Err(ParseError::Memory) => Err(LineError::Memory),
    }
}

/// Why an image is none of a memory, if it is none.
fn fitted(shape: Shape, image: Vec<u8>) -> Result<Vec<u8>, LineError>
    ensures { Gives (λ x. x.items) result (fitted shape image.items) }
{
    if image.is_empty() {
        return Err(LineError::Wrong(Cause::NoImage));
    }
    if shape.block_bytes as usize * (shape.blocks as usize) < image.len() {
        return Err(LineError::Wrong(Cause::LongImage));
    }
    Ok(image)
}

/// The image of a memory that some words write: `HEX`, behind the word `image`. `Wrong` with the cause where they write
/// none of a memory of this shape, `Memory` where memory is refused.
#[tactic(auto, unfolding(crate::specs::Words::image_in))]
pub fn read_image(alloc: Global, shape: Shape, words: &[&str]) -> Result<Vec<u8>, LineError>
    ensures { Gives (λ x. x.items) result (image_in shape (texts words.now)) }
{
    match *words {
        [] => Err(LineError::Wrong(Cause::NoImage)),
        [bytes] => fitted(shape, parse_bytes(alloc, bytes)?),
        _ => Err(LineError::Wrong(Cause::MoreWords)),
    }
}
