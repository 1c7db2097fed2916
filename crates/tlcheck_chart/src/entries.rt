//! The entries of a block.
ghost use Rattle.std.specs.Prelude.{◌≡◌, ◌<◌, IfOk, is_some, map};
ghost use Rattle.tl_script_words.specs.Words.{texts};
ghost use Rattle.tlcheck_chart.specs.Rows.{numbers_of, writes};

use std::alloc::{AllocError, Global};
use tl_rules::Shape;
use tlcheck_record::{LineError, read_entry, read_text};
use tlcheck_rules::Entry;

/// An entry, with the number of its line.
#[derive(Drop)]
pub(crate) struct Numbered {
    pub(crate) number: u64,
    pub(crate) entry: Entry,
}

/// The entry of a block that a line writes, if it writes one.
fn entry_in(
    alloc: Global,
    line: &[u8],
    shape: Shape,
    block: u32,
) -> Result<Option<Entry>, AllocError>
    requires { 0 < shape.block_bytes }
    ensures { IfOk result (λ found. is_some found ≡ writes shape block line.now) }
{
    let Ok(text) = read_text(line) else {
        return Ok(None);
    };
    match read_entry(alloc, text) {
        Ok(entry) => {
            if entry.event.block(shape) == block {
                Ok(Some(entry))
            } else {
                Ok(None)
            }
        }
        Err(LineError::Wrong(_)) => Ok(None),
        Err(LineError::Memory) => Err(AllocError),
    }
}

/// The entries of a block that some lines write, which are the first of a record. The error is want of memory.
pub(crate) fn entries_of(
    alloc: Global,
    lines: &[&[u8]],
    shape: Shape,
    block: u32,
) -> Result<Vec<Numbered>, AllocError>
    requires { 0 < shape.block_bytes }
    ensures { IfOk result
        (λ entries. map (λ numbered. numbered.number) entries.items
        ≡ numbers_of shape block 1 (texts lines.now)) }
{
    let mut entries = Vec::new(alloc);
    for (place, line) in lines.iter().enumerate() {
        if let Some(entry) = entry_in(alloc, line, shape, block)? {
            let number = place as u64 + 1;
            entries.push(Numbered { number, entry })?;
        }
    }
    Ok(entries)
}
