//! The entries of a record, read as they are asked for.
ghost use Rattle.std.specs.Prelude.{◌≡◌, ℕ, List, Option, Ok, IfOk, IfSome, MatchResult, is_some};
ghost use Rattle.std.specs.Io.BufRead.{strip_last};
ghost use Rattle.tlcheck_rules.specs.declared.entry.Entry.{Entry};
ghost use Rattle.tlcheck_record.specs.Words.{text_in};
ghost use Rattle.tlcheck_record.specs.declared.header.Head.{Head};
ghost use Rattle.tlcheck_reader.specs.Entries.{IsAmong, IsFirst, IsFit, IsFullNext, IsNext, IsNoLine, IsOpening, IsRead, IsUnreadHere, not_read, waiting};
ghost use Rattle.tlcheck_reader.specs.Reading.{Reading, going, next, shaped};
ghost use Rattle.tlcheck_reader.specs.declared.entries.ReadFault.TheVariants.{Memory};

use std::alloc::{AllocError, Global};
use std::io;
use std::io::{BufRead, ErrorKind};
use std::marker::Model;
use tlcheck_record::{
    Cause, Head, LineError, is_blank, read_entry, read_head, read_image_line, read_text,
};
use tlcheck_rules::Entry;

/// Why a record is not read on.
#[derive(Drop)]
pub enum ReadFault {
    /// This line, from 1 on, cannot be read, for this cause.
    Unreadable(u64, Cause),
    /// A request for memory was refused.
    Memory,
    /// The record could not be read to its end.
    File,
}

impl From<io::Error> for ReadFault {
    ghost from_gives = { λ _ fault. IsNoLine fault };

    fn from(error: io::Error) -> ReadFault {
        match error.kind() {
            ErrorKind::OutOfMemory => ReadFault::Memory,
            _ => ReadFault::File,
        }
    }
}

impl From<AllocError> for ReadFault {
    ghost from_gives = { λ _ fault. fault ≡ Memory };

    fn from(_error: AllocError) -> ReadFault {
        ReadFault::Memory
    }
}

/// The entries of a record behind those that were read. One line is in memory.
#[derive(Drop)]
pub struct Entries {
    line: Vec<u8>,
    number: u64,
    first: Option<Entry>,
}

impl Model for Entries {
    ghost use Rattle.tlcheck_reader.specs.EntriesState.{EntriesState};

    ghost Value = { EntriesState };

    ghost view = { λ entries. record { number = entries.number; first = entries.first } };
}

/// What a record says before its entries.
#[derive(Drop)]
pub struct Opening {
    /// The geometry, and the order of a channel's messages.
    pub head: Head,
    /// The first bytes of the memory; no bytes where the record has no image.
    pub image: Vec<u8>,
    /// Its entries.
    pub entries: Entries,
}

/// A line with this number could not be read, or there was no memory.
fn unread(number: u64, error: LineError) -> ReadFault
    ensures { result ≡ not_read number error }
{
    match error {
        LineError::Wrong(cause) => ReadFault::Unreadable(number, cause),
        LineError::Memory => ReadFault::Memory,
    }
}

/// A line without the line feed at its end.
fn text_of(line: &[u8]) -> &[u8]
    ensures { result.now ≡ strip_last 10 line.now }
{
    if line.len() > 0 && line[line.len() - 1] == b'\n' {
        &line[..line.len() - 1]
    } else {
        line
    }
}

/// The words of the line with this number.
fn words_of(line: &[u8], number: u64) -> Result<&str, ReadFault>
    ensures { MatchResult result (λ words. text_in (strip_last 10 line.now) ≡ Ok words.now)
        (IsUnreadHere number (text_in (strip_last 10 line.now))) }
{
    read_text(text_of(line)).map_err(|cause| ReadFault::Unreadable(number, cause))
}

/// Reads the next line that is not blank behind the first so many, and answers its number; None where there is none.
fn full_line<R: BufRead>(
    reader: &mut R,
    line: &mut Vec<u8>,
    lines: u64,
) -> Result<Option<u64>, ReadFault>
    ensures { (known : Option (List ℕ)) (reading : Reading) → IsRead known (R.remaining reader.old) lines reading
        → IsFullNext known (R.remaining reader.new) reading line.new.items result }
{
    for before in lines..u64::MAX {
        line.clear();
        reader.read_until(b'\n', line)?;
        if line.is_empty() {
            return Ok(None);
        }
        if !is_blank(text_of(line)) {
            return Ok(Some(before + 1));
        }
    }
    Err(ReadFault::File)
}

/// Reads the first line of a record, and answers its number and what it says; None where each line is blank.
fn first_line<R: BufRead>(
    alloc: Global,
    reader: &mut R,
    line: &mut Vec<u8>,
) -> Result<Option<(u64, Head)>, ReadFault>
    ensures first { IsFirst (R.remaining reader.old) (R.remaining reader.new) result }
    ensures fit { IfOk result (λ found. IfSome found (λ first. IsFit first.1)) }
{
    let Some(number) = full_line(reader, line, 0)? else {
        return Ok(None);
    };
    let head = read_head(alloc, words_of(line, number)?).map_err(|error| unread(number, error))?;
    Ok(Some((number, head)))
}

/// The image that the second line writes or, where it writes none, no bytes and the first entry.
fn second_line(
    alloc: Global,
    head: Head,
    words: &str,
    number: u64,
) -> Result<(Vec<u8>, Option<Entry>), ReadFault>
    ensures { MatchResult result
        (λ found. next (shaped head) words.now ≡ Ok (going head found.0.items (waiting found.1)))
        (IsUnreadHere number (next (shaped head) words.now)) }
{
    let image = read_image_line(alloc, head.shape, words).map_err(|error| unread(number, error))?;
    if let Some(image) = image {
        return Ok((image, None));
    }
    let entry = read_entry(alloc, words).map_err(|error| unread(number, error))?;
    Ok((Vec::new(alloc), Some(entry)))
}

impl Entries {
    /// Opens a record, and answers what it says before its entries; None where there is no geometry, or neither image
    /// nor entry. `Unreadable` with the line that cannot be read, `Memory` where memory is refused, `File` where the
    /// record cannot be read.
    pub fn open<R: BufRead>(alloc: Global, reader: &mut R) -> Result<Option<Opening>, ReadFault>
        ensures opens { IsOpening (R.remaining reader.old) (R.remaining reader.new) result }
        ensures fit { IfOk result (λ found. IfSome found (λ opening. IsFit opening.head)) }
    {
        let mut line = Vec::new(alloc);
        let Some((lines, head)) = first_line(alloc, reader, &mut line)? else {
            return Ok(None);
        };
        let Some(number) = full_line(reader, &mut line, lines)? else {
            return Ok(None);
        };
        let (image, first) = second_line(alloc, head, words_of(&line, number)?, number)?;
        Ok(Some(Opening {
            head,
            image,
            entries: Entries {
                line,
                number,
                first,
            },
        }))
    }

    /// The number of the line, from 1 on, of the entry that was read last.
    pub fn number(&self) -> u64
        ensures { result ≡ self.now.number }
    {
        self.number
    }

    /// Whether an entry was read that was not given out: the first, where the record has no image.
    pub fn waits(&self) -> bool
        ensures { result ≡ is_some self.now.first }
    {
        self.first.is_some()
    }

    /// Reads the next entry; None at the record's end. `Unreadable` with the line that cannot be read, `Memory` where
    /// memory is refused, `File` where the record cannot be read to its end. Nothing is promised of a call after None
    /// or an error.
    pub fn next<R: BufRead>(
        &mut self,
        alloc: Global,
        reader: &mut R,
    ) -> Result<Option<Entry>, ReadFault>
        ensures { (known : Option (List ℕ)) (head : Head) (image : List ℕ) (entries : List Entry)
            → IsAmong known (R.remaining reader.old) self.old head image entries
            → IsNext known (R.remaining reader.new) self.new head image entries result }
    {
        if let Some(entry) = self.first.take() {
            return Ok(Some(entry));
        }
        let Some(number) = full_line(reader, &mut self.line, self.number)? else {
            return Ok(None);
        };
        self.number = number;
        let entry = read_entry(alloc, words_of(&self.line, number)?).map_err(|error| unread(
            number, error,
        ))?;
        Ok(Some(entry))
    }
}
