//! The entries of a record that a page shows: the last so many up to its verdict.
ghost use Rattle.std.specs.Prelude.{◌≡◌, ◌<◌, ℕ, List, [], IfOk, IfErr, OnOk, None, Some, false};
ghost use Rattle.tlcheck_rules.specs.Judged.{Follows};
ghost use Rattle.tlcheck_record.specs.declared.header.Head.{Head};
ghost use Rattle.tlcheck_reader.specs.Entries.{IsAmong, IsFit};
ghost use Rattle.tlchart_record.specs.Film.{IsSomewhere};
ghost use Rattle.tlchart_record.specs.Window.{HasEntries, IsWindow, Shows, Takes, fault_of};
ghost use Rattle.tlchart_record.specs.declared.window.WindowFault.TheVariants as fault;
ghost use Rattle.tlchart_record.specs.declared.window.WindowFault.TheVariants.{Line};

use crate::film::play;
use std::alloc::{AllocError, Global};
use std::io::BufRead;
use tl_rules::Shape;
use tlcheck_chart::{Serials, turn_of};
use tlcheck_reader::{Entries, ReadFault};
use tlcheck_record::Head;
use tlcheck_rules::{Entry, Judge};

/// An entry, and the number of its line from 1 on.
#[derive(Drop)]
pub struct Written {
    pub line: u64,
    pub entry: Entry,
}

/// The entries of a record that a page shows, the judge of those before them, and the messages that these left on the
/// channels.
#[derive(Drop)]
pub struct Window {
    pub judge: Judge,
    pub serials: Serials,
    pub entries: Vec<Written>,
}

/// Why there is no window. A record that was checked has one, where there is memory.
#[derive(Clone, Copy, PartialEq, Eq)]
pub enum WindowFault {
    /// A request for memory was refused.
    Memory,
    /// A line is not as it was checked.
    Line,
}

impl From<AllocError> for WindowFault {
    ghost from_gives = { λ _ e. e ≡ fault.Memory };

    fn from(_error: AllocError) -> WindowFault {
        WindowFault::Memory
    }
}

impl From<ReadFault> for WindowFault {
    ghost from_gives = { λ error e. e ≡ fault_of error };

    fn from(error: ReadFault) -> WindowFault {
        match error {
            ReadFault::Unreadable(_, _) => WindowFault::Line,
            ReadFault::Memory | ReadFault::File => WindowFault::Memory,
        }
    }
}

/// Takes an entry before the window.
fn pass(window: &mut Window, entry: &Entry) -> Result<(), AllocError>
    ensures { OnOk result (Takes false 0 entry.now window.old window.new) }
{
    let _turn = turn_of(&window.judge, &mut window.serials, entry)?;
    play(&mut window.judge, entry)?;
    Ok(())
}

/// Keeps an entry of the window with the number of its line; one before it the judge takes.
fn take(window: &mut Window, line: u64, entry: Entry, is_shown: bool) -> Result<(), AllocError>
    ensures { OnOk result (Takes is_shown line entry window.old window.new) }
{
    if is_shown {
        window.entries.push(Written { line, entry })?;
        return Ok(());
    }
    pass(window, &entry)
}

/// A window with no entry yet, over an image.
fn open(alloc: Global, head: Head, image: &[u8]) -> Result<Window, AllocError>
    requires { IsFit head }
    ensures { IfOk result
        (λ window. Follows head.order head.shape image.now [] window.judge × (window.entries.items ≡ [])) }
{
    Ok(Window {
        judge: Judge::new(alloc, head.order, head.shape, image)?,
        serials: Serials::new(alloc),
        entries: Vec::new(alloc),
    })
}

/// Takes so many entries of a record into a window that has none; those behind the first `before` are shown.
fn take_entries<R: BufRead>(
    alloc: Global,
    reader: &mut R,
    mut entries: Entries,
    mut window: Window,
    before: u64,
    count: u64,
) -> Result<Window, WindowFault>
    ensures window { (text : List ℕ) (head : Head) (image : List ℕ)
        → IsAmong (Some text) (R.remaining reader.old) entries head image [] → (count ≡ 0 → entries.first ≡ None)
        → Shows text before head image [] window → IfOk result (λ window. IsWindow text before count window) }
    ensures fault { (text : List ℕ) (head : Head) (image : List ℕ)
        → IsAmong (Some text) (R.remaining reader.old) entries head image []
        → IfErr result (λ fault. fault ≡ Line → HasEntries text count → ⊥) }
{
    for taken in 0..count {
        let Some(entry) = entries.next(alloc, reader)? else {
            return Err(WindowFault::Line);
        };
        take(&mut window, entries.number(), entry, before <= taken)?;
    }
    Ok(window)
}

/// The first `count` entries of a record without the first `before`, which the judge has taken, each with the number of
/// its line. `Line` where no first lines of the record write so many entries, `Memory` where memory is refused.
pub fn window_of(
    alloc: Global,
    bytes: &[u8],
    before: u64,
    count: u64,
) -> Result<Window, WindowFault>
    ensures window { IfOk result (λ window. IsWindow bytes.now before count window) }
    ensures fault { IfErr result (λ fault. fault ≡ Line → HasEntries bytes.now count → ⊥) }
    ensures somewhere { IfOk result (λ window. IsSomewhere window.judge) }
{
    let mut reader = bytes;
    let Some(opening) = Entries::open(alloc, &mut reader)? else {
        return Err(WindowFault::Line);
    };
    if count == 0 && opening.entries.waits() {
        return Err(WindowFault::Line);
    }
    let window = open(alloc, opening.head, &opening.image)?;
    take_entries(alloc, &mut reader, opening.entries, window, before, count)
}

/// The blocks of the memory that some entries are of, by rising number, each once.
pub(crate) fn blocks_of(
    alloc: Global,
    shape: Shape,
    entries: &[Written],
) -> Result<Vec<u32>, AllocError>
    requires { 0 < shape.block_bytes }
{
    let mut numbers = Vec::new(alloc);
    for written in entries {
        let block = written.entry.event.block(shape);
        if block < shape.blocks {
            numbers.push(block)?;
        }
    }
    numbers.sort()?;
    each_once(alloc, &numbers)
}

/// Numbers that rise, each once.
fn each_once(alloc: Global, numbers: &[u32]) -> Result<Vec<u32>, AllocError> {
    let mut found = Vec::new(alloc);
    let mut last = None;
    for number in numbers {
        if last != Some(*number) {
            found.push(*number)?;
            last = Some(*number);
        }
    }
    Ok(found)
}
