//! What a check answers.
ghost use Rattle.std.specs.Prelude.{◌≡◌};
ghost use Rattle.tlcheck_reader.specs.Outcome.{broken_at};

use tlcheck_record::Cause;
use tlcheck_rules::{Breach, Entry, Judge};

/// The first entry that is not permitted.
#[derive(Drop)]
pub struct BrokenEntry {
    /// The judge of the entries before it, which are permitted.
    pub judge: Judge,
    /// The block that it is of.
    pub block: u32,
    /// Its number among the entries, from 1 on.
    pub number: u64,
    /// What it breaks.
    pub breach: Breach,
}

/// What a check says of a record.
#[derive(Drop)]
pub enum Outcome {
    /// Each of so many entries is permitted; the judge is where they lead.
    Lawful(Judge, u64),
    /// On this line, from 1 on, stands the first entry that is not permitted.
    Broken(u64, BrokenEntry),
    /// This line cannot be read, for this cause.
    Unreadable(u64, Cause),
    /// There is no geometry, or neither image nor entry.
    Empty,
}

/// An entry that breaks something, with the judge of those before it and its number among the entries.
pub fn broken(judge: Judge, entry: &Entry, number: u64, breach: Breach) -> BrokenEntry
    ensures { result ≡ broken_at judge entry.now number breach }
{
    let block = entry.event.block(judge.plain().shape());
    BrokenEntry {
        judge,
        block,
        number,
        breach,
    }
}
