//! A judge that a bench hands entries, one after another.
ghost use Rattle.std.specs.Prelude.{◌≡◌, ◌<◌, ◌≤◌, IfOk, None, Some};

use crate::entry::BenchEntry;
use crate::verdict::{Verdict, breach_told, with_state};
use std::alloc::{AllocError, Global};
use tl_rules::Shape;
use tl_types::{BLOCK_BYTES, BLOCKS};
use tlcheck_rules::{ChannelOrder, Entry, Judge, Refusal};

/// Where the entries so far lead, until one is not permitted.
#[derive(Drop)]
pub struct Bench {
    judge: Judge,
    fault: Option<Verdict>,
}

impl Bench {
    ghost use Rattle.tlcheck_embed.specs.Sees.{IsFresh, Judges, Sees, SeesAt, kept};

    /// A judge at reset over an image, in an order of the channels. The error is want of memory.
    pub fn new(
        alloc: Global,
        order: ChannelOrder,
        shape: Shape,
        image: &[u8],
    ) -> Result<Bench, AllocError>
        requires bytes { (0 < shape.block_bytes) × (shape.block_bytes ≤ BLOCK_BYTES) }
        requires blocks { shape.blocks ≤ BLOCKS }
        ensures { IfOk result (λ b. IsFresh order shape image.now b) }
    {
        let judge = Judge::new(alloc, order, shape, image)?;
        Ok(Bench { judge, fault: None })
    }

    /// Takes the next entry, if it is permitted after those before it; else it tells what the entry breaks, and each
    /// later call tells that again.
    pub fn see(&mut self, seen: &BenchEntry) -> Verdict
        ensures { Sees self.old seen.now self.new result }
    {
        match self.fault {
            Some(fault) => fault,
            None => self.see_entry(seen),
        }
    }

    /// The same where no entry was refused before.
    fn see_entry(&mut self, seen: &BenchEntry) -> Verdict
        requires { self.old.fault ≡ None }
        ensures { SeesAt None self.old seen.now self.new result }
    {
        match seen.entry() {
            None => Verdict::only(17),
            Some(entry) => self.judge_entry(&entry),
        }
    }

    /// The same of an entry.
    fn judge_entry(&mut self, entry: &Entry) -> Verdict
        requires { self.old.fault ≡ None }
        ensures { Judges self.old entry.now self.new result }
    {
        match self.judge.step(entry) {
            Ok(()) => with_state(&self.judge, &entry.event, Verdict::only(0)),
            Err(Refusal::Broken(breach)) => {
                let told = with_state(&self.judge, &entry.event, breach_told(&breach));
                self.keep(told)
            }
            Err(Refusal::Memory) => self.keep(Verdict::only(14)),
        }
    }

    /// Keeps what each later call tells.
    fn keep(&mut self, told: Verdict) -> Verdict
        ensures kept { self.new ≡ kept self.old told }
        ensures told { result ≡ told }
    {
        self.fault = Some(told);
        told
    }
}
