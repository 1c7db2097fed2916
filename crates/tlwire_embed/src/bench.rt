//! A judge at a client's pins that a bench hands lines, one after another.
ghost use Rattle.std.specs.Prelude.{◌≡◌, ◌<◌, ◌≤◌, None, Some};

use crate::line::PinsLine;
use crate::verdict::{PinsVerdict, broken_told, with_state};
use std::alloc::{AllocError, Global};
use tl_rules::Shape;
use tl_types::{BLOCK_BYTES, BlockNo, ClientId};
use tlwire_pins::{Cores, PinsJudge};
use tlwire_search::{Seen, block_of};

/// Where the lines so far lead, until one may not be seen.
#[derive(Drop)]
pub struct PinsBench {
    judge: PinsJudge,
    fault: Option<PinsVerdict>,
}

impl PinsBench {
    ghost use Rattle.tlwire_embed.specs.Sees.{IsFresh, Judges, Sees, SeesAt, state_told};

    /// A judge at the pins of a client, whose core is watched or not, that saw no line yet.
    pub fn new(alloc: Global, shape: Shape, client: ClientId, cores: Cores) -> PinsBench
        requires { (0 < shape.block_bytes) × (shape.block_bytes ≤ BLOCK_BYTES) }
        ensures { IsFresh cores shape client result }
    {
        PinsBench {
            judge: PinsJudge::new(alloc, shape, client, cores),
            fault: None,
        }
    }

    /// Takes the next line, if it may be seen after those before it; else it tells what the line breaks, and each later
    /// call tells that again.
    pub fn see(&mut self, seen: &PinsLine) -> PinsVerdict
        ensures { Sees self.old seen.now self.new result }
    {
        match self.fault {
            Some(fault) => fault,
            None => self.see_line(seen),
        }
    }

    /// The same where no line was refused before.
    fn see_line(&mut self, seen: &PinsLine) -> PinsVerdict
        requires { self.old.fault ≡ None }
        ensures { SeesAt None self.old seen.now self.new result }
    {
        match seen.line(self.judge.cores(), self.judge.shape()) {
            None => PinsVerdict::only(17),
            Some(line) => self.judge_line(&line),
        }
    }

    /// The same of a line.
    fn judge_line(&mut self, line: &Seen) -> PinsVerdict
        requires { self.old.fault ≡ None }
        ensures { Judges self.old line.now self.new result }
    {
        match self.judge.step(line) {
            Ok(None) => self.state_told(line),
            Ok(Some(broken)) => self.keep(broken_told(&broken)),
            Err(AllocError) => self.keep(PinsVerdict::only(14)),
        }
    }

    /// A line may be seen, and what the client may do with its block behind it.
    fn state_told(&self, line: &Seen) -> PinsVerdict
        ensures { result ≡ state_told self.now.judge line.now }
    {
        let block = BlockNo::new(block_of(self.judge.shape(), line));
        let (perm, wait) = self.judge.state(block);
        with_state(perm, wait, PinsVerdict::only(0))
    }

    /// Keeps what each later call tells.
    fn keep(&mut self, told: PinsVerdict) -> PinsVerdict
        ensures kept { self.new.fault ≡ Some told }
        ensures told { result ≡ told }
    {
        self.fault = Some(told);
        told
    }
}
