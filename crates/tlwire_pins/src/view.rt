//! What a client holds of a block and waits for.
ghost use Rattle.std.specs.Prelude.{◌≡◌, ◌≢◌, ◌↔◌, ◌+◌, ◌%◌, ◌<◌, ◌≤◌, IsTrue, IsNone, IfSome, length};
ghost use Rattle.tl_protocol.specs.Access.{FitsBlock, ReadsAs};
ghost use Rattle.tl_protocol.specs.Client.{bytes_or};
ghost use Rattle.tl_protocol.specs.Copy.{bytes_of, clean_copy, perm_of};
ghost use Rattle.tl_types.specs.Permission.{grant_perm};
ghost use Rattle.tlwire_pins.specs.Drops.{has_nothing, shows_nothing};
ghost use Rattle.tlwire_pins.specs.View.{BreaksAcquire, BreaksAnswer, BreaksAs, BreaksGiving, BreaksLine, BreaksLoad, BreaksRelease, BreaksStore, MayAcquire, MayAnswer, MayLine, MayRelease, MaySeeAs, after_line, after_message, as_shown, before_line, cap_to, fresh, is_clean, is_idle, line_bytes, may_drop, with_drop, with_stores};

use std::mem;
use tl_protocol::CachedCopy;
use tl_rules::Shape;
use tl_types::{
    AccessBytes, Awaited, BLOCK_BYTES, BlockBytes, Body, GrantCap, Kind, Perm, ProbeAnswer,
    ProbeCap, ProbeReport, Prune, Surrender, Upward,
};
use tlcheck_rules::{Breach, Rule, Shown, other_message};
use tlwire_search::Seen;

/// Whether somebody watched a client's core.
#[derive(Clone, Copy, Debug, PartialEq, Eq)]
pub enum Cores {
    /// Its loads and stores were seen.
    Watched,
    /// They were not.
    Unseen,
}

/// What of a client may stay unseen at its pins.
#[derive(Clone, Copy, PartialEq, Eq)]
pub struct Tap {
    /// Whether somebody watched its core.
    pub cores: Cores,
    /// Whether it may give up a clean copy without a word.
    pub drops: bool,
}

/// What a client holds of a block, and the answer that it waits for.
#[derive(Drop)]
pub struct View {
    pub held: CachedCopy,
    pub wait: Awaited,
}

/// Whether an access lies in one block.
fn fits(shape: Shape, address: u32, bytes: &AccessBytes) -> bool
    requires { (0 < shape.block_bytes) × (shape.block_bytes ≤ BLOCK_BYTES) }
    ensures { IsTrue result ↔ FitsBlock shape address bytes.now }
{
    let len = bytes.as_slice().len();
    0 < len
        && len <= 8
        && (address % shape.block_bytes) as usize + len <= shape.block_bytes as usize
}

/// The Probe that leaves a permission, where the copy had more.
fn cap_to(left: Perm) -> ProbeCap
    ensures { result ≡ cap_to left }
{
    match left {
        Perm::Branch => ProbeCap::ToB,
        Perm::None | Perm::Tip => ProbeCap::ToN,
    }
}

/// The bytes that came along, else one's own.
fn bytes_or(bytes: &Option<BlockBytes>, own: CachedCopy) -> BlockBytes
    ensures { result ≡ bytes_or bytes.now (bytes_of own) }
{
    match bytes {
        Some(bytes) => bytes.copied(),
        None => own.into_bytes(),
    }
}

/// The bytes that a line shows.
fn line_bytes(line: &Seen) -> Option<BlockBytes>
    ensures { result ≡ line_bytes line.now }
{
    match line {
        Seen::OnLink(_, _, message) => match &message.bytes {
            Some(bytes) => Some(bytes.copied()),
            None => None,
        },
        Seen::OnMemory(_, _) | Seen::Load(_, _, _) | Seen::Store(_, _, _) => None,
    }
}

/// Whether a client that sends such a message has nothing of the block.
pub(crate) fn has_nothing(kind: Kind) -> bool
    ensures { result ≡ has_nothing kind }
{
    match kind {
        Kind::AcquireBlock(grow) => grow.from() == Perm::None,
        Kind::ProbeAck(ProbeReport::NtoN) => true,
        _ => false,
    }
}

/// Whether a line shows that its client has nothing of the block.
fn shows_nothing(line: &Seen) -> bool
    ensures { result ≡ shows_nothing line.now }
{
    match line {
        Seen::OnLink(_, _, message) => has_nothing(message.kind),
        Seen::OnMemory(_, _) | Seen::Load(_, _, _) | Seen::Store(_, _, _) => false,
    }
}

/// Whether a copy is there and clean; where nobody watched the core, a Tip may be.
fn is_clean(cores: Cores, held: &CachedCopy) -> bool
    ensures { result ≡ is_clean cores held.now }
{
    match held {
        CachedCopy::Absent => false,
        CachedCopy::Readable(_) => true,
        CachedCopy::Writable(_, dirty) => match cores {
            Cores::Watched => !*dirty,
            Cores::Unseen => true,
        },
    }
}

/// A copy at Tip as stores may have left it where a message shows its bytes.
fn as_shown(held: CachedCopy, shown: Option<BlockBytes>) -> CachedCopy
    ensures { result ≡ as_shown held shown }
{
    match held {
        CachedCopy::Absent => CachedCopy::Absent,
        CachedCopy::Readable(bytes) => CachedCopy::Readable(bytes),
        CachedCopy::Writable(bytes, _) => match shown {
            Some(shown) => CachedCopy::Writable(shown, true),
            None => CachedCopy::Writable(bytes, false),
        },
    }
}

impl View {
    /// At reset a client holds nothing, and waits for nothing.
    pub fn fresh() -> View
        ensures { result ≡ fresh }
    {
        View {
            held: CachedCopy::Absent,
            wait: Awaited::Nothing,
        }
    }

    /// What an Acquire from a permission breaks.
    fn acquire_breach(&self, from: Perm) -> Option<Rule>
        ensures may { IsNone result ↔ MayAcquire self.now from }
        ensures breaks { IfSome result (BreaksAcquire self.now from) }
    {
        match self.wait {
            Awaited::ForGrant => Some(Rule::NoAcquireUnanswered),
            Awaited::ForReleaseAck => Some(Rule::NoReleaseUnanswered),
            Awaited::Nothing if self.held.perm() == from => None,
            Awaited::Nothing => Some(Rule::StartsFromItsCopy),
        }
    }

    /// Which rule a Release breaks.
    fn giving_breach(&self, from: Perm) -> Option<Rule>
        ensures may { IsNone result ↔ MayAcquire self.now from }
        ensures breaks { IfSome result (BreaksGiving self.now from) }
    {
        match self.wait {
            Awaited::ForGrant => Some(Rule::NoReleaseBesideAcquire),
            Awaited::ForReleaseAck => Some(Rule::NoReleaseUnanswered),
            Awaited::Nothing if self.held.perm() == from => None,
            Awaited::Nothing => Some(Rule::StartsFromItsCopy),
        }
    }

    /// What a Release breaks.
    fn release_breach(&self, prune: Prune, shown: &Shown) -> Option<Breach>
        ensures may { IsNone result ↔ MayRelease self.now prune shown.now }
        ensures breaks { IfSome result (BreaksRelease self.now prune shown.now) }
    {
        if let Some(rule) = self.giving_breach(prune.from()) {
            return Some(Breach::NotPermitted(rule));
        }
        let given = Surrender::of(prune, self.held.dirty_bytes());
        let sent = Body::Upward(Upward::Release(given));
        other_message(&sent, shown).map(Breach::NotAsShown)
    }

    /// What an answer to a Probe breaks.
    fn answer_breach(&self, left: Perm, shown: &Shown) -> Option<Breach>
        ensures may { IsNone result ↔ MayAnswer self.now (cap_to left) shown.now }
        ensures breaks { IfSome result (BreaksAnswer self.now (cap_to left) shown.now) }
    {
        if self.wait == Awaited::ForReleaseAck {
            return Some(Breach::NotPermitted(Rule::NoReleaseUnanswered));
        }
        let answer = ProbeAnswer::of(self.held.perm(), cap_to(left), self.held.dirty_bytes());
        let sent = Body::Upward(Upward::ProbeAck(answer));
        other_message(&sent, shown).map(Breach::NotAsShown)
    }

    /// What a message breaks.
    fn message_breach(&self, shown: &Shown) -> Option<Breach>
        ensures may { IsNone result ↔ MaySeeAs self.now shown.now shown.now.kind }
        ensures breaks { IfSome result (BreaksAs self.now shown.now shown.now.kind) }
    {
        match shown.kind {
            Kind::AcquireBlock(grow) => self.acquire_breach(grow.from()).map(Breach::NotPermitted),
            Kind::Release(prune) => self.release_breach(prune, shown),
            Kind::ReleaseData(prune) => self.release_breach(prune.prune(), shown),
            Kind::ProbeAck(report) => self.answer_breach(report.report().to(), shown),
            Kind::ProbeAckData(prune) => self.answer_breach(prune.prune().to(), shown),
            _ => None,
        }
    }

    /// What a load breaks.
    fn load_breach(&self, shape: Shape, address: u32, bytes: &AccessBytes) -> Option<Rule>
        requires { (0 < shape.block_bytes) × (shape.block_bytes ≤ BLOCK_BYTES) }
        ensures may { IsNone result ↔ (FitsBlock shape address bytes.now × (perm_of self.now.held ≢ Perm.None)
            × ReadsAs (bytes_of self.now.held) (address % shape.block_bytes) bytes.now) }
        ensures breaks { IfSome result (BreaksLoad shape self.now address bytes.now) }
    {
        if !fits(shape, address, bytes) {
            return Some(Rule::AccessFits);
        }
        if self.held.perm() == Perm::None {
            return Some(Rule::CopyIsReadable);
        }
        if self.held.reads_as(address % shape.block_bytes, bytes) {
            None
        } else {
            Some(Rule::LoadHasItsBytes)
        }
    }

    /// What a store breaks.
    fn store_breach(&self, shape: Shape, address: u32, bytes: &AccessBytes) -> Option<Rule>
        requires { (0 < shape.block_bytes) × (shape.block_bytes ≤ BLOCK_BYTES) }
        ensures may { IsNone result ↔ (FitsBlock shape address bytes.now × (perm_of self.now.held ≡ Perm.Tip)) }
        ensures breaks { IfSome result (BreaksStore shape self.now address bytes.now) }
    {
        if !fits(shape, address, bytes) {
            return Some(Rule::AccessFits);
        }
        if self.held.perm() == Perm::Tip {
            None
        } else {
            Some(Rule::CopyIsWritable)
        }
    }

    /// What a line breaks that may not be seen of such a client next; None where it may.
    pub fn breach(&self, shape: Shape, line: &Seen) -> Option<Breach>
        requires { (0 < shape.block_bytes) × (shape.block_bytes ≤ BLOCK_BYTES) }
        ensures may { IsNone result ↔ MayLine shape self.now line.now }
        ensures breaks { IfSome result (BreaksLine shape self.now line.now) }
    {
        match line {
            Seen::OnLink(_, _, message) => self.message_breach(message),
            Seen::OnMemory(_, _) => None,
            Seen::Load(_, address, bytes) => self
                .load_breach(shape, *address, bytes)
                .map(Breach::NotPermitted),
            Seen::Store(_, address, bytes) => self
                .store_breach(shape, *address, bytes)
                .map(Breach::NotPermitted),
        }
    }

    /// The client takes a Grant.
    fn take_grant(&mut self, cap: GrantCap, bytes: &Option<BlockBytes>)
        ensures { self.new
            ≡ record { held = clean_copy (grant_perm cap) (bytes_or bytes.now (bytes_of self.old.held)); wait = Awaited.Nothing } }
    {
        let held = mem::replace(&mut self.held, CachedCopy::Absent);
        self.held = CachedCopy::clean(cap.perm(), bytes_or(bytes, held));
        self.wait = Awaited::Nothing;
    }

    /// Such a message is sent or taken.
    fn see(&mut self, message: &Shown)
        ensures { self.new ≡ after_message self.old message.now.kind message.now.bytes }
    {
        match message.kind {
            Kind::AcquireBlock(_) => self.wait = Awaited::ForGrant,
            Kind::Release(prune) => {
                self.held.reduce(prune.to());
                self.wait = Awaited::ForReleaseAck;
            }
            Kind::ReleaseData(prune) => {
                self.held.reduce(prune.prune().to());
                self.wait = Awaited::ForReleaseAck;
            }
            Kind::ProbeAck(report) => self.held.reduce(report.report().to()),
            Kind::ProbeAckData(prune) => self.held.reduce(prune.prune().to()),
            Kind::Grant(cap) | Kind::GrantData(cap) => self.take_grant(cap, &message.bytes),
            Kind::ReleaseAck => self.wait = Awaited::Nothing,
            _ => {}
        }
    }

    /// Where nobody watched the client's core, the stores are made that a line shows.
    fn store_unseen(&mut self, cores: Cores, line: &Seen)
        ensures { self.new ≡ with_stores cores self.old line.now }
    {
        match cores {
            Cores::Watched => {}
            Cores::Unseen => {
                let held = mem::replace(&mut self.held, CachedCopy::Absent);
                self.held = as_shown(held, line_bytes(line));
            }
        }
    }

    /// Whether the client may give up its copy without a word.
    pub(crate) fn may_drop(&self, cores: Cores) -> bool
        ensures { result ≡ may_drop cores self.now }
    {
        self.wait == Awaited::Nothing && is_clean(cores, &self.held)
    }

    /// Before a line that shows that the client has nothing, one that drops clean copies drops its own.
    fn drop_unseen(&mut self, tap: Tap, line: &Seen)
        ensures { self.new ≡ with_drop tap self.old line.now }
    {
        if tap.drops && (shows_nothing(line) && self.may_drop(tap.cores)) {
            self.held = CachedCopy::Absent;
        }
    }

    /// What nobody saw before a line happens: a drop, and stores.
    pub fn pass_unseen(&mut self, tap: Tap, line: &Seen)
        ensures { self.new ≡ before_line tap self.old line.now }
    {
        self.drop_unseen(tap, line);
        self.store_unseen(tap.cores, line);
    }

    /// The line is seen, where it may be.
    pub fn line(&mut self, shape: Shape, line: &Seen)
        requires bytes { (0 < shape.block_bytes) × (shape.block_bytes ≤ BLOCK_BYTES) }
        requires may { MayLine shape self.old line.now }
        ensures { self.new ≡ after_line shape self.old line.now }
    {
        match line {
            Seen::OnLink(_, _, message) => self.see(message),
            Seen::OnMemory(_, _) | Seen::Load(_, _, _) => {}
            Seen::Store(_, address, bytes) => {
                self.held
                    .store((*address % shape.block_bytes) as usize, bytes);
            }
        }
    }
}
