//! A client, as home and the client itself see it, for one block.
ghost use Rattle.std.specs.Prelude.{◌≡◌, ◌↔◌, ◌<◌, ◌≤◌, ◌+◌, IsTrue, OnOk, OnErr, IfOk, length, MatchOption, [], ◌∷◌};
ghost use Rattle.std.specs.List.{list_any};
ghost use Rattle.tl_protocol.specs.Access.{MayLoad, MayStore};
ghost use Rattle.tl_types.specs.Message.{is_probe_ack, is_grant};
ghost use Rattle.tl_protocol.specs.Client.{fresh_client, MaySendAcquire, MaySendRelease, MayAnswerProbe, MayTakeGrant, MayTakeReleaseAck, MayTakeA, MayTakeC, NoProbePending, NoGrantPending, stored, sent_acquire, released, answered, took_grant, took_release_ack, sent_probe, took_grant_ack, sent_grant, first_bytes, took_c_from};

use crate::copy::CachedCopy;
use crate::event::Access;
use crate::queue::{AckCount, Queue};
use crate::same::Same;
use crate::shape::Shape;
use std::alloc::{AllocError, Global};
use std::mem;
use tl_types::{
    AccessBytes, Awaited, BLOCK_BYTES, BlockBytes, Downward, GrantCap, Grow, Perm, ProbeAnswer,
    ProbeCap, Prune, Surrender, Upward,
};

/// A client, the permission that home records for it, and the messages between them, oldest first.
#[derive(Drop)]
pub struct Client {
    /// Its copy.
    pub held: CachedCopy,
    /// The answer that it waits for.
    pub wait: Awaited,
    /// The permission that home records for it.
    pub recorded: Perm,
    /// Acquires, from the client.
    pub a: Queue<Grow>,
    /// Probes, to the client.
    pub b: Queue<ProbeCap>,
    /// Answers to Probes, and Releases, from the client.
    pub c: Queue<Upward>,
    /// Grants and ReleaseAcks, to the client.
    pub d: Queue<Downward>,
    /// GrantAcks, from the client.
    pub e: AckCount,
}

impl Client {
    /// A client that holds nothing.
    pub fn new(alloc: Global) -> Client
        ensures { result ≡ fresh_client }
    {
        Client {
            held: CachedCopy::Absent,
            wait: Awaited::Nothing,
            recorded: Perm::None,
            a: Queue::new(alloc),
            b: Queue::new(alloc),
            c: Queue::new(alloc),
            d: Queue::new(alloc),
            e: AckCount::new(alloc),
        }
    }

    /// A copy, with channels of its own. The error is want of memory.
    pub fn copied(&self, alloc: Global) -> Result<Client, AllocError>
        ensures { IfOk result (λ k. k ≡ self.now) }
    {
        Ok(Client {
            held: self.held.copied(),
            wait: self.wait,
            recorded: self.recorded,
            a: self.a.copied(alloc)?,
            b: self.b.copied(alloc)?,
            c: self.c.copied(alloc)?,
            d: self.d.copied(alloc)?,
            e: self.e.copied(alloc)?,
        })
    }

    /// Whether two are the same.
    pub fn is_same(&self, other: &Client) -> bool
        ensures { IsTrue result ↔ (self.now ≡ other.now) }
    {
        self.wait == other.wait
            && self.recorded == other.recorded
            && self.held.is_same(&other.held)
            && self.a.is_same(&other.a)
            && self.b.is_same(&other.b)
            && self.c.is_same(&other.c)
            && self.d.is_same(&other.d)
            && self.e.is_same(&other.e)
    }

    /// Whether it may load these bytes: it has a copy with them, and they lie in one block.
    pub fn may_load(&self, shape: Shape, access: &Access) -> bool
        requires { (0 < shape.block_bytes) × (shape.block_bytes ≤ BLOCK_BYTES) }
        ensures { IsTrue result ↔ MayLoad shape self.now access.now }
    {
        access.fits_block(shape)
            && self
                .held
                .reads_as(access.address % shape.block_bytes, &access.bytes)
    }

    /// Whether it may store: its copy is at Tip, and the bytes lie in one block.
    pub fn may_store(&self, shape: Shape, access: &Access) -> bool
        requires { (0 < shape.block_bytes) × (shape.block_bytes ≤ BLOCK_BYTES) }
        ensures { IsTrue result ↔ MayStore shape self.now access.now }
    {
        access.fits_block(shape) && self.held.perm() == Perm::Tip
    }

    /// Whether a GrantAck is on its way to home.
    pub fn may_take_grant_ack(&self) -> bool
        ensures { IsTrue result ↔ (0 < self.now.e) }
    {
        !self.e.is_empty()
    }

    /// Whether it may ask for more: it waits for nothing, and its copy has the permission that `grow` starts from.
    pub fn may_send_acquire(&self, grow: Grow) -> bool
        ensures { IsTrue result ↔ MaySendAcquire self.now grow }
    {
        self.wait == Awaited::Nothing && self.held.perm() == grow.from()
    }

    /// Whether it may give up: it waits for nothing, and its copy has the permission that `prune` starts from.
    pub fn may_send_release(&self, prune: Prune) -> bool
        ensures { IsTrue result ↔ MaySendRelease self.now prune }
    {
        self.wait == Awaited::Nothing && self.held.perm() == prune.from()
    }

    /// Whether it may answer a Probe: there is one, and no Release of its own waits for the answer.
    pub fn may_answer_probe(&self) -> bool
        ensures { IsTrue result ↔ MayAnswerProbe self.now }
    {
        self.b.has_first() && self.wait != Awaited::ForReleaseAck
    }

    /// Whether the first message on D is a Grant.
    pub fn may_take_grant(&self) -> bool
        ensures { IsTrue result ↔ MayTakeGrant self.now }
    {
        matches!(self.d.as_slice(), [Downward::Grant(_, _), ..])
    }

    /// Whether the first message on D is a ReleaseAck.
    pub fn may_take_release_ack(&self) -> bool
        ensures { IsTrue result ↔ MayTakeReleaseAck self.now }
    {
        matches!(self.d.as_slice(), [Downward::ReleaseAck, ..])
    }

    /// Whether an Acquire is on A.
    pub fn may_take_a(&self) -> bool
        ensures { IsTrue result ↔ MayTakeA self.now }
    {
        self.a.has_first()
    }

    /// Whether a message is on C.
    pub fn may_take_c(&self) -> bool
        ensures { IsTrue result ↔ MayTakeC self.now }
    {
        self.c.has_first()
    }

    /// Whether an answer to a Probe is on C.
    fn has_probe_ack(&self) -> bool
        ensures { result ≡ list_any is_probe_ack self.now.c }
    {
        self.c
            .as_slice()
            .iter()
            .any(|message| message.is_probe_ack())
    }

    /// Whether a Grant is on D.
    fn has_grant(&self) -> bool
        ensures { result ≡ list_any is_grant self.now.d }
    {
        self.d.as_slice().iter().any(|message| message.is_grant())
    }

    /// Whether no Probe is pending: none on its way, and no answer to one.
    pub fn has_no_probe(&self) -> bool
        ensures { IsTrue result ↔ NoProbePending self.now }
    {
        self.b.is_empty() && !self.has_probe_ack()
    }

    /// Whether no Grant is pending: none on its way, and no GrantAck of one.
    pub fn has_no_grant(&self) -> bool
        ensures { IsTrue result ↔ NoGrantPending self.now }
    {
        self.e.is_empty() && !self.has_grant()
    }

    /// Writes the bytes of a store over its copy, from `offset` of the block on.
    pub fn store(&mut self, offset: usize, access: &AccessBytes)
        requires { offset + length access.now ≤ BLOCK_BYTES }
        ensures { self.new ≡ stored self.old offset access.now }
    {
        self.held.store(offset, access);
    }

    /// Sends an Acquire, and waits for its Grant. The error is want of memory; nothing changes then.
    pub fn send_acquire(&mut self, grow: Grow) -> Result<(), AllocError>
        ensures ok { OnOk result (self.new ≡ sent_acquire self.old grow) }
        ensures err { OnErr result (self.new ≡ self.old) }
    {
        self.a.push(grow)?;
        self.wait = Awaited::ForGrant;
        Ok(())
    }

    /// Sends a Release with the bytes of a dirty copy, keeps what `prune` leaves and waits for the ReleaseAck. The
    /// error is want of memory; nothing changes then.
    pub fn send_release(&mut self, prune: Prune) -> Result<(), AllocError>
        ensures ok { OnOk result (self.new ≡ released self.old prune) }
        ensures err { OnErr result (self.new ≡ self.old) }
    {
        let data = self.held.dirty_bytes();
        self.c.push(Upward::Release(Surrender::of(prune, data)))?;
        self.held.reduce(prune.to());
        self.wait = Awaited::ForReleaseAck;
        Ok(())
    }

    /// Answers the first Probe, where there is one: gives the bytes of a dirty copy, and keeps what the Probe leaves.
    /// The error is want of memory; nothing changes then.
    pub fn answer_probe(&mut self) -> Result<(), AllocError>
        ensures ok { OnOk result (self.new ≡ answered self.old self.old.b) }
        ensures err { OnErr result (self.new ≡ self.old) }
    {
        let Some(cap) = self.b.first() else {
            return Ok(());
        };
        let answer = ProbeAnswer::of(self.held.perm(), cap, self.held.dirty_bytes());
        self.c.push(Upward::ProbeAck(answer))?;
        self.b.pop_front();
        self.held.reduce(cap.perm());
        Ok(())
    }

    /// Takes the Grant at the front of D, and sends its GrantAck. The error is want of memory; nothing changes then.
    pub fn take_grant(&mut self) -> Result<(), AllocError>
        requires { MayTakeGrant self.old }
        ensures ok { OnOk result (self.new ≡ took_grant self.old self.old.d) }
        ensures err { OnErr result (self.new ≡ self.old) }
    {
        self.e.add()?;
        if let Some(Downward::Grant(cap, data)) = self.d.pop_front() {
            let own = mem::replace(&mut self.held, CachedCopy::Absent).into_bytes();
            self.held = CachedCopy::clean(cap.perm(), data.unwrap_or(own));
            self.wait = Awaited::Nothing;
        }
        Ok(())
    }

    /// Takes the ReleaseAck at the front of D, and waits for nothing then.
    pub fn take_release_ack(&mut self)
        ensures { self.new ≡ took_release_ack self.old }
    {
        self.d.pop_front();
        self.wait = Awaited::Nothing;
    }

    /// Sends a Probe to the client. The error is want of memory; nothing changes then.
    pub fn send_probe(&mut self, cap: ProbeCap) -> Result<(), AllocError>
        ensures ok { OnOk result (self.new ≡ sent_probe self.old cap) }
        ensures err { OnErr result (self.new ≡ self.old) }
    {
        self.b.push(cap)
    }

    /// Takes the first message of C for home, records what it leaves, and answers a Release. Gives the bytes that the
    /// message carries. The error is want of memory; nothing changes then.
    pub fn take_c(&mut self) -> Result<Option<BlockBytes>, AllocError>
        requires { MayTakeC self.old }
        ensures ok { OnOk result (self.new ≡ took_c_from self.old self.old.c) }
        ensures bytes { IfOk result (λ bytes. bytes ≡ first_bytes self.old.c) }
        ensures err { OnErr result (self.new ≡ self.old) }
    {
        if let [Upward::Release(_), ..] = self.c.as_slice() {
            self.d.push(Downward::ReleaseAck)?;
        }
        match self.c.pop_front() {
            Some(message) => {
                self.recorded = message.to();
                Ok(message.into_bytes())
            }
            None => Ok(None),
        }
    }

    /// Takes a GrantAck for home.
    pub fn take_grant_ack(&mut self)
        ensures { self.new ≡ took_grant_ack self.old }
    {
        self.e.remove();
    }

    /// Sends a Grant and records what it gives, with home's bytes where home recorded nothing of the client. The error
    /// is want of memory; nothing changes then.
    pub fn send_grant(&mut self, cap: GrantCap, home: &BlockBytes) -> Result<(), AllocError>
        ensures ok { OnOk result (self.new ≡ sent_grant self.old cap home.now) }
        ensures err { OnErr result (self.new ≡ self.old) }
    {
        let data = if self.recorded == Perm::None {
            Some(home.copied())
        } else {
            None
        };
        self.d.push(Downward::Grant(cap, data))?;
        self.recorded = cap.perm();
        Ok(())
    }
}
