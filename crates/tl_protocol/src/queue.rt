//! The messages of a channel, oldest first.
ghost use Rattle.std.specs.Prelude.{◌≡◌, ◌↔◌, ◌+◌, ◌-◌, [], ◌∷◌, ◌++◌, IsTrue, drop, OnOk, OnErr, IfOk, MatchOption};
ghost use Rattle.tl_protocol.specs.Queue.{HasFirst};

use crate::same::Same;
use std::alloc::{AllocError, Global};
use std::marker::Model;
use tl_types::ProbeCap;

/// A list that messages join at its end and leave at its front.
#[derive(Drop)]
pub struct Queue<T> {
    items: Vec<T>,
}

impl<T> Model for Queue<T> {
    ghost use Rattle.std.specs.Prelude.{List};

    ghost Value = { List T };

    ghost view = { λ q. q.items.items };
}

impl<T: Drop> Queue<T> {
    /// An empty list.
    pub fn new(alloc: Global) -> Queue<T>
        ensures { result ≡ [] }
    {
        Queue {
            items: Vec::new(alloc),
        }
    }

    /// A message joins the end. The error is want of memory; nothing changes then.
    pub fn push(&mut self, item: T) -> Result<(), AllocError>
        ensures ok { OnOk result (self.new ≡ self.old ++ item ∷ []) }
        ensures err { OnErr result (self.new ≡ self.old) }
    {
        self.items.push(item)?;
        Ok(())
    }

    /// The first message leaves, where there is one.
    pub fn pop_front(&mut self) -> Option<T>
        ensures { MatchOption result ((self.old ≡ []) × (self.new ≡ [])) (λ item. self.old ≡ item ∷ self.new) }
    {
        if self.items.is_empty() {
            None
        } else {
            Some(self.items.remove(0))
        }
    }

    /// Whether there is none.
    pub fn is_empty(&self) -> bool
        ensures { IsTrue result ↔ (self.now ≡ []) }
    {
        self.items.is_empty()
    }

    /// Whether there is a first message.
    pub fn has_first(&self) -> bool
        ensures { IsTrue result ↔ HasFirst self.now }
    {
        !self.as_slice().is_empty()
    }

    /// All messages, oldest first.
    pub fn as_slice(&self) -> &[T]
        ensures { result.now ≡ self.now }
    {
        self.items.as_slice()
    }
}

impl<T: Same> Queue<T> {
    /// A queue of copies, in their order. The error is want of memory.
    pub fn copied(&self, alloc: Global) -> Result<Queue<T>, AllocError>
        ensures { IfOk result (λ q. q ≡ self.now) }
    {
        let mut items = Vec::with_capacity(alloc, self.items.len())?;
        for item in self.as_slice() {
            items.push(item.copied())?;
        }
        Ok(Queue { items })
    }

    /// Whether two are the same.
    pub fn is_same(&self, other: &Queue<T>) -> bool
        ensures { IsTrue result ↔ (self.now ≡ other.now) }
    {
        let items = self.as_slice();
        let others = other.as_slice();
        if items.len() != others.len() {
            return false;
        }
        for i in 0..items.len() {
            if !items[i].is_same(&others[i]) {
                return false;
            }
        }
        true
    }
}

/// The GrantAcks on their way to home, which differ in nothing.
#[derive(Drop)]
pub struct AckCount {
    acks: Vec<()>,
}

impl Model for AckCount {
    ghost use Rattle.std.specs.Prelude.{ℕ, length};

    ghost Value = { ℕ };

    ghost view = { λ q. length q.acks.items };
}

impl AckCount {
    /// No acknowledgement.
    pub fn new(alloc: Global) -> AckCount
        ensures { result ≡ 0 }
    {
        AckCount {
            acks: Vec::new(alloc),
        }
    }

    /// One more. The error is want of memory; nothing changes then.
    pub fn add(&mut self) -> Result<(), AllocError>
        ensures ok { OnOk result (self.new ≡ self.old + 1) }
        ensures err { OnErr result (self.new ≡ self.old) }
    {
        self.acks.push(())?;
        Ok(())
    }

    /// An equal count. The error is want of memory.
    pub fn copied(&self, alloc: Global) -> Result<AckCount, AllocError>
        ensures { IfOk result (λ q. q ≡ self.now) }
    {
        let mut copy = AckCount::new(alloc);
        for _ in 0..self.acks.len() {
            copy.add()?;
        }
        Ok(copy)
    }

    /// Whether two are the same.
    pub fn is_same(&self, other: &AckCount) -> bool
        ensures { IsTrue result ↔ (self.now ≡ other.now) }
    {
        self.acks.len() == other.acks.len()
    }

    /// One less, where there is one.
    pub fn remove(&mut self)
        ensures { self.new ≡ self.old - 1 }
    {
        self.acks.pop();
    }

    /// How many there are.
    pub fn len(&self) -> usize
        ensures { result ≡ self.now }
    {
        self.acks.len()
    }

    /// Whether there is none.
    pub fn is_empty(&self) -> bool
        ensures { IsTrue result ↔ (self.now ≡ 0) }
    {
        self.acks.is_empty()
    }
}

impl Queue<ProbeCap> {
    /// The first of the Probes.
    pub fn first(&self) -> Option<ProbeCap>
        ensures { MatchOption result (self.now ≡ []) (λ cap. self.now ≡ cap ∷ drop 1 self.now) }
    {
        self.items.first().copied()
    }
}
