//! The log of a bank.
ghost use Rattle.std.specs.Prelude.{◌≡◌, ◌≤◌, ◌<◌, ◌+◌, ◌-◌, ◌^◌, ◌∷◌, ◌++◌, ℕ, List, [], length, drop, nat_lt, IsOk, OnOk, OnErr, if◌then◌else◌};
ghost use Rattle.tl_protocol.specs.LogView.{LogView};

use crate::event::Event;
use std::alloc::{AllocError, Global};
use std::marker::Model;
use std::snapshot::Snapshot;

/// Events that were forgotten together, behind those before them. It takes no memory, and no code can read it.
#[derive(Drop)]
struct Past<T> {
    before: Option<Snapshot<Past<T>>>,
    last: Snapshot<Vec<T>>,
}

impl<T> Model for Past<T> {
    ghost use Rattle.std.specs.Prelude.{◌<◌, ◌++◌, List, length};
    ghost use Rattle.std.proofs.Common.{arith, length-append};
    ghost use Rattle.tl_protocol.specs.Past.{all_past};

    ghost Value = { List T };

    ghost view = { λ p. all_past p.before ++ p.last.value.items };

    ghost invariant = { λ p. 0 < length p.last.value.items };

    ghost size = { length };

    ghost size_decreases = { λ p h. Prim.grind (arith, length-append) };
}

/// The events of a bank, oldest first, with room for more: memory is asked for by `reserve` alone. The first of them
/// may be forgotten: contracts still see these, and they take no memory.
#[derive(Drop)]
pub struct Log {
    /// The forgotten events, which contracts alone see.
    past: Option<Snapshot<Past<Event>>>,
    forgotten: usize,
    events: Vec<Event>,
}

impl Model for Log {
    //! The log of a bank.
    ghost use Rattle.std.specs.Prelude.{◌≡◌, ◌<◌, ◌-◌, ◌++◌, ◌^◌, length, vec_len, vec_capacity};
    ghost use Rattle.tl_protocol.specs.LogView.{LogView};
    ghost use Rattle.tl_protocol.specs.Past.{all_past};

    ghost Value = { LogView };

    ghost view = { λ l. record { events = all_past l.past ++ l.events.items; forgotten = l.forgotten; room = vec_capacity l.events - vec_len l.events } };

    ghost invariant = { λ l. (l.forgotten ≡ length (all_past l.past)) × (l.forgotten < 2 ^ 63) };
}

impl Log {
    /// An empty log, which has taken no memory.
    pub fn new(alloc: Global) -> Log
        ensures events { result.events ≡ [] }
        ensures forgotten { result.forgotten ≡ 0 }
    {
        Log {
            past: None,
            forgotten: 0,
            events: Vec::new(alloc),
        }
    }

    /// Makes room for `count` more events. The error is want of memory, which only a room below `count` can meet;
    /// nothing changes then.
    pub fn reserve(&mut self, count: usize) -> Result<(), AllocError>
        ensures events { self.new.events ≡ self.old.events }
        ensures forgotten { self.new.forgotten ≡ self.old.forgotten }
        ensures ok { OnOk result (count ≤ self.new.room) }
        ensures grows { self.old.room ≤ self.new.room }
        ensures full { OnErr result (self.old.room < count) }
        ensures unchanged { OnErr result (self.new ≡ self.old) }
        ensures small { length self.new.events < 2 ^ 64 - 1 }
    {
        self.events.reserve(count)?;
        Ok(())
    }

    /// How many more events need no memory.
    pub fn room(&self) -> usize
        ensures { result ≡ self.now.room }
    {
        self.events.capacity() - self.events.len()
    }

    /// Appends into the room that is there.
    pub fn append(&mut self, event: Event)
        requires { 0 < self.old.room }
        ensures events { self.new.events ≡ self.old.events ++ event ∷ [] }
        ensures forgotten { self.new.forgotten ≡ self.old.forgotten }
        ensures room { self.new.room + 1 ≡ self.old.room }
    {
        self.events.push_reserved(event);
    }

    /// Forgets all events so far, whose memory is then room for others. A log of 2 ^ 63 events or more forgets none.
    pub fn forget(&mut self)
        ensures events { self.new.events ≡ self.old.events }
        ensures forgotten { self.new.forgotten
            ≡ (if nat_lt (length self.old.events) (2 ^ 63) then length self.old.events else self.old.forgotten) }
        ensures room { self.new.room + self.old.forgotten ≡ self.old.room + self.new.forgotten }
    {
        let count = self.events.len();
        if count == 0 || self.forgotten + count >= 1 << 63 {
            return;
        }
        let before = self.past.take();
        let last = Snapshot::of(&self.events);
        self.past = Some(Snapshot::of(&Past { before, last }));
        self.forgotten += count;
        self.events.clear();
    }

    /// The events that are not forgotten, oldest first.
    pub fn events(&self) -> &[Event]
        ensures { result.now ≡ drop self.now.forgotten self.now.events }
    {
        self.events.as_slice()
    }

    /// How many events are forgotten.
    pub fn forgotten(&self) -> usize
        ensures is { result ≡ self.now.forgotten }
        ensures few { self.now.forgotten ≤ length self.now.events }
    {
        self.forgotten
    }

    /// How many events there are, with those that are forgotten.
    pub fn len(&self) -> usize
        ensures is { result ≡ length self.now.events }
        ensures small { length self.now.events < 2 ^ 64 - 1 }
    {
        self.forgotten + self.events.len()
    }
}
