//! Which of the things seen a run has so far.
ghost use Rattle.std.specs.Prelude.{◌≡◌, ◌<◌, ◌≤◌, ℕ, [], false, Contains, List, IfOk, IfNone, IfSome, IsTrue, length, slice_index_or, slice_get, true, Some, ◌≢◌};
ghost use Rattle.tlwire_search.specs.Explained.{wire_of};
ghost use Rattle.tlwire_search.specs.Left.{AreMarked, IsDone, IsMarked, IsMarking, left};
ghost use Rattle.tlwire_search.specs.declared.seen.Seen.{Seen};

use crate::seen::{Seen, Wire};
use std::alloc::{AllocError, Global};
use std::marker::Model;

/// A mark for each thing seen, how many from the first on have one, and the wires of which it is known that each has
/// one.
#[derive(Drop)]
pub(crate) struct Marks {
    marks: Vec<bool>,
    from: usize,
    done: Vec<Wire>,
}

impl Model for Marks {
    ghost use Rattle.tlwire_search.specs.Left.{MarkState};

    ghost Value = { MarkState };

    ghost view = { λ m. record { marks = m.marks.items; from = m.from; done = m.done.items } };
}

impl Marks {
    /// Nothing is marked.
    pub(crate) fn new(alloc: Global, len: usize) -> Result<Marks, AllocError>
        ensures marking { IfOk result (λ m. (seen : List Seen) → length seen ≡ len → IsMarking seen m) }
        ensures left { IfOk result (λ m. (seen : List Seen) → length seen ≡ len → left m.marks seen ≡ seen) }
    {
        Ok(Marks {
            marks: vec![in alloc; false; len]?,
            from: 0,
            done: Vec::new(alloc),
        })
    }

    /// Whether each is marked.
    pub(crate) fn is_full(&self, seen: &[Seen]) -> bool
        requires { IsMarking seen.now self.now }
        ensures { IsTrue result → left self.now.marks seen.now ≡ [] }
    {
        if self.from < seen.len() {
            return false;
        }
        true
    }

    /// The first on a wire that is not marked.
    fn next_on(&self, seen: &[Seen], wire: Wire) -> Option<usize>
        requires { IsMarking seen.now self.now }
        ensures place { IfSome result (λ place. place < length seen.now) }
        ensures free { IfSome result (λ place. slice_index_or self.now.marks place true ≡ false) }
        ensures before { IfSome result
            (λ place. (k : ℕ) (s : Seen) → k < place → slice_index_or self.now.marks k true ≡ false
            → slice_get seen.now k ≡ Some s → wire_of s ≢ wire) }
        ensures none { IfNone result
            ((k : ℕ) (s : Seen) → slice_index_or self.now.marks k true ≡ false → slice_get seen.now k ≡ Some s
            → wire_of s ≢ wire) }
    {
        for place in self.from..seen.len() {
            if !self.marks[place] && seen[place].wire() == wire {
                return Some(place);
            }
        }
        None
    }

    /// Passes over what is marked.
    fn pass(&mut self)
        requires { AreMarked self.old.marks self.old.from }
        ensures marks { self.new.marks ≡ self.old.marks }
        ensures done { self.new.done ≡ self.old.done }
        ensures before { AreMarked self.new.marks self.new.from }
    {
        for place in self.from..self.marks.len() {
            if !self.marks[place] {
                return;
            }
            self.from = place + 1;
        }
    }

    /// Whether it is known that nothing is left on a wire.
    fn is_known(&self, wire: Wire) -> bool
        ensures { IsTrue result → Contains self.now.done wire }
    {
        for done in &self.done {
            if *done == wire {
                return true;
            }
        }
        false
    }

    /// Whether nothing is left on the wire of this.
    pub(crate) fn is_done(&mut self, seen: &[Seen], shown: &Seen) -> Result<bool, AllocError>
        requires { IsMarking seen.now self.old }
        ensures marks { self.new.marks ≡ self.old.marks }
        ensures marking { IsMarking seen.now self.new }
        ensures done { IfOk result (λ yes. IsTrue yes → IsDone seen.now self.new.marks (wire_of shown.now)) }
    {
        if self.is_known(shown.wire()) {
            return Ok(true);
        }
        if let Some(_) = self.next_on(seen, shown.wire()) {
            return Ok(false);
        }
        self.done.push(shown.wire())?;
        Ok(true)
    }

    /// Marks the next on its wire, where it is this.
    pub(crate) fn mark(&mut self, seen: &[Seen], shown: &Seen) -> bool
        requires { IsMarking seen.now self.old }
        ensures { IsTrue result → IsMarked seen.now self.old self.new shown.now }
    {
        let Some(place) = self.next_on(seen, shown.wire()) else {
            return false;
        };
        if !seen[place].is_same(shown) {
            return false;
        }
        self.marks[place] = true;
        self.pass();
        true
    }
}
