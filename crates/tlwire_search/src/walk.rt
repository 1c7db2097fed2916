//! A walk along what was seen, by the events of a run.
ghost use Rattle.std.specs.Prelude.{◌≡◌, ◌<◌, ◌≤◌, ◌∷◌, ◌++◌, ℕ, List, [], IfOk, IfSome, IsTrue};
ghost use Rattle.tl_protocol.specs.declared.event.Event.{Event};
ghost use Rattle.tl_protocol.specs.declared.shape.Shape.{Shape};
ghost use Rattle.tlwire_search.specs.Explained.{Explains};
ghost use Rattle.tlwire_search.specs.Left.{GoesAlong, IsMarking, IsNext};
ghost use Rattle.tlwire_search.specs.declared.premises.Premises.{Premises};

use crate::marks::Marks;
use crate::premises::Premises;
use crate::seen::Seen;
use crate::sight::seen_of;
use std::alloc::{AllocError, Global};
use tl_rules::{Event, Plain, Shape, may_follow};
use tl_types::{BLOCK_BYTES, BLOCKS};

/// Marks this as the next on its wire; or nothing is left there, and more may have been sent.
fn is_next(
    marks: &mut Marks,
    premises: &Premises,
    seen: &[Seen],
    shown: &Seen,
) -> Result<bool, AllocError>
    requires { IsMarking seen.now marks.old }
    ensures { IfOk result (λ yes. IsTrue yes → IsNext premises.now seen.now marks.old marks.new shown.now) }
{
    if premises.may_have_more(shown.wire()) && marks.is_done(seen, shown)? {
        return Ok(true);
    }
    Ok(marks.mark(seen, shown))
}

/// Takes one more event, where it is permitted and what is seen of it was seen next, or was not seen.
fn goes_on(
    plain: &mut Plain,
    marks: &mut Marks,
    premises: &Premises,
    seen: &[Seen],
    event: &Event,
) -> Result<bool, AllocError>
    requires { IsMarking seen.now marks.old }
    ensures { IfOk result (λ yes. IsTrue yes → (shape : Shape) (image : List ℕ) (run : List Event)
        → GoesAlong premises.now shape image seen.now run plain.old marks.old
        → GoesAlong premises.now shape image seen.now (run ++ event.now ∷ []) plain.new marks.new) }
{
    if !may_follow(plain, event) {
        return Ok(false);
    }
    if let Some(shown) = seen_of(plain, event) {
        if !is_next(marks, premises, seen, &shown)? {
            return Ok(false);
        }
    }
    plain.carry_out(event)?;
    Ok(true)
}

/// A run so far, where it leads, and what is marked of what was seen.
#[derive(Drop)]
struct Walk {
    plain: Plain,
    marks: Marks,
    run: Vec<Event>,
}

impl Walk {
    /// No event is taken, and nothing is marked.
    fn new(alloc: Global, shape: Shape, image: &[u8], seen: &[Seen]) -> Result<Walk, AllocError>
        requires bytes { (0 < shape.block_bytes) × (shape.block_bytes ≤ BLOCK_BYTES) }
        requires blocks { shape.blocks ≤ BLOCKS }
        ensures { IfOk result
            (λ walk. (premises : Premises)
            → GoesAlong premises shape image.now seen.now walk.run.items walk.plain walk.marks) }
    {
        let plain = Plain::new(alloc, shape, image)?;
        let marks = Marks::new(alloc, seen.len())?;
        let run = Vec::new(alloc);
        Ok(Walk { plain, marks, run })
    }

    /// Takes one more event, where it goes on.
    fn take(&mut self, premises: &Premises, seen: &[Seen], event: Event) -> Result<bool, AllocError>
        requires { IsMarking seen.now self.old.marks }
        ensures { IfOk result (λ yes. IsTrue yes → (shape : Shape) (image : List ℕ)
            → GoesAlong premises.now shape image seen.now self.old.run.items self.old.plain self.old.marks
            → GoesAlong premises.now shape image seen.now self.new.run.items self.new.plain self.new.marks) }
    {
        if !goes_on(&mut self.plain, &mut self.marks, premises, seen, &event)? {
            return Ok(false);
        }
        self.run.push(event)?;
        Ok(true)
    }
}

/// The run of these events, however they were found, where it explains what was seen. The error is want of memory.
pub fn explained_by(
    alloc: Global,
    shape: Shape,
    premises: &Premises,
    image: &[u8],
    seen: &[Seen],
    events: Vec<Event>,
) -> Result<Option<Vec<Event>>, AllocError>
    requires bytes { (0 < shape.block_bytes) × (shape.block_bytes ≤ BLOCK_BYTES) }
    requires blocks { shape.blocks ≤ BLOCKS }
    ensures { IfOk result (λ found. IfSome found (λ run. Explains premises.now shape image.now seen.now run.items)) }
{
    let mut walk = Walk::new(alloc, shape, image, seen)?;
    for event in events {
        if !walk.take(premises, seen, event)? {
            return Ok(None);
        }
    }
    if walk.marks.is_full(seen) {
        Ok(Some(walk.run))
    } else {
        Ok(None)
    }
}
