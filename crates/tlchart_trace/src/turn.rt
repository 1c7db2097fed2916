//! What a step of a trace did.
ghost use Rattle.std.specs.Prelude.{◌≡◌, IfOk};
ghost use Rattle.tlchart_trace.specs.Turn.{mark_of, mark_of_done, place_named, place_taken, turn_of, turns_of};

use crate::lifeline::lifeline_of;
use crate::message::message_by;
use std::alloc::{AllocError, Global};
use tl_map::Geometry;
use tl_script_words::{BlockCall, Step};
use tl_text::Answer;
use tlchart_model::{Mark, Place, Turn};

/// The place of the message that a step takes, where it is not refused.
fn place_named(step: &Step) -> Option<Place>
    ensures { result ≡ place_named step.now }
{
    match step {
        Step::Ticket(_, ticket) => Some(Place::Link(*ticket)),
        Step::Block(BlockCall::ServeMemory, block) => Some(Place::ToMemory(*block)),
        Step::Block(BlockCall::TakeMemory, block) => Some(Place::FromMemory(*block)),
        _ => None,
    }
}

/// The place of the message that a step took.
fn place_taken(step: &Step, answer: &Answer) -> Option<Place>
    ensures { result ≡ place_taken step.now answer.now }
{
    match answer {
        Answer::Refused(_) => None,
        _ => place_named(step),
    }
}

/// The mark of a step that did what it names and shows nothing else.
fn mark_of_done(step: &Step) -> Option<Mark>
    ensures { result ≡ mark_of_done step.now }
{
    match step {
        Step::Store { bytes, .. } => Some(Mark::Stored(bytes.copied())),
        Step::Block(BlockCall::Evict, block) => Some(Mark::Evicting(*block)),
        _ => None,
    }
}

/// The mark of a step.
fn mark_of(step: &Step, answer: &Answer) -> Option<Mark>
    ensures { result ≡ mark_of step.now answer.now }
{
    match answer {
        Answer::Sent { .. } | Answer::Memory { .. } => None,
        Answer::Dropped => Some(Mark::Dropped),
        Answer::Loaded(bytes) => Some(Mark::Loaded(bytes.copied())),
        Answer::Done => mark_of_done(step),
        Answer::Refused(refusal) => Some(Mark::Refused(refusal.number())),
    }
}

/// What a step with this answer did.
#[tactic(auto, unfolding(crate::specs::Turn::turn_of))]
fn turn_of(geometry: Geometry, step: &Step, answer: &Answer) -> Turn
    ensures { result ≡ turn_of geometry step.now answer.now }
{
    Turn {
        at: lifeline_of(geometry, step),
        sends: message_by(geometry, step, answer),
        takes: place_taken(step, answer),
        mark: mark_of(step, answer),
    }
}

/// What each step did, as far as there are answers.
pub(crate) fn turns(
    alloc: Global,
    geometry: Geometry,
    steps: &[Step],
    answers: &[Answer],
) -> Result<Vec<Turn>, AllocError>
    ensures { IfOk result (λ turns. turns.items ≡ turns_of geometry steps.now answers.now) }
{
    let mut turns = Vec::new(alloc);
    let mut rest = answers;
    for step in steps {
        match rest {
            [] => return Ok(turns),
            [answer, after @ ..] => {
                turns.push(turn_of(geometry, step, answer))?;
                rest = after;
            }
        }
    }
    Ok(turns)
}
