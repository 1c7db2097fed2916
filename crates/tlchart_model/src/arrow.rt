//! Messages as arrows.
ghost use Rattle.std.specs.Prelude.{◌≡◌, ◌+◌, ◌<◌, ◌^◌, IfOk, length};
ghost use Rattle.tlchart_model.specs.Arrow.{arrow_by, arrows_of, taker, takes_at};

use crate::lifeline::{Place, same_place};
use crate::message::ShownMessage;
use crate::turn::Turn;
use std::alloc::{AllocError, Global};

/// A message, from the row of the step that sent it to the row of the step that took it, where one did. Rows count from
/// 0, one a step.
#[derive(Debug, Drop)]
pub struct Arrow {
    pub message: ShownMessage,
    pub sent: usize,
    pub taken: Option<usize>,
}

/// Whether a step took the message at a place.
fn takes(place: &Place, turn: &Turn) -> bool
    ensures { result ≡ takes_at place.now turn.now.takes }
{
    match &turn.takes {
        Some(taken) => same_place(place, taken),
        None => false,
    }
}

/// The row of the first of the later steps, which begin at the row `after`, that took the message at a place.
fn taker(place: &Place, after: usize, later: &[Turn]) -> Option<usize>
    requires { after + length later.now < 2 ^ 64 }
    ensures { result ≡ taker place.now after later.now }
{
    for (index, turn) in later.iter().enumerate() {
        if takes(place, turn) {
            return Some(after + index);
        }
    }
    None
}

/// The arrow of the message that a step sent, if it sent one.
fn arrow_by(row: usize, turn: &Turn, later: &[Turn]) -> Option<Arrow>
    requires { row + 1 + length later.now < 2 ^ 64 }
    ensures { result ≡ arrow_by row later.now turn.now.sends }
{
    match &turn.sends {
        Some(message) => Some(Arrow {
            message: message.copied(),
            sent: row,
            taken: taker(&message.place, row + 1, later),
        }),
        None => None,
    }
}

/// An arrow for each message that a step sent, in the order of the steps.
pub(crate) fn arrows(alloc: Global, turns: &[Turn]) -> Result<Vec<Arrow>, AllocError>
    ensures { IfOk result (λ arrows. arrows.items ≡ arrows_of turns.now) }
{
    let mut arrows = Vec::new(alloc);
    for (row, turn) in turns.iter().enumerate() {
        if let Some(arrow) = arrow_by(row, turn, &turns[row + 1..]) {
            arrows.push(arrow)?;
        }
    }
    Ok(arrows)
}
