//! The exchanges that what was seen opens, and their answers.
ghost use Rattle.std.specs.Prelude.{◌≡◌, ◌++◌, IfOk, OnOk, if◌then◌else◌};
ghost use Rattle.tlwire_exchanges.specs.Exchange.{opened_by, opens};
ghost use Rattle.tlwire_exchanges.specs.Opened.{AreLeft, AreWithin, after, exchanges_of, first_of, joined_by};
ghost use Rattle.tlwire_exchanges.specs.declared.exchange.Exchange.{Exchange};

use crate::answers::Answers;
use crate::exchange::{Exchange, opened_by};
use std::alloc::{AllocError, Global};
use tlwire_search::Seen;

/// An exchange that was opened.
#[derive(Clone, Copy, Debug, PartialEq, Eq)]
pub struct Opened {
    /// The place of what opens it, among all that was seen.
    pub place: usize,
    /// What it is.
    pub exchange: Exchange,
    /// The place of its answer; None where it is open at the end.
    pub answer: Option<usize>,
}

/// The exchange that what was seen at a place opens, if it opens one, joins those before it.
fn join(
    answers: &mut Answers,
    all: &mut Vec<Opened>,
    seen: &Seen,
    place: usize,
) -> Result<(), AllocError>
    requires { AreWithin answers.old }
    ensures all { OnOk result
        (all.new.items ≡ all.old.items ++ joined_by answers.old.first place (opened_by seen.now)) }
    ensures first { OnOk result
        ((e : Exchange) → first_of answers.new.first e
        ≡ (if opens e seen.now then after answers.old.next.items (first_of answers.old.first e)
        else first_of answers.old.first e)) }
    ensures next { OnOk result (answers.new.next.items ≡ answers.old.next.items) }
{
    match opened_by(seen) {
        Some(exchange) => {
            let answer = answers.take(exchange);
            all.push(Opened {
                place,
                exchange,
                answer,
            })?;
            Ok(())
        }
        None => Ok(()),
    }
}

/// The exchanges that what was seen opens, with these answers.
fn opened_in(alloc: Global, mut answers: Answers, seen: &[Seen]) -> Result<Vec<Opened>, AllocError>
    requires { AreLeft answers 0 seen.now }
    ensures { IfOk result (λ all. all.items ≡ exchanges_of seen.now) }
{
    let mut all = Vec::new(alloc);
    for place in 0..seen.len() {
        join(&mut answers, &mut all, &seen[place], place)?;
    }
    Ok(all)
}

/// The exchanges of what was seen, in the order in which they are opened, with their answers. Err is a refused request
/// for memory.
pub fn exchanges_of(alloc: Global, seen: &[Seen]) -> Result<Vec<Opened>, AllocError>
    ensures { IfOk result (λ all. all.items ≡ exchanges_of seen.now) }
{
    let answers = Answers::of(alloc, seen)?;
    opened_in(alloc, answers, seen)
}
