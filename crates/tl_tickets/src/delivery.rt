//! The rule of an inbox's queue, and what each step on the queue tells.
ghost use Rattle.std.specs.Prelude.{[]};
ghost use Rattle.tl_tickets.specs.Delivery.{receiver, nothing, with_counted, only_counted, with_sender, new_sender, together, Delivers, Puts, Takes, Shows};

use crate::sent::{Known, Sent};
use crossbeam_queue::protocol::{Join, Lesson, Outcome, Protocol, Split};

/// What was taken of each sender, followed by what waits of it, is what it put.
pub struct Delivery;

impl Protocol<Sent, Known> for Delivery {
    ghost holds = { Delivers };

    ghost first = { receiver 0 0 0 [] };
}

/// One more sender is counted. The pass that comes of it knows nothing.
pub struct Counted;

impl Split<Known> for Counted {
    ghost left = { with_counted };

    ghost right = { only_counted };
}

/// One more sender has its pass.
pub struct OneMore;

impl Split<Known> for OneMore {
    ghost left = { with_sender };

    ghost right = { new_sender };
}

/// Two passes become one.
pub struct Together;

impl Join<Known> for Together {
    ghost both = { together };

    ghost spent = { nothing };
}

/// A ticket is put.
pub struct PutOne;

impl Outcome<Sent, Known> for PutOne {
    ghost then = { Puts };
}

impl Lesson<Sent, Known> for PutOne {
    ghost fact = { Shows };
}

/// A ticket is taken.
pub struct TakeOne;

impl Outcome<Sent, Known> for TakeOne {
    ghost then = { Takes };
}

impl Lesson<Sent, Known> for TakeOne {
    ghost fact = { Shows };
}
