//! The rule of a bell's word, and what each step on it tells.
ghost use Rattle.tl_tickets.specs.Ringing.{tally, fewer, one_seat, both_tallies, CountsRings, RungOnce, Hears, HearsAll};

use crate::tally::Tally;
use atomic_table::{Join, Play, Split, TableRule};

/// The word is the sum of what all seats rang.
pub struct Ringing;

impl TableRule<(), Tally, usize> for Ringing {
    ghost holds = { CountsRings };

    ghost first = { λ seats. tally seats 0 0 };
}

/// One more seat is made.
pub struct OneSeat;

impl Split<Tally> for OneSeat {
    ghost left = { fewer };

    ghost right = { λ _. one_seat };
}

/// Two seats become one.
pub struct BothSeats;

impl Join<Tally> for BothSeats {
    ghost both = { both_tallies };

    ghost spent = { tally 0 0 0 };
}

/// A seat rings.
pub struct Ring;

impl Play<(), Tally> for Ring {
    ghost then = { λ _ me _ after. RungOnce me after };
}

/// A seat hears what was rung.
pub struct Hear;

impl Play<(), Tally> for Hear {
    ghost then = { λ _ me found after. Hears me found after };
}

/// All seats together hear what was rung.
pub struct HearAll;

impl Play<(), Tally> for HearAll {
    ghost then = { λ _ me found after. HearsAll me found after };
}
