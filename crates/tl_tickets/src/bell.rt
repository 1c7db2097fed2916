//! A bell that threads ring and hear without waiting: one word, and a seat for each thread.
ghost use Rattle.std.specs.Prelude.{◌≡◌, ◌+◌, ◌*◌, ◌<◌, ◌≤◌, ℕ, [], length, IfOk, MatchBool, MatchResult};
ghost use Rattle.std.specs.List.{All};
ghost use Rattle.tl_tickets.specs.Bell.{IsSeatOf, IsSameSeat, most_rings, after_ring, after_hearing, IsEachSeatOnce, rings_of, fresh_seats};
ghost use Rattle.tl_tickets.specs.Ringing.{gathered_tallies};

use crate::error::Missing;
use crate::numbered::{Numbered, is_each_once};
use crate::ringing::{BothSeats, Hear, HearAll, OneSeat, Ring, Ringing};
use crate::tally::Tally;
use atomic_table::Table;
use std::alloc::{AllocError, Global};
use std::marker::Model;

// How often a seat may ring.
const MOST_RINGS: u64 = 1 << 40;

type Word = Table<(), Tally, usize, Ringing, Global>;

type Place = atomic_table::Seat<(), Tally>;

/// A count that its seats raise and read, without waiting and without memory.
#[derive(Drop)]
pub struct Bell {
    word: Word,
    seats: usize,
}

impl Model for Bell {
    ghost use Rattle.std.specs.Prelude.{◌≡◌, ◌<◌, ◌≤◌};
    ghost use Rattle.tl_tickets.specs.Bell.{BellView};

    ghost Value = { BellView };

    ghost view = { λ b. record { table = b.word.shared.table_id; seats = b.seats } };

    ghost invariant = { λ b. (b.word.shared.table_id.words ≡ 1) × (b.word.shared.key ≡ b.seats) × (0 < b.seats)
        × (b.seats ≤ 64) };
}

/// One thread's right to ring a bell and to hear it.
#[derive(Drop)]
pub struct Seat {
    place: Place,
    number: usize,
    rung: u64,
}

impl Model for Seat {
    ghost use Rattle.std.specs.Prelude.{◌≡◌, ◌≤◌, []};
    ghost use Rattle.tl_tickets.specs.Bell.{SeatView, most_rings};

    ghost Value = { SeatView };

    ghost view = { λ s.
        record { table = s.place.table_id; number = s.number; rung = s.rung; seen = s.place.me.0.seen } };

    ghost invariant = { λ s. (s.place.me.1 ≡ []) × (s.place.me.0.parts ≡ 1) × (s.place.me.0.rung ≡ s.rung)
        × (s.rung ≤ most_rings) };
}

impl Numbered for Seat {
    ghost number_of = { λ s. s.number };

    fn number(&self) -> usize {
        self.number
    }
}

// All seats made one, and how often they rang.
fn gather(word: &Word, mut seats: Vec<Seat>) -> (Place, u64)
    requires some { (0 < length seats.items) × (length seats.items ≤ 64) }
    requires word { All (λ s. s.table ≡ word.now.shared.table_id) seats.items × (word.now.shared.table_id.words ≡ 1) }
    ensures seat { (result.0.table_id ≡ word.now.shared.table_id) × (result.0.me ≡ (gathered_tallies seats.items, [])) }
    ensures total { result.1 ≡ rings_of seats.items }
{
    let Some(last) = seats.pop() else {
        unreachable!()
    };
    let Seat {
        place: mut all,
        rung: mut total,
        ..
    } = last;
    while let Some(next) = seats.pop() {
        let Seat { place, rung, .. } = next;
        word.shared.join_seat::<BothSeats>(&mut all, place);
        total += rung;
    }
    (all, total)
}

impl Bell {
    /// A bell with 1 to 64 seats, and the seats in order. The error is want of memory.
    pub fn new(alloc: Global, seats: usize) -> Result<(Bell, Vec<Seat>), AllocError>
        requires { (0 < seats) × (seats ≤ 64) }
        ensures { IfOk result (λ made. (made.0.seats ≡ seats) × (made.1.items ≡ fresh_seats made.0 seats)) }
    {
        let (word, mut root) = Word::of_words(alloc, &[0], &seats)?;
        let mut list = Vec::with_capacity(alloc, seats)?;
        for number in 0..seats - 1 {
            let place = word.shared.split_seat::<OneSeat>(&mut root);
            list.push(Seat {
                place,
                number,
                rung: 0,
            })?;
        }
        list.push(Seat {
            place: root,
            number: seats - 1,
            rung: 0,
        })?;
        Ok((Bell { word, seats }, list))
    }

    /// Rings once. `false` where this seat has rung 2^40 times.
    pub fn ring(&self, seat: &mut Seat) -> bool
        requires { IsSeatOf self.now seat.old }
        ensures seat { IsSameSeat seat.old seat.new }
        ensures rung { MatchBool result ((seat.old.rung < most_rings) × (seat.new ≡ after_ring seat.old))
            ((seat.old.rung ≡ most_rings) × (seat.new ≡ seat.old)) }
    {
        if seat.rung == MOST_RINGS {
            return false;
        }
        self.word.shared.fetch_add::<Ring>(&mut seat.place, 0, 1);
        seat.rung += 1;
        true
    }

    /// How often the bell was rung by all seats, at one moment of the call.
    pub fn heard(&self, seat: &mut Seat) -> u64
        requires { IsSeatOf self.now seat.old }
        ensures seat { IsSameSeat seat.old seat.new }
        ensures seen { seat.old.seen ≤ result }
        ensures rung { seat.old.rung ≤ result }
        ensures now { seat.new ≡ after_hearing seat.old result }
    {
        self.word.shared.load::<Hear>(&mut seat.place, 0)
    }

    /// How often all seats rang, once they are back. `Missing` exactly where not each seat is there once. The bell and
    /// the seats are used up either way.
    pub fn total(self, seats: Vec<Seat>) -> Result<u64, Missing>
        requires { All (IsSeatOf self) seats.items }
        ensures { MatchResult result
            (λ total. IsEachSeatOnce self.seats seats.items × (total ≡ rings_of seats.items)
            × All (λ s. s.seen ≤ total) seats.items)
            (λ _. ¬ IsEachSeatOnce self.seats seats.items) }
    {
        if !is_each_once(&seats, self.seats) {
            return Err(Missing);
        }
        let (mut all, total) = gather(&self.word, seats);
        self.word.shared.load::<HearAll>(&mut all, 0);
        Ok(total)
    }
}
