//! How a worker rests after turns in which no call succeeded.
use crossbeam_utils::sync::Parker;
use std::sync::Wait;
use std::thread;
use std::time::{Clock, Duration, Instant};

// After so many barren turns in a row each 64th rests.
const PATIENCE: u32 = 4_096;

const BETWEEN: u32 = 64;

// A yield that lasts longer than this, in microseconds, met another program that wants the processor.
const SLOW_YIELD: u64 = 500;

// So many barren turns rest at once after a slow yield.
const CROWDED: u32 = 8;

// How long a rest lasts at most, in microseconds: a sender that rings ends it. So a run of the most turns that can't go
// on is told as stalled after some 16 seconds, and a starved thread has as long.
const REST: u64 = 1_000;

/// How many barren turns came one after another, and whether others want the processor.
#[derive(Drop)]
pub struct Rest {
    barren: u32,
    /// How many more barren turns rest at once, as a yield was slow.
    crowded: u32,
    /// When the last yield of this row of barren turns ended.
    yielded: Option<Instant>,
}

impl Rest {
    /// No barren turn yet.
    pub fn new() -> Rest {
        Rest {
            barren: 0,
            crowded: 0,
            yielded: None,
        }
    }

    /// After a turn: one in which no call succeeded yields the processor, or rests where others want it or many such
    /// came in a row.
    pub fn after_turn<R: Wait + Clock>(&mut self, rt: &R, parker: &Parker, has_worked: bool) {
        if has_worked {
            self.barren = 0;
            self.yielded = None;
            return;
        }
        self.barren = self.barren.saturating_add(1);
        if self.is_due() {
            self.yielded = None;
            parker.park_timeout(rt, Duration::from_micros(REST));
        } else {
            self.give_way(rt);
        }
    }

    /// Whether this barren turn is to rest.
    fn is_due(&mut self) -> bool {
        if self.crowded > 0 {
            self.crowded -= 1;
            return true;
        }
        self.barren > PATIENCE && self.barren % BETWEEN == 0
    }

    /// Yields the processor, and from the second barren turn of a row on notes whether that took long: most rows are of
    /// one.
    fn give_way<R: Clock>(&mut self, rt: &R) {
        if self.barren < 2 {
            thread::yield_now();
            return;
        }
        let before = match self.yielded {
            Some(yielded) => Some(yielded),
            None => Instant::now(rt).ok(),
        };
        thread::yield_now();
        let now = Instant::now(rt).ok();
        if let (Some(before), Some(now)) = (before, now) {
            if now.saturating_duration_since(before) > Duration::from_micros(SLOW_YIELD) {
                self.crowded = CROWDED;
            }
        }
        self.yielded = now;
    }
}
