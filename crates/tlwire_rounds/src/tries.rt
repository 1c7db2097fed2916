//! A search in rounds. Each goes on from where an earlier one came to: with lines that may stand further behind later
//! ones, with events tried in another order, or with lines that have to be sent before others.
ghost use Rattle.std.specs.Prelude.{◌<◌, ◌≤◌};

use crate::lines::{Crossing, Lines, number_or};
use crate::rounds::{Course, Taken};
use std::alloc::{AllocError, Global};
use tl_rules::{Event, Shape};
use tl_types::BLOCK_BYTES;
use tlwire_search::{LastAccepts, Premises, Seen};

/// How many lines one may stand behind a later one, level by level; at the last level as many as the header says.
const LEVELS: &[usize] = &[0, 4, 8, 10, 12, 16, 24, 72];

/// The highest level to which a search goes by itself, once it is past the beginning.
const HIGHEST: usize = 6;

/// How many lines are the beginning: until these are passed each round has the next level.
const BEGINNING: usize = 64;

/// How many lines a round passes, at least, where its level serves.
const SERVES: usize = 128;

/// The levels of the rounds that end at one line, in turn: 1 stands for the level of the search, 0 for the one below.
const STEPS: &[usize] = &[2, 1, 0, 1, 3, 1, 2, 0, 1, 4, 2, 1];

/// How many rounds may end at one line, for each level.
const FAILS: usize = 5;

/// From how many lines before the hardest one rounds begin, and after how many rounds from the next of these.
const BACK: &[usize] = &[32, 64, 128, 256, 512];

const STEADY: usize = 6;

/// How many lines a round goes past the hardest one.
const PAST: usize = 64;

/// In how many rounds that end at one line more and more lines have to be sent before others.
const TOGETHER: usize = 4;

/// Beside how many of the last lines messages may pass that were not seen, where lines may stand behind later ones.
const REACH: usize = 24;

/// How many events the looks of a search take for each line, at most, and beside these.
const LOOKS: usize = 192;

const MORE_LOOKS: usize = 131_072;

/// How many the looks of a round take for each line that it goes, at most, for each block, and beside these.
const ROUND_LOOKS: usize = 32;

const BLOCK_LOOKS: usize = 256;

const MORE_ROUND_LOOKS: usize = 8192;

/// How many rounds a search has, at most.
const ROUNDS: u64 = 320;

/// Which round comes next.
#[derive(Clone, Copy)]
struct Round {
    /// The level of the search, of the round, and the last of all.
    base: usize,
    level: usize,
    top: usize,
    /// The line from which it goes on, and the one to which it goes.
    from: usize,
    to: usize,
    /// The line that was reached, and how many rounds ended before that one was passed.
    hardest: usize,
    fails: usize,
}

impl Round {
    /// The first one.
    fn new(top: usize, len: usize) -> Round {
        Round {
            base: 0,
            level: 0,
            top,
            from: 0,
            to: len,
            hardest: 0,
            fails: 0,
        }
    }

    /// How many lines one may stand behind a later one.
    fn skew(&self, most: usize) -> usize {
        number_or(LEVELS, self.level, most).min(most)
    }

    /// How many events its looks take, at most.
    fn looks(&self, blocks: u32) -> usize {
        let lines = self.to.saturating_sub(self.from);
        lines
            .saturating_mul(ROUND_LOOKS)
            .saturating_add((blocks as usize).saturating_mul(BLOCK_LOOKS))
            .saturating_add(MORE_ROUND_LOOKS)
    }

    /// Behind the hardest line: on with the level of the search, or the one that passed it, if that is lower.
    fn go_on(&mut self, place: usize, len: usize) {
        self.base = self.base.min(self.level);
        self.level = self.base;
        self.from = place;
        self.to = len;
        self.fails = 0;
    }

    /// Nothing but the beginning is passed: once more with the next level.
    fn climb(&mut self) {
        self.level = if self.level < self.top {
            self.level.saturating_add(1)
        } else {
            0
        };
        self.base = self.level;
    }

    /// Whether the level of the search does not serve here.
    fn is_too_low(&self, place: usize) -> bool {
        self.fails == 0
            && self.level == self.base
            && self.base < HIGHEST.min(self.top)
            && place.saturating_sub(self.from) < SERVES
    }

    /// Once more from before the hardest line.
    fn go_back(&mut self, len: usize) {
        let step = number_or(STEPS, self.fails % STEPS.len(), 1);
        self.level = self
            .base
            .saturating_add(step)
            .saturating_sub(1)
            .min(self.top);
        let back = number_or(BACK, self.fails / STEADY % BACK.len(), 0);
        self.from = self.hardest.saturating_sub(back);
        self.to = self.hardest.saturating_add(PAST).min(len);
    }

    /// What comes behind one that ended before a line.
    fn end(&mut self, place: usize, len: usize) {
        let is_past = place >= self.to;
        let is_too_low = self.is_too_low(place);
        if place > self.hardest {
            self.fails = 0;
        }
        self.hardest = self.hardest.max(place);
        if is_past {
            self.go_on(place, len);
            return;
        }
        if self.hardest < BEGINNING {
            self.climb();
        } else {
            if is_too_low {
                self.base = self.base.saturating_add(1);
            }
            self.go_back(len);
        }
        self.fails = self.fails.saturating_add(1);
    }

    /// Whether so many rounds ended at one line that no other one is tried.
    fn is_last(&self) -> bool {
        self.fails > FAILS.saturating_mul(self.top.saturating_add(1))
    }
}

/// How many lines one may stand behind a later one by a header: none where it gives no number and says when all was
/// seen, and any number where it says neither.
fn most_of(premises: &Premises) -> usize {
    match premises.skew {
        Some(most) => most as usize,
        None if premises.between || premises.at_home || premises.pins.has_all() => 0,
        None => usize::MAX,
    }
}

/// The last level: the first at which as many lines may stand behind a later one as the header says.
fn top_of(most: usize) -> usize {
    for level in 0..LEVELS.len() {
        if number_or(LEVELS, level, most) >= most {
            return level;
        }
    }
    LEVELS.len()
}

/// The events that were taken.
fn events_of(alloc: Global, run: Vec<Taken>) -> Result<Vec<Event>, AllocError> {
    let mut events = Vec::new(alloc);
    for taken in run {
        events.push(taken.event)?;
    }
    Ok(events)
}

/// The next of the lines that have to be sent before others, beside those of rounds before.
fn cross(
    alloc: Global,
    lines: &mut Lines<'_>,
    found: &[Crossing],
    fails: usize,
) -> Result<(), AllocError> {
    if fails % TOGETHER <= 1 || found.is_empty() {
        lines.crossings = Vec::new(alloc);
    }
    if found.is_empty() || fails == 0 {
        return Ok(());
    }
    if let Some(crossing) = found.get(fails % found.len()) {
        lines.crossings.push(*crossing)?;
    }
    Ok(())
}

/// What a round comes to: the events that were taken, the first line that is not passed, the lines that blocks ask of
/// each other first, and how many events looks might still have taken.
#[derive(Drop)]
struct Ended {
    run: Vec<Taken>,
    place: usize,
    crossings: Vec<Crossing>,
    left: usize,
}

/// A round: what was taken before a line is taken again, and then it goes on.
fn walked(
    alloc: Global,
    lines: &Lines<'_>,
    image: &[u8],
    round: Round,
    run: &[Taken],
    looks: usize,
) -> Result<Ended, AllocError> {
    let mut course = Course::new(alloc, lines, image, looks)?;
    course.retake_to(run, round.from)?;
    let place = course.reach(round.to)?;
    Ok(Ended {
        place,
        left: course.left,
        run: course.run,
        crossings: course.crossings,
    })
}

/// A search so far.
#[derive(Drop)]
struct Search<'a> {
    alloc: Global,
    image: &'a [u8],
    /// How many lines one may stand behind a later one by the header.
    most: usize,
    /// The next round.
    round: Round,
    /// What the round took that came furthest.
    run: Vec<Taken>,
    /// How many events looks may still take.
    left: usize,
}

impl<'a> Search<'a> {
    fn new(alloc: Global, image: &'a [u8], most: usize, len: usize) -> Search<'a> {
        Search {
            alloc,
            image,
            most,
            round: Round::new(top_of(most), len),
            run: Vec::new(alloc),
            left: len.saturating_mul(LOOKS).saturating_add(MORE_LOOKS),
        }
    }

    /// The next round; whether it passes all lines.
    fn go(&mut self, lines: &mut Lines<'_>, number: u64) -> Result<bool, AllocError> {
        let round = self.round;
        lines.skew = round.skew(self.most);
        lines.seed = if round.fails <= 1 { 0 } else { number };
        let looks = round.looks(lines.shape.blocks).min(self.left);
        let ended = walked(self.alloc, lines, self.image, round, &self.run, looks)?;
        let Ended {
            run,
            place,
            crossings,
            left,
        } = ended;
        self.left = self.left.saturating_sub(looks.saturating_sub(left));
        if place >= round.hardest {
            self.run = run;
        }
        self.round.end(place, lines.len());
        cross(self.alloc, lines, &crossings, self.round.fails)?;
        Ok(place >= lines.len())
    }

    /// Whether no other round is tried.
    fn is_over(&self) -> bool {
        self.left == 0 || self.round.is_last()
    }
}

/// Looks for a run that has what was seen, round by round.
pub(crate) fn search_rounds(
    alloc: Global,
    shape: Shape,
    premises: &Premises,
    image: &[u8],
    seen: &[Seen],
) -> Result<Vec<Event>, AllocError>
    requires bytes { (0 < shape.block_bytes) × (shape.block_bytes ≤ BLOCK_BYTES) }
{
    let last = LastAccepts::of(alloc, shape, seen)?;
    let mut lines = Lines::new(alloc, shape, premises, seen, &last)?;
    let most = most_of(premises);
    lines.reach = most.min(REACH);
    let mut search = Search::new(alloc, image, most, lines.len());
    for number in 0..ROUNDS {
        if search.go(&mut lines, number)? {
            return events_of(alloc, search.run);
        }
        if search.is_over() {
            break;
        }
    }
    Ok(Vec::new(alloc))
}
