//! A tally as text.

use std::alloc::AllocError;
use std::fmt;
use std::fmt::Write;
use tl_rules::Event;
use tlcheck_home::{Count, Mark, Tally};
use tlcheck_record::EventLine;
use tlcheck_situations::{ACTIONS, Action, Situation};

/// Where an event stands: the record's name, and the line.
#[derive(Clone, Copy)]
pub(crate) struct Spot<'a> {
    pub(crate) names: &'a [String],
    pub(crate) first: Option<Mark>,
}

impl fmt::Display for Spot<'_> {
    fn fmt<W: fmt::Write>(&self, f: &mut fmt::Formatter<W>) -> fmt::Result {
        let Some(mark) = self.first else {
            return f.write_str("-");
        };
        let line = mark.line;
        match self.names.get(mark.file) {
            Some(name) => write!(f, "{}:{line}", name.as_str()),
            None => write!(f, "line {line}"),
        }
    }
}

/// How many situations were reached, of how many.
#[derive(Clone, Copy, PartialEq, Eq)]
pub(crate) struct Sum {
    pub(crate) reached: usize,
    pub(crate) all: usize,
}

/// One more, if there is one.
fn more(count: usize, is_one: bool) -> usize {
    if is_one {
        count.saturating_add(1)
    } else {
        count
    }
}

impl Sum {
    const ZERO: Sum = Sum { reached: 0, all: 0 };

    /// One situation more, if it is one of them.
    fn and(self, is_one: bool, is_reached: bool) -> Sum {
        Sum {
            reached: more(self.reached, is_one && is_reached),
            all: more(self.all, is_one),
        }
    }
}

impl fmt::Display for Sum {
    fn fmt<W: fmt::Write>(&self, f: &mut fmt::Formatter<W>) -> fmt::Result {
        let (reached, all) = (self.reached, self.all);
        write!(f, "{reached} of {all}")
    }
}

/// How many situations were reached; and of those that this project's home reaches, where its table is asked for.
#[derive(Clone, Copy, PartialEq, Eq)]
pub(crate) struct Sums {
    pub(crate) all: Sum,
    pub(crate) by_home: Option<Sum>,
}

impl Sums {
    /// One situation more.
    fn and(self, is_reached: bool, is_by_home: bool) -> Sums {
        let by_home = match self.by_home {
            None => None,
            Some(sum) => Some(sum.and(is_by_home, is_reached)),
        };
        Sums {
            all: self.all.and(true, is_reached),
            by_home,
        }
    }
}

impl fmt::Display for Sums {
    fn fmt<W: fmt::Write>(&self, f: &mut fmt::Formatter<W>) -> fmt::Result {
        let all = self.all;
        match self.by_home {
            None => write!(f, "{all}"),
            Some(sum) => write!(f, "{all}, {sum}"),
        }
    }
}

/// How much was reached of the situations of so many clients.
#[derive(Clone, Copy)]
pub(crate) struct Title {
    pub(crate) clients: u32,
    pub(crate) sums: Sums,
}

impl fmt::Display for Title {
    fn fmt<W: fmt::Write>(&self, f: &mut fmt::Formatter<W>) -> fmt::Result {
        let (clients, all) = (self.clients, self.sums.all);
        write!(f, "clients {clients}: {all} situations reached")?;
        if let Some(sum) = self.sums.by_home {
            let (reached, all) = (sum.reached, sum.all);
            write!(f, ", {reached} of the {all} that this home reaches")?;
        }
        Ok(())
    }
}

/// How many situations were reached: of an action, or of all.
pub(crate) fn sums_of(tally: &Tally, action: Option<Action>) -> Sums {
    let mut sums = Sums {
        all: Sum::ZERO,
        by_home: tally.has_home().then_some(Sum::ZERO),
    };
    for (situation, count) in tally.table().situations().iter().zip(tally.counts()) {
        let is_counted = match action {
            None => true,
            Some(action) => situation.action == action,
        };
        if is_counted {
            let is_by_home = tally.by_home(situation).unwrap_or(false);
            sums = sums.and(count.events > 0, is_by_home);
        }
    }
    sums
}

fn push_actions(text: &mut String, tally: &Tally) -> Result<(), AllocError> {
    for action in ACTIONS {
        let sums = sums_of(tally, Some(*action));
        writeln!(text, "{action}: {sums}")?;
    }
    Ok(())
}

/// Whether this project's home reaches a situation, as a word.
pub(crate) fn home_word(is_by_home: bool) -> &'static str {
    if is_by_home { "home" } else { "-" }
}

/// A situation's number, its count, whether this project's home reaches it where that is asked for, where it was
/// reached first, and its words.
fn push_row(
    text: &mut String,
    number: (u32, u64),
    tally: &Tally,
    situation: &Situation,
    count: Count,
    names: &[String],
) -> Result<(), AllocError> {
    let (clients, place) = number;
    let events = count.events;
    write!(text, "{clients}.{place} {events} ")?;
    if let Some(is_by_home) = tally.by_home(situation) {
        write!(text, "{} ", home_word(is_by_home))?;
    }
    let first = count.first;
    writeln!(text, "{} {situation}", Spot { names, first })
}

fn push_rows(text: &mut String, tally: &Tally, names: &[String]) -> Result<(), AllocError> {
    let clients = tally.table().clients();
    let mut place: u64 = 0;
    for (situation, count) in tally.table().situations().iter().zip(tally.counts()) {
        place = place.saturating_add(1);
        push_row(text, (clients, place), tally, situation, *count, names)?;
    }
    Ok(())
}

/// The table of a tally: how much was reached, by action, and each situation with its number, its count, whether this
/// project's home reaches it where that is asked for, and where it was reached first.
pub(crate) fn push_tally(
    text: &mut String,
    tally: &Tally,
    names: &[String],
) -> Result<(), AllocError> {
    let clients = tally.table().clients();
    let sums = sums_of(tally, None);
    let beyond = tally.beyond();
    writeln!(text, "{}, {beyond} events beyond", Title { clients, sums })?;
    push_actions(text, tally)?;
    push_rows(text, tally, names)
}

/// The record of a run: its situation and number as a comment, the geometry, a line for each event.
pub(crate) fn push_run(
    text: &mut String,
    clients: u32,
    place: u32,
    situation: &Situation,
    run: &[Event],
) -> Result<(), AllocError> {
    writeln!(text, "# {clients}.{place} {situation}")?;
    writeln!(text, "clients {clients} block_bytes 8 memory_blocks 1")?;
    for event in run {
        writeln!(text, "{}", EventLine(event))?;
    }
    Ok(())
}
