//! The table of races: two messages in flight, and in how many of the situations that have both something happened.

use crate::page::flight::{FLIGHTS, Flight, is_in_flight};
use std::alloc::AllocError;
use std::fmt::Write;
use tlcheck_home::Tally;

/// How many situations have both in flight and were reached, of how many.
fn reached_with(tally: &Tally, first: Flight, second: Flight) -> (usize, usize) {
    let mut reached: usize = 0;
    let mut all: usize = 0;
    for (situation, count) in tally.table().situations().iter().zip(tally.counts()) {
        if is_in_flight(situation, first) && is_in_flight(situation, second) {
            all = all.saturating_add(1);
            if count.events > 0 {
                reached = reached.saturating_add(1);
            }
        }
    }
    (reached, all)
}

/// How much of a race was reached, as a style.
fn share(reached: usize, all: usize) -> &'static str {
    if reached == 0 {
        "never"
    } else if reached < all {
        "part"
    } else {
        "all"
    }
}

/// The cell of two messages: empty where no situation has both.
fn push_cell(
    text: &mut String,
    tally: &Tally,
    first: Flight,
    second: Flight,
) -> Result<(), AllocError> {
    let (reached, all) = reached_with(tally, first, second);
    if all == 0 {
        return text.push_str("<td>");
    }
    let share = share(reached, all);
    write!(
        text,
        "<td class=\"{share}\"><button data-race=\"{first}+{second}\">{reached}/{all}</button>"
    )
}

/// The row of a message: a cell for each that stands before it.
fn push_row(text: &mut String, tally: &Tally, place: usize, row: Flight) -> Result<(), AllocError> {
    write!(text, "<tr><th scope=\"row\">{row}")?;
    for column in FLIGHTS.iter().take(place) {
        push_cell(text, tally, *column, row)?;
    }
    text.push_str("\n")
}

/// The heads of the table and of its columns.
fn push_heads(text: &mut String) -> Result<(), AllocError> {
    text.push_str(
        "<h2>Races</h2>\n<p>In each cell: of the situations with both messages in flight, ",
    )?;
    text.push_str("how many were reached, of how many.</p>\n")?;
    text.push_str("<table class=\"races\">\n<thead><tr><td>")?;
    for column in FLIGHTS {
        write!(text, "<th scope=\"col\">{column}")?;
    }
    text.push_str("\n<tbody>\n")
}

/// The table of races of a tally.
pub(crate) fn push_races(text: &mut String, tally: &Tally) -> Result<(), AllocError> {
    push_heads(text)?;
    for (place, row) in FLIGHTS.iter().enumerate() {
        push_row(text, tally, place, *row)?;
    }
    text.push_str("</table>\n")
}
