//! The rows of situations: by action, and within an action in the order of their words.

use crate::page::escape::push_escaped;
use crate::page::flight::{FLIGHTS, is_in_flight};
use crate::text::{Spot, home_word};
use std::alloc::{AllocError, Global};
use std::fmt::Write;
use tlcheck_home::{Count, Tally};
use tlcheck_situations::{ACTIONS, Action, Situation};

/// A situation in words, and its place in the table.
#[derive(Debug, PartialEq, Eq, PartialOrd, Ord, Drop)]
struct Row {
    words: String,
    place: usize,
}

/// The rows of an action, in the order of their words.
fn rows_of(alloc: Global, tally: &Tally, action: Action) -> Result<Vec<Row>, AllocError> {
    let mut rows = Vec::new(alloc);
    for (place, situation) in tally.table().situations().iter().enumerate() {
        if situation.action == action {
            let words = format!(in alloc; "{situation}")?;
            rows.push(Row { words, place })?;
        }
    }
    rows.sort()?;
    Ok(rows)
}

/// What is in flight, each behind a bar, and a bar at the end.
fn push_flights(text: &mut String, situation: &Situation) -> Result<(), AllocError> {
    text.push_str("|")?;
    for flight in FLIGHTS {
        if is_in_flight(situation, *flight) {
            write!(text, "{flight}|")?;
        }
    }
    Ok(())
}

/// A situation's row: its number, its words, its count, whether this project's home reaches it where that is asked for,
/// where it was reached first, and the command that reaches it.
fn push_row(
    alloc: Global,
    text: &mut String,
    number: &str,
    situation: &Situation,
    count: Count,
    by_home: Option<bool>,
    names: &[String],
) -> Result<(), AllocError> {
    let style = if count.events == 0 { "never" } else { "met" };
    let action = situation.action;
    write!(
        text,
        "<tr class=\"{style}\" data-action=\"{action}\" data-flights=\""
    )?;
    push_flights(text, situation)?;
    let events = count.events;
    write!(
        text,
        "\"><td>{number}<td>{situation}<td class=\"count\">{events}"
    )?;
    if let Some(is_by_home) = by_home {
        let word = home_word(is_by_home);
        write!(text, "<td class=\"home\">{word}")?;
    }
    text.push_str("<td>")?;
    let first = count.first;
    let spot = format!(in alloc; "{}", Spot { names, first })?;
    push_escaped(text, spot.as_str())?;
    writeln!(text, "<td><code>tlcheck --how {number}</code>")
}

/// The rows of an action.
fn push_action(
    alloc: Global,
    text: &mut String,
    tally: &Tally,
    action: Action,
    names: &[String],
) -> Result<(), AllocError> {
    let clients = tally.table().clients();
    let counts = tally.counts();
    let situations = tally.table().situations();
    for row in rows_of(alloc, tally, action)? {
        if let (Some(situation), Some(count)) = (situations.get(row.place), counts.get(row.place)) {
            let place = row.place.saturating_add(1);
            let number = format!(in alloc; "{clients}.{place}")?;
            let by_home = tally.by_home(situation);
            push_row(
                alloc,
                text,
                number.as_str(),
                situation,
                *count,
                by_home,
                names,
            )?;
        }
    }
    Ok(())
}

/// The table of all situations of a tally.
pub(crate) fn push_rows(
    alloc: Global,
    text: &mut String,
    tally: &Tally,
    names: &[String],
) -> Result<(), AllocError> {
    text.push_str("<table class=\"rows\">\n<thead><tr><th>number<th>situation<th>events")?;
    if tally.has_home() {
        text.push_str("<th>home")?;
    }
    text.push_str("<th>first<th>a run that reaches it\n<tbody>\n")?;
    for action in ACTIONS {
        push_action(alloc, text, tally, *action, names)?;
    }
    text.push_str("</table>\n")
}
