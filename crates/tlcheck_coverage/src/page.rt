//! A tally as a page: how much was reached of each action and of each race, and each situation with the command that
//! reaches it.

mod escape;
mod flight;
mod look;
mod races;
mod rows;

use crate::page::look::{HEAD, TAIL};
use crate::page::races::push_races;
use crate::page::rows::push_rows;
use crate::tallies::Tallies;
use crate::text::{Sums, Title, sums_of};
use std::alloc::{AllocError, Global};
use std::fmt::Write;
use tlcheck_home::Tally;
use tlcheck_situations::ACTIONS;

/// The cells of an action's sums.
fn push_sum(text: &mut String, sums: Sums) -> Result<(), AllocError> {
    let (reached, all) = (sums.all.reached, sums.all.all);
    let never = all.saturating_sub(reached);
    write!(text, "<td>{reached}<td>{all}<td>{never}")?;
    if let Some(sum) = sums.by_home {
        write!(text, "<td>{}<td>{}", sum.reached, sum.all)?;
    }
    text.push_str("\n")
}

/// The sums by action.
fn push_sums(text: &mut String, tally: &Tally) -> Result<(), AllocError> {
    text.push_str("<h2>By action</h2>\n<table class=\"sums\">\n")?;
    text.push_str("<thead><tr><th>action<th>reached<th>of<th>never")?;
    if tally.has_home() {
        text.push_str("<th>by this home<th>of")?;
    }
    text.push_str("\n<tbody>\n")?;
    for action in ACTIONS {
        let sums = sums_of(tally, Some(*action));
        let style = if sums.all.reached == 0 {
            "never"
        } else {
            "met"
        };
        write!(text, "<tr class=\"{style}\"><th scope=\"row\">")?;
        write!(text, "<button data-action=\"{action}\">{action}</button>")?;
        push_sum(text, sums)?;
    }
    text.push_str("</table>\n")
}

/// What the rows may be limited to.
fn push_filters(text: &mut String, by_home: bool) -> Result<(), AllocError> {
    text.push_str("<h2>Situations</h2>\n<p class=\"filters\">")?;
    text.push_str("<label><input type=\"checkbox\" name=\"never\"> never reached</label>\n")?;
    if by_home {
        text.push_str(
            "<label><input type=\"checkbox\" name=\"home\"> this home reaches it</label>\n",
        )?;
    }
    text.push_str("<label>action <select name=\"action\"><option value=\"\">all")?;
    for action in ACTIONS {
        write!(text, "<option>{action}")?;
    }
    text.push_str("</select></label>\n<label>in flight <select name=\"race\">")?;
    text.push_str("<option value=\"\">anything</select></label>\n<span role=\"status\"></span>\n")
}

/// What was reached of one number of clients.
fn push_section(
    alloc: Global,
    text: &mut String,
    tally: &Tally,
    names: &[String],
) -> Result<(), AllocError> {
    let clients = tally.table().clients();
    let sums = sums_of(tally, None);
    let beyond = tally.beyond();
    writeln!(text, "<section id=\"clients-{clients}\">")?;
    let title = Title { clients, sums };
    writeln!(text, "<h1>{title}</h1>")?;
    write!(
        text,
        "<p>{beyond} events in situations that need more clients. "
    )?;
    text.push_str("What was never reached is shaded.</p>\n")?;
    push_sums(text, tally)?;
    push_races(text, tally)?;
    push_filters(text, tally.has_home())?;
    push_rows(alloc, text, tally, names)?;
    text.push_str("</section>\n")
}

/// A page with a section for each number of clients that was met.
pub(crate) fn push_page(
    alloc: Global,
    text: &mut String,
    tallies: &Tallies,
    names: &[String],
) -> Result<(), AllocError> {
    text.push_str(HEAD)?;
    for tally in tallies.all() {
        push_section(alloc, text, tally, names)?;
    }
    text.push_str(TAIL)
}
