//! Rows that are worked out from the rules: scripts with what the program answers, races with their pictures and pages,
//! records of messages and of events with their answers, and what records of events have reached.
//!
//! `data/NAME.toml` is a script; `NAME.1.out`, `NAME.2.out` and on are what `tlcache` may write for it: its output, its
//! fault line, and its status where that is not 0. There is more than one where they depend on who comes first.
//! `NAME.svg` and `NAME.mmd` are the pictures of a script, `NAME.html` is its page. `record-NAME.txt` is a record of
//! events, `record-NAME.html` its page. `refused.txt` has scripts that are refused, each after a line with its fault;
//! `records-of-messages.txt` and `records-of-events.txt` have records, each after a line with its name; each other
//! `NAME.txt` is a record of messages. `NAME.svg` beside a record is the chart of where it broke. `reached-NAME.out` and
//! `reached-NAME.html` are what is told of records by `--coverage`.
#![tactic(auto)]

mod answers;
mod charts;
mod coverage;
mod names;
mod records;

use std::io;

fn main(rt: HostRuntime) -> io::Result<()> {
    answers::print_rows(&rt, &rt)?;
    charts::print_rows(&rt)?;
    records::print_rows(&rt)?;
    coverage::print_rows(&rt)
}
