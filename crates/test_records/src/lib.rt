//! Tests of records by the public calls: readers that fail, judges beside a bench, the tables of situations and of what
//! homes reach, scripts into situations, and the names of refusals in a chart.
#![tactic(auto)]

#[cfg(test)]
mod bench;
#[cfg(test)]
mod home;
#[cfg(test)]
mod names;
#[cfg(test)]
mod pins_bench;
#[cfg(test)]
mod readers;
#[cfg(test)]
mod scripts;
#[cfg(test)]
mod seen;
#[cfg(test)]
mod situations;
#[cfg(test)]
mod unseen;
