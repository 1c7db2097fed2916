//! Tests of the program that runs scripts by public calls, where no script leads: words of its command line, files and
//! outputs that fail, the texts of a run's faults, and gates that show the threads and locks of a run.
#![tactic(auto)]

#[cfg(test)]
mod asked;
#[cfg(test)]
mod faults;
#[cfg(test)]
mod files;
#[cfg(test)]
mod gates;
#[cfg(test)]
mod words;
