//! Tests of what is concluded from a run by public calls, where no script leads: logs that have an order and logs that
//! have none, banks that have not run, shares and stamps of two banks, and the largest script.
#![tactic(auto)]

#[cfg(test)]
mod conclusions;
#[cfg(test)]
mod large;
#[cfg(test)]
mod orders;
#[cfg(test)]
mod setting;
