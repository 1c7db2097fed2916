//! Tests of the turns of agents and homes by public calls, where no script leads: what they ask, in which order, what a
//! gate sees, and after which they make no other.
#![tactic(auto)]

#[cfg(test)]
mod bars;
#[cfg(test)]
mod counts;
#[cfg(test)]
mod froms;
#[cfg(test)]
mod idle;
#[cfg(test)]
mod left;
#[cfg(test)]
mod mails;
#[cfg(test)]
mod order;
#[cfg(test)]
mod play;
#[cfg(test)]
mod ports;
#[cfg(test)]
mod recorder;
#[cfg(test)]
mod silent;
#[cfg(test)]
mod stops;
#[cfg(test)]
mod turns;
#[cfg(test)]
mod waits;
