//! Tests of a bank by its public calls: small scripts of calls, what is shown amid a race, the age of copies, how
//! far a run goes by itself, and what brings a bank to rest.
#![tactic(auto)]

#[cfg(test)]
mod bank;
#[cfg(test)]
mod calls;
#[cfg(test)]
mod ends;
#[cfg(test)]
mod moments;
#[cfg(test)]
mod oldest;
#[cfg(test)]
mod rest;
#[cfg(test)]
mod session;
#[cfg(test)]
mod steps;
