//! Tests of the lower layers by their public calls: the codes of TileLink, where blocks lie, the memory as a whole, which
//! no bank makes, a bank's ways, channels and tables by themselves, and inboxes and bells between threads.
#![tactic(auto)]

#[cfg(test)]
mod codes;
#[cfg(test)]
mod copies;
#[cfg(test)]
mod links;
#[cfg(test)]
mod map;
#[cfg(test)]
mod memory;
#[cfg(test)]
mod pairs;
#[cfg(test)]
mod tickets;
#[cfg(test)]
mod ways;
