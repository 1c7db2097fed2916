//! The banks of a cache and the judges of events and of messages for callers in C (`include/jinavoke.h`): an opaque
//! cache and opaque judges in room that C gives, and functions that ask steps and views of them, one at a time or many
//! at once.
#![tactic(auto)]

mod access;
mod answer;
mod cache;
mod events;
mod export;
mod history;
mod image;
mod judge;
mod many;
mod next;
mod pins;
mod request;
mod rest;
mod saw;
mod seen;
mod stores;
mod tell;
mod views;
