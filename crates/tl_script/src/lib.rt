//! The script of a run: a TOML document, read into the numbers of a cache, an image, commands and steps.
#![tactic(auto)]

mod commands;
mod document;
mod error;
mod image;
mod key;
mod numbers;
mod reading;
mod script;
mod steps;

pub use error::ScriptError;
pub use key::Key;
pub use reading::read_script;
pub use script::Script;
