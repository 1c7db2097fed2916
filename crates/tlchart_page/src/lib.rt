//! The picture of a script, and a page that walks through its trace: the sequence chart and, beside it, the state of
//! all banks at the step that is chosen. The states are what the banks' views answer after each step, told as changes.
#![tactic(auto)]

mod cells;
mod closing;
mod draw;
mod drawing;
mod film;
mod json;
mod page;
mod parts;
mod reach;
mod script;
mod style;
mod words;

pub use draw::{DrawError, draw_script};
pub use film::{Change, Film, film_of, tell};
pub use json::{push_arrows, push_comma};
pub use page::{page_script, push_head, push_tail};
pub use parts::{Cell, Part};
