//! A page that walks through a record of events: the sequence chart and, beside it, the state after the entry that is
//! chosen, as `tlcheck` judges it. The states are those of the judge, told as changes.
#![tactic(auto)]

mod film;
mod json;
mod page;
mod window;

pub use film::{RecordFilm, film_entries};
pub use page::page_record;
pub use window::{Window, Written, window_of};
