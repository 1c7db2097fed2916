//! Sequence charts as text: SVG, or Mermaid.
#![tactic(auto)]

mod foot;
mod ink;
mod labels;
mod layout;
mod mermaid;
mod sheet;
mod strip;
mod svg;

pub use ink::Ink;
pub use labels::{push_lifeline, push_mark, push_step, push_title, refusal_name, title_of};
pub use sheet::{Form, Line, Rows, Sheet, picture_of};
pub use strip::{LINES_BEFORE, Row, Strip, broken_row, line_beside};
