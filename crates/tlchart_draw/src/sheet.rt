//! What is written, and in which form.

use crate::ink::Ink;
use crate::{mermaid, svg};
use std::alloc::{AllocError, Global};
use tl_script_words::Step;
use tlchart_model::Chart;

/// How a chart is written.
#[derive(Clone, Copy, Debug, PartialEq, Eq)]
pub enum Form {
    /// An SVG document.
    Svg,
    /// A Mermaid `sequenceDiagram`.
    Mermaid,
}

/// A line of a record, with its number.
#[derive(Debug, Drop)]
pub struct Line {
    pub number: u64,
    pub text: String,
}

/// What stands at the left of the rows.
#[derive(Clone, Copy, Debug)]
pub enum Rows<'a> {
    /// The steps of a script, with their indexes.
    Steps(&'a [Step]),
    /// Lines of a record, with their numbers.
    Lines(&'a [Line]),
}

/// A chart with what is written beside it: a title, the words of each row, and a foot.
#[derive(Clone, Copy, Debug)]
pub struct Sheet<'a> {
    pub title: &'a str,
    pub rows: Rows<'a>,
    pub chart: &'a Chart,
    /// What stands at the foot: of each bank's home a text, of lines whose letters have no meaning in SVG.
    pub foot: &'a [String],
}

/// The chart as text. The error is want of memory.
pub fn picture_of(alloc: Global, sheet: Sheet<'_>, form: Form) -> Result<String, AllocError> {
    let mut ink = Ink::new(alloc);
    match form {
        Form::Svg => svg::push_picture(&mut ink, sheet),
        Form::Mermaid => mermaid::push_picture(&mut ink, sheet),
    }
    ink.text()
}
