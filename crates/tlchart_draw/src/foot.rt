//! What is said of a record, in lines that have room below a chart.

use std::alloc::{AllocError, Global};

/// The width of a letter at the foot, in pixels, rounded up.
const LETTER: usize = 7;

/// The width of a chart without its lifelines, and from a lifeline to the next, in pixels.
const ASIDE: usize = 370;

const GAP: usize = 220;

/// How many letters of a line have room below a chart of so many clients, one home and the memory.
fn room_below(clients: u32) -> usize {
    let gaps = (clients as usize).saturating_add(1);
    gaps.saturating_mul(GAP).saturating_add(ASIDE) / LETTER
}

/// A word, with a question mark for each letter that has a meaning in SVG.
fn push_word(out: &mut String, word: &str) -> Result<(), AllocError> {
    for letter in word.chars() {
        match letter {
            '<' | '>' | '&' => out.push('?')?,
            _ => out.push(letter)?,
        }
    }
    Ok(())
}

/// What stands between a word that ends at a column and one of so many letters: a space where there is room for both in
/// the line. The column of the second.
fn push_gap(
    out: &mut String,
    column: usize,
    letters: usize,
    room: usize,
) -> Result<usize, AllocError> {
    if column == 0 {
        return Ok(0);
    }
    if column.saturating_add(letters) < room {
        out.push(' ')?;
        return Ok(column.saturating_add(1));
    }
    out.push_str("\n  ")?;
    Ok(2)
}

/// A line, with what has no room behind a word in the next line.
fn push_folded(out: &mut String, line: &str, room: usize) -> Result<(), AllocError> {
    let mut column: usize = 0;
    for word in line.split(' ') {
        column = push_gap(out, column, word.len(), room)?;
        push_word(out, word)?;
        column = column.saturating_add(word.len());
    }
    out.push('\n')?;
    Ok(())
}

/// A text, in lines that have room below a chart of so many clients, as far as its words let them.
pub(crate) fn folded(alloc: Global, text: &str, clients: u32) -> Result<String, AllocError> {
    let room = room_below(clients);
    let mut out = String::new(alloc);
    for line in text.lines() {
        push_folded(&mut out, line, room)?;
    }
    Ok(out)
}
