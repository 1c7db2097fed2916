//! Text on a page.

use std::alloc::AllocError;

/// A text in which the characters that mark up a page are written as references.
pub(crate) fn push_escaped(text: &mut String, plain: &str) -> Result<(), AllocError> {
    for c in plain.chars() {
        match c {
            '<' => text.push_str("&lt;")?,
            '>' => text.push_str("&gt;")?,
            '&' => text.push_str("&amp;")?,
            other => text.push(other)?,
        }
    }
    Ok(())
}
