//! A text that is written without leaving at each refused request for memory.

use std::alloc::{AllocError, Global};
use std::fmt;

/// A text that grows. A request for memory that is refused is remembered, and told at the end: so what writes to it has
/// one exit, and not one at each word.
#[derive(Debug, Drop)]
pub struct Ink {
    text: String,
    is_whole: bool,
}

impl Ink {
    /// An empty text.
    pub fn new(alloc: Global) -> Ink {
        Ink {
            text: String::new(alloc),
            is_whole: true,
        }
    }

    /// A text at the end.
    pub fn put(&mut self, text: &str) {
        if self.text.push_str(text).is_err() {
            self.is_whole = false;
        }
    }

    /// All that was written. The error is want of memory, at any of the writes.
    pub fn text(self) -> Result<String, AllocError> {
        if self.is_whole {
            Ok(self.text)
        } else {
            Err(AllocError)
        }
    }
}

impl fmt::Write for Ink {
    fn write_str(&mut self, s: &str) -> fmt::Result {
        self.put(s);
        Ok(())
    }
}
