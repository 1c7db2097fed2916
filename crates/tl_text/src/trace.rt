//! A trace.

ghost use Rattle.std.specs.Prelude.{◌≡◌, IfOk, string_bytes};
ghost use Rattle.tl_text.specs.Trace.{trace_text};

use crate::answer::Answer;
use crate::closing::BankClosing;
use crate::trace_lines;
use std::alloc::{AllocError, Global};

/// What a trace shows: what each step answered, in order, and what each bank holds at the end, from bank 0 on.
#[derive(Debug, Drop)]
pub struct Trace {
    pub answers: Vec<Answer>,
    pub banks: Vec<BankClosing>,
}

impl Trace {
    /// The trace as text, each line with a line feed at its end. The error is want of memory.
    pub fn text(&self, alloc: Global) -> Result<String, AllocError>
        ensures { IfOk result (λ text. string_bytes text ≡ trace_text self.now) }
    {
        let mut text = String::new(alloc);
        trace_lines::push_answers(&mut text, &self.answers)?;
        trace_lines::push_banks(&mut text, &self.banks)?;
        text.push_str("end\n")?;
        Ok(text)
    }
}
