//! The report of a run.

use crate::report_lines;
use std::alloc::{AllocError, Global};
use tl_script_words::Command;
use tl_types::AccessBytes;

// About how many bytes a line takes: four digits of a command's number, the verb, the address, eight bytes, and what
// lies between. Room for the whole text is asked for at once, so that it is not moved as it grows.
const LINE: usize = 40;

/// A command that was answered, with the bytes that a load got or a store wrote; none for a drop.
#[derive(Debug, Drop)]
pub struct Answered {
    pub command: Command,
    pub bytes: AccessBytes,
}

/// What a bank shows at the end: the number of copies that the clients hold in it, and the number of copies that home
/// has recorded.
#[derive(Clone, Copy, Debug, PartialEq, Eq)]
pub struct BankLine {
    pub held: u64,
    pub recorded: u64,
}

/// What a run answers: the answered commands of each client in order, and a line for each bank.
#[derive(Debug, Drop)]
pub struct Report {
    pub clients: Vec<Vec<Answered>>,
    pub banks: Vec<BankLine>,
}

impl Report {
    ghost use Rattle.std.specs.Prelude.{◌≡◌, IfOk, string_bytes};
    ghost use Rattle.tl_text.specs.Report.{report_text};

    /// How many lines its text has, or about as many.
    fn line_count(&self) -> usize {
        let mut count = self.banks.len().saturating_add(1);
        for answers in &self.clients {
            count = count.saturating_add(answers.len()).saturating_add(1);
        }
        count
    }

    /// The report as text, each line with a line feed at its end. The error is want of memory.
    pub fn text(&self, alloc: Global) -> Result<String, AllocError>
        ensures { IfOk result (λ text. string_bytes text ≡ report_text self.now) }
    {
        let mut text = String::with_capacity(alloc, self.line_count().saturating_mul(LINE))?;
        report_lines::push_clients(&mut text, &self.clients)?;
        report_lines::push_banks(&mut text, &self.banks)?;
        text.push_str("ok\n")?;
        Ok(text)
    }
}
