//! The texts that the program prints: the report of a run; and of a trace, what each step answered and what each bank
//! holds at the end.
#![tactic(auto)]

mod answer;
mod closing;
mod memory;
mod report;
mod report_lines;
mod trace;
mod trace_lines;

pub use answer::Answer;
pub use closing::{BankClosing, BlockLine, Letter, Standing};
pub use memory::{BlockSize, MemoryMessage};
pub use report::{Answered, BankLine, Report};
pub use trace::Trace;
