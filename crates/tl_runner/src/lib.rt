//! Runs scripts, plays their steps, and answers what the program is asked for.
#![tactic(auto)]

mod asked;
mod fault;
mod line;
mod program;
mod step_trace;

pub use asked::{Job, JobError};
pub use fault::Fault;
pub use line::job;
pub use program::answer;
pub use step_trace::trace;
pub use tl_client_ports::{Free, Gate, Who};
pub use tl_map::{Geometry, GeometryError, GeometryNumbers};
pub use tl_runner_report::{RunError, conclude};
pub use tl_runner_threads::{run, run_sized};
pub use tl_script::{Key, Script, ScriptError, read_script};
pub use tl_script_words::{BlockCall, Command, Step, TicketCall};
pub use tl_text::{Answered, BankLine, Report};
