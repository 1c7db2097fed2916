//! What the program is asked for.

pub use tl_streams::WordsError as JobError;

/// What the program is asked for.
#[derive(Debug, Drop)]
pub struct Job {
    /// Whether the steps are traced, and not the commands run.
    pub traces: bool,
    pub file: String,
}
