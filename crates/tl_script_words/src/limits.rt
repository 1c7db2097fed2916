//! How much one script asks for at most (this project's own).

/// How many steps a script has, at most.
pub const STEPS: usize = 4_096;

/// How many commands a script has of one client, at most.
pub const COMMANDS: usize = 4_096;
