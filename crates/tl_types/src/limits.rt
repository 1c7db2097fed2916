//! The limits of a cache, as one of its banks and its scripts have them (this project's own).

/// How many messages wait on one channel of a link, in one bank, at most.
pub const MESSAGES: usize = 64;

/// How many clients a cache has, at most.
pub const CLIENTS: usize = 16;

/// How many banks a cache has, at most.
pub const BANKS: usize = 8;

/// How many bytes a load or a store has, at most.
pub const ACCESS_BYTES: usize = 8;

/// How many bytes a block has, at most.
pub const BLOCK_BYTES: usize = 64;

/// How many copies a client holds in one bank, at most.
pub const COPIES: usize = 64;

/// How many ways a set has, at most.
pub const WAYS: usize = 8;

/// How many registers a bank has, and so Acquires that it serves and blocks that it sends away at one time, at most.
pub const REGISTERS: usize = 8;

/// How many blocks the memory has, at most.
pub const BLOCKS: usize = 65_536;
