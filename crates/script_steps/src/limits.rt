//! How much the scripts of a session may ask.

/// The most operations of all scripts of a session (profile).
pub const MAX_OPERATIONS: u64 = 100_000;

/// The most words in block operations of all scripts of a session (profile).
pub const MAX_BLOCK_WORDS: u64 = 1_048_576;
