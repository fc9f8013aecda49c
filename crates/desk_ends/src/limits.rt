//! How much is read.

/// The most bytes that a line may have, its ending aside.
pub const MOST_LINE_BYTES: usize = 65_536;

/// The most bytes that are read of an input: after them the next read counts as failed.
pub const MOST_INPUT: u64 = 1 << 62;

/// How many bytes are read at a time.
pub const CHUNK_BYTES: usize = 1 << 16;
