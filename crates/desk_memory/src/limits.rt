//! How much a book may hold.

/// The greatest version: 2^53.
pub const MOST_VERSION: u64 = 1 << 53;

/// Tables of a book.
pub const MOST_TABLES: usize = 16;

/// Characters of a table's name.
pub const MOST_NAME: usize = 32;

/// Paragraphs of a book, struck ones counted.
pub const MOST_PARAGRAPHS: usize = 20_000;

/// Characters of a print.
pub const MOST_PRINT: usize = 4_000;

/// Entries of a paragraph's history.
pub const MOST_ENTRIES: usize = 10_000;

/// Marks of a book.
pub const MOST_MARKS: usize = 100_000;

/// Characters of a note.
pub const MOST_NOTE: usize = 500;

/// Characters of a proofreader's name.
pub const MOST_PROOFREADER: usize = 40;
