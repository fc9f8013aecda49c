//! What a book shows of an entry of a paragraph's history.

/// What an entry of a history did.
#[derive(Clone, Copy, Debug)]
pub enum Done<'a> {
    /// It corrected the print.
    Corrected {
        /// The place of the first character that was replaced, from 0.
        start: usize,
        /// How many were replaced.
        count: usize,
        /// The text that replaced them.
        text: &'a str,
        /// The name of the proofreader, which may be empty.
        who: &'a str,
    },
    /// It took back the correction with this number.
    TookBack(u64),
}

/// An entry of a history.
#[derive(Clone, Copy, Debug)]
pub struct HistoryItem<'a> {
    /// Its number, from 1.
    pub number: u64,
    /// What it did.
    pub done: Done<'a>,
}
