//! The tables that a file may lack, and gets when it is opened.

/// Which new tables of a file a book fills.
#[derive(Clone, Copy, Debug, PartialEq, Eq)]
pub enum NewTables {
    /// The table of the entries of all histories, with which the file gets the second format, and
    /// the table of the braille.
    EntriesAndBraille,
    /// The table of the entries of all histories, with which the file gets the second format.
    Entries,
    /// The table of the braille.
    Braille,
}
