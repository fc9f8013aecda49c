//! The rows of a book's whole file.
ghost use Rattle.desk_parts.specs.FileRows.{table_of};
ghost use Rattle.desk_parts.specs.Parts.{entry_rows};
ghost use Rattle.std.specs.Prelude.{◌≡◌};

use super::file_table::FileTable;
use super::rows::{CacheRow, CorrRow, MarkRow, NamedCorrRow, ParaRow, StoredTab};

/// The entries of all histories, as the format of their file keeps them.
#[derive(Drop)]
pub enum EntryRows {
    /// The rows of `corr`, in the first format: no entry has the name of a proofreader.
    Unnamed(Vec<CorrRow>),
    /// The rows of `corr2`, in the second format.
    Named(Vec<NamedCorrRow>),
}

impl EntryRows {
    /// The table that has them as its rows.
    pub fn table(&self) -> FileTable
        ensures { result ≡ table_of (entry_rows self.now) }
    {
        match self {
            EntryRows::Unnamed(_) => FileTable::Corr,
            EntryRows::Named(_) => FileTable::NamedCorr,
        }
    }
}

/// What the file of a book holds: the version and the rows of the other tables, those of each in
/// any order.
#[derive(Drop)]
pub struct Parts {
    /// The version in the row of `book`.
    pub version: i64,
    /// The rows of `tab`.
    pub tabs: Vec<StoredTab>,
    /// The rows of `para`.
    pub paras: Vec<ParaRow>,
    /// The rows of `corr` or `corr2`.
    pub entries: EntryRows,
    /// The rows of `mark`.
    pub marks: Vec<MarkRow>,
    /// The rows of `cache`, if the file has it.
    pub cache: Option<Vec<CacheRow>>,
}
