//! The tables of a book's file.
ghost use Rattle.desk_parts.specs.Tables.{table_number};
ghost use Rattle.std.specs.Prelude.{◌≡◌};

/// A table of a book's file.
#[derive(Clone, Copy, Debug, PartialEq, Eq)]
pub enum FileTable {
    /// `book`: the format and the version.
    Book,
    /// `tab`: the braille tables.
    Tab,
    /// `para`: the paragraphs.
    Para,
    /// `corr`: the histories of the paragraphs, in the first format.
    Corr,
    /// `mark`: the marks.
    Mark,
    /// `cache`: the braille of the paragraphs.
    Cache,
    /// `corr2`: the histories of the paragraphs, with the names of the proofreaders, in the second
    /// format.
    NamedCorr,
}

impl FileTable {
    /// Its number in a reply, from 1.
    pub fn number(self) -> u8
        ensures { result ≡ table_number self }
    {
        match self {
            FileTable::Book => 1,
            FileTable::Tab => 2,
            FileTable::Para => 3,
            FileTable::Corr => 4,
            FileTable::Mark => 5,
            FileTable::Cache => 6,
            FileTable::NamedCorr => 7,
        }
    }
}
