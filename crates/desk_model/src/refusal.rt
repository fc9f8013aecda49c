//! Why a command or a query is refused.
ghost use Rattle.desk_model.specs.Codes.{code_of, limit_number};
ghost use Rattle.std.specs.Prelude.{◌≡◌};

use louis_table::TableFault;
use std::alloc::AllocError;
use thiserror::Error;

/// A limit of a book: a command that would go beyond it is refused.
#[derive(Clone, Copy, Debug, PartialEq, Eq)]
pub enum Limit {
    /// 16 tables.
    Tables,
    /// 20,000 paragraphs, struck ones counted.
    Paragraphs,
    /// 10,000 entries in a paragraph's history.
    Entries,
    /// 100,000 marks.
    Marks,
    /// Version 2^53.
    Version,
}

impl Limit {
    /// The number that stands for it in a reply, from 1.
    pub fn number(self) -> u8
        ensures { result ≡ limit_number self }
    {
        match self {
            Limit::Tables => 1,
            Limit::Paragraphs => 2,
            Limit::Entries => 3,
            Limit::Marks => 4,
            Limit::Version => 5,
        }
    }
}

/// Why a command or a query is refused. A refusal changes nothing.
#[derive(Clone, Copy, Debug, PartialEq, Eq, Error)]
pub enum Refusal {
    /// The book has another version than the one that was expected.
    #[error("the book is at version {version}")]
    Moved {
        /// The book's version.
        version: u64,
    },
    /// The name of a table has other characters than `a` to `z`, `0` to `9`, `_` and `-`, or not 1
    /// to 32 of them.
    #[error("this is no name of a table")]
    BadName,
    /// The name of a proofreader has over 40 characters, or a blank, a line feed, a carriage return
    /// or U+0000.
    #[error("this is no name of a proofreader")]
    BadReader,
    /// A text has a line feed, a carriage return or U+0000.
    #[error("the text has a barred character at place {place}")]
    BadText {
        /// The first place of one in the text as it was given, from 0.
        place: usize,
    },
    /// The book has no such paragraph.
    #[error("there is no such paragraph")]
    NoParagraph,
    /// The book has no such table.
    #[error("there is no such table")]
    NoTable,
    /// The book has no such mark.
    #[error("there is no such mark")]
    NoMark,
    /// The paragraph is struck.
    #[error("the paragraph is struck")]
    Struck,
    /// The paragraph is not struck.
    #[error("the paragraph is not struck")]
    NotStruck,
    /// The mark is resolved.
    #[error("the mark is resolved")]
    Resolved,
    /// The places or cells are not all there, or a mark would cover no cell.
    #[error("the places are not all there")]
    BadSpan,
    /// No correction of the paragraph is in force.
    #[error("no correction is in force")]
    NothingToUndo,
    /// A text in normal form C or a print would have over 4,000 characters, or a note has over 500.
    #[error("the text is too long")]
    TooLong,
    /// The command would add to what is at its limit.
    #[error("a limit is reached")]
    Full(Limit),
    /// The table's text is refused.
    #[error("the table is refused")]
    BadTable(TableFault),
    /// The table that the paragraph would have doesn't define a character of the print that it
    /// would have.
    #[error("the character at place {place} is not defined")]
    Undefined {
        /// The first place of one in that print, from 0.
        place: usize,
    },
    /// A new text of a table doesn't define a character of the print of a paragraph that uses the
    /// table.
    #[error("the character at place {place} of paragraph {paragraph} is not defined")]
    Untranslatable {
        /// The first such paragraph in the order of the book.
        paragraph: u64,
        /// The first place of one, from 0.
        place: usize,
    },
    /// An allocation failed.
    #[error("out of memory")]
    NoMemory,
}

impl Refusal {
    /// The number that stands for it in a reply.
    pub fn code(self) -> u8
        ensures { result ≡ code_of self }
    {
        match self {
            Refusal::NoParagraph => 2,
            Refusal::NoTable => 3,
            Refusal::NoMark => 4,
            Refusal::BadSpan => 5,
            Refusal::BadText { .. } => 6,
            Refusal::Undefined { .. } => 7,
            Refusal::BadTable(_) => 8,
            Refusal::Untranslatable { .. } => 9,
            Refusal::NothingToUndo => 10,
            Refusal::Struck => 11,
            Refusal::NotStruck => 12,
            Refusal::Resolved => 13,
            Refusal::TooLong => 14,
            Refusal::Full(_) => 15,
            Refusal::Moved { .. } => 16,
            Refusal::BadName => 17,
            Refusal::BadReader => 18,
            Refusal::NoMemory => 90,
        }
    }
}

impl From<AllocError> for Refusal {
    ghost use Rattle.desk_model.specs.declared.refusal.Refusal.TheVariants.{NoMemory};

    ghost from_gives = { λ _ refusal. refusal ≡ NoMemory };

    fn from(_: AllocError) -> Self {
        Refusal::NoMemory
    }
}
