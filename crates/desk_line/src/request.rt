//! What is asked of a book.
use desk_model::Command;

/// A query of a book, mostly of one paragraph, which its id names. Places of a print and cells of
/// its braille count from 0. No query changes the book or allocates.
#[derive(Clone, Copy, Debug, PartialEq, Eq)]
pub enum Query {
    /// The print of a paragraph.
    Print { paragraph: u64 },
    /// The braille of a paragraph.
    Braille { paragraph: u64 },
    /// The history of a paragraph.
    History { paragraph: u64 },
    /// The marks of a paragraph.
    Marks { paragraph: u64 },
    /// Where the braille of a place of the print begins.
    WhereIs { paragraph: u64, place: usize },
    /// Which place of the print a cell was made from.
    Whence { paragraph: u64, cell: usize },
    /// All paragraphs in the order of the book.
    List,
    /// The version alone.
    Version,
}

/// A request.
#[derive(Debug, Drop)]
pub enum Request<'a> {
    /// A command.
    Do {
        /// The command.
        command: Command<'a>,
        /// The version that the book is expected to have, if one is.
        expect: Option<u64>,
    },
    /// A query.
    Ask(Query),
}
