//! What is put into the rows of a book's file.
//!
//! Texts, prints, cells and bytes are lent from where a book or a change keeps them. Each field
//! says what the field with its name says in the row of the table: `ParaPut` is a `ParaRow` that is
//! lent, and `Put::Place` has two of its fields.

use super::rows::BookRow;
use cell_core::Cell;

/// A row of `tab`.
#[derive(Clone, Copy, Debug)]
pub struct TabPut<'a> {
    pub name: &'a str,
    pub body: &'a [u8],
}

/// A row of `para`.
#[derive(Clone, Copy, Debug)]
pub struct ParaPut<'a> {
    pub id: i64,
    pub place: i64,
    pub tab: &'a str,
    pub original: &'a str,
    pub print: &'a [char],
    pub style: i64,
    pub volume: i64,
    pub struck: i64,
}

/// A row of `mark`.
#[derive(Clone, Copy, Debug)]
pub struct MarkPut<'a> {
    pub id: i64,
    pub para: i64,
    pub start: i64,
    pub stop: i64,
    pub note: &'a str,
    pub touched: i64,
    pub resolved: i64,
}

/// A row of `cache`.
#[derive(Clone, Copy, Debug)]
pub struct CachePut<'a> {
    pub para: i64,
    pub cells: &'a [Cell],
}

/// An entry of `corr2`.
#[derive(Clone, Copy, Debug)]
pub struct NamedCorrPut<'a> {
    pub para: i64,
    pub seq: i64,
    pub kind: i64,
    pub start: i64,
    pub len: i64,
    pub body: &'a str,
    pub who: &'a str,
}

/// A row that is added, or replaces the one with its key, or columns that are set in the row with a
/// key.
#[derive(Clone, Copy, Debug)]
pub enum Put<'a> {
    /// The row of `book`.
    Book(BookRow),
    /// The row of `tab` with its name.
    Tab(TabPut<'a>),
    /// The row of `para` with its id.
    Para(ParaPut<'a>),
    /// The row of `mark` with its id.
    Mark(MarkPut<'a>),
    /// The row of `cache` of its paragraph.
    Cache(CachePut<'a>),
    /// An entry of `corr2`, which its history lacks.
    NamedCorr(NamedCorrPut<'a>),
    /// The place of a paragraph.
    Place {
        id: i64,
        place: i64,
    },
    /// The style of a paragraph, whether a volume begins with it, and whether it is struck.
    Flags {
        id: i64,
        style: i64,
        volume: i64,
        struck: i64,
    },
    /// The braille table of a paragraph.
    Table {
        id: i64,
        tab: &'a str,
    },
    /// The print of a paragraph, with its corrections.
    Print {
        id: i64,
        print: &'a [char],
    },
    /// The span of a mark, and whether a correction has touched it.
    Span {
        id: i64,
        start: i64,
        stop: i64,
        touched: i64,
    },
    /// Whether a mark is resolved.
    Resolved {
        id: i64,
        resolved: i64,
    },
    /// The version of the book.
    Version(i64),
}
