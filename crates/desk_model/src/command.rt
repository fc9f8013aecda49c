//! What a transcriber asks of a book.
use super::lent::{LentBytes, LentText};
use super::style::Style;

/// Where a paragraph is to stand.
#[derive(Clone, Copy, Debug, PartialEq, Eq)]
pub enum Anchor {
    /// Before all others.
    Front,
    /// After all others.
    End,
    /// After the paragraph with this id.
    Para(u64),
}

/// A command on a book. Paragraphs and marks are named by their ids.
#[derive(Debug, Drop)]
pub enum Command<'a> {
    /// Adds a table, or replaces the text of the table that has the name.
    Table {
        /// The table's name.
        name: LentText<'a>,
        /// The table's text.
        text: LentBytes<'a>,
    },
    /// Types a new paragraph.
    TypeIn {
        /// Where it is to stand.
        after: Anchor,
        /// The name of its table.
        table: LentText<'a>,
        /// What is typed; the print is its Unicode normal form C.
        text: LentText<'a>,
    },
    /// Replaces characters of a paragraph's print, none, some or all of them, by a text.
    Correct {
        paragraph: u64,
        /// The place of the first of the characters, from 0.
        start: usize,
        /// How many characters are replaced.
        count: usize,
        /// What replaces them; its Unicode normal form C is stored.
        text: LentText<'a>,
        /// The name of the proofreader who corrects: at most 40 characters, without blanks, line
        /// feeds, carriage returns and U+0000. It may be empty.
        who: LentText<'a>,
    },
    /// Takes back the newest correction of a paragraph that is in force. This is one more entry of
    /// the history. It moves marks as the replacement does that restores what had been replaced,
    /// and is refused if the paragraph's present table doesn't define the restored print.
    Undo {
        paragraph: u64,
    },
    /// Makes a new mark on the places of a paragraph's print that cells of its braille stand for.
    Mark {
        paragraph: u64,
        /// The first of the cells, from 0.
        cell: usize,
        /// How many cells, at least one.
        count: usize,
        /// The proofreader's note, which is stored as it is given.
        note: LentText<'a>,
    },
    /// Says that a mark has been dealt with.
    Resolve {
        mark: u64,
    },
    /// Takes a paragraph out of the volumes.
    Strike {
        paragraph: u64,
    },
    /// Takes a struck paragraph back into the volumes.
    Restore {
        paragraph: u64,
    },
    /// Gives a paragraph a style.
    Style {
        paragraph: u64,
        style: Style,
    },
    /// Says whether a paragraph begins a volume.
    Volume {
        paragraph: u64,
        begins: bool,
    },
    /// Gives a paragraph another table.
    Retable {
        paragraph: u64,
        /// The name of the table.
        table: LentText<'a>,
    },
    /// Moves a paragraph to another place. A move after itself leaves it where it is.
    Move {
        paragraph: u64,
        /// Where it is to stand.
        after: Anchor,
    },
}
