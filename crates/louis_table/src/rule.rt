//! Rules that replace characters of print by cells of their own.
use cell_core::{Cells, Sequence};

/// Where a rule may be used.
#[derive(Clone, Copy, Debug, PartialEq, Eq)]
pub enum RuleKind {
    /// Everywhere.
    Always,
    /// As a whole word.
    Word,
    /// At the beginning of a word.
    BegWord,
    /// In the middle of a word.
    MidWord,
    /// At the end of a word.
    EndWord,
}

/// A rule of a table: the cells that stand for its characters wherever its kind allows it.
#[derive(Debug, Drop)]
pub struct Rule {
    /// The number of its line, from 1.
    pub line: usize,
    /// Where it may be used.
    pub kind: RuleKind,
    /// Its characters, folded.
    pub chars: Characters,
    /// Its cells.
    pub cells: Cells,
}

/// Characters in order, which contracts see as the list of their codes.
pub type Characters = Sequence<char>;
