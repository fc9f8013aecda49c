//! What a book shows of a mark.

/// A mark of a paragraph.
#[derive(Clone, Copy, Debug)]
pub struct MarkItem<'a> {
    /// Its id.
    pub id: u64,
    /// The first place of the print that it covers, from 0.
    pub start: usize,
    /// The place after the last that it covers.
    pub end: usize,
    /// Whether it is dealt with.
    pub resolved: bool,
    /// Whether a correction or an undo has touched what it covers.
    pub touched: bool,
    /// The proofreader's note.
    pub note: &'a str,
}
