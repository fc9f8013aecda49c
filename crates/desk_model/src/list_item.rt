//! What the list of a book shows of a paragraph.
use super::style::Style;

/// What the list of a book shows of a paragraph.
#[derive(Clone, Copy, Debug)]
pub struct ListItem<'a> {
    /// Its id.
    pub id: u64,
    /// The name of its table.
    pub table: &'a str,
    /// Its style.
    pub style: Style,
    /// Whether it begins a volume.
    pub begins_volume: bool,
    /// Whether it is struck.
    pub struck: bool,
    /// How many characters its print has.
    pub length: usize,
}
