//! Signs that stand before some kinds of print.

/// How many signs there are.
pub(crate) const SIGNS: usize = 4;

/// A sign of a table, by which contracts name its cells.
#[derive(Clone, Copy)]
pub enum Sign {
    /// Before a number.
    Number,
    /// Before one capital.
    Capital,
    /// Before a run of capitals.
    CapitalWord,
    /// Before a character that follows a number and would read as part of it.
    NoContraction,
}
