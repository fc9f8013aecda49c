//! Sets of characters that a table treats alike.

/// How many sets there are.
pub(crate) const SETS: usize = 2;

/// A set of characters of a table, by which contracts name its characters.
#[derive(Clone, Copy)]
pub enum CharacterSet {
    /// Those that stand within a number besides its digits.
    NumericMode,
    /// Those that need the sign of no contraction when they follow a number.
    NoContraction,
}
