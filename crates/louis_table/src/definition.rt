//! What a table says of one character.
use cell_core::Cells;

/// The class that the opcode of a definition gives to its character.
#[derive(Clone, Copy, Debug, PartialEq, Eq)]
pub enum Class {
    Space,
    Punctuation,
    Digit,
    Letter,
}

/// The definition of a character: its class, and the cells that stand for it.
#[derive(Debug, Drop)]
pub struct Definition {
    pub class: Class,
    pub cells: Cells,
}
