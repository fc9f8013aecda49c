//! One cell.
ghost use Rattle.std.specs.Prelude.{◌≡◌, ◌≤◌, ◌↔◌, ℕ, ◌<◌, ◌+◌, ◌⊎◌, IsTrue, IsSome, IsNone, IfSome};
ghost use Rattle.cell_core.specs.Ascii.{ascii_cell};
ghost use Rattle.cell_core.specs.Cell.{HasDot, braille_character, dot_value};

use std::marker::Model;

/// The first byte of Braille ASCII.
const FIRST_ASCII: u8 = 0x20;

/// How many cells, and bytes, Braille ASCII has.
const ASCII_CELLS: u8 = 64;

/// The masks of the bytes of Braille ASCII, in their order.
const ASCII_MASKS: [u8; 64] = [
    0, 46, 16, 60, 43, 41, 47, 4, 55, 62, 33, 44, 32, 36, 40, 12, 52, 2, 6, 18, 50, 34, 22, 54, 38,
    20, 49, 48, 35, 63, 28, 57, 8, 1, 3, 9, 25, 17, 11, 27, 19, 10, 26, 5, 7, 13, 29, 21, 15, 31,
    23, 14, 30, 37, 39, 58, 45, 61, 53, 42, 51, 59, 24, 56,
];

/// The bytes of Braille ASCII of the cells without dots 7 and 8, in the order of their masks.
const ASCII_BYTES: &[u8; 64] =
    b" A1B'K2L@CIF/MSP\"E3H9O6R^DJG>NTQ,*5<-U8V.%[$+X!&;:4\\0Z7(_?W]#Y)=";

/// A set of the dots 1 to 8.
#[derive(Clone, Copy, Debug, PartialEq, Eq)]
pub struct Cell {
    mask: u8,
}

impl Model for Cell {
    ghost Value = { ℕ };

    ghost view = { λ c. c.mask };

    ghost inverse = { λ mask. record { mask = mask } };
}

impl Cell {
    /// The cell without dots.
    pub const BLANK: Cell = Cell { mask: 0 };

    /// The cell with this mask, in which dot k has the value 2^(k-1).
    pub fn new(mask: u8) -> Self
        ensures { result ≡ mask }
    {
        Cell { mask }
    }

    /// The sum of 2^(k-1) over the dots k.
    pub fn mask(self) -> u8
        ensures { result ≡ self }
    {
        self.mask
    }

    /// Whether dot `k` is raised.
    pub fn dots(self, k: u8) -> bool
        requires first { 1 ≤ k }
        requires last { k ≤ 8 }
        ensures { IsTrue result ↔ HasDot self k }
    {
        (self.mask >> (k - 1)) & 1 == 1
    }

    /// The cell with dot `k` as well.
    pub(crate) fn with_dot(self, k: u8) -> Self
        requires first { 1 ≤ k }
        requires last { k ≤ 8 }
        requires apart { ¬ HasDot self k }
        ensures { result ≡ dot_value k + self }
    {
        Cell {
            mask: self.mask | 1 << (k - 1),
        }
    }

    /// The byte of the cell in North American Braille ASCII, if it has none of the dots 7 and 8.
    pub fn to_ascii(self) -> Option<u8>
        ensures none { IsNone result ↔ (HasDot self 7 ⊎ HasDot self 8) }
        ensures byte { IfSome result (λ byte. ascii_cell byte ≡ Some self) }
    {
        if self.mask >= ASCII_CELLS {
            return None;
        }
        Some(ASCII_BYTES[usize::from(self.mask)])
    }

    /// The cell of a byte in North American Braille ASCII, if the byte is between 0x20 and 0x5F.
    pub fn from_ascii(byte: u8) -> Option<Self>
        ensures cell { result ≡ ascii_cell byte }
        ensures some { IsSome result ↔ ((0x20 ≤ byte) × (byte ≤ 0x5F)) }
    {
        let place = byte.checked_sub(FIRST_ASCII)?;
        if place >= ASCII_CELLS {
            return None;
        }
        Some(Cell::new(ASCII_MASKS[usize::from(place)]))
    }

    /// The cell's character in the Unicode block Braille Patterns: U+2800 and the mask.
    pub fn to_unicode(self) -> char
        ensures { result ≡ braille_character self }
    {
        char::from_u32(0x2800 + u32::from(self.mask)).unwrap()
    }
}
