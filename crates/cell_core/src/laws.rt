//! Laws of cells and of dots operands.
ghost use Rattle.cell_core.specs.Ascii.{ascii_cell};
ghost use Rattle.cell_core.specs.Cell.{HasDot};
ghost use Rattle.cell_core.specs.Dots.{Dots, ListsDots, most_cells};
ghost use Rattle.cell_core.specs.declared.dots.TheConstants.{MOST_CELLS};
ghost use Rattle.std.specs.Prelude.{Some, ◌≡◌, ◌≤◌, ◌<◌, ◌+◌, ◌^◌, ◌↔◌, ℕ, List, Contains};

/// A text is the dots operand of at most one list of cells.
pub fn one_reading()
    ensures { (text cells others : List ℕ) → Dots text cells → Dots text others → cells ≡ others }
{}

/// Two cells with the same dots are the same.
pub fn one_set_of_dots()
    ensures { (mask others : ℕ) → mask < 2 ^ 8 → others < 2 ^ 8
        → ((dot : ℕ) → 1 ≤ dot → dot ≤ 8 → (HasDot mask dot ↔ HasDot others dot)) → mask ≡ others }
{}

/// The dots of a cell are those that its digits name, in whatever order.
pub fn digits_are_dots()
    ensures { (text : List ℕ) (mask : ℕ) → ListsDots text mask
        → (mask < 2 ^ 8) × ((dot : ℕ) → 1 ≤ dot → dot ≤ 8 → (HasDot mask dot ↔ Contains text (48 + dot))) }
{}

/// A cell has at most one byte in Braille ASCII, and each byte from 0x20 to 0x5F is that of a cell
/// without the dots 7 and 8, so `to_ascii` and `from_ascii` undo each other both ways.
pub fn one_byte()
    ensures one { (byte other mask : ℕ) → ascii_cell byte ≡ Some mask → ascii_cell other ≡ Some mask → byte ≡ other }
    ensures some { (byte : ℕ) → 0x20 ≤ byte → byte ≤ 0x5F
        → (mask : ℕ) × (ascii_cell byte ≡ Some mask) × (¬ HasDot mask 7) × (¬ HasDot mask 8) }
{}

/// The limit that the code compares with is the one in the definitions.
pub fn limits()
    ensures { MOST_CELLS ≡ most_cells }
{}
