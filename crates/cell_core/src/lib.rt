//! Braille cells: their dots, masks and characters, and the dots operands of table lines.
//!
//! A cell is a set of the dots 1 to 8, and contracts see it as its mask, in which dot k has the
//! value 2^(k-1).
//!
//! ```rust
//! use cell_core::{Cell, read_dots};
//!
//! let cells = read_dots(alloc, "145-0-8")?;
//! assert_eq!(rt; cells[0].to_unicode(), '⠙');
//! ```
//!
//! What a cell stands for in a language is left to the tables of other crates.
#![tactic(auto)]

mod cell;
mod cells;
mod dots;
pub mod laws;

pub use cell::Cell;
pub use cells::{Cells, Sequence};
pub use dots::{DotsFault, MOST_CELLS, read_dots};
