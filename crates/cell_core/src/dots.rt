//! Dots operands: cells joined by hyphens, each as the digits of its dots.
ghost use Rattle.cell_core.specs.Dots.{Dots, most_cells};
ghost use Rattle.cell_core.specs.Reading.{HasRead, cell_in, cells_in, with_digits};
ghost use Rattle.std.specs.Prelude.{◌≡◌, ◌≤◌, ◌<◌, ◌↔◌, ℕ, List, length, take, IfOk};
ghost use Rattle.std.specs.Prelude.{IfNone, IfSome, IsErrOf, Some, None};

use super::cell::Cell;
use std::alloc::Global;
use thiserror::Error;

/// The most cells that a dots operand may have.
pub const MOST_CELLS: usize = 20;

/// Why a dots operand wasn't read.
#[derive(Clone, Copy, Debug, PartialEq, Eq, Error)]
pub enum DotsFault {
    /// The text isn't a dots operand.
    #[error("not the dots of cells")]
    Bad,
    /// The text is a dots operand of more than [`MOST_CELLS`] cells.
    #[error("more than {MOST_CELLS} cells")]
    TooMany,
    /// An allocation failed.
    #[error("out of memory")]
    NoMemory,
}

/// The cell of the dots that digits name, each once.
fn read_digits(digits: &[u8]) -> Option<Cell>
    ensures { result ≡ with_digits 0 digits.now }
{
    let mut cell = Cell::BLANK;
    for digit in digits {
        let dot = match digit {
            b'1'..=b'8' => *digit - b'0',
            _ => return None,
        };
        if cell.dots(dot) {
            return None;
        }
        cell = cell.with_dot(dot);
    }
    Some(cell)
}

/// One cell of a dots operand.
fn read_cell(text: &[u8]) -> Option<Cell>
    ensures { result ≡ cell_in text.now }
{
    match text {
        [] => None,
        [b'0'] => Some(Cell::BLANK),
        digits => read_digits(digits),
    }
}

/// Reads a dots operand, and says of how many cells it is. The first cells are in `cells`, as many
/// as there is room for.
fn read_cells(text: &str, cells: &mut [Cell; MOST_CELLS]) -> Option<usize>
    ensures none { IfNone result (cells_in text.now ≡ None) }
    ensures some { IfSome result (λ count. HasRead text.now cells.new count) }
{
    let mut count = 0;
    for piece in text.split('-') {
        let cell = read_cell(piece.as_bytes())?;
        if count < MOST_CELLS {
            cells[count] = cell;
        }
        count += 1;
    }
    Some(count)
}

/// The cells that a dots operand names, in order.
///
/// A dots operand is cells joined by hyphens. A cell is the digit `0` for the cell without dots, or
/// the digits of its dots from 1 to 8 in any order, each once. Nothing is allocated before all is
/// checked.
///
/// # Errors
///
/// [`DotsFault::Bad`] if the text isn't a dots operand, [`DotsFault::TooMany`] if it is one of more
/// than [`MOST_CELLS`] cells, and [`DotsFault::NoMemory`] if an allocation failed.
pub fn read_dots(alloc: Global, text: &str) -> Result<Vec<Cell>, DotsFault>
    ensures cells { IfOk result (λ cells. Dots text.now cells.items × (length cells.items ≤ most_cells)) }

    // Exactly if the text isn't a dots operand, whether or not an allocation would fail.
    ensures bad { IsErrOf result DotsFault.Bad ↔ ((cells : List ℕ) → ¬ Dots text.now cells) }

    // Exactly if it is one of too many cells, whether or not an allocation would fail.
    ensures too_many { IsErrOf result DotsFault.TooMany
        ↔ ((cells : List ℕ) × Dots text.now cells × (most_cells < length cells)) }

    // Only if it is one of few enough cells.
    ensures no_memory { IsErrOf result DotsFault.NoMemory
        → ((cells : List ℕ) × Dots text.now cells × (length cells ≤ most_cells)) }
{
    let mut cells = [Cell::BLANK; MOST_CELLS];
    let Some(count) = read_cells(text, &mut cells) else {
        return Err(DotsFault::Bad);
    };
    if count > MOST_CELLS {
        return Err(DotsFault::TooMany);
    }
    Vec::from_slice(alloc, &cells[..count]).map_err(|_| DotsFault::NoMemory)
}
