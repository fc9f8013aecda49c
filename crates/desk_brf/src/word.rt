//! The words of cells.
ghost use Rattle.desk_brf.specs.Volume.{IsSixDot};
ghost use Rattle.desk_brf.specs.Words.{BeginsWithWord, IsAtWord, words};
ghost use Rattle.std.specs.Prelude.{◌≡◌, ◌<◌, ◌≤◌, All, length};

use cell_core::Cell;

/// The cells from the first one on that isn't blank.
pub(crate) fn skip_blanks(cells: &[Cell]) -> &[Cell]
    ensures words { words result.now ≡ words cells.now }
    ensures at_word { IsAtWord result.now }
    ensures rest { length result.now ≤ length cells.now }
    ensures dots { All IsSixDot cells.now → All IsSixDot result.now }
{
    let mut rest = cells;
    while let [first, others @ ..] = rest {
        if *first != Cell::BLANK {
            break;
        }
        rest = others;
    }
    rest
}

/// How many cells the word has with which the cells begin.
pub(crate) fn word_len(cells: &[Cell]) -> usize
    requires at_word { IsAtWord cells.now }
    requires some { 0 < length cells.now }
    ensures { BeginsWithWord result cells.now }
{
    cells
        .iter()
        .position(|cell| *cell == Cell::BLANK)
        .unwrap_or(cells.len())
}
