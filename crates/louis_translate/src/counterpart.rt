//! The cell that belongs to one place of a print, and the place that belongs to one cell. Neither
//! search allocates.
ghost use Rattle.louis_translate.specs.Braille.{IsOutputPlace, IsPrintPlace, MakesCell, braille};
ghost use Rattle.louis_translate.specs.Position.{AreDefined};
ghost use Rattle.louis_translate.specs.Tiling.{Tiles};
ghost use Rattle.std.specs.Prelude.{◌≡◌, ◌^◌, ◌<◌, ◌≤◌, IfNone, IfSome, List, length};

use super::choices::Choice;
use super::pieces::Pieces;
use super::rule_book::RuleBook;

/// The output place of a place of a print, from 0: how many cells come before those of the choice
/// that covers the place. The table defines the print's characters, and all cells of the print can
/// be counted.
pub fn output_place<B: RuleBook>(book: &B, print: &[char], place: usize) -> usize
    requires defined { AreDefined (B.meaning book.now) print.now }
    requires within { place < length print.now }
    requires countable { (choices : List Choice) × Tiles (B.meaning book.now) print.now choices
        × (length (braille (B.meaning book.now) print.now choices) < 2 ^ 64) }
    ensures { (choices : List Choice) → Tiles (B.meaning book.now) print.now choices
        → IsOutputPlace (B.meaning book.now) print.now choices place result }
{
    let mut before = 0;
    for piece in Pieces::new(book, print) {
        if place < piece.choice.end {
            return before;
        }
        before += piece.sign.len() + piece.own.len();
    }
    unreachable!()
}

/// The choice that made a cell of a print's braille, the cell's number from 0; `None` exactly if
/// the braille has no such cell. The table defines the print's characters.
pub fn choice_of_cell<B: RuleBook>(book: &B, print: &[char], cell: usize) -> Option<Choice>
    requires { AreDefined (B.meaning book.now) print.now }
    ensures found { IfSome result (λ choice. (choices : List Choice)
        → Tiles (B.meaning book.now) print.now choices
        → MakesCell (B.meaning book.now) print.now choices choice cell) }
    ensures past { IfNone result ((choices : List Choice)
        → Tiles (B.meaning book.now) print.now choices
        → length (braille (B.meaning book.now) print.now choices) ≤ cell) }
{
    let mut left = cell;
    for piece in Pieces::new(book, print) {
        if left < piece.sign.len() || left - piece.sign.len() < piece.own.len() {
            return Some(piece.choice);
        }
        left = left - piece.sign.len() - piece.own.len();
    }
    None
}

/// The print place of a cell of a print's braille, from 0: the first place of the choice that made
/// the cell; `None` exactly if the braille has no such cell. The table defines the print's
/// characters.
pub fn print_place<B: RuleBook>(book: &B, print: &[char], cell: usize) -> Option<usize>
    requires { AreDefined (B.meaning book.now) print.now }
    ensures found { IfSome result (λ place. (choices : List Choice)
        → Tiles (B.meaning book.now) print.now choices
        → IsPrintPlace (B.meaning book.now) print.now choices cell place) }
    ensures past { IfNone result ((choices : List Choice)
        → Tiles (B.meaning book.now) print.now choices
        → length (braille (B.meaning book.now) print.now choices) ≤ cell) }
{
    Some(choice_of_cell(book, print, cell)?.start)
}
