//! Characters that stand as one cell wherever their definition is chosen and no number reaches
//! them.
ghost use Rattle.louis_translate.specs.Piece.{AreLoneCells, IsLoneCell};
ghost use Rattle.std.specs.Prelude.{◌≡◌, ◌<◌, IfSome, slice_get, option_and_then, option_copied};

use super::position::is_digit;
use cell_core::Cell;
use louis_table::Table;
use std::marker::Model;

/// How many of the first characters of Unicode have their lone cells kept.
const DIRECT: usize = 256;

/// The lone cells of the first characters of Unicode, found by their code. Contracts see their
/// list.
#[derive(Drop)]
pub(crate) struct LoneCells {
    cells: [Option<Cell>; DIRECT],
}

impl Model for LoneCells {
    ghost use Rattle.std.specs.Prelude.{List, Option, ℕ};

    ghost Value = { List (Option ℕ) };

    ghost view = { λ l. l.cells };
}

impl LoneCells {
    /// The lone cells of a table.
    pub(crate) fn new(table: &Table) -> Self
        ensures { AreLoneCells table.now result }
    {
        let mut cells = [None; DIRECT];
        for code in 0..DIRECT {
            cells[code] = lone_cell(table, code as u8 as char);
        }
        LoneCells { cells }
    }

    /// The lone cell of a character, if one is kept.
    #[inline(always)]
    pub(crate) fn get(&self, character: char) -> Option<&Cell>
        ensures { option_copied result ≡ option_and_then (λ cell. cell) (slice_get self.now character) }
    {
        self.cells.get(character as usize)?.as_ref()
    }
}

/// The lone cell of a character, if it has one.
fn lone_cell(table: &Table, character: char) -> Option<Cell>
    ensures { IfSome result (IsLoneCell table.now character) }
{
    let definition = table.definition(character)?;
    if is_digit(Some(definition.class)) || table.capital(character) {
        return None;
    }
    match definition.cells.as_slice() {
        [cell] => Some(*cell),
        _ => None,
    }
}
