//! What a rule book answers.
use cell_core::Cell;
use louis_table::Table;

/// A table, and which of its rules is chosen at each place of a print.
pub trait RuleBook {
    ghost use Rattle.louis_table.specs.Meaning.{Meaning, definition_of};
    ghost use Rattle.louis_translate.specs.Choice.{IsChosen};
    ghost use Rattle.louis_translate.specs.Piece.{IsLoneCell};
    ghost use Rattle.louis_translate.specs.Position.{AreDefined};
    ghost use Rattle.std.specs.Bool.{OnTrue};
    ghost use Rattle.std.specs.Prelude.{◌≡◌, ◌<◌, IfSome, IsSome, None, length, option_copied};

    ghost meaning: { Self → Meaning };

    /// The table.
    fn table(&self) -> &Table
        ensures { result.now ≡ meaning self.now };

    /// The index of the rule that is chosen at a place of the print, or `None` if the character's
    /// definition is.
    fn best(&self, print: &[char], at: usize) -> Option<usize>
        requires defined { AreDefined (meaning self.now) print.now }
        requires within { at < length print.now }
        ensures { IsChosen (meaning self.now) print.now at result };

    /// Whether it is seen at once that the table defines a character. `false` says nothing. A book
    /// that knows none is only slower.
    #[inline(always)]
    fn knows(&self, _character: char) -> bool
        ensures { OnTrue result (IsSome (definition_of (meaning self.now) _character)) }
    {
        false
    }

    /// The one cell of a character that is neither a digit nor a capital, or `None` if it has more,
    /// or the book doesn't know it at once: wherever the definition of the character is chosen, and
    /// no number reaches it, this cell is all that stands for it. A book that knows none is only
    /// slower.
    #[inline(always)]
    fn lone_cell(&self, _character: char) -> Option<&Cell>
        ensures { IfSome (option_copied result) (IsLoneCell (meaning self.now) _character) }
    {
        None
    }

    /// Whether it is seen at once that the definition of the character at a place is chosen.
    /// `false` says nothing.
    #[inline(always)]
    fn chooses_definition(&self, _print: &[char], _at: usize) -> bool
        requires { _at < length _print.now }
        ensures { OnTrue result (IsChosen (meaning self.now) _print.now _at None) }
    {
        false
    }
}
