//! The cells that the choices of a print make, choice after choice.
ghost use Rattle.louis_translate.specs.Braille.{own_cells as own_cells_lem};
ghost use Rattle.louis_translate.specs.Piece.{IsFree, IsLoneAt, IsLoneCell};
ghost use Rattle.louis_translate.specs.Position.{AreDefined};
ghost use Rattle.std.specs.Bool.{OnTrue};
ghost use Rattle.std.specs.Option.{ForSome, option_copied};
ghost use Rattle.std.specs.Prelude.{IfSome, List, MatchOption, None, Some, [], length};
ghost use Rattle.std.specs.Prelude.{option_map, slice_get, true, ℕ, ◌+◌, ◌<◌, ◌≡◌, ◌∷◌};

use super::choices::{Choice, choose};
use super::position::is_digit;
use super::rule_book::RuleBook;
use super::sign::{Signs, is_mode_char};
use cell_core::Cell;
use louis_table::{Class, Definition, Table};
use std::marker::Model;
use std::slice::from_ref;

/// The cells that one choice makes: the sign before its start, and then its own.
#[derive(Clone, Copy, Debug)]
pub struct Piece<'a> {
    /// The choice.
    pub choice: Choice,
    /// The sign before its start, empty if there is none.
    pub sign: &'a [Cell],
    /// The cells of its rule, or of its character's definition.
    pub own: &'a [Cell],
}

/// The pieces of a print's braille from its front to its end, one for each choice. Nothing is
/// allocated. Contracts see the list of what those that are left show.
///
/// Most of a print is runs of characters that each stand as one cell. A loop that has to be fast
/// takes these by [`Pieces::next_lone`], and the piece after them by [`Pieces::next_chosen`].
#[derive(Drop)]
pub struct Pieces<'a, B: RuleBook> {
    book: &'a B,
    print: &'a [char],
    // where the next piece begins
    at: usize,
    // whether it is known that no sign after a number can stand there
    is_free: bool,
    signs: Signs<'a>,
}

impl<'a, B: RuleBook> Model for Pieces<'a, B> {
    ghost use Rattle.louis_translate.specs.Items.{PieceItem, made_by};
    ghost use Rattle.louis_translate.specs.Left.{choices_from};
    ghost use Rattle.louis_translate.specs.Piece.{IsFree};
    ghost use Rattle.louis_translate.specs.Position.{AreDefined};
    ghost use Rattle.std.specs.Prelude.{◌≡◌, ◌≤◌, List, length, map, true};

    ghost Value = { List PieceItem };

    ghost view = { λ p. map (made_by (B.meaning p.book.now) p.print.now)
        (choices_from (B.meaning p.book.now) p.print.now p.at) };

    ghost invariant = { λ p. (p.at ≤ length p.print.now) × AreDefined (B.meaning p.book.now) p.print.now
        × (p.is_free ≡ true → IsFree (B.meaning p.book.now) p.print.now p.at)
        × (p.signs.table.now ≡ B.meaning p.book.now) × (p.signs.print.now ≡ p.print.now) };
}

impl<'a, B: RuleBook> Pieces<'a, B> {
    ghost use Rattle.louis_translate.specs.Items.{made_by, item_of};
    ghost use Rattle.louis_translate.specs.Piece.{BeginsWithLone};
    ghost use Rattle.louis_translate.specs.Position.{AreDefined};
    ghost use Rattle.louis_translate.specs.Tiling.{Tiles};
    ghost use Rattle.std.specs.Prelude.{[], ◌∷◌, ◌≡◌, List, MatchOption, map};

    /// The pieces of a print whose characters the table defines: what the choices of its tiling
    /// make.
    pub fn new(book: &'a B, print: &'a [char]) -> Self
        requires { AreDefined (B.meaning book.now) print.now }
        ensures { (choices : List Choice) → Tiles (B.meaning book.now) print.now choices
            → result ≡ map (made_by (B.meaning book.now) print.now) choices }
    {
        Pieces {
            book,
            print,
            at: 0,
            is_free: true,
            signs: Signs::new(book.table(), print),
        }
    }

    /// Takes the next piece, and gives its cell, if it is seen at once that the piece is one cell
    /// without a sign. Otherwise nothing is taken, and `next_chosen` finds the piece.
    #[inline(always)]
    pub fn next_lone(&mut self) -> Option<Cell>
        ensures { MatchOption result (self.new ≡ self.old) (BeginsWithLone self.old self.new) }
    {
        let cell = *lone_at(self.book, self.print, self.at, self.is_free)?;
        self.at += 1;
        Some(cell)
    }

    /// The next piece, as `next` gives it, without looking whether it is a lone cell.
    #[inline(always)]
    pub fn next_chosen(&mut self) -> Option<Piece<'a>>
        ensures { MatchOption result ((self.old ≡ []) × (self.new ≡ []))
            (λ piece. self.old ≡ item_of piece ∷ self.new) }
    {
        if self.at == self.print.len() {
            return None;
        }
        let choice = choose(self.book, self.print, self.at);
        self.at = choice.end;
        let table = self.book.table();
        let character = self.print[choice.start];
        let was_free = self.is_free;
        self.is_free = frees_next(table, self.print[choice.end - 1]);
        if let Some(cell) = unsigned_cell(self.book, character, was_free) {
            return Some(Piece {
                choice,
                sign: &[],
                own: own_or_lone(table, cell, choice.rule),
            });
        }
        let definition = table.definition(character);
        Some(Piece {
            choice,
            sign: self.signs.at_class(choice.start, class_of(definition)),
            own: own_cells(table, definition, choice.rule),
        })
    }
}

/// The class in a definition.
fn class_of(definition: Option<&Definition>) -> Option<Class>
    ensures { result ≡ option_map (λ defined. defined.class) (option_copied definition.entry) }
{
    Some(definition?.class)
}

/// The cells of a rule, or of a definition if there is no rule.
fn own_cells<'a>(
    table: &'a Table,
    definition: Option<&'a Definition>,
    rule: Option<usize>,
) -> &'a [Cell]
    requires { ForSome rule (λ k. k < length table.now.rules) }
    ensures { result.now ≡ own_cells_lem table.now (option_copied definition.entry) rule }
{
    match (rule, definition) {
        (Some(index), _) => table.rules()[index].cells.as_slice(),
        (None, Some(definition)) => definition.cells.as_slice(),
        (None, None) => &[],
    }
}

/// The cells of a rule, or the lone cell of a character if there is no rule.
#[inline(always)]
fn own_or_lone<'a>(table: &'a Table, cell: &'a Cell, rule: Option<usize>) -> &'a [Cell]
    requires { ForSome rule (λ k. k < length table.now.rules) }
    ensures { MatchOption rule (result.now ≡ cell.now ∷ []) (λ k. result.now ≡ own_cells_lem table.now None (Some k)) }
{
    match rule {
        Some(index) => table.rules()[index].cells.as_slice(),
        None => from_ref(cell),
    }
}

/// The lone cell of a character at a place that is free of a sign after a number: no sign stands
/// before it there.
#[inline(always)]
fn unsigned_cell<B: RuleBook>(book: &B, character: char, is_free: bool) -> Option<&Cell>
    ensures { IfSome (option_copied result)
        (λ cell. (is_free ≡ true) × IsLoneCell (B.meaning book.now) character cell) }
{
    if !is_free {
        return None;
    }
    book.lone_cell(character)
}

/// The only cell that is made at a place, if it is seen at once that there is no other. A place
/// that may follow a number has none.
#[inline(always)]
fn lone_at<'a, B: RuleBook>(
    book: &'a B,
    print: &[char],
    at: usize,
    is_free: bool,
) -> Option<&'a Cell>
    requires free { OnTrue is_free (IsFree (B.meaning book.now) print.now at) }
    ensures { IfSome (option_copied result) (IsLoneAt (B.meaning book.now) print.now at) }
{
    let cell = unsigned_cell(book, *print.get(at)?, is_free)?;
    if !book.chooses_definition(print, at) {
        return None;
    }
    Some(cell)
}

/// Whether no sign after a number can stand right after a character: the table has none, or no
/// number continues over the character.
#[inline(always)]
fn frees_next(table: &Table, character: char) -> bool
    ensures { OnTrue result
        ((print : List ℕ) (i : ℕ) → slice_get print i ≡ Some character → IsFree table.now print (i + 1)) }
{
    if table.nocontractsign().is_empty() {
        return true;
    }
    !is_digit(table.class(character)) && !is_mode_char(table, character)
}

impl<'a, B: RuleBook> Iterator for Pieces<'a, B> {
    ghost use Rattle.louis_translate.specs.Items.{item_of};
    ghost use Rattle.std.specs.Iterator.{YieldsFirstBy, item_count};

    type Item = Piece<'a>;

    ghost next_gives = { YieldsFirstBy item_of (λ left. left) };

    ghost remaining = { item_count (λ left. left) };

    #[inline(always)]
    fn next(&mut self) -> Option<Piece<'a>> {
        let Some(cell) = lone_at(self.book, self.print, self.at, self.is_free) else {
            return self.next_chosen();
        };
        let choice = Choice {
            rule: None,
            start: self.at,
            end: self.at + 1,
        };
        self.at = choice.end;
        Some(Piece {
            choice,
            sign: &[],
            own: from_ref(cell),
        })
    }
}
