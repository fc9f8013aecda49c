//! The characters of a text, all defined by a table.
ghost use Rattle.louis_table.specs.Meaning.{definition_of};
ghost use Rattle.louis_translate.specs.Position.{AreDefined, IsFirstUndefined};
ghost use Rattle.std.specs.Prelude.{◌≡◌, ◌↔◌, ℕ, Err, IfNone, IfOk, IfSome, OnOk, is_some, chars};

use super::rule_book::RuleBook;
use louis_table::Table;
use std::alloc::{AllocError, Global};
use thiserror::Error;

/// Why a print wasn't translated.
#[derive(Clone, Copy, Debug, PartialEq, Eq, Error)]
pub enum Fault {
    /// The table doesn't define a character of the print.
    #[error("the character at place {place} is not defined")]
    Undefined {
        /// The smallest place of such a character, from 0.
        place: usize,
    },
    /// An allocation failed.
    #[error("out of memory")]
    NoMemory,
}

/// Whether the table of a book defines a character.
#[inline(always)]
pub fn is_defined<B: RuleBook>(book: &B, character: char) -> bool
    ensures { result ≡ is_some (definition_of (B.meaning book.now) character) }
{
    book.knows(character) || defines(book.table(), character)
}

/// Whether a table defines a character.
#[inline(always)]
pub(crate) fn defines(table: &Table, character: char) -> bool
    ensures { result ≡ is_some (definition_of table.now character) }
{
    table.definition(character).is_some()
}

/// The first place, from 0, whose character the table doesn't define. It allocates nothing.
pub fn undefined_place(table: &Table, print: &[char]) -> Option<usize>
    ensures none { IfNone result (AreDefined table.now print.now) }
    ensures some { IfSome result (IsFirstUndefined table.now print.now) }
{
    print
        .iter()
        .position(|character| table.definition(*character).is_none())
}

/// The first place of a text whose character the table doesn't define.
fn first_undefined(table: &Table, text: &str) -> Option<usize>
    ensures none { IfNone result (AreDefined table.now (chars text.now)) }
    ensures some { IfSome result (IsFirstUndefined table.now (chars text.now)) }
{
    let mut place = 0;
    for character in text.chars() {
        if table.definition(character).is_none() {
            return Some(place);
        }
        place += 1;
    }
    None
}

/// The characters of a text.
fn characters(alloc: Global, text: &str) -> Result<Vec<char>, AllocError>
    ensures { IfOk result (λ print. print.items ≡ chars text.now) }
{
    text.chars().collect(alloc)
}

/// The characters of a text, checked before anything is allocated.
pub(crate) fn defined_characters(
    alloc: Global,
    table: &Table,
    text: &str,
) -> Result<Vec<char>, Fault>
    ensures characters { IfOk result (λ print. print.items ≡ chars text.now) }
    ensures defined { OnOk result (AreDefined table.now (chars text.now)) }
    ensures undefined { (place : ℕ)
        → (result ≡ Err (Fault.Undefined place)) ↔ IsFirstUndefined table.now (chars text.now) place }
{
    if let Some(place) = first_undefined(table, text) {
        return Err(Fault::Undefined { place });
    }
    characters(alloc, text).map_err(|_| Fault::NoMemory)
}
