//! The cells of a print, and which places belong together.
ghost use Rattle.louis_translate.specs.Braille.{IsPart, IsTranslation};
ghost use Rattle.louis_translate.specs.Position.{AreDefined, IsFirstUndefined};
ghost use Rattle.std.specs.Prelude.{◌≡◌, ◌+◌, ◌≤◌, ◌<◌, ◌↔◌, ◌++◌, ℕ, Err, IfOk, IsTrue, MatchBool, OnOk, length};
ghost use Rattle.std.specs.Prelude.{replicate, chars};

use super::pieces::Pieces;
use super::print::{Fault, defined_characters};
use super::rule_book::RuleBook;
use cell_core::{Cell, Cells, Sequence};
use std::alloc::{AllocError, Global};

/// Places of a print or of its cells in order, each from 0, which contracts see as their list.
pub type Places = Sequence<usize>;

/// The cells of a print, and where they come from.
#[derive(Debug, Drop)]
pub struct Translation {
    /// The cells.
    pub cells: Cells,
    /// For each place of the print, the first cell made for the choice that covers it, its sign
    /// included.
    pub output_pos: Places,
    /// For each cell, the first place of the choice that made it.
    pub input_pos: Places,
}

/// The cells of a front of a print.
#[derive(Debug, Drop)]
pub struct Part {
    /// The cells.
    pub cells: Cells,
    /// How many characters of the print these stand for.
    pub used: usize,
    /// Whether these are all.
    pub complete: bool,
}

/// Adds a place this many times.
fn push_copies(places: &mut Vec<usize>, count: usize, place: usize) -> Result<(), AllocError>
    ensures { OnOk result (places.new.items ≡ places.old.items ++ replicate count place) }
{
    for _ in 0..count {
        places.push(place)?;
    }
    Ok(())
}

/// The cells of a print of defined characters, and which places belong together.
fn translate_print<B: RuleBook>(
    alloc: Global,
    book: &B,
    print: &[char],
) -> Result<Translation, AllocError>
    requires { AreDefined (B.meaning book.now) print.now }
    ensures { IfOk result (λ t.
        IsTranslation (B.meaning book.now) print.now t.cells t.output_pos t.input_pos) }
{
    let mut cells = Vec::new(alloc);
    let mut output_pos = Vec::new(alloc);
    let mut input_pos = Vec::new(alloc);
    for piece in Pieces::new(book, print) {
        let before = cells.len();
        push_copies(
            &mut output_pos,
            piece.choice.end - piece.choice.start,
            before,
        )?;
        cells.extend_from_slice(piece.sign)?;
        cells.extend_from_slice(piece.own)?;
        push_copies(&mut input_pos, cells.len() - before, piece.choice.start)?;
    }
    Ok(Translation {
        cells: Cells::from_vec(cells),
        output_pos: Places::from_vec(output_pos),
        input_pos: Places::from_vec(input_pos),
    })
}

/// The cells of a text, and which places of its characters and cells belong together.
///
/// # Errors
///
/// [`Fault::Undefined`] exactly if the table doesn't define a character of the text, with the
/// smallest place of one, before anything is allocated; otherwise [`Fault::NoMemory`] if an
/// allocation failed.
pub fn translate<B: RuleBook>(alloc: Global, book: &B, text: &str) -> Result<Translation, Fault>
    ensures translation { IfOk result (λ t.
        IsTranslation (B.meaning book.now) (chars text.now) t.cells t.output_pos t.input_pos) }
    ensures undefined { (place : ℕ)
        → (result ≡ Err (Fault.Undefined place)) ↔ IsFirstUndefined (B.meaning book.now) (chars text.now) place }
{
    let print = defined_characters(alloc, book.table(), text)?;
    translate_print(alloc, book, &print).map_err(|_| Fault::NoMemory)
}

/// Whether a sign and the cells after it fit in a room.
fn have_room(sign: &[Cell], cells: &[Cell], room: usize) -> bool
    ensures { MatchBool result
        (length sign.now + length cells.now ≤ room)
        (room < length sign.now + length cells.now) }
{
    sign.len() <= room && cells.len() <= room - sign.len()
}

/// The cells of the longest front of a print of defined characters that fit in a room.
fn fill<B: RuleBook>(
    alloc: Global,
    book: &B,
    print: &[char],
    room: usize,
) -> Result<Part, AllocError>
    requires { AreDefined (B.meaning book.now) print.now }
    ensures part { IfOk result (λ part.
        IsPart (B.meaning book.now) print.now room part.cells part.used) }
    ensures complete { IfOk result (λ part. IsTrue part.complete ↔ (part.used ≡ length print.now)) }
{
    let mut cells = Vec::new(alloc);
    let mut used = 0;
    for piece in Pieces::new(book, print) {
        if !have_room(piece.sign, piece.own, room - cells.len()) {
            break;
        }
        cells.extend_from_slice(piece.sign)?;
        cells.extend_from_slice(piece.own)?;
        used = piece.choice.end;
    }
    Ok(Part {
        cells: Cells::from_vec(cells),
        used,
        complete: used == print.len(),
    })
}

/// The cells of the longest front of a text's choices that fit in a room of this many cells. No
/// choice is cut.
///
/// # Errors
///
/// As [`translate`].
pub fn translate_string<B: RuleBook>(
    alloc: Global,
    book: &B,
    text: &str,
    room: usize,
) -> Result<Part, Fault>
    ensures part { IfOk result (λ part.
        IsPart (B.meaning book.now) (chars text.now) room part.cells part.used) }
    ensures complete { IfOk result (λ part.
        IsTrue part.complete ↔ (part.used ≡ length (chars text.now))) }
    ensures undefined { (place : ℕ)
        → (result ≡ Err (Fault.Undefined place)) ↔ IsFirstUndefined (B.meaning book.now) (chars text.now) place }
{
    let print = defined_characters(alloc, book.table(), text)?;
    fill(alloc, book, &print, room).map_err(|_| Fault::NoMemory)
}
