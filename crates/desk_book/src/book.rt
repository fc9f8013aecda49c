//! A book, and its paragraphs as they are held.
ghost use Rattle.desk_book.specs.Plans.{IsHeldFor};
ghost use Rattle.desk_memory.specs.Display.{IsShown};
ghost use Rattle.desk_model.specs.Book.{empty_book, paragraph_of};
ghost use Rattle.desk_model.specs.Rebuilding.{IsFaultOf};
ghost use Rattle.desk_model.specs.Shows.{Shows};
ghost use Rattle.desk_model.specs.Sound.{IsSound};
ghost use Rattle.desk_parts.specs.Parts.{rows_in};
ghost use Rattle.louis_table.specs.Meaning.{Meaning};
ghost use Rattle.std.specs.Prelude.{◌≡◌, MatchResult, IfErr, IfOk, None};

use desk_memory::{Marks, Paragraph, Paragraphs, Tables};
use desk_model::{PartsFault, Refusal};
use desk_parts::Parts;
use desk_rebuild::{HeldBook, rebuild};
use louis_translate::RuleIndex;
use std::alloc::{AllocError, Global};
use std::marker::Model;

/// A book: its tables, its paragraphs with their prints and their braille, its marks, and its
/// version, which each command raises by one. Contracts see what was typed, corrected and marked;
/// that it is sound, and that the cells are those of the prints, is true of every book.
#[derive(Drop)]
pub struct Book {
    pub(crate) version: u64,
    pub(crate) tables: Tables,
    pub(crate) paragraphs: Paragraphs,
    pub(crate) marks: Marks,
}

impl Model for Book {
    ghost use Rattle.desk_model.specs.Book.{Book};
    ghost use Rattle.desk_memory.specs.Held.{IsHeld, book_held};

    ghost Value = { Book };

    ghost view = { λ b. book_held b.version b.tables b.paragraphs b.marks };

    ghost invariant = { λ b. IsHeld b.version b.tables b.paragraphs b.marks };
}

impl Book {
    /// A book without anything, at version 0. It allocates nothing, so it is always `Ok`.
    pub fn new(alloc: Global) -> Result<Self, AllocError>
        ensures { MatchResult result (λ book. book ≡ empty_book) (λ _. ⊥) }
    {
        Ok(Book {
            version: 0,
            tables: Tables::new(alloc),
            paragraphs: Paragraphs::new(alloc),
            marks: Marks::new(alloc),
        })
    }

    /// The book that the parts show. Its braille is that of the rows of `cache`, which has to be
    /// that of the prints; without these rows it is made.
    ///
    /// # Errors
    ///
    /// The first damage of parts that show no book, and [`PartsFault::NoMemory`] if an allocation
    /// failed.
    pub fn rebuild(alloc: Global, parts: Parts) -> Result<Self, PartsFault>
        ensures shown { IfOk result (Shows (rows_in parts)) }
        ensures damaged { IfErr result (IsFaultOf (rows_in parts)) }
    {
        let HeldBook {
            version,
            tables,
            paragraphs,
            marks,
        } = rebuild(alloc, parts)?;
        Ok(Book {
            version,
            tables,
            paragraphs,
            marks,
        })
    }

    /// The version: how many commands were accepted. Each book is sound: all of it is within its
    /// limits, what it names is there, and each print is defined by its table.
    pub fn version(&self) -> u64
        ensures version { result ≡ self.now.version }
        ensures sound { IsSound self.now }
    {
        self.version
    }

    /// A paragraph as it is held in memory.
    pub(crate) fn held_paragraph(&self, id: u64) -> Result<&Paragraph, Refusal>
        ensures found { IfOk result (λ held. IsHeldFor self.now id held.now) }
        ensures shown { IfOk result (λ held. (meaning : Meaning) × IsShown self.now id held.now meaning) }
        ensures missing { IfErr result (λ why. (why ≡ Refusal.NoParagraph) × (paragraph_of self.now id ≡ None)) }
    {
        self.paragraphs.get(id).ok_or(Refusal::NoParagraph)
    }

    /// A paragraph as it is held in memory, and the rules of its table.
    pub(crate) fn paragraph_and_rules(&self, id: u64) -> Result<(&Paragraph, &RuleIndex), Refusal>
        ensures found { IfOk result (λ shown. IsShown self.now id shown.0.now shown.1.now) }
        ensures missing { IfErr result (λ why. (why ≡ Refusal.NoParagraph) × (paragraph_of self.now id ≡ None)) }
    {
        let Some(paragraph) = self.paragraphs.get(id) else {
            return Err(Refusal::NoParagraph);
        };
        let Some(table) = self.tables.get(paragraph.table.as_str()) else {
            unreachable!()
        };
        Ok((paragraph, &table.rules))
    }
}
