//! A rule book that finds its rules by their characters.
ghost use Rattle.louis_translate.specs.Choice.{IsChosen};
ghost use Rattle.louis_translate.specs.Search.{IsWhole};
ghost use Rattle.louis_translate.specs.Start.{AreStarts, MayStart};
ghost use Rattle.std.specs.Bool.{OnTrue};
ghost use Rattle.std.specs.Prelude.{◌≡◌, ◌<◌, ◌*◌, None, length};

use super::indexed_table::IndexedTable;
use super::known_characters::KnownCharacters;
use super::lone_cells::LoneCells;
use super::rule_book::RuleBook;
use super::start::{Start, make_starts, start_at};
use super::tree_search::{best_in_group, walk};
use cell_core::Cell;
use louis_table::Table;
use std::alloc::{AllocError, Global};
use std::marker::Model;

/// A table, whose rules are found by a walk along the print down a tree of their characters.
/// Contracts see it as what the table says.
pub struct RuleIndex {
    index: IndexedTable,
    // where walks begin
    starts: Vec<Start>,
    known: KnownCharacters,
    lone_cells: LoneCells,
}

impl Model for RuleIndex {
    ghost use Rattle.louis_table.specs.Meaning.{Meaning};
    ghost use Rattle.louis_translate.specs.Known.{AreKnown};
    ghost use Rattle.louis_translate.specs.Piece.{AreLoneCells};
    ghost use Rattle.louis_translate.specs.Search.{IsWhole};
    ghost use Rattle.louis_translate.specs.Start.{AreAll, AreStarts};

    ghost Value = { Meaning };

    ghost view = { λ r. r.index.table };

    ghost invariant = { λ r. IsWhole r.index × AreStarts r.index.table r.index.tree r.starts.items
        × AreAll r.index.table r.starts.items × AreLoneCells r.index.table r.lone_cells
        × AreKnown r.index.table r.known };
}

// Written out, as the drop of a table is.
impl Drop for RuleIndex {
    fn drop(self) {
        let Self {
            index,
            starts,
            known,
            lone_cells,
        } = self;
    }
}

impl RuleIndex {
    ghost use Rattle.std.specs.Prelude.{◌≡◌, IfOk};

    /// The index of a table, which it owns from then on. If an allocation for it fails, the table
    /// is dropped.
    pub fn new(alloc: Global, table: Table) -> Result<Self, AllocError>
        ensures { IfOk result (λ index. index ≡ table) }
    {
        let index = IndexedTable::new(alloc, table)?;
        let starts = make_starts(alloc, &index)?;
        let known = KnownCharacters::new(&index.table);
        let lone_cells = LoneCells::new(&index.table);
        Ok(RuleIndex {
            index,
            starts,
            known,
            lone_cells,
        })
    }
}

/// Where a walk begins at a place.
#[inline(always)]
fn start_here(index: &IndexedTable, starts: &[Start], print: &[char], at: usize) -> Start
    requires whole { IsWhole index.now }
    requires starts { AreStarts index.now.table index.now.tree starts.now }
    requires all { length starts.now ≡ 128 * 128 }
    requires within { at < length print.now }
    ensures { MayStart index.now print.now at result }
{
    if at + 1 == print.len() {
        return Start::Group;
    }
    start_at(starts, print[at], print[at + 1])
}

/// Whether no walk begins at a place, and so the definition of its character is chosen, by a table
/// that has rules.
#[inline(always)]
fn begins_nowhere(index: &IndexedTable, starts: &[Start], print: &[char], at: usize) -> bool
    requires whole { IsWhole index.now }
    requires starts { AreStarts index.now.table index.now.tree starts.now }
    requires all { length starts.now ≡ 128 * 128 }
    requires within { at < length print.now }
    ensures { OnTrue result (IsChosen index.now.table print.now at None) }
{
    matches!(start_here(index, starts, print, at), Start::Nowhere)
}

/// The rule that is chosen at a place, by a table that has rules.
#[inline(always)]
fn best_rule(index: &IndexedTable, starts: &[Start], print: &[char], at: usize) -> Option<usize>
    requires whole { IsWhole index.now }
    requires starts { AreStarts index.now.table index.now.tree starts.now }
    requires all { length starts.now ≡ 128 * 128 }
    requires within { at < length print.now }
    ensures { IsChosen index.now.table print.now at result }
{
    match start_here(index, starts, print, at) {
        Start::Nowhere => None,
        Start::Group => best_in_group(index, print, at),
        Start::Child(node) => walk(index, print, at, at + 2, node as usize),
    }
}

impl RuleBook for RuleIndex {
    ghost meaning = { λ meaning. meaning };

    fn table(&self) -> &Table {
        &self.index.table
    }

    fn best(&self, print: &[char], at: usize) -> Option<usize> {
        if self.index.table.rules().is_empty() {
            return None;
        }
        best_rule(&self.index, self.starts.as_slice(), print, at)
    }

    #[inline(always)]
    fn chooses_definition(&self, print: &[char], at: usize) -> bool {
        if self.index.table.rules().is_empty() {
            return true;
        }
        begins_nowhere(&self.index, self.starts.as_slice(), print, at)
    }

    #[inline(always)]
    fn knows(&self, character: char) -> bool {
        self.known.has(character)
    }

    #[inline(always)]
    fn lone_cell(&self, character: char) -> Option<&Cell> {
        self.lone_cells.get(character)
    }
}
