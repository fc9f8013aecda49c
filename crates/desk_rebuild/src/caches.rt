//! The rows of `cache`, validated and converted into braille.
ghost use Rattle.desk_memory.specs.Braille.{AreCellsOf};
ghost use Rattle.desk_model.specs.Damage.{IsDamagedCache, IsDamagedPara};
ghost use Rattle.desk_rebuild.specs.Rows.{AreOf, AreTables, HasCells, IsWhole, TellsDamage, without_cells};
ghost use Rattle.desk_rebuild.specs.Caches.{AreAllRight, AreTheirCells, IsItsBraille, IsMisfit, IsTranslatable};
ghost use Rattle.desk_memory.specs.Held.{renewed_items};
ghost use Rattle.desk_model.specs.Limits.{most_paragraphs};
ghost use Rattle.desk_parts.specs.Rows.{Para, Tab};
ghost use Rattle.louis_translate.specs.Position.{AreDefined};
ghost use Rattle.std.specs.Ordering.{int_cmp};
ghost use Rattle.std.specs.Prelude.{All, IsPermutation, IsSortedByKey, ◌≡◌, ◌≢◌, ◌≤◌, ◌++◌, IfErr, IfNone, IfOk};
ghost use Rattle.std.specs.Prelude.{IfSome, IsTrue, List, OnOk, Some, length, map, ◌↔◌};

use super::damage::RowsFault;
use cell_core::{Cell, Cells};
use desk_memory::{Paragraph, Tables, cells_of, renew_paragraphs};
use desk_parts::CacheRow;
use louis_translate::{Piece, Pieces, RuleIndex};
use std::alloc::{AllocError, Global};

/// Whether masks are those of as many cells.
fn are_masks(masks: &[u8], cells: &[Cell]) -> bool
    requires { length masks.now ≡ length cells.now }
    ensures { IsTrue result ↔ (masks.now ≡ cells.now) }
{
    for (index, cell) in cells.iter().enumerate() {
        if masks[index] != cell.mask() {
            return false;
        }
    }
    true
}

/// What stands after the masks of cells, if those stand in front.
fn after<'a>(masks: &'a [u8], cells: &[Cell]) -> Option<&'a [u8]>
    ensures some { IfSome result (λ rest. masks.now ≡ cells.now ++ rest.now) }
    ensures none { IfNone result ((rest : List _) → masks.now ≢ cells.now ++ rest) }
{
    let (front, rest) = masks.split_at_checked(cells.len())?;
    are_masks(front, cells).then_some(rest)
}

/// What stands after the masks of a piece, if those stand in front.
fn after_piece<'a>(masks: &'a [u8], piece: Piece<'_>) -> Option<&'a [u8]>
    ensures some { IfSome result (λ rest. masks.now ≡ (piece.entry.sign.now ++ piece.entry.own.now) ++ rest.now) }
    ensures none { IfNone result ((rest : List _) → masks.now ≢ (piece.entry.sign.now ++ piece.entry.own.now) ++ rest) }
{
    after(after(masks, piece.sign)?, piece.own)
}

/// Whether masks are those of the braille of a print of defined characters.
fn is_braille(rules: &RuleIndex, print: &[char], masks: &[u8]) -> bool
    requires { AreDefined rules.now print.now }
    ensures { IsTrue result ↔ AreCellsOf rules.now print.now masks.now }
{
    let mut left = masks;
    for piece in Pieces::new(rules, print) {
        match after_piece(left, piece) {
            Some(rest) => left = rest,
            None => return false,
        }
    }
    left.is_empty()
}

/// Whether masks are those of a paragraph's braille.
fn is_its_braille(tables: &Tables, paragraph: &Paragraph, masks: &[u8]) -> bool
    requires { IsTranslatable tables.now paragraph.now }
    ensures { IsTrue result ↔ IsItsBraille tables.now paragraph.now masks.now }
{
    match tables.get(paragraph.table.as_str()) {
        Some(table) => is_braille(&table.rules, paragraph.print.as_slice(), masks),
        None => unreachable!(),
    }
}

/// The smallest id at which rows, in the order of their ids, are wrong: no paragraph has it, or its
/// paragraph has two rows, no row, or a row without its braille.
fn misfit(tables: &Tables, paragraphs: &[Paragraph], rows: &[CacheRow]) -> Option<i64>
    requires translatable { All (IsTranslatable tables.now) paragraphs.now }
    requires few { length paragraphs.now ≤ most_paragraphs }
    ensures none { IfNone result (AreAllRight tables.now paragraphs.now rows.now) }
    ensures some { IfSome result (IsMisfit tables.now paragraphs.now rows.now) }
{
    for (index, paragraph) in paragraphs.iter().enumerate() {
        let id = index as i64 + 1;
        let Some(row) = rows.get(index) else {
            return Some(id);
        };
        if row.para < id {
            return Some(row.para);
        }
        if row.para > id || !is_its_braille(tables, paragraph, &row.cells) {
            return Some(id);
        }
    }
    let row = rows.get(paragraphs.len())?;
    Some(row.para)
}

/// The cells with these masks.
fn with_masks(alloc: Global, masks: &[u8]) -> Result<Cells, AllocError>
    ensures { IfOk result (λ cells. cells ≡ masks.now) }
{
    let cells = masks.iter().copied().map(Cell::new).collect(alloc)?;
    Ok(Cells::from_vec(cells))
}

/// The cells of each row. A row's masks are let go once its cells are there, so that a book's
/// braille isn't held twice.
fn cells_in(alloc: Global, rows: Vec<CacheRow>) -> Result<Vec<Option<Cells>>, AllocError>
    ensures { IfOk result (λ all. all.items ≡ map (λ row. Some row.cells) rows.items) }
{
    let mut all = Vec::with_capacity(alloc, rows.len())?;
    for row in rows {
        all.push(Some(with_masks(alloc, &row.cells)?))?;
    }
    Ok(all)
}

/// The rows in the order of their ids.
fn sorted(mut rows: Vec<CacheRow>) -> Vec<CacheRow>
    ensures permutation { IsPermutation rows.items result.items }
    ensures sorted { IsSortedByKey (λ row. row.para) int_cmp result.items }
{
    rows.sort_unstable_by_key(|row| row.para);
    rows
}

/// Gives paragraphs, in the order of their ids, these cells.
fn give(items: &mut Vec<Paragraph>, cells: Vec<Option<Cells>>)
    ensures { items.new.items ≡ renewed_items cells.items items.old.items }
{
    renew_paragraphs(items, cells);
}

/// Gives the paragraphs, which are in the order of their ids, the braille of rows, once it is that
/// of their prints.
pub(crate) fn read_caches(
    alloc: Global,
    tables: &Tables,
    items: &mut Vec<Paragraph>,
    rows: Vec<CacheRow>,
) -> Result<(), RowsFault>
    requires of { (tabs : List Tab) × (paras : List Para) × AreTables tabs tables.now × AreOf paras items.old.items
        × IsWhole (IsDamagedPara tabs paras) }
    ensures whole { (tabs : List Tab) (paras : List Para) → AreTables tabs tables.now → AreOf paras items.old.items
        → IsWhole (IsDamagedPara tabs paras) → OnOk result (IsWhole (IsDamagedCache tabs paras rows.items)) }
    ensures cells { (tabs : List Tab) (paras : List Para) → AreTables tabs tables.now → AreOf paras items.old.items
        → IsWhole (IsDamagedPara tabs paras) → OnOk result (All (HasCells tabs items.new.items) paras) }
    ensures same { OnOk result (map without_cells items.new.items ≡ map without_cells items.old.items) }
    ensures damaged { (tabs : List Tab) (paras : List Para) → AreTables tabs tables.now → AreOf paras items.old.items
        → IsWhole (IsDamagedPara tabs paras) → IfErr result (TellsDamage (IsDamagedCache tabs paras rows.items)) }
{
    let rows = sorted(rows);
    if let Some(id) = misfit(tables, items, &rows) {
        return Err(RowsFault::Damaged(id));
    }
    let cells = cells_in(alloc, rows)?;
    give(items, cells);
    Ok(())
}

/// The cells of a paragraph's print.
fn own_cells(alloc: Global, tables: &Tables, paragraph: &Paragraph) -> Result<Cells, AllocError>
    requires { IsTranslatable tables.now paragraph.now }
    ensures { IfOk result (IsItsBraille tables.now paragraph.now) }
{
    match tables.get(paragraph.table.as_str()) {
        Some(table) => cells_of(alloc, &table.rules, paragraph.print.as_slice()),
        None => unreachable!(),
    }
}

/// The cells of the print of each paragraph.
fn cells_for(
    alloc: Global,
    tables: &Tables,
    paragraphs: &[Paragraph],
) -> Result<Vec<Option<Cells>>, AllocError>
    requires { All (IsTranslatable tables.now) paragraphs.now }
    ensures { IfOk result (λ all. AreTheirCells tables.now paragraphs.now all.items) }
{
    let mut all = Vec::with_capacity(alloc, paragraphs.len())?;
    for paragraph in paragraphs {
        all.push(Some(own_cells(alloc, tables, paragraph)?))?;
    }
    Ok(all)
}

/// Gives the paragraphs, which are in the order of their ids, the braille of their prints.
pub(crate) fn made_cells(
    alloc: Global,
    tables: &Tables,
    items: &mut Vec<Paragraph>,
) -> Result<(), RowsFault>
    requires of { (tabs : List Tab) × (paras : List Para) × AreTables tabs tables.now × AreOf paras items.old.items
        × IsWhole (IsDamagedPara tabs paras) }
    ensures cells { (tabs : List Tab) (paras : List Para) → AreTables tabs tables.now → AreOf paras items.old.items
        → IsWhole (IsDamagedPara tabs paras) → OnOk result (All (HasCells tabs items.new.items) paras) }
    ensures same { OnOk result (map without_cells items.new.items ≡ map without_cells items.old.items) }
    ensures memory { IfErr result (λ fault. fault ≡ RowsFault.NoMemory) }
{
    let cells = cells_for(alloc, tables, items)?;
    give(items, cells);
    Ok(())
}
