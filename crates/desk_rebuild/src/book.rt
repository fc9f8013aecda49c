//! A book from the rows of its file.
ghost use Rattle.desk_model.specs.Damage.{IsDamagedEntries, IsDamagedPara, IsWithin};
ghost use Rattle.desk_parts.specs.FileRows.{HasUtf8Texts, Unnamed, entries_in, table_of};
ghost use Rattle.desk_rebuild.specs.Faults.{IsDamagedBraille, TellsDamageOf};
ghost use Rattle.desk_rebuild.specs.Rows.{AreOf, AreTables, HasCells, HasHistory, IsWhole};
ghost use Rattle.desk_rebuild.specs.Rows.{without_cells, without_history};
ghost use Rattle.desk_memory.specs.Held.{IsHeld, book_held, paragraph_with_id};
ghost use Rattle.desk_model.specs.Rebuilding.{IsFaultOf};
ghost use Rattle.desk_parts.specs.Parts.{entry_rows, rows_in};
ghost use Rattle.desk_parts.specs.Rows.{Para, Tab};
ghost use Rattle.desk_model.specs.Shows.{Shows};
ghost use Rattle.desk_parts.specs.declared.file_table.FileTable.{FileTable};
ghost use Rattle.std.specs.List.{All, flat_map, range_with_len};
ghost use Rattle.std.specs.List.Sorted.{IsPermutation};
ghost use Rattle.desk_model.specs.Limits.{most_marks, most_paragraphs, most_version};
ghost use Rattle.std.specs.Prelude.{◌≡◌, ◌≤◌, List, IfErr, IfOk, MatchOption, OnOk, length, map, option_map, pos};

use super::caches::{made_cells, read_caches};
use super::damage::of_table;
use super::entries::read_entries;
use super::marks::read_marks;
use super::paras::{OrderedParas, read_paras};
use super::tabs::read_tabs;
use desk_memory::{HeldMark, MOST_VERSION, Marks, Paragraph, Paragraphs, Tables};
use desk_model::PartsFault;
use desk_parts::{CacheRow, CorrRow, EntryRows, FileTable, NamedCorrRow, Parts};
use std::alloc::{AllocError, Global};

/// The version in the row of `book`, if a book may have it.
pub fn version_of(version: i64) -> Option<u64>
    ensures { MatchOption result (¬ IsWithin 0 most_version version)
        (λ number. IsWithin 0 most_version version × (pos number ≡ version)) }
{
    let number = u64::try_from(version).ok()?;
    (number <= MOST_VERSION).then_some(number)
}

/// The entries of format 1 as those of proofreaders without a name.
fn with_no_names(alloc: Global, rows: Vec<CorrRow>) -> Result<Vec<NamedCorrRow>, AllocError>
    ensures { IfOk result (λ named. named.items ≡ entries_in (Unnamed rows.items)) }
{
    let mut named = Vec::with_capacity(alloc, rows.len())?;
    for entry in rows {
        let who = String::new(alloc);
        named.push(NamedCorrRow { entry, who })?;
    }
    Ok(named)
}

/// The entries of either format as those of format 2.
fn with_names(alloc: Global, entries: EntryRows) -> Result<Vec<NamedCorrRow>, AllocError>
    ensures { IfOk result (λ named. named.items ≡ entries_in (entry_rows entries)) }
{
    match entries {
        EntryRows::Unnamed(rows) => with_no_names(alloc, rows),
        EntryRows::Named(rows) => Ok(rows),
    }
}

/// Gives the paragraphs, which are in the order of their ids, the histories of rows of either
/// format.
fn give_histories(
    alloc: Global,
    items: &mut Vec<Paragraph>,
    entries: EntryRows,
) -> Result<(), PartsFault>
    requires of { (paras : List Para) × AreOf paras items.old.items }
    ensures texts { OnOk result (All (HasUtf8Texts FileTable.NamedCorr) (entries_in (entry_rows entries))) }
    ensures whole { (paras : List Para) → AreOf paras items.old.items
        → OnOk result (IsWhole (IsDamagedEntries paras (entries_in (entry_rows entries)))) }
    ensures histories { (paras : List Para) → AreOf paras items.old.items
        → OnOk result (All (HasHistory (entries_in (entry_rows entries)) items.new.items) paras) }
    ensures same { OnOk result (map without_history items.new.items ≡ map without_history items.old.items) }
    ensures damaged { (paras : List Para) → AreOf paras items.old.items
        → IfErr result (TellsDamageOf (table_of (entry_rows entries))
        (IsDamagedEntries paras (entries_in (entry_rows entries)))) }
{
    let table = entries.table();
    let rows = with_names(alloc, entries)?;
    of_table(table, read_entries(alloc, items, rows))
}

/// Gives the paragraphs, which are in the order of their ids, the braille of rows, or else that of
/// their prints.
fn give_cells(
    alloc: Global,
    tables: &Tables,
    items: &mut Vec<Paragraph>,
    cache: Option<Vec<CacheRow>>,
) -> Result<(), PartsFault>
    requires of { (tabs : List Tab) × (paras : List Para) × AreTables tabs tables.now × AreOf paras items.old.items
        × IsWhole (IsDamagedPara tabs paras) }
    ensures whole { (tabs : List Tab) (paras : List Para) → AreTables tabs tables.now → AreOf paras items.old.items
        → IsWhole (IsDamagedPara tabs paras)
        → OnOk result (IsWhole (IsDamagedBraille tabs paras (option_map (λ caches. caches.items) cache))) }
    ensures cells { (tabs : List Tab) (paras : List Para) → AreTables tabs tables.now → AreOf paras items.old.items
        → IsWhole (IsDamagedPara tabs paras) → OnOk result (All (HasCells tabs items.new.items) paras) }
    ensures same { OnOk result (map without_cells items.new.items ≡ map without_cells items.old.items) }
    ensures damaged { (tabs : List Tab) (paras : List Para) → AreTables tabs tables.now → AreOf paras items.old.items
        → IsWhole (IsDamagedPara tabs paras)
        → IfErr result (TellsDamageOf FileTable.Cache
        (IsDamagedBraille tabs paras (option_map (λ caches. caches.items) cache))) }
{
    let given = match cache {
        Some(rows) => read_caches(alloc, tables, items, rows),
        None => made_cells(alloc, tables, items),
    };
    of_table(FileTable::Cache, given)
}

/// A book as it is held in memory: its version, its tables, its paragraphs and its marks.
#[derive(Drop)]
pub struct HeldBook {
    /// The version.
    pub version: u64,
    /// The tables.
    pub tables: Tables,
    /// The paragraphs.
    pub paragraphs: Paragraphs,
    /// The marks.
    pub marks: Marks,
}

/// The book whose tables were read, as it is held in memory. The paragraphs are given in the order
/// of their ids, and these ids in the order of the book.
fn held_book(
    version: u64,
    tables: Tables,
    items: Vec<Paragraph>,
    order: Vec<u64>,
    marks: Vec<HeldMark>,
) -> Result<HeldBook, AllocError>
    requires order { IsPermutation (range_with_len 1 (length items.items)) order.items }
    requires few_paragraphs { length items.items ≤ most_paragraphs }
    requires few_marks { length marks.items ≤ most_marks }
    ensures { IfOk result (λ book. book ≡ record {
      version = version;
      tables = tables;
      paragraphs = flat_map (paragraph_with_id items.items) order.items;
      marks = marks.items;
    }) }
{
    let paragraphs = Paragraphs::from_vecs(items, order)?;
    let marks = Marks::from_vec(marks)?;
    Ok(HeldBook {
        version,
        tables,
        paragraphs,
        marks,
    })
}

/// The book that the parts show, as it is held in memory. Its braille is that of the rows of
/// `cache`, which has to be that of the prints; without these rows it is made.
///
/// # Errors
///
/// The first damage of parts that show no book, and [`PartsFault::NoMemory`] if an allocation
/// failed.
pub fn rebuild(alloc: Global, parts: Parts) -> Result<HeldBook, PartsFault>
    ensures made { IfOk result (λ book. IsHeld book.version book.tables book.paragraphs book.marks
        × Shows (rows_in parts) (book_held book.version book.tables book.paragraphs book.marks)) }
    ensures damaged { IfErr result (IsFaultOf (rows_in parts)) }
{
    let Some(version) = version_of(parts.version) else {
        return Err(PartsFault::Damaged {
            table: FileTable::Book,
            id: 1,
        });
    };
    let tables = read_tabs(alloc, parts.tabs)?;
    let OrderedParas { mut items, order } = read_paras(alloc, &tables, parts.paras)?;
    give_histories(alloc, &mut items, parts.entries)?;
    let marks = read_marks(alloc, &mut items, parts.marks)?;
    give_cells(alloc, &tables, &mut items, parts.cache)?;
    let book = held_book(version, tables, items, order, marks)?;
    Ok(book)
}
