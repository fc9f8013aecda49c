//! The rows of `para`, validated and converted into paragraphs.
ghost use Rattle.desk_model.specs.Damage.{IsDamagedPara, IsFlag, IsPrintText};
ghost use Rattle.desk_rebuild.specs.Faults.{TellsDamageOf};
ghost use Rattle.desk_rebuild.specs.Rows.{AreInPlaces, AreOf, AreTables, IsWhole};
ghost use Rattle.desk_rebuild.specs.Paras.{AreDefinedBy, AreHeldOf, IsFree, IsHeldOf, IsParaOn, para_rule};
ghost use Rattle.desk_rebuild.specs.OrderedRows.{AreInOrder, TellsUnsound};
ghost use Rattle.desk_parts.specs.FileRows.{HasUtf8Texts};
ghost use Rattle.desk_parts.specs.Rows.{Tab};
ghost use Rattle.desk_parts.specs.declared.file_table.FileTable.{FileTable};
ghost use Rattle.desk_model.specs.Shows.{style_number};
ghost use Rattle.std.specs.Prelude.{All, IsPermutation, ◌≡◌, ◌↔◌, ℕ, [], List, IfErr, IfNone, IfOk, IfSome, IsTrue};
ghost use Rattle.std.specs.Prelude.{MatchOption, length, replicate, chars};

use super::damage::{RowsFault, flag_of, of_table};
use crate::ordered_rows::is_next;
use cell_core::Cells;
use desk_memory::{Items, MOST_PARAGRAPHS, MOST_PRINT, Paragraph, Tables, count_of, first_barred};
use desk_model::{PartsFault, Style, Text};
use desk_parts::{FileTable, ParaRow};
use louis_table::Characters;
use louis_translate::{RuleBook, undefined_place};
use std::alloc::{AllocError, Global};

/// The paragraphs of rows in the order of their ids, without histories, braille and marks, and
/// these ids as the paragraphs stand in the book.
#[derive(Drop)]
pub(crate) struct OrderedParas {
    pub(crate) items: Vec<Paragraph>,
    pub(crate) order: Vec<u64>,
}

/// Whether a text may be the print of a paragraph.
fn is_print(text: &str) -> bool
    ensures { IsTrue result ↔ IsPrintText (chars text.now) }
{
    count_of(text) <= MOST_PRINT && first_barred(text).is_none()
}

/// The style that a number is, if it is 0 or 1.
fn style_of(number: i64) -> Option<Style>
    ensures { MatchOption result (¬ IsFlag number) (λ style. style_number style ≡ number) }
{
    match number {
        0 => Some(Style::Body),
        1 => Some(Style::Heading),
        _ => None,
    }
}

/// Whether there is a table with this name, and it defines a print.
fn are_defined_by(tables: &Tables, name: &str, print: &[char]) -> bool
    ensures { IsTrue result ↔ AreDefinedBy tables.now (chars name.now) print.now }
{
    match tables.get(name) {
        Some(table) => undefined_place(table.rules.table(), print).is_none(),
        None => false,
    }
}

/// The paragraph of a row, if the row is sound but for its id and its place.
fn paragraph_of(
    alloc: Global,
    tables: &Tables,
    row: ParaRow,
) -> Result<Option<Paragraph>, AllocError>
    ensures { IfOk result (λ found. MatchOption found (¬ IsParaOn tables.now row)
        (λ held. IsParaOn tables.now row × HasUtf8Texts FileTable.Para row × IsHeldOf row held)) }
{
    let (Some(style), Some(begins_volume), Some(struck)) = (
        style_of(row.style),
        flag_of(row.volume),
        flag_of(row.struck),
    ) else {
        return Ok(None);
    };
    if !is_print(row.original.as_str()) || !is_print(row.print.as_str()) {
        return Ok(None);
    }
    let print: Vec<char> = row.print.as_str().chars().collect(alloc)?;
    if !are_defined_by(tables, row.tab.as_str(), &print) {
        return Ok(None);
    }
    Ok(Some(Paragraph {
        table: Text::from_string(row.tab),
        original: Text::from_string(row.original),
        history: Items::new(alloc),
        style,
        begins_volume,
        struck,
        print: Characters::from_vec(print),
        cells: Cells::from_vec(Vec::new(alloc)),
        marks: Items::new(alloc),
    }))
}

/// The index of a place at which no id stands yet, if it is one.
fn free_index(order: &[u64], place: i64) -> Option<usize>
    ensures free { IfSome result (IsFree order.now place) }
    ensures none { IfNone result ((index : ℕ) → ¬ IsFree order.now place index) }
{
    let index = usize::try_from(place).ok()?.checked_sub(1)?;
    (*order.get(index)? == 0).then_some(index)
}

/// So many places, at which no ids stand yet.
fn free_places(alloc: Global, count: usize) -> Result<Vec<u64>, AllocError>
    ensures { IfOk result (λ order. order.items ≡ replicate count 0) }
{
    let mut order = Vec::with_capacity(alloc, count)?;
    for _ in 0..count {
        order.push(0)?;
    }
    Ok(order)
}

/// The paragraphs of rows in the order of their ids, or the first of these that isn't sound.
fn paragraphs_of(
    alloc: Global,
    tables: &Tables,
    rows: Vec<ParaRow>,
) -> Result<OrderedParas, RowsFault>
    ensures held { IfOk result
        (λ judged. AreHeldOf tables.now (length rows.items) rows.items judged.items.items judged.order.items) }
    ensures damaged { IfErr result (TellsUnsound (para_rule tables.now rows.items) rows.items) }
{
    let mut order = free_places(alloc, rows.len())?;
    let mut items = Vec::new(alloc);
    for row in rows {
        let id = row.id;
        if !is_next(id, items.len(), MOST_PARAGRAPHS) {
            return Err(RowsFault::Damaged(id));
        }
        let Some(index) = free_index(&order, row.place) else {
            return Err(RowsFault::Damaged(id));
        };
        let Some(paragraph) = paragraph_of(alloc, tables, row)? else {
            return Err(RowsFault::Damaged(id));
        };
        order[index] = id as u64;
        items.push(paragraph).map_err(AllocError::from)?;
    }
    Ok(OrderedParas { items, order })
}

/// Puts rows in the order of their ids.
fn sort(rows: &mut Vec<ParaRow>)
    ensures same { IsPermutation rows.old.items rows.new.items }
    ensures sorted { AreInOrder (λ row. row.id) rows.new.items }
{
    rows.sort_unstable_by_key(|row| row.id);
}

/// Reads the paragraphs of rows, which name these tables.
pub(crate) fn read_paras(
    alloc: Global,
    tables: &Tables,
    mut rows: Vec<ParaRow>,
) -> Result<OrderedParas, PartsFault>
    ensures whole { (tabs : List Tab) → AreTables tabs tables.now
        → IfOk result (λ _. IsWhole (IsDamagedPara tabs rows.items)) }
    ensures items { (tabs : List Tab) → AreTables tabs tables.now
        → IfOk result (λ judged. AreOf rows.items judged.items.items) }
    ensures unmarked { IfOk result (λ judged. All (λ held. held.marks ≡ []) judged.items.items) }
    ensures order { (tabs : List Tab) → AreTables tabs tables.now
        → IfOk result (λ judged. AreInPlaces rows.items judged.order.items) }
    ensures damaged { (tabs : List Tab) → AreTables tabs tables.now
        → IfErr result (TellsDamageOf FileTable.Para (IsDamagedPara tabs rows.items)) }
{
    sort(&mut rows);
    of_table(FileTable::Para, paragraphs_of(alloc, tables, rows))
}
