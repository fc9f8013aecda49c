//! The rows of `mark`, validated and converted into marks.
ghost use Rattle.desk_model.specs.Damage.{IsDamagedMark};
ghost use Rattle.desk_parts.specs.FileRows.{HasUtf8Texts};
ghost use Rattle.desk_rebuild.specs.Faults.{TellsDamageOf};
ghost use Rattle.desk_rebuild.specs.Rows.{AreMarksOf, AreOf, HaveMarks, IsWhole, without_marks};
ghost use Rattle.desk_rebuild.specs.Marks.{AreHeldOf, HasId, IsHeldOf, IsMarkOn};
ghost use Rattle.desk_rebuild.specs.Marks.{IsNoteText, IsOnOne, IsSpan, mark_rule};
ghost use Rattle.desk_rebuild.specs.OrderedRows.{AreInOrder, IsSoundAt, TellsUnsound};
ghost use Rattle.desk_model.specs.Limits.{most_marks};
ghost use Rattle.desk_parts.specs.Rows.{Para};
ghost use Rattle.desk_parts.specs.declared.file_table.FileTable.{FileTable};
ghost use Rattle.std.specs.Prelude.{All, IsPermutation, ◌≡◌, ◌↔◌, ◌≤◌, [], List, IfErr, IfOk, IsTrue, MatchOption};
ghost use Rattle.std.specs.Prelude.{MatchResult, OnOk, length, map, pos, chars};

use super::damage::{RowsFault, flag_of, of_table};
use crate::ordered_rows::is_next;
use desk_memory::{HeldMark, MOST_MARKS, MOST_NOTE, Paragraph, count_of, first_barred};
use desk_model::{PartsFault, Text};
use desk_parts::{FileTable, MarkRow};
use std::alloc::{AllocError, Global};

/// Whether a text may be a note.
fn is_note(text: &str) -> bool
    ensures { IsTrue result ↔ IsNoteText (chars text.now) }
{
    count_of(text) <= MOST_NOTE && first_barred(text).is_none()
}

/// The paragraph with an id, if there is one, among all in the order of their ids.
fn paragraph_of(items: &[Paragraph], id: i64) -> Option<&Paragraph>
    ensures { MatchOption result ((held : _) → ¬ HasId items.now id held) (λ held. HasId items.now id held.now) }
{
    let index = usize::try_from(id).ok()?.checked_sub(1)?;
    items.get(index)
}

/// The places from a start up to a stop, if a print of so many characters has them.
fn span_of(count: usize, start: i64, stop: i64) -> Option<(usize, usize)>
    ensures { MatchOption result (¬ IsSpan count start stop)
        (λ span. IsSpan count start stop × (pos span.0 ≡ start) × (pos span.1 ≡ stop)) }
{
    let start = usize::try_from(start).ok()?;
    let end = usize::try_from(stop).ok()?;
    if start > end || end > count {
        return None;
    }
    Some((start, end))
}

/// The mark of a row, if the row is sound but for its id.
fn mark_of(items: &[Paragraph], row: MarkRow) -> Option<HeldMark>
    ensures { MatchOption result (¬ IsMarkOn items.now row)
        (λ mark. IsMarkOn items.now row × HasUtf8Texts FileTable.Mark row × IsHeldOf row mark) }
{
    let paragraph = paragraph_of(items, row.para)?;
    let (start, end) = span_of(paragraph.print.as_slice().len(), row.start, row.stop)?;
    let touched = flag_of(row.touched)?;
    let resolved = flag_of(row.resolved)?;
    if !is_note(row.note.as_str()) {
        return None;
    }
    Some(HeldMark {
        paragraph: row.para as u64,
        start,
        end,
        note: Text::from_string(row.note),
        touched,
        resolved,
    })
}

/// The mark of the row that comes after so many, if it is sound.
fn judged(items: &[Paragraph], row: MarkRow, count: usize) -> Result<HeldMark, RowsFault>
    ensures { MatchResult result
        (λ mark. IsSoundAt (mark_rule items.now) count row
        × HasUtf8Texts FileTable.Mark row × IsHeldOf row mark)
        (λ fault. (fault ≡ RowsFault.Damaged row.id) × ¬ IsSoundAt (mark_rule items.now) count row) }
{
    let id = row.id;
    if !is_next(id, count, MOST_MARKS) {
        return Err(RowsFault::Damaged(id));
    }
    mark_of(items, row).ok_or(RowsFault::Damaged(id))
}

/// The marks of rows in the order of their ids, or the first of these that isn't sound.
fn marks_of(
    alloc: Global,
    items: &[Paragraph],
    rows: Vec<MarkRow>,
) -> Result<Vec<HeldMark>, RowsFault>
    ensures marks { IfOk result (λ marks. AreHeldOf items.now rows.items marks.items) }
    ensures damaged { IfErr result (TellsUnsound (mark_rule items.now) rows.items) }
{
    let mut marks = Vec::new(alloc);
    for row in rows {
        let mark = judged(items, row, marks.len())?;
        marks.push(mark).map_err(AllocError::from)?;
    }
    Ok(marks)
}

/// Gives the paragraphs the indexes of these marks, of which each has its paragraph.
fn give_indexes(
    alloc: Global,
    items: &mut [Paragraph],
    marks: &[HeldMark],
) -> Result<(), AllocError>
    requires there { All (IsOnOne (length items.old)) marks.now }
    requires few { length marks.now ≤ most_marks }
    requires unmarked { All (λ held. held.marks ≡ []) items.old }
    ensures indexes { OnOk result (HaveMarks marks.now items.new) }
    ensures same { OnOk result (map without_marks items.new ≡ map without_marks items.old) }
{
    for (index, mark) in marks.iter().enumerate() {
        let indexes = &mut items[(mark.paragraph - 1) as usize].marks;
        let room = indexes.room(alloc)?;
        indexes.push(room, index);
    }
    Ok(())
}

/// Puts rows in the order of their ids.
fn sort(rows: &mut Vec<MarkRow>)
    ensures same { IsPermutation rows.old.items rows.new.items }
    ensures sorted { AreInOrder (λ row. row.id) rows.new.items }
{
    rows.sort_unstable_by_key(|row| row.id);
}

/// Reads the marks of rows in the order of their ids, and gives the paragraphs, which are in the
/// order of theirs, the indexes of their marks.
pub(crate) fn read_marks(
    alloc: Global,
    items: &mut Vec<Paragraph>,
    mut rows: Vec<MarkRow>,
) -> Result<Vec<HeldMark>, PartsFault>
    requires of { (paras : List Para) × AreOf paras items.old.items }
    requires unmarked { All (λ held. held.marks ≡ []) items.old.items }
    ensures whole { (paras : List Para) → AreOf paras items.old.items
        → IfOk result (λ _. IsWhole (IsDamagedMark paras rows.items)) }
    ensures texts { IfOk result (λ _. All (HasUtf8Texts FileTable.Mark) rows.items) }
    ensures marks { IfOk result (λ marks. AreMarksOf rows.items marks.items) }
    ensures few { IfOk result (λ marks. length marks.items ≤ most_marks) }
    ensures indexes { IfOk result (λ marks. HaveMarks marks.items items.new.items) }
    ensures same { IfOk result (λ _. map without_marks items.new.items ≡ map without_marks items.old.items) }
    ensures damaged { (paras : List Para) → AreOf paras items.old.items
        → IfErr result (TellsDamageOf FileTable.Mark (IsDamagedMark paras rows.items)) }
{
    sort(&mut rows);
    let marks = of_table(FileTable::Mark, marks_of(alloc, items, rows))?;
    give_indexes(alloc, items, &marks)?;
    Ok(marks)
}
