//! The rows of one paragraph's entries, validated and converted into its history.
ghost use Rattle.desk_model.specs.Damage.{IsSoundCorrection, IsSoundUndo};
ghost use Rattle.desk_memory.specs.Histories.{LeavePrint, entries_held};
ghost use Rattle.desk_rebuild.specs.Rows.{without_history};
ghost use Rattle.desk_rebuild.specs.History.{AreSoundRows, CanBeRead, HasRead, IsCorrecting};
ghost use Rattle.desk_rebuild.specs.History.{IsFit, IsNext, IsRead, IsSoundNext};
ghost use Rattle.desk_parts.specs.Rows.{NamedCorr};
ghost use Rattle.std.specs.Prelude.{◌≡◌, ◌⊎◌, ℕ, ◌+◌, ◌≤◌, ◌↔◌, pos, ◌+ℤ◌, ◌≤ℤ◌, List, ◌∷◌, ◌++◌, [], IfErr, IfNone};
ghost use Rattle.std.specs.Prelude.{IfOk, IfSome, IsTrue, OnOk, length, chars};

use super::damage::RowsFault;
use desk_memory::{
    Correction, HeldEntry, Items, MOST_ENTRIES, MOST_PRINT, Paragraph, first_barred,
    is_proofreader_name, newest, replace_span,
};
use desk_model::Text;
use desk_parts::{CorrRow, NamedCorrRow};
use louis_table::Characters;
use std::alloc::{AllocError, Global};

/// A span's first place and how many characters it has, if a print of so many characters has them
/// all.
fn span(start: i64, len: i64, length: usize) -> Option<(usize, usize)>
    ensures within { IfSome result (λ span. (start ≡ pos span.0) × (len ≡ pos span.1) × (span.0 + span.1 ≤ length)) }
    ensures past { IfNone result ((pos 0 ≤ℤ start) × (pos 0 ≤ℤ len) × ((start +ℤ len) ≤ℤ pos length) → ⊥) }
{
    let start = usize::try_from(start).ok()?;
    let count = usize::try_from(len).ok()?;
    if start > length || count > length - start {
        return None;
    }
    Some((start, count))
}

/// Whether the text has the characters of a print.
fn is_print(text: &str, print: &[char]) -> bool
    ensures { IsTrue result ↔ (chars text.now ≡ print.now) }
{
    text.chars().cmp(print.iter().copied()).is_eq()
}

/// An entry, and the print that follows from it.
#[derive(Drop)]
struct Next {
    entry: HeldEntry,
    print: Vec<char>,
}

/// The correction of a print that the row stands for, if it is a sound one: the print has what it
/// takes away, its text has no barred character, and its proofreader's name is one.
fn correction(alloc: Global, print: &[char], row: NamedCorrRow) -> Result<Option<Next>, AllocError>
    requires { row.entry.kind ≡ pos 0 }
    ensures sound { IfOk result (λ next. IfSome next (IsCorrecting print.now row)) }
    ensures unsound { IfOk result (λ next. IfNone next (¬ IsSoundCorrection print.now row)) }
{
    let NamedCorrRow { entry, who } = row;
    let Some((start, count)) = span(entry.start, entry.len, print.len()) else {
        return Ok(None);
    };
    if first_barred(entry.body.as_str()).is_some() || !is_proofreader_name(who.as_str()) {
        return Ok(None);
    }
    let text: Vec<char> = entry.body.as_str().chars().collect(alloc)?;
    let taken = Vec::from_slice(alloc, &print[start..start + count])?;
    let print = replace_span(alloc, print, start, count, &text)?;
    let correction = Correction {
        start,
        text: Text::from_string(entry.body),
        who: Text::from_string(who),
        taken: Characters::from_vec(taken),
    };
    Ok(Some(Next {
        entry: HeldEntry::Corrects(correction),
        print,
    }))
}

/// The undo that the row stands for, if it is one of the newest correction in force of a history,
/// which left this print.
fn undo(
    alloc: Global,
    history: &[HeldEntry],
    print: &[char],
    row: &NamedCorrRow,
) -> Result<Option<Next>, AllocError>
    requires left { (original : List ℕ) × LeavePrint original history.now print.now }
    requires kind { row.now.entry.kind ≡ pos 1 }
    ensures sound { (original : List ℕ) → LeavePrint original history.now print.now
        → IfOk result (λ next. IfSome next (IsNext original (entries_held history.now) row.now)) }
    ensures unsound { IfOk result (λ next. IfNone next (¬ IsSoundUndo (entries_held history.now) row.now)) }
{
    let Some((number, correction)) = newest(history) else {
        return Ok(None);
    };
    let entry = &row.entry;
    if u64::try_from(entry.start) != Ok(number)
        || entry.len != 0
        || !entry.body.is_empty()
        || !row.who.is_empty()
    {
        return Ok(None);
    }
    let print = correction.undone(alloc, print)?;
    Ok(Some(Next {
        entry: HeldEntry::Undoes(number),
        print,
    }))
}

/// The history of a paragraph as far as its rows have been read.
#[derive(Drop)]
struct Reading {
    /// The entries so far.
    entries: Vec<HeldEntry>,
    /// The print that they leave.
    print: Vec<char>,
}

impl Reading {
    /// What the row stands for, if it fits what the rows before it leave.
    fn next(&self, alloc: Global, row: NamedCorrRow) -> Result<Option<Next>, AllocError>
        requires { (original : List ℕ) × LeavePrint original self.now.entries.items self.now.print.items }
        ensures sound { (original : List ℕ) → LeavePrint original self.now.entries.items self.now.print.items
            → IfOk result (λ next. IfSome next (IsNext original (entries_held self.now.entries.items) row)) }
        ensures unsound { (original : List ℕ) → LeavePrint original self.now.entries.items self.now.print.items
            → IfOk result (λ next. IfNone next (¬ IsFit original (entries_held self.now.entries.items) row)) }
    {
        match row.entry.kind {
            0 => correction(alloc, &self.print, row),
            1 => undo(alloc, &self.entries, &self.print, &row),
            _ => Ok(None),
        }
    }

    /// Reads one row more of the paragraph with this id.
    fn read(&mut self, alloc: Global, id: i64, row: NamedCorrRow) -> Result<(), RowsFault>
        requires { (original : List ℕ) × (rows : List NamedCorr) × IsRead original rows self.old }
        ensures read { (original : List ℕ) (rows : List NamedCorr) → IsRead original rows self.old
            → OnOk result (IsSoundNext original rows row × IsRead original (rows ++ row ∷ []) self.new) }
        ensures damaged { (original : List ℕ) (rows : List NamedCorr) → IsRead original rows self.old
            → IfErr result (λ fault. (fault ≡ RowsFault.NoMemory)
            ⊎ ((fault ≡ RowsFault.Damaged id) × ¬ IsSoundNext original rows row)) }
    {
        let count = self.entries.len();
        if count >= MOST_ENTRIES || row.entry.seq != count as i64 + 1 {
            return Err(RowsFault::Damaged(id));
        }
        let Some(Next { entry, print }) = self.next(alloc, row)? else {
            return Err(RowsFault::Damaged(id));
        };
        if print.len() > MOST_PRINT {
            return Err(RowsFault::Damaged(id));
        }
        self.entries.push(entry).map_err(AllocError::from)?;
        self.print = print;
        Ok(())
    }
}

/// Reads the rows of the paragraph with this id and this original, which are in the order of their
/// numbers.
fn read_rows(
    alloc: Global,
    id: i64,
    original: &str,
    rows: Vec<NamedCorrRow>,
) -> Result<Reading, RowsFault>
    ensures read { IfOk result (λ reading.
        AreSoundRows (chars original.now) rows.items × IsRead (chars original.now) rows.items reading) }
    ensures damaged { IfErr result (λ fault. (fault ≡ RowsFault.NoMemory)
        ⊎ ((fault ≡ RowsFault.Damaged id) × ¬ AreSoundRows (chars original.now) rows.items)) }
{
    let mut reading = Reading {
        entries: Vec::new(alloc),
        print: original.chars().collect(alloc)?,
    };
    for row in rows {
        reading.read(alloc, id, row)?;
    }
    Ok(reading)
}

/// Gives the paragraph with this id the history of its rows.
pub(crate) fn read_history(
    alloc: Global,
    id: i64,
    paragraph: &mut Paragraph,
    mut rows: Vec<NamedCorrRow>,
) -> Result<(), RowsFault>
    ensures same { OnOk result (without_history paragraph.new ≡ without_history paragraph.old) }
    ensures read { OnOk result (HasRead rows.items paragraph.new) }
    ensures damaged { IfErr result (λ fault. (fault ≡ RowsFault.NoMemory)
        ⊎ ((fault ≡ RowsFault.Damaged id)
        × ¬ CanBeRead rows.items paragraph.old.original paragraph.old.print)) }
{
    if rows.is_empty() {
        if !is_print(paragraph.original.as_str(), paragraph.print.as_slice()) {
            return Err(RowsFault::Damaged(id));
        }
        paragraph.history = Items::new(alloc);
        return Ok(());
    }
    rows.sort_by_key(|row| row.entry.seq)?;
    let reading = read_rows(alloc, id, paragraph.original.as_str(), rows)?;
    if reading.print.as_slice() != paragraph.print.as_slice() {
        return Err(RowsFault::Damaged(id));
    }
    paragraph.history = Items::from_vec(reading.entries)?;
    Ok(())
}
