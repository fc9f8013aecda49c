//! Marks that come and that are dealt with.
ghost use Rattle.desk_book.specs.Marking.{AreMarkedIn, AreNotMarkedIn, HasCells, IsHeldMarkFor};
ghost use Rattle.desk_book.specs.Plans.{IsPlanned, IsTurnedDown};
ghost use Rattle.desk_model.specs.Book.{mark_of};
ghost use Rattle.louis_translate.specs.Position.{AreDefined};
ghost use Rattle.std.specs.Prelude.{◌≡◌, ◌+◌, ◌<◌, ◌≤◌, ◌↔◌, IfErr, IfOk, IsTrue, None};

use super::book::Book;
use super::change::Effect;
use super::plan::{check_length, check_limit, check_text, copy};
use desk_memory::{HeldMark, MOST_MARKS, MOST_NOTE, count_of};
use desk_model::{Command, LentText, Limit, Refusal};
use louis_translate::{RuleIndex, choice_of_cell};
use std::alloc::Global;

/// Whether so many cells, from one on, are all there, and at least one.
fn are_there(cells: usize, cell: usize, count: usize) -> bool
    ensures { IsTrue result ↔ ((0 < count) × (cell + count ≤ cells)) }
{
    0 < count && count <= cells && cell <= cells - count
}

/// The places of a print that so many cells, from one on, stand for: the first, and that after the
/// last. Its braille has this many cells.
fn span_of_cells(
    rules: &RuleIndex,
    print: &[char],
    cells: usize,
    cell: usize,
    count: usize,
) -> Result<(usize, usize), Refusal>
    requires defined { AreDefined rules.now print.now }
    requires cells { HasCells rules.now print.now cells }
    ensures there { IfOk result (λ span. AreMarkedIn rules.now print.now cell count span.0 span.1) }
    ensures past { IfErr result (λ why. (why ≡ Refusal.BadSpan) × AreNotMarkedIn rules.now print.now cell count) }
{
    if !are_there(cells, cell, count) {
        return Err(Refusal::BadSpan);
    }
    let Some(first) = choice_of_cell(rules, print, cell) else {
        unreachable!()
    };
    let Some(last) = choice_of_cell(rules, print, cell + (count - 1)) else {
        unreachable!()
    };
    Ok((first.start, last.end))
}

impl Book {
    pub(crate) fn plan_mark(
        &self,
        alloc: Global,
        id: u64,
        cell: usize,
        count: usize,
        note: &LentText<'_>,
    ) -> Result<Effect, Refusal>
        ensures planned { IfOk result (IsPlanned self.now (Command.Mark id cell count note.now)) }
        ensures refused { IfErr result (IsTurnedDown self.now (Command.Mark id cell count note.now)) }
    {
        check_text(note)?;
        let (paragraph, rules) = self.live_paragraph(id)?;
        let print = paragraph.print.as_slice();
        let cells = paragraph.cells.as_slice().len();
        let (start, end) = span_of_cells(rules, print, cells, cell, count)?;
        check_length(count_of(note.as_str()), MOST_NOTE)?;
        check_limit(self.marks.len(), MOST_MARKS, Limit::Marks)?;
        self.check_version()?;
        let mark = HeldMark::new(id, start, end, copy(alloc, note.as_str())?);
        Ok(Effect::AddMark {
            mark,
            room: self.marks.room(alloc)?,
            index_room: paragraph.marks.room(alloc)?,
        })
    }

    /// The mark with an id.
    fn mark(&self, id: u64) -> Result<&HeldMark, Refusal>
        ensures found { IfOk result (λ held. IsHeldMarkFor self.now id held.now) }
        ensures missing { IfErr result (λ refusal. (refusal ≡ Refusal.NoMark) × (mark_of self.now id ≡ None)) }
    {
        self.marks.get(id).ok_or(Refusal::NoMark)
    }

    pub(crate) fn plan_resolve(&self, id: u64) -> Result<Effect, Refusal>
        ensures planned { IfOk result (IsPlanned self.now (Command.Resolve id)) }
        ensures refused { IfErr result (IsTurnedDown self.now (Command.Resolve id)) }
    {
        let mark = self.mark(id)?;
        if mark.resolved {
            return Err(Refusal::Resolved);
        }
        self.check_version()?;
        Ok(Effect::ResolveMark { id })
    }
}
