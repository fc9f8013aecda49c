//! Corrections of prints, and what takes them back.
ghost use Rattle.desk_book.specs.Corrections.{HaltsEntry, HaltsPrint, IsEntered, IsUnfit, TakesEntry};
ghost use Rattle.desk_memory.specs.Histories.{IsCorrection};
ghost use Rattle.desk_model.specs.ValidNames.{IsProofreaderName};
ghost use Rattle.desk_book.specs.Plans.{IsPlanned, IsTurnedDown};
ghost use Rattle.desk_memory.specs.Display.{IsShown};
ghost use Rattle.std.specs.Prelude.{◌≡◌, ◌+◌, ◌<◌, ◌≤◌, false, IfErr, IfOk, OnOk, length};

use super::book::Book;
use super::change::Effect;
use super::plan::{check_length, check_limit, check_print, check_text, copy, text_of_print};
use desk_memory::{
    Correction, HeldEntry, MOST_ENTRIES, MOST_PRINT, Paragraph, PrintChange, cells_of,
    is_proofreader_name, newest, normal_form, replace_span,
};
use desk_model::{Command, LentText, Limit, Refusal};
use louis_table::Characters;
use louis_translate::RuleIndex;
use std::alloc::{AllocError, Global};

/// The name of a proofreader is a valid one.
fn check_proofreader(who: &LentText<'_>) -> Result<(), Refusal>
    ensures name { OnOk result (IsProofreaderName who.now) }
    ensures bad { IfErr result (λ refusal.
        (refusal ≡ Refusal.BadReader) × ¬ IsProofreaderName who.now) }
{
    if !is_proofreader_name(who.as_str()) {
        return Err(Refusal::BadReader);
    }
    Ok(())
}

/// So many characters from a place on are all there.
fn check_span(print: &[char], start: usize, count: usize) -> Result<(), Refusal>
    ensures there { OnOk result (start + count ≤ length print.now) }
    ensures past { IfErr result (λ refusal. (refusal ≡ Refusal.BadSpan) × (length print.now < start + count)) }
{
    let length = print.len();
    if start > length || count > length - start {
        return Err(Refusal::BadSpan);
    }
    Ok(())
}

/// The correction of so many characters of a print, from a place on.
fn correction(
    alloc: Global,
    print: &[char],
    start: usize,
    count: usize,
    text: &[char],
    who: &LentText<'_>,
) -> Result<Correction, AllocError>
    requires { start + count ≤ length print.now }
    ensures { IfOk result (IsCorrection print.now start count text.now who.now) }
{
    let taken = Vec::from_slice(alloc, &print[start..start + count])?;
    Ok(Correction {
        start,
        text: text_of_print(alloc, text)?,
        who: copy(alloc, who.as_str())?,
        taken: Characters::from_vec(taken),
    })
}

/// An entry that is to come into a history, and what follows from it.
#[derive(Drop)]
pub(crate) struct NewEntry {
    /// The entry.
    pub(crate) entry: HeldEntry,
    /// The print that follows from it.
    pub(crate) print: Vec<char>,
    /// The place of the old print from which on characters give way.
    pub(crate) start: usize,
    /// How many give way.
    pub(crate) removed: usize,
    /// How many come in their place.
    pub(crate) added: usize,
}

impl Book {
    /// A paragraph that isn't struck, and the rules of its table.
    pub(crate) fn live_paragraph(&self, id: u64) -> Result<(&Paragraph, &RuleIndex), Refusal>
        ensures found { IfOk result (λ shown.
            IsShown self.now id shown.0.now shown.1.now × (shown.0.now.struck ≡ false)) }
        ensures refused { IfErr result (IsUnfit self.now id) }
    {
        let (paragraph, rules) = self.paragraph_and_rules(id)?;
        if paragraph.struck {
            return Err(Refusal::Struck);
        }
        Ok((paragraph, rules))
    }

    /// The history may have an entry more, after which the print has so many characters.
    fn check_entry(&self, paragraph: &Paragraph, count: usize) -> Result<(), Refusal>
        ensures takes { OnOk result (TakesEntry self.now paragraph.now count) }
        ensures halted { IfErr result (HaltsEntry self.now paragraph.now count) }
    {
        check_length(count, MOST_PRINT)?;
        check_limit(paragraph.history.len(), MOST_ENTRIES, Limit::Entries)?;
        self.check_version()
    }

    /// What a new entry does, for which there is room, if the table defines its print.
    fn entry_effect(
        &self,
        alloc: Global,
        id: u64,
        paragraph: &Paragraph,
        rules: &RuleIndex,
        new: NewEntry,
    ) -> Result<Effect, Refusal>
        requires { TakesEntry self.now paragraph.now (length new.print.items) }
        ensures planned { IfOk result (IsEntered self.now id paragraph.now rules.now new) }
        ensures refused { IfErr result (HaltsPrint rules.now new.print.items) }
    {
        check_print(rules, &new.print)?;
        let cells = cells_of(alloc, rules, &new.print)?;
        let room = paragraph.history.room(alloc)?;
        let NewEntry {
            entry,
            print,
            start,
            removed,
            added,
        } = new;
        Ok(Effect::ChangePrint {
            id,
            change: PrintChange {
                entry,
                room,
                print: Characters::from_vec(print),
                cells,
                start,
                removed,
                added,
            },
        })
    }

    pub(crate) fn plan_correct(
        &self,
        alloc: Global,
        id: u64,
        start: usize,
        count: usize,
        text: &LentText<'_>,
        who: &LentText<'_>,
    ) -> Result<Effect, Refusal>
        ensures planned { IfOk result (IsPlanned self.now (Command.Correct id start count text.now who.now)) }
        ensures refused { IfErr result (IsTurnedDown self.now (Command.Correct id start count text.now who.now)) }
    {
        check_proofreader(who)?;
        check_text(text)?;
        let (paragraph, rules) = self.live_paragraph(id)?;
        let old = paragraph.print.as_slice();
        check_span(old, start, count)?;
        let put = normal_form(alloc, text.as_str())?;
        check_length(put.len(), MOST_PRINT)?;
        self.check_entry(paragraph, old.len() - count + put.len())?;
        let print = replace_span(alloc, old, start, count, &put)?;
        let new = NewEntry {
            entry: HeldEntry::Corrects(correction(alloc, old, start, count, &put, who)?),
            print,
            start,
            removed: count,
            added: put.len(),
        };
        self.entry_effect(alloc, id, paragraph, rules, new)
    }

    pub(crate) fn plan_undo(&self, alloc: Global, id: u64) -> Result<Effect, Refusal>
        ensures planned { IfOk result (IsPlanned self.now (Command.Undo id)) }
        ensures refused { IfErr result (IsTurnedDown self.now (Command.Undo id)) }
    {
        let (paragraph, rules) = self.live_paragraph(id)?;
        let Some((number, correction)) = newest(paragraph.history.as_slice()) else {
            return Err(Refusal::NothingToUndo);
        };
        let count = correction.count();
        let taken = correction.taken.as_slice();
        let old = paragraph.print.as_slice();
        self.check_entry(paragraph, old.len() - count + taken.len())?;
        let new = NewEntry {
            entry: HeldEntry::Undoes(number),
            print: correction.undone(alloc, old)?,
            start: correction.start,
            removed: count,
            added: taken.len(),
        };
        self.entry_effect(alloc, id, paragraph, rules, new)
    }
}
