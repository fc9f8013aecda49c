//! Which change a command makes, or why it is refused.
ghost use Rattle.desk_model.specs.Book.{paragraph_of, text_of};
ghost use Rattle.desk_book.specs.Changes.{AreRenewed, Carries};
ghost use Rattle.desk_memory.specs.Braille.{AreCellsOf};
ghost use Rattle.desk_model.specs.Judging.{MayLackMemory};
ghost use Rattle.desk_model.specs.Limits.{most_version};
ghost use Rattle.desk_model.specs.ValidNames.{IsTableName};
ghost use Rattle.desk_book.specs.Plans.{AreNotAllThere, AreThere, IsNewParagraph, IsPlanned, IsTableFor, IsTurnedDown};
ghost use Rattle.desk_model.specs.Named.{number_of, paragraph_before};
ghost use Rattle.desk_model.specs.Refusals.{DefinesUser, IsAccepted, IsFirstUser, IsMoved, IsRefused};
ghost use Rattle.desk_model.specs.NextBook.{next_mark};
ghost use Rattle.desk_model.specs.BookTexts.{AreCharacters, IsFirstBarred, IsUnbarred};
ghost use Rattle.louis_table.specs.Table.{Bad, Means};
ghost use Rattle.louis_translate.specs.Position.{AreDefined, IsFirstUndefined};
ghost use Rattle.std.specs.Str.{chars};
ghost use Rattle.std.specs.List.{All};
ghost use Rattle.std.specs.Prelude.{◌≡◌, ◌≢◌, ◌↔◌, ◌⊎◌, ◌<◌, ◌≤◌, IfErr, IfOk, IsSome, IsTrue};
ghost use Rattle.std.specs.Prelude.{MatchOption, None, OnOk, ◌+◌, length, option_map};

use super::book::Book;
use super::change::{Change, Effect};
use cell_core::Cells;
use desk_memory::{
    BookTable, BoxedTable, Items, MOST_PARAGRAPHS, MOST_PRINT, MOST_TABLES, MOST_VERSION,
    Paragraph, TablesRoom, cells_of, first_barred, is_table_name, normal_form,
};
use desk_model::{Anchor, Command, LentBytes, LentText, Limit, Refusal, Style, Text};
use louis_table::{Characters, ReadFault};
use louis_translate::{RuleBook, RuleIndex, undefined_place};
use std::alloc::{AllocError, Global};

/// A copy of a text.
pub(crate) fn copy(alloc: Global, text: &str) -> Result<Text, AllocError>
    ensures text { IfOk result (λ copied. copied ≡ chars text.now) }
    ensures characters { IfOk result AreCharacters }
{
    Ok(Text::from_string(String::from_str(alloc, text)?))
}

/// The text of a print.
pub(crate) fn text_of_print(alloc: Global, print: &[char]) -> Result<Text, AllocError>
    ensures text { IfOk result (λ text. text ≡ print.now) }
    ensures characters { IfOk result AreCharacters }
{
    let string: String = print.iter().copied().collect(alloc)?;
    Ok(Text::from_string(string))
}

/// A paragraph that was just typed.
fn new_paragraph(
    alloc: Global,
    table: &LentText<'_>,
    rules: &RuleIndex,
    print: Vec<char>,
) -> Result<Paragraph, AllocError>
    requires { AreDefined rules.now print.items }
    ensures { IfOk result (IsNewParagraph table.now print.items rules.now) }
{
    let cells = cells_of(alloc, rules, &print)?;
    let original = text_of_print(alloc, &print)?;
    Ok(Paragraph {
        table: copy(alloc, table.as_str())?,
        original,
        history: Items::new(alloc),
        style: Style::Body,
        begins_volume: false,
        struck: false,
        print: Characters::from_vec(print),
        cells,
        marks: Items::new(alloc),
    })
}

/// A text that is given has no barred character.
pub(crate) fn check_text(text: &LentText<'_>) -> Result<(), Refusal>
    ensures unbarred { OnOk result (IsUnbarred text.now) }
    ensures barred { IfErr result (λ refusal. (place : _) × (refusal ≡ Refusal.BadText place)
        × IsFirstBarred text.now place) }
{
    match first_barred(text.as_str()) {
        Some(place) => Err(Refusal::BadText { place }),
        None => Ok(()),
    }
}

/// A text of so many characters is within its limit.
pub(crate) fn check_length(count: usize, most: usize) -> Result<(), Refusal>
    ensures short { OnOk result (count ≤ most) }
    ensures long { IfErr result (λ refusal. (refusal ≡ Refusal.TooLong) × (most < count)) }
{
    if count > most {
        return Err(Refusal::TooLong);
    }
    Ok(())
}

/// One more may come beside so many, of at most so many.
pub(crate) fn check_limit(count: usize, most: usize, limit: Limit) -> Result<(), Refusal>
    ensures left { OnOk result (count < most) }
    ensures full { IfErr result (λ refusal. (refusal ≡ Refusal.Full limit) × (most ≤ count)) }
{
    if count >= most {
        return Err(Refusal::Full(limit));
    }
    Ok(())
}

/// Rules define a print.
pub(crate) fn check_print(rules: &RuleIndex, print: &[char]) -> Result<(), Refusal>
    ensures defined { OnOk result (AreDefined rules.now print.now) }
    ensures undefined { IfErr result (λ refusal. (place : _) × (refusal ≡ Refusal.Undefined place)
        × IsFirstUndefined rules.now print.now place) }
{
    match undefined_place(rules.table(), print) {
        Some(place) => Err(Refusal::Undefined { place }),
        None => Ok(()),
    }
}

impl Book {
    /// The change that a command makes, if it is accepted, with room for all that it adds. The book
    /// stays as it is.
    ///
    /// # Errors
    ///
    /// The first refusal that holds, in this order: another version than the expected one; a bad
    /// name of a table; a bad name of a proofreader; a barred character; no such paragraph; no such
    /// table; no such mark; a paragraph that is struck; one that isn't; a resolved mark; places
    /// that are not all there; nothing to undo; a text that is too long; a limit, the one with the
    /// smallest number; a bad table; an undefined character; a paragraph that a table no longer
    /// defines.
    ///
    /// `NoMemory` if an allocation failed, and no refusal holds that is checked before the command
    /// allocates. Resolve, Strike, Restore, Style and Volume allocate nothing; Mark, Retable and
    /// Move only once no refusal holds; Table when its text is read; TypeIn and Correct before a
    /// text that is too long is refused; Undo before the characters of its print are checked.
    pub fn plan(
        &self,
        alloc: Global,
        command: &Command<'_>,
        expect: Option<u64>,
    ) -> Result<Change, Refusal>
        ensures accepted { IfOk result (λ change. IsAccepted self.now expect command.now
            × ((next : _) × Carries self.now command.now next change)) }
        ensures refused { IfErr result (λ refusal. IsRefused self.now expect command.now refusal
            ⊎ ((refusal ≡ Refusal.NoMemory) × MayLackMemory self.now expect command.now)) }
    {
        self.check_expected(expect)?;
        let effect = self.effect(alloc, command)?;
        Ok(Change {
            version: self.version + 1,
            number: self.number(command),
            effect,
        })
    }

    /// The book has the version that is expected, if one is.
    fn check_expected(&self, expect: Option<u64>) -> Result<(), Refusal>
        ensures same { OnOk result ((version : _) → ¬ IsMoved self.now expect version) }
        ensures moved { IfErr result (λ refusal. (version : _) × (refusal ≡ Refusal.Moved version)
            × IsMoved self.now expect version) }
    {
        match expect {
            Some(expected) if expected != self.version => Err(Refusal::Moved {
                version: self.version,
            }),
            _ => Ok(()),
        }
    }

    /// The number that a command answers.
    fn number(&self, command: &Command<'_>) -> Option<u64>
        ensures { result ≡ number_of self.now command.now }
    {
        match command {
            Command::TypeIn { .. } => Some(self.paragraphs.len() as u64 + 1),
            Command::Correct { paragraph, .. } | Command::Undo { paragraph } => {
                self.next_entry(*paragraph)
            }
            Command::Mark { .. } => Some(self.next_mark()),
            Command::Table { .. }
            | Command::Resolve { .. }
            | Command::Strike { .. }
            | Command::Restore { .. }
            | Command::Style { .. }
            | Command::Volume { .. }
            | Command::Retable { .. }
            | Command::Move { .. } => None,
        }
    }

    /// The id of the next mark.
    pub(crate) fn next_mark(&self) -> u64
        ensures { result ≡ next_mark self.now }
    {
        self.marks.len() as u64 + 1
    }

    /// The number of the next entry of a paragraph's history.
    pub(crate) fn next_entry(&self, id: u64) -> Option<u64>
        ensures { result ≡ option_map (λ paragraph. length paragraph.history + 1) (paragraph_of self.now id) }
    {
        let paragraph = self.paragraphs.get(id)?;
        Some(paragraph.history.len() as u64 + 1)
    }

    /// What a command does, whichever version is expected.
    fn effect(&self, alloc: Global, command: &Command<'_>) -> Result<Effect, Refusal>
        ensures planned { IfOk result (IsPlanned self.now command.now) }
        ensures refused { IfErr result (IsTurnedDown self.now command.now) }
    {
        match command {
            Command::Table { name, text } => self.plan_table(alloc, name, text),
            Command::TypeIn { after, table, text } => self.plan_type(alloc, *after, table, text),
            Command::Correct {
                paragraph,
                start,
                count,
                text,
                who,
            } => self.plan_correct(alloc, *paragraph, *start, *count, text, who),
            Command::Undo { paragraph } => self.plan_undo(alloc, *paragraph),
            Command::Mark {
                paragraph,
                cell,
                count,
                note,
            } => self.plan_mark(alloc, *paragraph, *cell, *count, note),
            Command::Resolve { mark } => self.plan_resolve(*mark),
            Command::Strike { paragraph } => self.plan_strike(*paragraph),
            Command::Restore { paragraph } => self.plan_restore(*paragraph),
            Command::Style { paragraph, style } => self.plan_style(*paragraph, *style),
            Command::Volume { paragraph, begins } => self.plan_volume(*paragraph, *begins),
            Command::Retable { paragraph, table } => self.plan_retable(alloc, *paragraph, table),
            Command::Move { paragraph, after } => self.plan_move(alloc, *paragraph, *after),
        }
    }

    /// The paragraph that a command puts something after is there.
    fn check_anchor(&self, anchor: Anchor) -> Result<(), Refusal>
        ensures there { OnOk result (AreThere self.now (paragraph_before anchor)) }
        ensures missing { IfErr result (λ refusal.
            (refusal ≡ Refusal.NoParagraph) × AreNotAllThere self.now (paragraph_before anchor)) }
    {
        if let Anchor::Para(id) = anchor {
            self.held_paragraph(id)?;
        }
        Ok(())
    }

    /// The table that a command names.
    fn table_named(&self, name: &LentText<'_>) -> Result<&BookTable, Refusal>
        ensures found { IfOk result (λ table. IsTableFor self.now name.now table.now) }
        ensures missing { IfErr result (λ refusal.
            (refusal ≡ Refusal.NoTable) × (text_of self.now name.now ≡ None)) }
    {
        self.tables.get(name.as_str()).ok_or(Refusal::NoTable)
    }

    /// A version is left.
    pub(crate) fn check_version(&self) -> Result<(), Refusal>
        ensures left { OnOk result (self.now.version < most_version) }
        ensures full { IfErr result (λ refusal.
            (refusal ≡ Refusal.Full Limit.Version) × (most_version ≤ self.now.version)) }
    {
        if self.version >= MOST_VERSION {
            return Err(Refusal::Full(Limit::Version));
        }
        Ok(())
    }

    fn plan_strike(&self, id: u64) -> Result<Effect, Refusal>
        ensures planned { IfOk result (IsPlanned self.now (Command.Strike id)) }
        ensures refused { IfErr result (IsTurnedDown self.now (Command.Strike id)) }
    {
        let paragraph = self.held_paragraph(id)?;
        if paragraph.struck {
            return Err(Refusal::Struck);
        }
        self.check_version()?;
        Ok(Effect::SetFlags {
            id,
            style: paragraph.style,
            begins_volume: paragraph.begins_volume,
            struck: true,
        })
    }

    fn plan_restore(&self, id: u64) -> Result<Effect, Refusal>
        ensures planned { IfOk result (IsPlanned self.now (Command.Restore id)) }
        ensures refused { IfErr result (IsTurnedDown self.now (Command.Restore id)) }
    {
        let paragraph = self.held_paragraph(id)?;
        if !paragraph.struck {
            return Err(Refusal::NotStruck);
        }
        self.check_version()?;
        Ok(Effect::SetFlags {
            id,
            style: paragraph.style,
            begins_volume: paragraph.begins_volume,
            struck: false,
        })
    }

    fn plan_style(&self, id: u64, style: Style) -> Result<Effect, Refusal>
        ensures planned { IfOk result (IsPlanned self.now (Command.Style id style)) }
        ensures refused { IfErr result (IsTurnedDown self.now (Command.Style id style)) }
    {
        let paragraph = self.held_paragraph(id)?;
        self.check_version()?;
        Ok(Effect::SetFlags {
            id,
            style,
            begins_volume: paragraph.begins_volume,
            struck: paragraph.struck,
        })
    }

    fn plan_volume(&self, id: u64, begins: bool) -> Result<Effect, Refusal>
        ensures planned { IfOk result (IsPlanned self.now (Command.Volume id begins)) }
        ensures refused { IfErr result (IsTurnedDown self.now (Command.Volume id begins)) }
    {
        let paragraph = self.held_paragraph(id)?;
        self.check_version()?;
        Ok(Effect::SetFlags {
            id,
            style: paragraph.style,
            begins_volume: begins,
            struck: paragraph.struck,
        })
    }

    fn plan_move(&self, alloc: Global, id: u64, anchor: Anchor) -> Result<Effect, Refusal>
        ensures planned { IfOk result (IsPlanned self.now (Command.Move id anchor)) }
        ensures refused { IfErr result (IsTurnedDown self.now (Command.Move id anchor)) }
    {
        self.held_paragraph(id)?;
        self.check_anchor(anchor)?;
        self.check_version()?;
        Ok(Effect::Reorder {
            order: self.paragraphs.order_with_move(alloc, id, anchor)?,
        })
    }

    fn plan_retable(&self, alloc: Global, id: u64, table: &LentText<'_>) -> Result<Effect, Refusal>
        ensures planned { IfOk result (IsPlanned self.now (Command.Retable id table.now)) }
        ensures refused { IfErr result (IsTurnedDown self.now (Command.Retable id table.now)) }
    {
        let paragraph = self.held_paragraph(id)?;
        let held = self.table_named(table)?;
        if paragraph.struck {
            return Err(Refusal::Struck);
        }
        self.check_version()?;
        let print = paragraph.print.as_slice();
        check_print(&held.rules, print)?;
        Ok(Effect::ChangeTable {
            id,
            table: copy(alloc, table.as_str())?,
            cells: cells_of(alloc, &held.rules, print)?,
        })
    }

    fn plan_type(
        &self,
        alloc: Global,
        anchor: Anchor,
        table: &LentText<'_>,
        text: &LentText<'_>,
    ) -> Result<Effect, Refusal>
        ensures planned { IfOk result (IsPlanned self.now (Command.TypeIn anchor table.now text.now)) }
        ensures refused { IfErr result (IsTurnedDown self.now (Command.TypeIn anchor table.now text.now)) }
    {
        check_text(text)?;
        self.check_anchor(anchor)?;
        let held = self.table_named(table)?;
        let print = normal_form(alloc, text.as_str())?;
        check_length(print.len(), MOST_PRINT)?;
        check_limit(self.paragraphs.len(), MOST_PARAGRAPHS, Limit::Paragraphs)?;
        self.check_version()?;
        check_print(&held.rules, &print)?;
        Ok(Effect::AddParagraph {
            paragraph: new_paragraph(alloc, table, &held.rules, print)?,
            room: self.paragraphs.room(alloc)?,
            order_room: self.paragraphs.order_room(alloc)?,
            place: self.paragraphs.place_for(anchor),
        })
    }

    fn plan_table(
        &self,
        alloc: Global,
        name: &LentText<'_>,
        text: &LentBytes<'_>,
    ) -> Result<Effect, Refusal>
        ensures planned { IfOk result (IsPlanned self.now (Command.Table name.now text.now)) }
        ensures refused { IfErr result (IsTurnedDown self.now (Command.Table name.now text.now)) }
    {
        check_name(name)?;
        match self.table_named(name) {
            Ok(_) => self.plan_replacement(alloc, name, text),
            Err(_) => self.plan_addition(alloc, name, text),
        }
    }

    fn plan_addition(
        &self,
        alloc: Global,
        name: &LentText<'_>,
        text: &LentBytes<'_>,
    ) -> Result<Effect, Refusal>
        requires name { IsTableName name.now }
        requires new { text_of self.now name.now ≡ None }
        ensures planned { IfOk result (IsPlanned self.now (Command.Table name.now text.now)) }
        ensures refused { IfErr result (IsTurnedDown self.now (Command.Table name.now text.now)) }
    {
        check_limit(self.tables.len(), MOST_TABLES, Limit::Tables)?;
        self.check_version()?;
        Ok(Effect::AddTable {
            table: read_table(alloc, text)?,
            name: copy(alloc, name.as_str())?,
            room: TablesRoom::new(alloc, self.tables.len() + 1)?,
        })
    }

    fn plan_replacement(
        &self,
        alloc: Global,
        name: &LentText<'_>,
        text: &LentBytes<'_>,
    ) -> Result<Effect, Refusal>
        requires name { IsTableName name.now }
        requires old { IsSome (text_of self.now name.now) }
        ensures planned { IfOk result (IsPlanned self.now (Command.Table name.now text.now)) }
        ensures refused { IfErr result (IsTurnedDown self.now (Command.Table name.now text.now)) }
    {
        self.check_version()?;
        let table = read_table(alloc, text)?;
        let rules = table.rules();
        self.check_users(name, rules)?;
        let cells = self.cells_by(alloc, name, rules)?;
        Ok(Effect::ReplaceTable {
            name: copy(alloc, name.as_str())?,
            table,
            cells,
        })
    }

    /// A table of these rules defines the print of each paragraph that uses its name.
    fn check_users(&self, name: &LentText<'_>, rules: &RuleIndex) -> Result<(), Refusal>
        ensures defined { OnOk result (All (DefinesUser rules.now name.now) self.now.paragraphs) }
        ensures undefined { IfErr result (λ refusal. (id : _) × (place : _)
            × (refusal ≡ Refusal.Untranslatable id place)
            × IsFirstUser rules.now name.now self.now.paragraphs id place) }
    {
        for place in 0..self.paragraphs.len() {
            if let Some((id, paragraph)) = self.paragraphs.at(place) {
                check_user(id, paragraph, name, rules)?;
            }
        }
        Ok(())
    }

    /// For each paragraph in the order of ids its cells by the rules, if it uses the name.
    fn cells_by(
        &self,
        alloc: Global,
        name: &LentText<'_>,
        rules: &RuleIndex,
    ) -> Result<Vec<Option<Cells>>, AllocError>
        requires { All (DefinesUser rules.now name.now) self.now.paragraphs }
        ensures renewed { IfOk result (λ cells. AreRenewed self.now name.now rules.now cells.items) }
        ensures few { IfOk result (λ cells. length cells.items ≤ length self.now.paragraphs) }
    {
        let mut all = Vec::with_capacity(alloc, self.paragraphs.len())?;
        for index in 0..self.paragraphs.len() {
            let new = match self.paragraphs.get(index as u64 + 1) {
                Some(paragraph) => user_cells(alloc, paragraph, name, rules)?,
                None => None,
            };
            all.push(new)?;
        }
        Ok(all)
    }
}

/// Whether a paragraph uses the table with this name.
fn uses(paragraph: &Paragraph, name: &LentText<'_>) -> bool
    ensures { IsTrue result ↔ (paragraph.now.table ≡ name.now) }
{
    paragraph.table.as_str() == name.as_str()
}

/// The rules define the print of a paragraph, if it uses their table's name.
fn check_user(
    id: u64,
    paragraph: &Paragraph,
    name: &LentText<'_>,
    rules: &RuleIndex,
) -> Result<(), Refusal>
    ensures defined { OnOk result
        (paragraph.now.table ≡ name.now → AreDefined rules.now paragraph.now.print) }
    ensures undefined { IfErr result (λ refusal. (place : _) × (refusal ≡ Refusal.Untranslatable id place)
        × (paragraph.now.table ≡ name.now) × IsFirstUndefined rules.now paragraph.now.print place) }
{
    if !uses(paragraph, name) {
        return Ok(());
    }
    match undefined_place(rules.table(), paragraph.print.as_slice()) {
        Some(place) => Err(Refusal::Untranslatable {
            paragraph: id,
            place,
        }),
        None => Ok(()),
    }
}

/// The cells of a paragraph by the rules, if it uses their table's name.
fn user_cells(
    alloc: Global,
    paragraph: &Paragraph,
    name: &LentText<'_>,
    rules: &RuleIndex,
) -> Result<Option<Cells>, AllocError>
    requires { paragraph.now.table ≡ name.now → AreDefined rules.now paragraph.now.print }
    ensures { IfOk result (λ cells. MatchOption cells
        (paragraph.now.table ≢ name.now)
        (λ new. (paragraph.now.table ≡ name.now) × AreCellsOf rules.now paragraph.now.print new)) }
{
    if !uses(paragraph, name) {
        return Ok(None);
    }
    let cells = cells_of(alloc, rules, paragraph.print.as_slice())?;
    Ok(Some(cells))
}

/// The name of a table is a valid one.
fn check_name(name: &LentText<'_>) -> Result<(), Refusal>
    ensures name { OnOk result (IsTableName name.now) }
    ensures bad { IfErr result (λ refusal. (refusal ≡ Refusal.BadName) × ¬ IsTableName name.now) }
{
    if !is_table_name(name.as_str()) {
        return Err(Refusal::BadName);
    }
    Ok(())
}

/// How the fault of a table's text is answered.
fn refusal_of(fault: ReadFault) -> Refusal
    ensures bad { (bad : _) → fault ≡ ReadFault.Table bad → result ≡ Refusal.BadTable bad }
    ensures memory { fault ≡ ReadFault.NoMemory → result ≡ Refusal.NoMemory }
{
    match fault {
        ReadFault::Table(bad) => Refusal::BadTable(bad),
        ReadFault::NoMemory => Refusal::NoMemory,
    }
}

/// A table of a text. The heap is asked for room for it after the text is checked.
fn read_table(alloc: Global, text: &LentBytes<'_>) -> Result<BoxedTable, Refusal>
    ensures text { IfOk result (λ table. table.text ≡ text.now) }
    ensures means { IfOk result (λ table. Means text.now table.rules) }
    ensures bad { IfErr result (λ refusal. ((fault : _) × (refusal ≡ Refusal.BadTable fault)
        × Bad text.now fault.line fault.cause) ⊎ (refusal ≡ Refusal.NoMemory)) }
{
    match BookTable::read(alloc, text.as_slice()) {
        Ok(table) => Ok(BoxedTable::new(alloc, table)?),
        Err(fault) => Err(refusal_of(fault)),
    }
}
