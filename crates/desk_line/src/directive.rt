//! What the head line of a command says, and the command that it makes with the lines after it.
ghost use Rattle.desk_line.specs.Commands.{announced, span, textless};
ghost use Rattle.desk_line.specs.Operands.{Last, Name, Place, Rest, Then};
ghost use Rattle.desk_line.specs.ReadingSteps.{directive_by, read};
ghost use Rattle.louis_table.specs.declared.en.TheConstants.{EN};
ghost use Rattle.std.specs.Prelude.{◌≡◌, []};

use super::fields::Fields;
use desk_model::{Command, LentBytes, LentText};
use louis_table::EN;

/// What the head line of a command says.
#[derive(Drop)]
pub(crate) enum Directive<'a> {
    /// A command, which stands whole in it.
    Whole(Command<'a>),
    /// Adds or replaces a table, whose text are the next lines.
    Table {
        /// The table's name.
        name: LentText<'a>,
        /// How many lines follow.
        count: u64,
    },
}

/// The command that a word and the fields after it give.
pub(crate) fn read_directive<'a>(word: &str, fields: Fields<'a>) -> Option<Directive<'a>>
    ensures { result ≡ directive_by word.now fields.entry }
{
    if word == "table" {
        let (name, fields) = fields.name()?;
        let (count, fields) = fields.lines()?;
        fields.end(Directive::Table { name, count })
    } else if word == "supply" {
        let (name, fields) = fields.name()?;
        let text = LentBytes::new(EN.as_bytes());
        whole(Command::Table { name, text }, fields)
    } else if word == "type" {
        read_type(fields)
    } else if word == "correct" {
        read_correct(nobody(), fields)
    } else if word == "correct-by" {
        let (who, fields) = fields.name()?;
        read_correct(who, fields)
    } else if word == "mark" {
        read_mark(fields)
    } else {
        read_textless(word, fields)
    }
}

/// The command that has no text, if the word is that of one.
fn read_textless<'a>(word: &str, fields: Fields<'a>) -> Option<Directive<'a>>
    ensures { result ≡ read (textless word.now) fields.entry }
{
    if word == "undo" {
        let (paragraph, fields) = fields.number()?;
        whole(Command::Undo { paragraph }, fields)
    } else if word == "resolve" {
        let (mark, fields) = fields.number()?;
        whole(Command::Resolve { mark }, fields)
    } else if word == "strike" {
        let (paragraph, fields) = fields.number()?;
        whole(Command::Strike { paragraph }, fields)
    } else if word == "restore" {
        let (paragraph, fields) = fields.number()?;
        whole(Command::Restore { paragraph }, fields)
    } else if word == "style" {
        let (paragraph, fields) = fields.number()?;
        let (style, fields) = fields.look()?;
        whole(Command::Style { paragraph, style }, fields)
    } else if word == "volume" {
        let (paragraph, fields) = fields.number()?;
        let (begins, fields) = fields.flag()?;
        whole(Command::Volume { paragraph, begins }, fields)
    } else if word == "retable" {
        let (paragraph, fields) = fields.number()?;
        let (table, fields) = fields.name()?;
        whole(Command::Retable { paragraph, table }, fields)
    } else if word == "move" {
        let (paragraph, fields) = fields.number()?;
        let (after, fields) = fields.place()?;
        whole(Command::Move { paragraph, after }, fields)
    } else {
        None
    }
}

/// A command that stands whole in its head line, if no field is left there.
fn whole<'a>(command: Command<'a>, fields: Fields<'_>) -> Option<Directive<'a>>
    ensures { result ≡ read (Last (Directive.Whole command.entry)) fields.entry }
{
    fields.end(Directive::Whole(command))
}

fn read_type(fields: Fields<'_>) -> Option<Directive<'_>>
    ensures { result ≡ read (Then Place (λ after. Then Name (λ table.
        Rest (λ text. Directive.Whole (Command.TypeIn after table text)))))
        fields.entry }
{
    let (after, fields) = fields.place()?;
    let (table, fields) = fields.name()?;
    Some(Directive::Whole(Command::TypeIn {
        after,
        table,
        text: fields.text(),
    }))
}

/// A correction by a proofreader, who isn't named if the name is empty.
fn read_correct<'a>(who: LentText<'a>, fields: Fields<'a>) -> Option<Directive<'a>>
    ensures { result ≡ read (span (λ id start count text.
        Directive.Whole (Command.Correct id start count text who.entry)))
        fields.entry }
{
    let (paragraph, fields) = fields.number()?;
    let (start, fields) = fields.number()?;
    let (count, fields) = fields.number()?;
    Some(Directive::Whole(Command::Correct {
        paragraph,
        start: start as usize,
        count: count as usize,
        text: fields.text(),
        who,
    }))
}

fn read_mark(fields: Fields<'_>) -> Option<Directive<'_>>
    ensures { result ≡ read (span (λ id cell count note.
        Directive.Whole (Command.Mark id cell count note)))
        fields.entry }
{
    let (paragraph, fields) = fields.number()?;
    let (cell, fields) = fields.number()?;
    let (count, fields) = fields.number()?;
    Some(Directive::Whole(Command::Mark {
        paragraph,
        cell: cell as usize,
        count: count as usize,
        note: fields.text(),
    }))
}

/// The name of a proofreader who isn't named.
fn nobody() -> LentText<'static>
    ensures { result ≡ [] }
{
    LentText::new("")
}

/// The command that a head line and the bytes of the lines after it make.
pub(crate) fn make_command<'a>(directive: Directive<'a>, text: &'a [u8]) -> Command<'a>
    ensures { result ≡ (announced directive.entry).command text.now }
{
    match directive {
        Directive::Whole(command) => command,
        Directive::Table { name, .. } => Command::Table {
            name,
            text: LentBytes::new(text),
        },
    }
}
