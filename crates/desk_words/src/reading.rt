//! What the program makes of its words.
ghost use Rattle.clap.specs.Walk.{texts};
ghost use Rattle.clap.specs.Words.{kind_of};
ghost use Rattle.desk_words.specs.Subcommands.{whole};
ghost use Rattle.desk_words.specs.Words.{IsError, IsReading, IsShownAs};
ghost use Rattle.std.specs.Prelude.{IfOk, [], string_bytes, ◌≢◌};

use super::action::{Action, action_of};
use super::command::whole_command;
use clap::Error;
use clap::error::ErrorKind;
use std::alloc::{AllocError, Global};

/// What the words are read as.
#[derive(Debug, Drop)]
pub enum Reading<'a> {
    /// They ask for an action.
    Asked(Action<'a>),
    /// They ask for help, which is this text. It isn't empty.
    Help(String),
    /// They are refused, and the text says why. It isn't empty.
    Refused(String),
    /// An allocation failed while they were read.
    NoMemory,
}

/// Reads the words, of which the first is the program's name.
pub fn read_words<'a>(alloc: Global, words: &'a [&'a str]) -> Reading<'a>
    ensures { IsReading whole (texts words.now) result }
{
    let Ok(command) = whole_command(alloc) else {
        return Reading::NoMemory;
    };
    match command.try_get_matches_from(words) {
        Ok(matches) => match action_of(&matches) {
            Some(action) => Reading::Asked(action),
            None => unreachable!("words that are taken name an action"),
        },
        Err(error) => reading_of(alloc, &error),
    }
}

/// What an error of the parse is read as.
fn reading_of<'a>(alloc: Global, error: &Error) -> Reading<'a>
    ensures { IsError (kind_of error.now) result }
{
    let Ok(text) = text_of(alloc, error) else {
        return Reading::NoMemory;
    };
    shown_as(error.kind(), text)
}

/// What is shown of an error of the parse. It is never empty.
fn text_of(alloc: Global, error: &Error) -> Result<String, AllocError>
    ensures { IfOk result (λ text. string_bytes text ≢ []) }
{
    let text = format!(in alloc; "{error}")?;
    if text.is_empty() {
        return String::from_str(alloc, "the words can't be read\n");
    }
    Ok(text)
}

/// What an error of this kind is read as, if this text is shown of it.
fn shown_as<'a>(kind: ErrorKind, text: String) -> Reading<'a>
    ensures { IsShownAs kind text result }
{
    match kind {
        ErrorKind::DisplayHelp => Reading::Help(text),
        ErrorKind::OutOfMemory => Reading::NoMemory,
        _ => Reading::Refused(text),
    }
}
