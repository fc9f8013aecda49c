//! Texts as a book holds them, and the names of its tables and of proofreaders.
ghost use Rattle.desk_model.specs.ValidNames.{IsProofreaderName, IsTableName};
ghost use Rattle.desk_model.specs.ValidNames.{is_name_character, is_proofreader_character};
ghost use Rattle.desk_model.specs.BookTexts.{is_barred, normal_form};
ghost use Rattle.std.specs.List.{filter, list_all, position};
ghost use Rattle.std.specs.Prelude.{◌≡◌, ◌↔◌, IfOk, IsTrue, length, not, chars};

use super::limits::{MOST_NAME, MOST_PROOFREADER};
use std::alloc::{AllocError, Global};
use unicode_normalization::slice::extend_nfc;

/// Whether no text of a book may hold the character: a line feed, a carriage return or U+0000.
fn is_barred(character: char) -> bool
    ensures { result ≡ is_barred character }
{
    character == '\n' || character == '\r' || character == '\0'
}

/// The first place of a barred character.
pub fn first_barred(text: &str) -> Option<usize>
    ensures { result ≡ position is_barred (chars text.now) }
{
    text.chars().position(is_barred)
}

/// Takes the barred characters out of a text.
fn drop_barred(text: &mut Vec<char>)
    ensures { text.new.items ≡ filter (λ character. not (is_barred character)) text.old.items }
{
    text.retain(|character| !is_barred(*character));
}

/// The characters of a text in Unicode's normal form C, without barred ones.
pub fn normal_form(alloc: Global, text: &str) -> Result<Vec<char>, AllocError>
    ensures { IfOk result (λ print. print.items ≡ normal_form (chars text.now)) }
{
    let given: Vec<char> = text.chars().collect(alloc)?;
    let mut print = Vec::new(alloc);
    extend_nfc(&mut print, given.as_slice())?;
    drop_barred(&mut print);
    Ok(print)
}

/// Whether the name of a table may hold the character: `a` to `z`, `0` to `9`, `_` or `-`.
fn is_name_character(character: char) -> bool
    ensures { result ≡ is_name_character character }
{
    matches!(character, 'a'..='z' | '0'..='9' | '_' | '-')
}

/// How many characters a text has.
pub fn count_of(text: &str) -> usize
    ensures { result ≡ length (chars text.now) }
{
    text.chars().count()
}

/// Whether each character of a text may stand in the name of a table.
fn has_name_characters(text: &str) -> bool
    ensures { result ≡ list_all is_name_character (chars text.now) }
{
    text.chars().all(is_name_character)
}

/// Whether the text is the name of a table: 1 to 32 of `a` to `z`, `0` to `9`, `_` and `-`.
pub fn is_table_name(name: &str) -> bool
    ensures { IsTrue result ↔ IsTableName (chars name.now) }
{
    let count = count_of(name);
    0 < count && count <= MOST_NAME && has_name_characters(name)
}

/// Whether the name of a proofreader may hold the character: neither a blank nor one that no text
/// of a book may hold.
fn is_proofreader_character(character: char) -> bool
    ensures { result ≡ is_proofreader_character character }
{
    character != ' ' && !is_barred(character)
}

/// Whether each character of a text may stand in the name of a proofreader.
fn has_proofreader_characters(text: &str) -> bool
    ensures { result ≡ list_all is_proofreader_character (chars text.now) }
{
    text.chars().all(is_proofreader_character)
}

/// Whether the text is the name of a proofreader: 0 to 40 characters, none of them a blank, a line
/// feed, a carriage return or U+0000.
pub fn is_proofreader_name(name: &str) -> bool
    ensures { IsTrue result ↔ IsProofreaderName (chars name.now) }
{
    count_of(name) <= MOST_PROOFREADER && has_proofreader_characters(name)
}
