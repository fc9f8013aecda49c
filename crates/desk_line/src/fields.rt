//! The fields of a head line, and what they stand for.
ghost use Rattle.desk_line.specs.Fields.{fields_in_rest, fields_of, line_of_fields};
ghost use Rattle.desk_line.specs.Operands.{Flag, Lines, Look, Name, Number, Place};
ghost use Rattle.desk_line.specs.ReadingSteps.{first_and_others, first_of, is_end, number_in};
ghost use Rattle.std.specs.Char.{is_ascii_digit};
ghost use Rattle.std.specs.List.{list_all};
ghost use Rattle.std.specs.Prelude.{None, Some, if◌then◌else◌, length, option_map, true, ◌∷◌, ◌≡◌, ◌≤◌};
ghost use Rattle.std.specs.Str.{chars};
ghost use Rattle.std.specs.Str.Parse.{digits_value};

use super::limits::{MOST_DIGITS, MOST_NUMBER};
use desk_model::{Anchor, LentText, Style};
use louis_table::MOST_LINES;
use std::marker::Model;

/// The fields of a line that are still to be read: what stands between its blanks. Contracts see
/// their list.
#[derive(Drop)]
pub(crate) struct Fields<'a> {
    rest: Option<&'a str>,
}

impl<'a> Model for Fields<'a> {
    ghost use Rattle.desk_line.specs.Fields.{fields_in_rest};
    ghost use Rattle.std.specs.Prelude.{List, ℕ};

    ghost Value = { List (List ℕ) };

    ghost view = { λ f. fields_in_rest f.rest };
}

impl<'a> Fields<'a> {
    /// The fields of a line.
    pub(crate) fn new(line: &'a str) -> Self
        ensures { result ≡ fields_of line.now }
    {
        Fields { rest: Some(line) }
    }

    /// The first field and the others, if there is one.
    pub(crate) fn split(self) -> Option<(&'a str, Fields<'a>)>
        ensures { option_map (λ it. (it.0.now, it.1)) result ≡ first_and_others self.entry }
    {
        let (field, rest) = split_line(self.rest?);
        Some((field, Fields { rest }))
    }

    /// Whether no field is left.
    pub(crate) fn is_empty(&self) -> bool
        ensures { result ≡ is_end self.now }
    {
        self.rest.is_none()
    }

    /// The value, if no field is left.
    pub(crate) fn end<T: Drop>(self, value: T) -> Option<T>
        ensures { result ≡ (if is_end self.entry then Some value else None) }
    {
        if self.is_empty() { Some(value) } else { None }
    }

    /// The line from here on, with its blanks.
    pub(crate) fn text(self) -> LentText<'a>
        ensures { result ≡ chars (line_of_fields self.entry) }
    {
        LentText::new(self.rest.unwrap_or(""))
    }
}

/// What stands before the first blank of a line, and what follows it, if there is one.
fn split_line(line: &str) -> (&str, Option<&str>)
    ensures { fields_of line.now ≡ result.0.now ∷ fields_in_rest result.1 }
{
    match line.split_once(' ') {
        Some((field, rest)) => (field, Some(rest)),
        None => (line, None),
    }
}

/// A number: 1 to 16 decimal digits, leading zeros too, of a value up to 2^53.
#[tactic(auto, unfolding(crate::specs::ReadingSteps::number_in))]
pub(crate) fn read_number(digits: &[u8]) -> Option<u64>
    ensures { result ≡ number_in digits.now }
{
    if digits.is_empty() || digits.len() > MOST_DIGITS || !are_digits(digits) {
        return None;
    }
    let value = value_of(digits);
    (value <= MOST_NUMBER).then_some(value)
}

/// Whether each byte is a decimal digit.
fn are_digits(bytes: &[u8]) -> bool
    ensures { result ≡ list_all is_ascii_digit bytes.now }
{
    bytes.iter().all(|byte| byte.is_ascii_digit())
}

/// The value of decimal digits.
fn value_of(digits: &[u8]) -> u64
    requires few { length digits.now ≤ MOST_DIGITS }
    requires all { list_all is_ascii_digit digits.now ≡ true }
    ensures { result ≡ digits_value 10 digits.now }
{
    let mut value = 0u64;
    for digit in digits {
        value = value * 10 + u64::from(*digit - b'0');
    }
    value
}

impl<'a> Fields<'a> {
    /// The first field as a number, and the fields after it.
    #[tactic(auto, unfolding(crate::specs::ReadingSteps::first_of))]
    pub(crate) fn number(self) -> Option<(u64, Self)>
        ensures { result ≡ first_of Number self.entry }
    {
        let (field, others) = self.split()?;
        let number = read_number(field.as_bytes())?;
        Some((number, others))
    }

    /// The first field as a number of lines of a table, up to 20,000, and the fields after it.
    #[tactic(auto, unfolding(crate::specs::ReadingSteps::first_of, crate::specs::ReadingSteps::count_in))]
    pub(crate) fn lines(self) -> Option<(u64, Self)>
        ensures { result ≡ first_of Lines self.entry }
    {
        let (field, others) = self.split()?;
        let count = read_number(field.as_bytes())?;
        (count <= MOST_LINES as u64).then_some((count, others))
    }

    /// The first field as a name, which has one character or more, and the fields after it.
    #[tactic(auto, unfolding(crate::specs::ReadingSteps::first_of))]
    pub(crate) fn name(self) -> Option<(LentText<'a>, Self)>
        ensures { result ≡ first_of Name self.entry }
    {
        let (field, others) = self.split()?;
        (!field.is_empty()).then_some((LentText::new(field), others))
    }

    /// The first field as where a paragraph is put, `front`, `end` or the number of the paragraph
    /// before, and the fields after the first.
    #[tactic(auto, unfolding(crate::specs::ReadingSteps::first_of, crate::specs::ReadingSteps::anchor_in))]
    pub(crate) fn place(self) -> Option<(Anchor, Self)>
        ensures { result ≡ first_of Place self.entry }
    {
        let (field, others) = self.split()?;
        match field {
            "front" => Some((Anchor::Front, others)),
            "end" => Some((Anchor::End, others)),
            _ => Some((Anchor::Para(read_number(field.as_bytes())?), others)),
        }
    }

    /// The first field as a style, `body` or `heading`, and the fields after it.
    #[tactic(auto, unfolding(crate::specs::ReadingSteps::first_of, crate::specs::ReadingSteps::style_in))]
    pub(crate) fn look(self) -> Option<(Style, Self)>
        ensures { result ≡ first_of Look self.entry }
    {
        let (field, others) = self.split()?;
        match field {
            "body" => Some((Style::Body, others)),
            "heading" => Some((Style::Heading, others)),
            _ => None,
        }
    }

    /// The first field as a flag, `on` or `off`, and the fields after it.
    #[tactic(auto, unfolding(crate::specs::ReadingSteps::first_of, crate::specs::ReadingSteps::flag_in))]
    pub(crate) fn flag(self) -> Option<(bool, Self)>
        ensures { result ≡ first_of Flag self.entry }
    {
        let (field, others) = self.split()?;
        match field {
            "on" => Some((true, others)),
            "off" => Some((false, others)),
            _ => None,
        }
    }
}
