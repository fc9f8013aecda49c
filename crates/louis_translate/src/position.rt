//! Where words begin and end, and where the kinds of rules may stand.
ghost use Rattle.louis_translate.specs.Position.{class_at as class_at_lem, class_before as class_before_lem};
ghost use Rattle.louis_translate.specs.Position.{fits as fits_lem, is_digit as is_digit_lem};
ghost use Rattle.louis_translate.specs.Position.{is_edge as is_edge_lem, is_letter as is_letter_lem};
ghost use Rattle.std.specs.Prelude.{◌≡◌};

use louis_table::{Class, RuleKind, Table};

/// The class of the character at a place, and none past the print's end.
pub(crate) fn class_at(table: &Table, print: &[char], place: usize) -> Option<Class>
    ensures { result ≡ class_at_lem table.now print.now place }
{
    table.class(*print.get(place)?)
}

/// The class of the character before a place, and none before the first.
pub(crate) fn class_before(table: &Table, print: &[char], place: usize) -> Option<Class>
    ensures { result ≡ class_before_lem table.now print.now place }
{
    if place == 0 {
        return None;
    }
    class_at(table, print, place - 1)
}

/// Whether a word ends there: at the print's ends, at spaces and at punctuation.
fn is_edge(class: Option<Class>) -> bool
    ensures { result ≡ is_edge_lem class }
{
    match class {
        None | Some(Class::Space | Class::Punctuation) => true,
        Some(Class::Digit | Class::Letter) => false,
    }
}

/// Whether the class is that of a letter.
pub(crate) fn is_letter(class: Option<Class>) -> bool
    ensures { result ≡ is_letter_lem class }
{
    matches!(class, Some(Class::Letter))
}

/// Whether the class is that of a digit.
pub(crate) fn is_digit(class: Option<Class>) -> bool
    ensures { result ≡ is_digit_lem class }
{
    matches!(class, Some(Class::Digit))
}

/// Whether a rule of a kind may cover the places from `start` up to `end`.
pub(crate) fn fits(table: &Table, print: &[char], kind: RuleKind, start: usize, end: usize) -> bool
    ensures { result ≡ fits_lem table.now print.now kind start end }
{
    match kind {
        RuleKind::Always => true,
        RuleKind::Word => {
            is_edge(class_before(table, print, start)) && is_edge(class_at(table, print, end))
        }
        RuleKind::BegWord => {
            is_edge(class_before(table, print, start)) && is_letter(class_at(table, print, end))
        }
        RuleKind::MidWord => {
            is_letter(class_before(table, print, start)) && is_letter(class_at(table, print, end))
        }
        RuleKind::EndWord => {
            is_letter(class_before(table, print, start)) && is_edge(class_at(table, print, end))
        }
    }
}
