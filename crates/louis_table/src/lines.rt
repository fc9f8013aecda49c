//! The lines of a text.
ghost use Rattle.louis_table.specs.Lines.{lines_of};
ghost use Rattle.louis_table.specs.Table.{without_byte_order_mark};
ghost use Rattle.std.specs.List.{after_first, before_first};
ghost use Rattle.std.specs.Prelude.{◌==◌, ◌≡◌, ◌≢◌, ◌<◌, ◌∷◌, [], length, OnOk, chars};

use std::alloc::AllocError;

const BYTE_ORDER_MARK: &str = "\u{FEFF}";

/// The text without one byte order mark at its front, if it has one.
pub(crate) fn without_byte_order_mark(text: &str) -> &str
    ensures { result.now ≡ without_byte_order_mark text.now }
{
    text.strip_prefix(BYTE_ORDER_MARK).unwrap_or(text)
}

/// What stands before the first line feed, and what follows it.
fn split_line(text: &str) -> (&str, &str)
    ensures line { result.0.now ≡ before_first (λ b. b == 10) text.now }
    ensures rest { result.1.now ≡ after_first (λ b. b == 10) text.now }
{
    text.split_once('\n').unwrap_or((text, ""))
}

/// The first line, without its line feed and one carriage return, and what follows it.
pub(crate) fn next_line(text: &str) -> (&str, &str)
    requires { text.now ≢ [] }
    ensures line { lines_of text.now ≡ result.0.now ∷ lines_of result.1.now }
    ensures shorter { length result.1.now < length text.now }
{
    let (line, rest) = split_line(text);
    (line.strip_suffix('\r').unwrap_or(line), rest)
}

/// Puts the characters of a line in place of others.
pub(crate) fn replace_characters(characters: &mut Vec<char>, line: &str) -> Result<(), AllocError>
    ensures { OnOk result (characters.new.items ≡ chars line.now) }
{
    characters.clear();
    characters.extend(line.chars())
}
