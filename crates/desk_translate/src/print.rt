//! The print of the line that is being answered.
ghost use Rattle.desk_translate.specs.NoBraille.{FindsUndefined, TakesCharacters};
ghost use Rattle.louis_translate.specs.Position.{AreDefined};
ghost use Rattle.std.specs.Bool.{OnTrue};
ghost use Rattle.std.specs.Prelude.{IfOk, List, [], ◌≡◌, ℕ, IsAscii, chars};

use louis_translate::{RuleBook, is_defined};
use std::marker::Model;
use thiserror::Error;

/// The most characters that a line may have.
pub const MOST_CHARACTERS: usize = 4_000;

/// A text has more than `MOST_CHARACTERS` characters.
#[derive(Debug, Drop, Error)]
#[error("more than {MOST_CHARACTERS} characters")]
pub struct TooManyCharacters;

/// The characters of a line, at most `MOST_CHARACTERS` of them. Contracts see their list.
#[derive(Drop)]
pub struct Print {
    characters: [char; MOST_CHARACTERS],
    len: usize,
}

impl Model for Print {
    ghost use Rattle.std.specs.Prelude.{List, take, ℕ, ◌≤◌};
    ghost use Rattle.desk_translate.specs.declared.print.TheConstants.{MOST_CHARACTERS};

    ghost Value = { List ℕ };

    ghost view = { λ p. take p.len p.characters };

    ghost invariant = { λ p. p.len ≤ MOST_CHARACTERS };
}

impl Print {
    /// No character.
    pub fn new() -> Self
        ensures { result ≡ [] }
    {
        Print {
            characters: ['\0'; MOST_CHARACTERS],
            len: 0,
        }
    }

    /// The characters in order.
    pub fn as_slice(&self) -> &[char]
        ensures { result.now ≡ self.now }
    {
        &self.characters[..self.len]
    }

    /// Takes the characters of a text in place of its own, if there are not too many, and gives the
    /// place of the first that the table of a book doesn't define, if there is one.
    pub fn read<B: RuleBook>(
        &mut self,
        book: &B,
        text: &str,
    ) -> Result<Option<usize>, TooManyCharacters>
        ensures taken { TakesCharacters result (chars text.now) self.new }
        ensures undefined { IfOk result (FindsUndefined (B.meaning book.now) (chars text.now)) }
    {
        let bytes = text.as_bytes();
        if bytes.is_ascii() {
            self.copy_ascii(bytes)?;
            return Ok(first_undefined_byte(book, bytes));
        }
        self.copy(text)?;
        Ok(first_undefined(book, self.as_slice()))
    }

    /// Takes the characters of a text in place of its own, if they are not too many.
    #[inline(never)]
    fn copy(&mut self, text: &str) -> Result<(), TooManyCharacters>
        ensures { TakesCharacters result (chars text.now) self.new }
    {
        let mut len = 0;
        for character in text.chars() {
            if len == MOST_CHARACTERS {
                return Err(TooManyCharacters);
            }
            self.characters[len] = character;
            len += 1;
        }
        self.len = len;
        Ok(())
    }

    /// The same for a text whose bytes are characters each. A processor copies many of them at a
    /// time.
    #[inline(never)]
    fn copy_ascii(&mut self, bytes: &[u8]) -> Result<(), TooManyCharacters>
        requires { IsAscii bytes.now }
        ensures { TakesCharacters result (chars bytes.now) self.new }
    {
        if bytes.len() > MOST_CHARACTERS {
            return Err(TooManyCharacters);
        }
        for (place, byte) in bytes.iter().enumerate() {
            self.characters[place] = char::from(*byte);
        }
        self.len = bytes.len();
        Ok(())
    }
}

/// The first place, from 0, whose character the table of a book doesn't define.
fn first_undefined<B: RuleBook>(book: &B, print: &[char]) -> Option<usize>
    ensures { FindsUndefined (B.meaning book.now) print.now result }
{
    print
        .iter()
        .position(|character| !is_defined(book, *character))
}

/// The first place, from 0, whose byte, as a character, the table of a book doesn't define.
fn first_undefined_byte<B: RuleBook>(book: &B, bytes: &[u8]) -> Option<usize>
    ensures { FindsUndefined (B.meaning book.now) bytes.now result }
{
    if knows_all(book, bytes) {
        return None;
    }
    bytes
        .iter()
        .position(|byte| !is_defined(book, char::from(*byte)))
}

/// Whether it is seen at once that the table of a book defines each byte, as a character. It
/// doesn't stop at one of which that isn't seen, so that many bytes are looked at with one test.
fn knows_all<B: RuleBook>(book: &B, bytes: &[u8]) -> bool
    ensures { OnTrue result (AreDefined (B.meaning book.now) bytes.now) }
{
    let mut known = true;
    for byte in bytes {
        known &= book.knows(char::from(*byte));
    }
    known
}
