//! Puts texts after the output buffer, and allocates nothing.
ghost use Rattle.desk_ends.specs.Sending.{Puts};
ghost use Rattle.desk_line.specs.ReplyLines.{line_of, shown_text, word_and};
ghost use Rattle.std.specs.Char.{encode_utf8};
ghost use Rattle.std.specs.Prelude.{codes, decimal, is_ok, map, ◌++◌, ◌<◌, ◌≤◌, ◌∷◌};

use desk_ends::{Block, Sent, Sink, put_byte, put_bytes};
use itoa::Buffer;

/// Puts a character in UTF-8.
#[inline(always)]
fn put_character<K: Sink>(sink: &mut K, block: &mut Block, character: char) -> Sent
    ensures { Puts K.Sink sink.old sink.new
        (block.old ++ encode_utf8 character) block.new (is_ok result) }
{
    if character.is_ascii() {
        put_byte(sink, block, character as u8)
    } else if character < '\u{800}' {
        put_pair(sink, block, character)
    } else {
        put_wide(sink, block, character)
    }
}

/// Puts a character of two bytes in UTF-8: 0xC0 and its upper five bits, 0x80 and its lower six.
#[inline(always)]
fn put_pair<K: Sink>(sink: &mut K, block: &mut Block, character: char) -> Sent
    requires wide { 128 ≤ character }
    requires short { character < 2048 }
    ensures { Puts K.Sink sink.old sink.new
        (block.old ++ encode_utf8 character) block.new (is_ok result) }
{
    let code = character as u32;
    put_byte(sink, block, 0xC0 + (code / 64) as u8)?;
    put_byte(sink, block, 0x80 + (code % 64) as u8)
}

/// Puts a character in UTF-8, however many bytes it has.
fn put_wide<K: Sink>(sink: &mut K, block: &mut Block, character: char) -> Sent
    ensures { Puts K.Sink sink.old sink.new
        (block.old ++ encode_utf8 character) block.new (is_ok result) }
{
    let mut room = [0u8; 4];
    put_bytes(sink, block, character.encode_utf8(&mut room).as_bytes())
}

/// Puts characters in UTF-8.
#[inline(never)]
pub(crate) fn put_characters<K: Sink>(sink: &mut K, block: &mut Block, characters: &[char]) -> Sent
    ensures { Puts K.Sink sink.old sink.new
        (block.old ++ shown_text characters.now) block.new (is_ok result) }
{
    for character in characters {
        put_character(sink, block, *character)?;
    }
    Ok(())
}

/// Puts a line of a word and numbers after it.
pub(crate) fn put_line<K: Sink>(
    sink: &mut K,
    block: &mut Block,
    word: &[u8],
    numbers: &[u64],
) -> Sent
    ensures { Puts K.Sink sink.old sink.new
        (block.old ++ word_and word.now numbers.now) block.new (is_ok result) }
{
    put_bytes(sink, block, word)?;
    for number in numbers {
        put_number(sink, block, *number)?;
    }
    put_byte(sink, block, b'\n')
}

/// Puts a line of a bar and fields after it.
pub(crate) fn put_fields<K: Sink>(sink: &mut K, block: &mut Block, fields: &[&[u8]]) -> Sent
    ensures { Puts K.Sink sink.old sink.new
        (block.old ++ line_of (codes "|" ∷ map (λ field. field.now) fields.now)) block.new (is_ok result) }
{
    put_byte(sink, block, b'|')?;
    for field in fields {
        put_field(sink, block, field)?;
    }
    put_byte(sink, block, b'\n')
}

/// Puts a blank and a number in decimal digits.
fn put_number<K: Sink>(sink: &mut K, block: &mut Block, number: u64) -> Sent
    ensures { Puts K.Sink sink.old sink.new
        (block.old ++ 32 ∷ decimal number) block.new (is_ok result) }
{
    let mut digits = Buffer::new();
    put_field(sink, block, digits.format(number).as_bytes())
}

/// Puts a blank and a field.
fn put_field<K: Sink>(sink: &mut K, block: &mut Block, field: &[u8]) -> Sent
    ensures { Puts K.Sink sink.old sink.new
        (block.old ++ 32 ∷ field.now) block.new (is_ok result) }
{
    put_byte(sink, block, b' ')?;
    put_bytes(sink, block, field)
}
