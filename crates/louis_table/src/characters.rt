//! Characters as they are written in an operand, with escapes.
ghost use Rattle.louis_table.specs.Characters.{escape_character, escape_digits};
ghost use Rattle.louis_table.specs.Steps.Characters.{character_at, characters_in, hex_value};
ghost use Rattle.louis_table.specs.Steps.Characters.{number_at};
ghost use Rattle.std.specs.Prelude.{◌≡◌, ◌≤◌, ◌<◌, ◌+◌, IfOk, IfSome, length, option_map};

use std::alloc::{AllocError, Global};

/// The character that an escape stands for, by the character after its backslash.
fn escape_character(letter: char) -> Option<char>
    ensures { result ≡ escape_character letter }
{
    match letter {
        'f' => Some('\u{000C}'),
        'n' => Some('\n'),
        'r' => Some('\r'),
        's' => Some(' '),
        't' => Some('\t'),
        'v' => Some('\u{000B}'),
        'e' => Some('\u{001B}'),
        '\\' => Some('\\'),
        _ => None,
    }
}

/// How many hexadecimal digits follow the letter of an escape by number.
fn escape_digits(letter: char) -> Option<usize>
    ensures value { result ≡ escape_digits letter }
    ensures few { IfSome result (λ count. count ≤ 8) }
{
    match letter {
        'x' => Some(4),
        'y' => Some(5),
        'z' => Some(8),
        _ => None,
    }
}

/// The value of at most eight hexadecimal digits.
fn read_hexadecimal(digits: &[char]) -> Option<u32>
    requires { length digits.now ≤ 8 }
    ensures { result ≡ hex_value 0 digits.now }
{
    let mut value = 0u32;
    for digit in digits {
        value = 16 * value + digit.to_digit(16)?;
    }
    Some(value)
}

/// The character whose number this many digits at the front spell, and what follows them.
fn read_number(text: &[char], count: usize) -> Option<(char, &[char])>
    requires { count ≤ 8 }
    ensures value { option_map (λ found. (found.0, found.1.now)) result ≡ number_at count text.now }
    ensures shorter { IfSome result (λ found. length found.1.now ≤ length text.now) }
{
    if text.len() < count {
        return None;
    }
    let (digits, rest) = text.split_at(count);
    let number = read_hexadecimal(digits)?;
    let character = char::from_u32(number)?;
    Some((character, rest))
}

/// The character at the front of an operand, and what follows it.
fn next_character(text: &[char]) -> Option<(char, &[char])>
    ensures value { option_map (λ found. (found.0, found.1.now)) result ≡ character_at text.now }
    ensures shorter { IfSome result (λ found. length found.1.now < length text.now) }
{
    match text {
        [] => None,
        ['\\'] => None,
        ['\\', letter, rest @ ..] => match escape_character(*letter) {
            Some(character) => Some((character, rest)),
            None => read_number(rest, escape_digits(*letter)?),
        },
        [first, rest @ ..] => Some((*first, rest)),
    }
}

/// The characters that an operand spells, or nothing if it has an unknown escape.
pub(crate) fn read_characters(
    alloc: Global,
    operand: &[char],
) -> Result<Option<Vec<char>>, AllocError>
    ensures { IfOk result (λ read. option_map (λ characters. characters.items) read ≡ characters_in operand.now) }
{
    let mut characters = Vec::new(alloc);
    let mut rest = operand;
    while !rest.is_empty() {
        let Some((character, after)) = next_character(rest) else {
            return Ok(None);
        };
        characters.push(character)?;
        rest = after;
    }
    Ok(Some(characters))
}
