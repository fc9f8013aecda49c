//! The dots operands of the opcodes.
ghost use Rattle.cell_core.specs.Reading.{cells_in};
ghost use Rattle.louis_table.specs.Steps.Dots.{ReadsDots, are_many, are_many_of_two, are_many_written};
ghost use Rattle.louis_table.specs.Steps.Dots.{pair_in, pair_parts, part_len, rule_in};
ghost use Rattle.std.specs.Prelude.{◌≡◌, ◌≤◌, IfOk, codes, length, bytes_eq, encode_utf8_all, string_bytes};

use super::fault::{Cause, LineFault};
use cell_core::{Cells, DotsFault, read_dots};
use std::alloc::{AllocError, Global};

/// What stands between the dots of an upper and those of a lower character.
const COMMA: char = ',';

/// What stands for the cells of the definitions of a rule's characters.
const EQUALS: [char; 1] = ['='];

/// Characters as a text.
fn text_of(alloc: Global, characters: &[char]) -> Result<String, AllocError>
    ensures { IfOk result (λ text. string_bytes text ≡ encode_utf8_all characters.now) }
{
    characters.iter().copied().collect(alloc)
}

/// The cells of a dots operand, or nothing if it has more than an operand may have.
pub(crate) fn read_cells(alloc: Global, dots: &[char]) -> Result<Option<Cells>, LineFault>
    ensures { ReadsDots are_many result (cells_in dots.now) }
{
    let text = text_of(alloc, dots).map_err(|_| LineFault::NoMemory)?;
    match read_dots(alloc, text.as_str()) {
        Ok(cells) => Ok(Some(Cells::from_vec(cells))),
        Err(DotsFault::Bad) => Err(LineFault::Bad(Cause::BadDots)),
        Err(DotsFault::TooMany) => Ok(None),
        Err(DotsFault::NoMemory) => Err(LineFault::NoMemory),
    }
}

/// How many characters stand before the first comma, or in all.
fn part_len(dots: &[char]) -> usize
    ensures within { result ≤ length dots.now }
    ensures value { result ≡ part_len dots.now }
{
    for (i, character) in dots.iter().enumerate() {
        if *character == COMMA {
            return i;
        }
    }
    dots.len()
}

/// The dots before the first comma and those after it, or all of them twice.
fn pair_parts(dots: &[char]) -> (&[char], &[char])
    ensures upper { result.0.now ≡ (pair_parts dots.now).0 }
    ensures lower { result.1.now ≡ (pair_parts dots.now).1 }
{
    let len = part_len(dots);
    if len == dots.len() {
        (dots, dots)
    } else {
        (&dots[..len], &dots[len + 1..])
    }
}

/// The cells of an upper and of a lower character, or nothing if one has too many.
pub(crate) fn read_pair_cells(
    alloc: Global,
    dots: &[char],
) -> Result<Option<(Cells, Cells)>, LineFault>
    ensures { ReadsDots are_many_of_two result (pair_in dots.now) }
{
    let (upper, lower) = pair_parts(dots);
    let upper = read_cells(alloc, upper)?;
    let lower = read_cells(alloc, lower)?;
    Ok(upper.zip(lower))
}

/// Whether the dots of a rule are an equals sign.
fn is_equals(dots: &[char]) -> bool
    ensures { result ≡ bytes_eq dots.now (codes "=") }
{
    dots == EQUALS.as_slice()
}

/// The cells of a rule, none if they are those of the definitions of its characters; or nothing if
/// it has too many.
pub(crate) fn read_rule_cells(
    alloc: Global,
    dots: &[char],
) -> Result<Option<Option<Cells>>, LineFault>
    ensures { ReadsDots are_many_written result (rule_in dots.now) }
{
    if is_equals(dots) {
        return Ok(Some(None));
    }
    match read_cells(alloc, dots)? {
        Some(cells) => Ok(Some(Some(cells))),
        None => Ok(None),
    }
}
