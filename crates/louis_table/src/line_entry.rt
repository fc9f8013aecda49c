//! What one line gives to its table.
ghost use Rattle.louis_table.specs.Meaning.{Meaning};
ghost use Rattle.louis_table.specs.Steps.Line.{FailsOperands, IsVerdict, both_at, judge_line, judge_opcode, is_taken};
ghost use Rattle.louis_table.specs.declared.opcode.Opcode.TheVariants as opcodes;
ghost use Rattle.std.specs.Prelude.{◌≡◌, IfErr, IfOk, Ok};

use super::character_set::CharacterSet;
use super::characters::read_characters;
use super::definition::{Class, Definition};
use super::dots::{read_cells, read_pair_cells, read_rule_cells};
use super::fault::{Cause, LineFault};
use super::fields::next_field;
use super::opcode::Opcode;
use super::rule::{Characters, RuleKind};
use super::sign::Sign;
use super::table::Table;
use cell_core::Cells;
use std::alloc::Global;

/// The character that begins a comment.
const COMMENT: char = '#';

/// How many characters a rule may have.
pub const MOST_RULE_CHARACTERS: usize = 60;

/// How many characters a set may have.
pub const MOST_SET_CHARACTERS: usize = 60;

/// What a line gives to its table.
#[derive(Drop)]
pub(crate) enum LineEntry {
    /// The line has no field, or is a comment.
    Nothing,
    /// The definition of a character.
    Defines(char, Definition),
    /// An upper character and its cells, and the lower one with its own.
    Pairs(char, Cells, char, Cells),
    /// A rule, with no cells if an equals sign stands for those of its characters' definitions.
    Replaces(RuleKind, Characters, Option<Cells>),
    /// The cells of a sign.
    Announces(Sign, Cells),
    /// The characters of a set.
    Collects(CharacterSet, Characters),
}

/// The characters of the first operand, and the second one.
fn read_operands(alloc: Global, operands: &[char]) -> Result<(Vec<char>, &[char]), LineFault>
    ensures ok { IfOk result (λ read. both_at operands.now ≡ Ok (read.0.items, read.1.now)) }
    ensures err { IfErr result (FailsOperands (both_at operands.now)) }
{
    let (characters, rest) = next_field(operands);
    let (dots, _) = next_field(rest);
    if characters.is_empty() || dots.is_empty() {
        return Err(LineFault::Bad(Cause::MissingOperand));
    }
    match read_characters(alloc, characters) {
        Ok(Some(characters)) => Ok((characters, dots)),
        Ok(None) => Err(LineFault::Bad(Cause::BadCharacters)),
        Err(_) => Err(LineFault::NoMemory),
    }
}

/// The definition of a character of this class, for a table that doesn't define it yet.
fn read_definition(
    alloc: Global,
    table: &Table,
    class: Class,
    operands: &[char],
) -> Result<LineEntry, LineFault>
    ensures { IsVerdict result (judge_opcode table.now (opcodes.Define class) operands.now) }
{
    let (characters, dots) = read_operands(alloc, operands)?;
    let [character] = *characters.as_slice() else {
        return Err(LineFault::Bad(Cause::BadCharacters));
    };
    let cells = read_cells(alloc, dots)?;
    if table.defines(character) {
        return Err(LineFault::Bad(Cause::DefinedBefore));
    }
    let cells = cells.ok_or(LineFault::Bad(Cause::BeyondLimit))?;
    Ok(LineEntry::Defines(character, Definition { class, cells }))
}

/// Whether one of two characters is defined already, or the other.
fn is_taken(table: &Table, upper: char, lower: char) -> bool
    ensures { result ≡ is_taken table.now upper lower }
{
    upper == lower || table.defines(upper) || table.defines(lower)
}

/// An upper and a lower character, for a table that defines neither yet.
fn read_pair(alloc: Global, table: &Table, operands: &[char]) -> Result<LineEntry, LineFault>
    ensures { IsVerdict result (judge_opcode table.now opcodes.UpLow operands.now) }
{
    let (characters, dots) = read_operands(alloc, operands)?;
    let [upper, lower] = *characters.as_slice() else {
        return Err(LineFault::Bad(Cause::BadCharacters));
    };
    let cells = read_pair_cells(alloc, dots)?;
    if is_taken(table, upper, lower) {
        return Err(LineFault::Bad(Cause::DefinedBefore));
    }
    let (upper_cells, lower_cells) = cells.ok_or(LineFault::Bad(Cause::BeyondLimit))?;
    Ok(LineEntry::Pairs(upper, upper_cells, lower, lower_cells))
}

/// A rule of this kind.
fn read_rule(alloc: Global, kind: RuleKind, operands: &[char]) -> Result<LineEntry, LineFault>
    ensures { (meaning : Meaning) → IsVerdict result (judge_opcode meaning (opcodes.Replace kind) operands.now) }
{
    let (characters, dots) = read_operands(alloc, operands)?;
    let cells = read_rule_cells(alloc, dots)?;
    if characters.len() > MOST_RULE_CHARACTERS {
        return Err(LineFault::Bad(Cause::BeyondLimit));
    }
    let cells = cells.ok_or(LineFault::Bad(Cause::BeyondLimit))?;
    Ok(LineEntry::Replaces(kind, Characters::from_vec(characters), cells))
}

/// The cells of a sign, for a table that has none for it yet.
fn read_sign(
    alloc: Global,
    table: &Table,
    sign: Sign,
    operands: &[char],
) -> Result<LineEntry, LineFault>
    ensures { IsVerdict result (judge_opcode table.now (opcodes.Announce sign) operands.now) }
{
    let (dots, _) = next_field(operands);
    if dots.is_empty() {
        return Err(LineFault::Bad(Cause::MissingOperand));
    }
    let cells = read_cells(alloc, dots)?;
    if !table.sign(sign).is_empty() {
        return Err(LineFault::Bad(Cause::GivenBefore));
    }
    let cells = cells.ok_or(LineFault::Bad(Cause::BeyondLimit))?;
    Ok(LineEntry::Announces(sign, cells))
}

/// The characters of a set, for a table that has none for it yet.
fn read_set(
    alloc: Global,
    table: &Table,
    set: CharacterSet,
    operands: &[char],
) -> Result<LineEntry, LineFault>
    ensures { IsVerdict result (judge_opcode table.now (opcodes.Collect set) operands.now) }
{
    let (characters, _) = next_field(operands);
    if characters.is_empty() {
        return Err(LineFault::Bad(Cause::MissingOperand));
    }
    let Ok(read) = read_characters(alloc, characters) else {
        return Err(LineFault::NoMemory);
    };
    let characters = read.ok_or(LineFault::Bad(Cause::BadCharacters))?;
    if !table.set(set).is_empty() {
        return Err(LineFault::Bad(Cause::GivenBefore));
    }
    if characters.len() > MOST_SET_CHARACTERS {
        return Err(LineFault::Bad(Cause::BeyondLimit));
    }
    Ok(LineEntry::Collects(set, Characters::from_vec(characters)))
}

/// What a line gives to the table that the lines before it make.
pub(crate) fn read_line(alloc: Global, table: &Table, line: &[char]) -> Result<LineEntry, LineFault>
    ensures { IsVerdict result (judge_line table.now line.now) }
{
    let (name, operands) = next_field(line);
    if name.is_empty() || name[0] == COMMENT {
        return Ok(LineEntry::Nothing);
    }
    match Opcode::from_name(name).ok_or(LineFault::Bad(Cause::UnknownOpcode))? {
        Opcode::Define(class) => read_definition(alloc, table, class, operands),
        Opcode::UpLow => read_pair(alloc, table, operands),
        Opcode::Replace(kind) => read_rule(alloc, kind, operands),
        Opcode::Announce(sign) => read_sign(alloc, table, sign, operands),
        Opcode::Collect(set) => read_set(alloc, table, set, operands),
    }
}
