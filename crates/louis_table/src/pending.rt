//! Rules and sets as they are written, until all definitions of their table are known.
ghost use Rattle.louis_table.specs.Meaning.{fold_of};
ghost use Rattle.louis_table.specs.Steps.Pending.{ChecksSet, Finishes, FinishesAll, FinishesRule, are_defined};
ghost use Rattle.louis_table.specs.Table.{rule_cells};
ghost use Rattle.std.specs.Prelude.{◌≡◌, IfOk, None, map};

use super::fault::{Cause, ReadFault, TableFault};
use super::rule::{Characters, Rule, RuleKind};
use super::table::Table;
use cell_core::Cells;
use std::alloc::{AllocError, Global};

/// A rule whose characters aren't folded yet.
#[derive(Drop)]
pub(crate) struct PendingRule {
    /// The number of its line, from 1.
    pub(crate) line: usize,
    /// Where it may be used.
    pub(crate) kind: RuleKind,
    /// Its characters as they are written.
    pub(crate) characters: Characters,
    /// Its cells, none if they are those of the definitions of its folded characters.
    pub(crate) cells: Option<Cells>,
}

/// A set whose characters may not be defined.
#[derive(Drop)]
pub(crate) struct PendingSet {
    /// The number of its line, from 1.
    pub(crate) line: usize,
    /// Its characters.
    pub(crate) characters: Characters,
}

/// What a line gives that can be checked only once all definitions are known.
#[derive(Drop)]
pub(crate) enum PendingEntry {
    Rule(PendingRule),
    Set(PendingSet),
}

/// Puts the lower character in place of each capital.
fn fold_characters(table: &Table, characters: &mut [char])
    ensures { characters.new ≡ map (fold_of table.now) characters.old }
{
    for character in characters.iter_mut() {
        *character = table.fold(*character);
    }
}

/// Whether the table defines each of the characters.
fn are_defined(table: &Table, characters: &[char]) -> bool
    ensures { result ≡ are_defined table.now characters.now }
{
    for character in characters {
        if !table.defines(*character) {
            return false;
        }
    }
    true
}

/// The cells of the definitions of characters, joined in order.
fn joined_cells(alloc: Global, table: &Table, characters: &[char]) -> Result<Cells, AllocError>
    ensures { IfOk result (λ cells. cells ≡ rule_cells table.now characters.now None) }
{
    let mut cells = Vec::new(alloc);
    for character in characters {
        if let Some(definition) = table.definition(*character) {
            cells.extend_from_slice(definition.cells.as_slice())?;
        }
    }
    Ok(Cells::from_vec(cells))
}

/// The rule with folded characters and all its cells, if the table defines each of its characters.
fn finish_rule(alloc: Global, table: &Table, written: PendingRule) -> Result<Rule, ReadFault>
    ensures { FinishesRule result table.now written }
{
    let PendingRule {
        line,
        kind,
        characters,
        cells,
    } = written;
    let mut characters = characters.into_vec();
    fold_characters(table, characters.as_mut_slice());
    if !are_defined(table, characters.as_slice()) {
        let cause = Cause::UndefinedCharacter.number();
        return Err(ReadFault::Table(TableFault { line, cause }));
    }
    let cells = match cells {
        Some(cells) => cells,
        None => joined_cells(alloc, table, &characters).map_err(|_| ReadFault::NoMemory)?,
    };
    Ok(Rule {
        line,
        kind,
        chars: Characters::from_vec(characters),
        cells,
    })
}

/// Whether the table defines each character of the set.
fn check_set(table: &Table, set: PendingSet) -> Result<(), ReadFault>
    ensures { ChecksSet result table.now set }
{
    if are_defined(table, set.characters.as_slice()) {
        return Ok(());
    }
    let cause = Cause::UndefinedCharacter.number();
    Err(ReadFault::Table(TableFault {
        line: set.line,
        cause,
    }))
}

/// Finishes what is written, and puts its rule after the others.
fn finish(
    alloc: Global,
    table: &Table,
    written: PendingEntry,
    rules: &mut Vec<Rule>,
) -> Result<(), ReadFault>
    ensures { Finishes result table.now written rules.old.items rules.new.items }
{
    match written {
        PendingEntry::Rule(rule) => {
            let rule = finish_rule(alloc, table, rule)?;
            rules.push(rule).map_err(|_| ReadFault::NoMemory)
        }
        PendingEntry::Set(set) => check_set(table, set),
    }
}

/// The rules of a table, in the order of their lines, if the table defines all characters of its
/// rules and sets.
pub(crate) fn finish_all(
    alloc: Global,
    table: &Table,
    written: Vec<PendingEntry>,
) -> Result<Vec<Rule>, ReadFault>
    ensures { FinishesAll result table.now written.items }
{
    let mut rules = Vec::new(alloc);
    for one in written {
        finish(alloc, table, one, &mut rules)?;
    }
    Ok(rules)
}
