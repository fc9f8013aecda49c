//! A rule book that looks at all rules.
ghost use Rattle.louis_table.specs.Meaning.{fold_of};
ghost use Rattle.louis_translate.specs.Choice.{IsChosen, Matches};
ghost use Rattle.std.specs.Bool.{OnTrue, OnFalse};
ghost use Rattle.std.specs.Prelude.{◌≡◌, ◌≢◌, ◌+◌, ◌<◌, ◌≤◌, ◌⊎◌, ◌↔◌, ℕ, [], None, Some, slice_get};
ghost use Rattle.std.specs.Prelude.{length, map, take, drop, slice_index, IsTrue, MatchBool};

use super::covering::may_cover;
use super::rule_book::RuleBook;
use louis_table::{Rule, Table};
use std::marker::Model;

/// A table, all of whose rules are looked at for each choice. Contracts see it as what the table
/// says.
#[derive(Drop)]
pub struct PlainRules {
    table: Table,
}

impl Model for PlainRules {
    ghost use Rattle.louis_table.specs.Meaning.{Meaning};

    ghost Value = { Meaning };

    ghost view = { λ p. p.table };
}

impl PlainRules {
    ghost use Rattle.std.specs.Prelude.{◌≡◌};

    /// The rules of a table, which it owns from then on.
    pub fn new(table: Table) -> Self
        ensures { result ≡ table }
    {
        PlainRules { table }
    }
}

/// Whether the folded print has these characters from a place on.
fn has_characters(table: &Table, print: &[char], at: usize, wanted: &[char]) -> bool
    requires { at ≤ length print.now }
    ensures { IsTrue result
        ↔ (map (fold_of table.now) (take (length wanted.now) (drop at print.now)) ≡ wanted.now) }
{
    if print.len() - at < wanted.len() {
        return false;
    }
    for (i, character) in wanted.iter().enumerate() {
        if table.fold(print[at + i]) != *character {
            return false;
        }
    }
    true
}

/// Whether characters begin with this one.
fn begins_with(characters: &[char], first: char) -> bool
    ensures { IsTrue result ↔ (slice_get characters.now 0 ≡ Some first) }
{
    match characters {
        [head, ..] => *head == first,
        [] => false,
    }
}

/// Whether a rule may be used at a place whose folded character is `first`. A rule without
/// characters never is.
fn matches(table: &Table, rule: &Rule, print: &[char], at: usize, first: char) -> bool
    requires within { at < length print.now }
    requires first { first ≡ fold_of table.now (slice_index print.now at) }
    ensures yes { OnTrue result (Matches table.now print.now at rule.now) }
    ensures no { OnFalse result (Matches table.now print.now at rule.now → length rule.now.chars ≡ 0) }
{
    let wanted = rule.chars.as_slice();
    if !begins_with(wanted, first) {
        return false;
    }
    if !has_characters(table, print, at, wanted) {
        return false;
    }
    let end = at + wanted.len();
    may_cover(table, print, rule.kind, at, end)
}

/// Whether a rule of `len` characters goes before the choice that was found, of `most` characters.
fn is_better(len: usize, most: usize, found: Option<usize>) -> bool
    ensures { MatchBool result
        ((most < len) ⊎ ((most ≡ len) × (found ≡ None)))
        ((len < most) ⊎ ((most ≡ len) × (found ≢ None))) }
{
    most < len || (most == len && found.is_none())
}

/// The rule that is chosen at a place, found by looking at each rule.
#[inline(never)]
fn best_rule(table: &Table, print: &[char], at: usize) -> Option<usize>
    requires { at < length print.now }
    ensures { IsChosen table.now print.now at result }
{
    let first = table.fold(print[at]);
    let mut found = None;
    let mut most = 1;
    for (index, rule) in table.rules().iter().enumerate() {
        if !matches(table, rule, print, at, first) {
            continue;
        }
        let len = rule.chars.as_slice().len();
        if is_better(len, most, found) {
            found = Some(index);
            most = len;
        }
    }
    found
}

impl RuleBook for PlainRules {
    ghost meaning = { λ meaning. meaning };

    fn table(&self) -> &Table {
        &self.table
    }

    fn best(&self, print: &[char], at: usize) -> Option<usize> {
        if self.table.rules().is_empty() {
            return None;
        }
        best_rule(&self.table, print, at)
    }
}
