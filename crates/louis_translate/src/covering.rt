//! Which places of a print a rule may cover.
ghost use Rattle.louis_translate.specs.Choice.{MayCover, NeverHasSign};
ghost use Rattle.louis_translate.specs.Sign.{sign_at};
ghost use Rattle.std.specs.Bool.{OnTrue};
ghost use Rattle.std.specs.Prelude.{◌≡◌, ◌<◌, ◌≤◌, ◌↔◌, ℕ, [], length, IsTrue};

use super::position::{fits, is_digit};
use super::sign::Signs;
use louis_table::{RuleKind, Table};

/// Whether a sign never stands before a character: it is neither a capital nor a digit, and takes
/// no sign after a number.
#[inline(always)]
fn never_has_sign(table: &Table, character: char) -> bool
    ensures { OnTrue result (NeverHasSign table.now character) }
{
    if table.capital(character) {
        return false;
    }
    if is_digit(table.class(character)) {
        return false;
    }
    if table.nocontractsign().is_empty() {
        return true;
    }
    !table.nocontract_chars().contains(&character)
}

/// Whether no sign stands between the places `start` and `end`, without these two.
fn has_no_sign_inside(table: &Table, print: &[char], start: usize, end: usize) -> bool
    requires order { start < end }
    requires within { end ≤ length print.now }
    ensures { IsTrue result ↔ ((k : ℕ) → start < k → k < end → sign_at table.now print.now k ≡ []) }
{
    let mut signs = Signs::new(table, print);
    for place in start + 1..end {
        if never_has_sign(table, print[place]) {
            continue;
        }
        if !signs.at(place).is_empty() {
            return false;
        }
    }
    true
}

/// Whether a rule of a kind may cover the places from `start` up to `end`, if its characters stand
/// there.
pub(crate) fn may_cover(
    table: &Table,
    print: &[char],
    kind: RuleKind,
    start: usize,
    end: usize,
) -> bool
    requires order { start < end }
    requires within { end ≤ length print.now }
    ensures { IsTrue result ↔ MayCover table.now print.now kind start end }
{
    fits(table, print, kind, start, end) && has_no_sign_inside(table, print, start, end)
}
