//! The chosen rule, found by a walk along the print down the tree of the rules' characters.
ghost use Rattle.louis_translate.specs.Choice.{IsChosen};
ghost use Rattle.louis_translate.specs.Search.{AreThose, IsBestBelow, IsFirstOf, IsOnWay, IsWhole};
ghost use Rattle.std.specs.Prelude.{◌≡◌, ◌+◌, ◌-◌, ◌<◌, ◌≤◌, length, None};

use super::covering::may_cover;
use super::indexed_table::IndexedTable;
use louis_table::Table;

/// The first of the rules of a node that may be used, if the characters from `at` up to `end` lead
/// to the node.
#[inline(always)]
fn first_of(table: &Table, print: &[char], at: usize, end: usize, rules: &[usize]) -> Option<usize>
    requires order { at < end }
    requires within { end ≤ length print.now }
    requires rules { AreThose table.now print.now at (end - at) rules.now }
    ensures { IsFirstOf table.now print.now at rules.now result }
{
    for index in rules {
        if may_cover(table, print, table.rules()[*index].kind, at, end) {
            return Some(*index);
        }
    }
    None
}

/// The rule that is chosen at a place, found by a walk from a node, to which the characters from
/// there up to `first_end` lead, and on the way to which no rule may be used.
#[inline(never)]
pub(crate) fn walk(
    index: &IndexedTable,
    print: &[char],
    at: usize,
    first_end: usize,
    first_node: usize,
) -> Option<usize>
    requires whole { IsWhole index.now }
    requires way { IsOnWay index.now print.now at first_end first_node }
    requires best { IsBestBelow index.now.table print.now at (first_end - at) None }
    ensures { IsChosen index.now.table print.now at result }
{
    let mut node = first_node;
    let mut found = None;
    for end in first_end..print.len() + 1 {
        let rules = index.tree.rules_at(node);
        // a rule found later has more characters, and so goes before those found so far
        found = first_of(&index.table, print, at, end, rules).or(found);
        let Some(child) = index.next(print, end, node) else {
            return found;
        };
        node = child;
    }
    found
}

/// The rule that is chosen at a place, found by a walk from the group of the character there.
#[inline(never)]
pub(crate) fn best_in_group(index: &IndexedTable, print: &[char], at: usize) -> Option<usize>
    requires whole { IsWhole index.now }
    requires within { at < length print.now }
    ensures { IsChosen index.now.table print.now at result }
{
    let node = index.tree.group(index.table.fold(print[at]))?;
    walk(index, print, at, at + 1, node)
}
