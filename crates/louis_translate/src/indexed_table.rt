//! A table whose rules are found by their characters.
use super::rule_tree::RuleTree;
use louis_table::Table;
use std::alloc::{AllocError, Global};

/// A table, whose rules stand in a tree of their characters.
pub(crate) struct IndexedTable {
    /// The table.
    pub(crate) table: Table,
    /// The tree of its rules.
    pub(crate) tree: RuleTree,
}

// Written out, as the drop of a table is.
impl Drop for IndexedTable {
    fn drop(self) {
        let Self { table, tree } = self;
    }
}

impl IndexedTable {
    ghost use Rattle.louis_table.specs.Meaning.{fold_of};
    ghost use Rattle.louis_translate.specs.Search.{IsWhole};
    ghost use Rattle.louis_translate.specs.Tree.{leads};
    ghost use Rattle.std.specs.Prelude.{◌≡◌, ◌<◌, IfOk, Some, length, slice_get, option_and_then};

    /// The table with a tree of its rules.
    pub(crate) fn new(alloc: Global, table: Table) -> Result<Self, AllocError>
        ensures table { IfOk result (λ index. index.table ≡ table) }
        ensures whole { IfOk result IsWhole }
    {
        let mut tree = RuleTree::new(alloc);
        for index in 0..table.rules().len() {
            tree.add(alloc, table.rules(), index)?;
        }
        Ok(IndexedTable { table, tree })
    }

    /// Where the character at a place, folded, leads from a node.
    #[inline(always)]
    pub(crate) fn next(&self, print: &[char], place: usize, node: usize) -> Option<usize>
        requires { node < length self.now.tree.nodes.items }
        ensures { result ≡ option_and_then (λ c. leads self.now.tree (Some node) (fold_of self.now.table c))
            (slice_get print.now place) }
    {
        let character = *print.get(place)?;
        self.tree.child(node, self.table.fold(character))
    }
}
