//! Where a walk down the tree of the rules' characters begins.
ghost use Rattle.louis_translate.specs.Search.{IsWhole};
ghost use Rattle.louis_translate.specs.Start.{AreAll, AreStarts, IsStart, StandsAt};
ghost use Rattle.std.specs.Prelude.{◌≡◌, ◌*◌, IfOk, length};

use super::indexed_table::IndexedTable;
use std::alloc::{AllocError, Global};

/// How many of the first characters of Unicode have starts.
const DIRECT: usize = 128;

/// Where a walk begins at a place, by the two characters there.
#[derive(Clone, Copy)]
pub(crate) enum Start {
    /// Nowhere: no rule may be used.
    Nowhere,
    /// At the group of the first character.
    Group,
    /// At the node to which both characters lead; no rule is the first alone.
    Child(u32),
}

/// Where a walk begins, by two folded characters. If the number of the node is too great to be
/// kept, it begins at the group.
fn start_of(index: &IndexedTable, first: char, second: char) -> Start
    requires { IsWhole index.now }
    ensures { IsStart index.now.tree first second result }
{
    let tree = &index.tree;
    let Some(node) = tree.group(first) else {
        return Start::Nowhere;
    };
    if !tree.rules_at(node).is_empty() {
        return Start::Group;
    }
    let Some(child) = tree.child(node, second) else {
        return Start::Nowhere;
    };
    match u32::try_from(child) {
        Ok(child) => Start::Child(child),
        Err(_) => Start::Group,
    }
}

/// The starts of all pairs of the first characters of Unicode, as they are written. A table without
/// rules has none.
pub(crate) fn make_starts(alloc: Global, index: &IndexedTable) -> Result<Vec<Start>, AllocError>
    requires { IsWhole index.now }
    ensures starts { IfOk result (λ starts. AreStarts index.now.table index.now.tree starts.items) }
    ensures all { IfOk result (λ starts. AreAll index.now.table starts.items) }
{
    if index.table.rules().is_empty() {
        return Ok(Vec::new(alloc));
    }
    let mut starts = Vec::with_capacity(alloc, DIRECT * DIRECT)?;
    for pair in 0..DIRECT * DIRECT {
        let first = index.table.fold((pair / DIRECT) as u8 as char);
        let second = index.table.fold((pair % DIRECT) as u8 as char);
        starts.push(start_of(index, first, second))?;
    }
    Ok(starts)
}

/// Where a walk begins at a place that isn't the last, by the two characters there as they are
/// written.
#[inline(always)]
pub(crate) fn start_at(starts: &[Start], first: char, second: char) -> Start
    requires { length starts.now ≡ 128 * 128 }
    ensures { StandsAt starts.now first second result }
{
    let (a, b) = (first as usize, second as usize);
    if a >= DIRECT || b >= DIRECT {
        return Start::Group;
    }
    starts[DIRECT * a + b]
}
