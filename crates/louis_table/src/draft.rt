//! A table while its lines are read.
ghost use Rattle.louis_table.specs.Steps.Draft.{written_in};
ghost use Rattle.louis_table.specs.Steps.Line.{entry_in};
ghost use Rattle.louis_table.specs.Steps.Table.{CanTake, no_meaning, with_given};
ghost use Rattle.std.specs.Prelude.{◌≡◌, ◌++◌, [], OnOk};

use super::line_entry::LineEntry;
use super::pending::{PendingEntry, PendingRule, PendingSet};
use super::rule::Characters;
use super::table::Table;
use std::alloc::{AllocError, Global};

/// What the lines so far give: a table without rules, and what can be checked only once all
/// definitions are known, as it is written.
#[derive(Drop)]
pub(crate) struct Draft {
    pub(crate) table: Table,
    pub(crate) written: Vec<PendingEntry>,
}

impl Draft {
    /// What no lines give.
    pub(crate) fn new(alloc: Global) -> Self
        ensures table { result.table ≡ no_meaning }
        ensures written { result.written.items ≡ [] }
    {
        Draft {
            table: Table::new(alloc),
            written: Vec::new(alloc),
        }
    }

    /// Takes what the line with this number gives.
    pub(crate) fn take(
        &mut self,
        alloc: Global,
        line: usize,
        given: LineEntry,
    ) -> Result<(), AllocError>
        requires { CanTake self.old.table (entry_in given) }
        ensures table { OnOk result (self.new.table ≡ with_given self.old.table (entry_in given)) }
        ensures written { OnOk result (self.new.written.items ≡ self.old.written.items
            ++ written_in line (entry_in given)) }
    {
        match given {
            LineEntry::Nothing => Ok(()),
            LineEntry::Defines(character, definition) => self.table.define(character, definition),
            LineEntry::Pairs(upper, upper_cells, lower, lower_cells) => {
                self.table.pair(upper, upper_cells, lower, lower_cells)
            }
            LineEntry::Replaces(kind, characters, cells) => {
                self.written.push(PendingEntry::Rule(PendingRule {
                    line,
                    kind,
                    characters,
                    cells,
                }))?;
                Ok(())
            }
            LineEntry::Announces(sign, cells) => {
                self.table.announce(sign, cells);
                Ok(())
            }
            LineEntry::Collects(set, characters) => {
                let copy = Vec::from_slice(alloc, characters.as_slice())?;
                self.written.push(PendingEntry::Set(PendingSet {
                    line,
                    characters: Characters::from_vec(copy),
                }))?;
                self.table.collect(set, characters);
                Ok(())
            }
        }
    }
}
