//! The tables of a book.
ghost use Rattle.louis_table.specs.Table.{Means};
ghost use Rattle.louis_table.specs.ReportedFault.{IsReportedOf};
ghost use Rattle.std.specs.Cmp.Lexicographic.{pointwise};
ghost use Rattle.std.specs.Map.{lookup};
ghost use Rattle.std.specs.Prelude.{option_copied, ◌≡◌, ◌<◌, ◌≤◌, [], None, IfErr, IfOk, IsSome, OnOk, length, nat_eq};
ghost use Rattle.std.specs.Prelude.{string_bytes, chars};

use desk_model::{Bytes, Text};
use indexmap::IndexMap;
use louis_table::{ReadFault, Table};
use louis_translate::RuleIndex;
use std::alloc::{AllocError, Global};
use std::marker::Model;

/// A table of a book: its text, and its rules.
pub struct BookTable {
    /// The text.
    pub text: Bytes,
    /// What it says.
    pub rules: RuleIndex,
}

// Written out, as the drop of a paragraph is.
impl Drop for BookTable {
    fn drop(self) {
        let Self { text, rules } = self;
    }
}

/// Reads the rules in the text of a table.
fn read_rules(alloc: Global, text: &[u8]) -> Result<RuleIndex, ReadFault>
    ensures means { IfOk result (Means text.now) }
    ensures bad { IfErr result (IsReportedOf text.now) }
{
    let table = Table::read(alloc, text)?;
    RuleIndex::new(alloc, table).map_err(|_| ReadFault::NoMemory)
}

impl BookTable {
    /// Reads the text of a table, of which it holds a copy. The fault is the one that is reported
    /// of the text, or that an allocation failed.
    pub fn read(alloc: Global, text: &[u8]) -> Result<Self, ReadFault>
        ensures text { IfOk result (λ table. table.text ≡ text.now) }
        ensures means { IfOk result (λ table. Means text.now table.rules) }
        ensures bad { IfErr result (IsReportedOf text.now) }
    {
        let rules = read_rules(alloc, text)?;
        let copy = Vec::from_slice(alloc, text).map_err(|_| ReadFault::NoMemory)?;
        Ok(BookTable {
            text: Bytes::from_vec(copy),
            rules,
        })
    }
}

/// A table of a book on the heap, so that what holds or moves one stays small: a table takes some
/// kilobytes. Contracts see the table.
pub struct BoxedTable {
    table: Box<BookTable>,
}

// Written out, as the drop of a paragraph is.
impl Drop for BoxedTable {
    fn drop(self) {
        let Self { table } = self;
    }
}

impl Model for BoxedTable {
    ghost use Rattle.desk_memory.specs.declared.tables.BookTable.{BookTable};

    ghost Value = { BookTable };

    ghost view = { λ b. b.table.value };
}

impl BoxedTable {
    /// The table, put on the heap.
    pub fn new(alloc: Global, table: BookTable) -> Result<Self, AllocError>
        ensures { IfOk result (λ boxed. boxed ≡ table) }
    {
        Ok(BoxedTable {
            table: Box::new(alloc, table)?,
        })
    }

    /// Its text.
    pub fn text(&self) -> &[u8]
        ensures { result.now ≡ self.now.text }
    {
        self.table.text.as_slice()
    }

    /// Its rules.
    pub fn rules(&self) -> &RuleIndex
        ensures { result.now ≡ self.now.rules }
    {
        &self.table.rules
    }

    /// The table itself.
    fn table(&self) -> &BookTable
        ensures { result.now ≡ self.now }
    {
        &self.table
    }
}

/// Room for so many tables.
#[derive(Drop)]
pub struct TablesRoom {
    entries: IndexMap<String, BoxedTable>,
}

impl Model for TablesRoom {
    ghost use Rattle.indexmap.specs.IndexMap.{spare};
    ghost use Rattle.std.specs.Prelude.{◌≡◌, ℕ, []};

    ghost Value = { ℕ };

    ghost view = { λ r. spare r.entries };

    ghost invariant = { λ r. r.entries.entries ≡ [] };
}

impl TablesRoom {
    /// Room for at least so many tables.
    pub fn new(alloc: Global, count: usize) -> Result<Self, AllocError>
        ensures { IfOk result (λ room. count ≤ room) }
    {
        Ok(TablesRoom {
            entries: IndexMap::with_capacity(alloc, count)?,
        })
    }
}

/// Tables by name.
#[derive(Drop)]
pub struct Tables {
    entries: IndexMap<String, BoxedTable>,
}

impl Model for Tables {
    ghost use Rattle.desk_memory.specs.Held.{HeldTables, by_name};
    ghost use Rattle.indexmap.specs.IndexMap.{IsUnique};
    ghost use Rattle.std.specs.String.{string_eq};

    ghost Value = { HeldTables };

    ghost view = { λ t. by_name t.entries.entries };

    ghost invariant = { λ t. IsUnique string_eq t.entries };
}

impl Tables {
    ghost use Rattle.desk_memory.specs.Held.{with_table};

    /// No tables.
    pub fn new(alloc: Global) -> Self
        ensures { result ≡ [] }
    {
        Tables {
            entries: IndexMap::new(alloc),
        }
    }

    /// How many there are.
    pub fn len(&self) -> usize
        ensures { result ≡ length self.now }
    {
        self.entries.len()
    }

    /// The table with a name, if there is one.
    pub fn get(&self, name: &str) -> Option<&BookTable>
        ensures { option_copied result ≡ lookup (pointwise nat_eq (chars name.now)) self.now }
    {
        Some(self.entries.get(name)?.table())
    }

    /// Puts in a table under a name that no other has.
    pub fn insert(&mut self, name: String, table: BoxedTable) -> Result<(), AllocError>
        requires new { lookup (pointwise nat_eq (chars (string_bytes name))) self.old ≡ None }
        ensures { OnOk result (self.new ≡ with_table (chars (string_bytes name)) table self.old) }
    {
        self.entries.insert(name, table)?;
        Ok(())
    }

    /// Puts a table in the place of the one with the name, which is there.
    pub fn replace(&mut self, name: &str, table: BoxedTable)
        requires { IsSome (lookup (pointwise nat_eq (chars name.now)) self.old) }
        ensures { self.new ≡ with_table (chars name.now) table self.old }
    {
        let Some(old) = self.entries.get_mut(name) else {
            unreachable!()
        };
        *old = table;
    }

    /// Adds a table under a name that no other has. It allocates nothing.
    pub fn add(&mut self, name: Text, table: BoxedTable, room: TablesRoom)
        requires room { length self.old < room }
        requires new { lookup (pointwise nat_eq name) self.old ≡ None }
        ensures { self.new ≡ with_table name table self.old }
    {
        // the room is for all of them, so nothing is asked for here
        let mut entries = room.entries;
        entries.append(&mut self.entries).unwrap();
        entries.insert(name.into_string(), table).unwrap();
        self.entries = entries;
    }
}
