//! The rows of `tab`, validated and converted into tables.
ghost use Rattle.desk_model.specs.Damage.{IsDamagedTab};
ghost use Rattle.desk_rebuild.specs.Faults.{TellsDamageOf};
ghost use Rattle.desk_rebuild.specs.Rows.{AreTables, IsWhole};
ghost use Rattle.desk_rebuild.specs.Tabs.{AreRead, MayCome, TellsFirstUnsound, TellsNoMeaning};
ghost use Rattle.desk_rebuild.specs.Tabs.{TellsUnsoundTab, rows_of, tab_order};
ghost use Rattle.desk_model.specs.Limits.{most_tables};
ghost use Rattle.desk_parts.specs.Rows.{Tab};
ghost use Rattle.desk_parts.specs.declared.file_table.FileTable.{FileTable};
ghost use Rattle.louis_table.specs.Table.{Means};
ghost use Rattle.std.specs.Ordering.{is_lt};
ghost use Rattle.std.specs.Prelude.{chars, IsPermutation, IsSortedBy, ◌≡◌, ◌≤◌, [], ◌∷◌, ◌++◌, ◌↔◌, List, IfErr, IfOk};
ghost use Rattle.std.specs.Prelude.{IsTrue, OnOk, length};

use super::damage::{RowsFault, of_table};
use desk_memory::{BookTable, BoxedTable, MOST_TABLES, Tables, is_table_name};
use desk_model::PartsFault;
use desk_parts::{FileTable, StoredTab, TabRow};
use louis_table::ReadFault;
use std::alloc::Global;
use std::cmp::Ordering;

/// The order of rows: by the bytes of their names, and for one name by those of their texts.
fn order_of(one: &StoredTab, other: &StoredTab) -> Ordering
    ensures { result ≡ tab_order one.now.row other.now.row }
{
    let names = one.row.name.as_bytes().cmp(other.row.name.as_bytes());
    names.then(one.row.body.cmp(&other.row.body))
}

/// Puts rows in order.
fn sort(rows: &mut Vec<StoredTab>)
    ensures same { IsPermutation rows.old.items rows.new.items }
    ensures sorted { IsSortedBy (λ a b. is_lt (tab_order a b)) (rows_of rows.new.items) }
{
    rows.sort_unstable_by(|one, other| order_of(one, other));
}

/// Whether one more table of this name may be there.
fn may_come(tables: &Tables, name: &str) -> bool
    ensures { IsTrue result ↔ MayCome tables.now (chars name.now) }
{
    tables.len() < MOST_TABLES && is_table_name(name) && tables.get(name).is_none()
}

/// How the fault of a table's text is reported at this number.
fn fault_at(fault: ReadFault, id: i64) -> RowsFault
    ensures damage { (bad : _) → fault ≡ ReadFault.Table bad → result ≡ RowsFault.Damaged id }
    ensures memory { fault ≡ ReadFault.NoMemory → result ≡ RowsFault.NoMemory }
{
    match fault {
        ReadFault::Table(_) => RowsFault::Damaged(id),
        ReadFault::NoMemory => RowsFault::NoMemory,
    }
}

/// Reads the text of a row's table. The fault is damage at this number, if the text has no meaning.
fn read_body(alloc: Global, body: &[u8], id: i64) -> Result<BoxedTable, RowsFault>
    ensures text { IfOk result (λ table. table.text ≡ body.now) }
    ensures means { IfOk result (λ table. Means body.now table.rules) }
    ensures reported { IfErr result (TellsNoMeaning body.now id) }
{
    match BookTable::read(alloc, body) {
        Ok(table) => Ok(BoxedTable::new(alloc, table)?),
        Err(fault) => Err(fault_at(fault, id)),
    }
}

/// Adds the table of a row to those of the rows before it.
fn add(alloc: Global, tables: &mut Tables, row: TabRow) -> Result<(), RowsFault>
    requires few { length tables.old ≤ most_tables }
    ensures read { (done rest : List Tab) → AreRead (done ++ row ∷ rest) done tables.old
        → OnOk result (AreRead (done ++ row ∷ rest) (done ++ row ∷ []) tables.new) }
    ensures reported { (done rest : List Tab) → AreRead (done ++ row ∷ rest) done tables.old
        → IfErr result (TellsUnsoundTab (done ++ row ∷ rest) (length done) row) }
{
    let id = tables.len() as i64 + 1;
    if !may_come(tables, row.name.as_str()) {
        return Err(RowsFault::Damaged(id));
    }
    let table = read_body(alloc, &row.body, id)?;
    tables.insert(row.name, table)?;
    Ok(())
}

/// Reads the tables of rows that are in order.
fn tables_of(alloc: Global, rows: Vec<StoredTab>) -> Result<Tables, RowsFault>
    ensures read { IfOk result (AreRead (rows_of rows.items) (rows_of rows.items)) }
    ensures reported { IfErr result (TellsFirstUnsound (rows_of rows.items)) }
{
    let mut tables = Tables::new(alloc);
    for stored in rows {
        add(alloc, &mut tables, stored.row)?;
    }
    Ok(tables)
}

/// Reads the tables of rows.
pub(crate) fn read_tabs(alloc: Global, mut rows: Vec<StoredTab>) -> Result<Tables, PartsFault>
    ensures whole { IfOk result (λ _. IsWhole (IsDamagedTab (rows_of rows.items))) }
    ensures tables { IfOk result (AreTables (rows_of rows.items)) }
    ensures damaged { IfErr result (TellsDamageOf FileTable.Tab (IsDamagedTab (rows_of rows.items))) }
{
    sort(&mut rows);
    of_table(FileTable::Tab, tables_of(alloc, rows))
}
