//! The types of the rows: how each is read, and with which columns it is put.

ghost use Rattle.std.specs.Prelude.{◌≡◌, ◌≢◌, IfErr, IfOk, IsUtf8, string_bytes};
ghost use Rattle.sqlite_value.specs.Order.{column};
ghost use Rattle.sqlite_value.specs.declared.value.Value.TheVariants.{Blob, Int, Text};
ghost use Rattle.sqlite_schema.specs.declared.schema.Kind.{Kind};
ghost use Rattle.sqlite.specs.Values.{IsInt, bound};
ghost use Rattle.sql_tables.specs.Kinds.{IsOfKind};
ghost use Rattle.desk_rows.specs.TableQuery.{AreOfKinds, Begins, given, query_of};
ghost use Rattle.desk_rows.specs.Fault.{IsValueFault};
ghost use Rattle.desk_parts.specs.declared.file_table.FileTable.{FileTable};
ghost use Rattle.desk_parts.specs.FileRows.{HasUtf8Texts};
ghost use Rattle.desk_parts.specs.Puts.{lent_entry, lent_mark, lent_para};
ghost use Rattle.desk_rows.specs.Descriptions.{description_of};
ghost use Rattle.desk_rows.specs.Rows.{ShownOf, columns_of, own, shown_columns};

use crate::fault::DatabaseFault;
use crate::texts::{
    READ_BOOKS, READ_CACHES, READ_CORRS, READ_MARKS, READ_NAMED_CORRS, READ_PARAS, READ_TABS,
};
use desk_parts::{
    BookRow, CachePut, CacheRow, CorrRow, MarkPut, MarkRow, NamedCorrPut, NamedCorrRow, ParaPut,
    ParaRow, StoredTab, TabPut, TabRow,
};
use sqlite::Row;
use sqlite::types::{ToSql, ValueRef};
use std::alloc::Global;

/// The integer in a column.
fn integer(row: &Row, at: usize) -> Result<i64, DatabaseFault>
    ensures reads { IfOk result (λ number. column row.now at ≡ Int number) }
    ensures kind { IfErr result (λ fault. (fault ≡ DatabaseFault.Refused) × ¬ IsInt (column row.now at)) }
{
    match row.get_ref(at) {
        Ok(ValueRef::Int(number)) => Ok(number),
        _ => Err(DatabaseFault::Refused),
    }
}

/// The text in a column, whose bytes have to be UTF-8. Memory is asked for only once they are.
fn text(alloc: Global, row: &Row, at: usize) -> Result<String, DatabaseFault>
    ensures reads { IfOk result (λ text. column row.now at ≡ Text (string_bytes text)) }
    ensures kind { IfOk result (λ _. IsOfKind Kind.Text (column row.now at)) }
    ensures utf8 { IfOk result (λ text. IsUtf8 (string_bytes text)) }
    ensures reported { IfErr result (IsValueFault (IsOfKind Kind.Text (column row.now at))) }
{
    let Ok(ValueRef::Text(bytes)) = row.get_ref(at) else {
        return Err(DatabaseFault::Refused);
    };
    let text = str::from_utf8(bytes).map_err(|_| DatabaseFault::Refused)?;
    Ok(String::from_str(alloc, text)?)
}

/// The bytes in a column. Memory is asked for only once they are bytes.
fn bytes(alloc: Global, row: &Row, at: usize) -> Result<Vec<u8>, DatabaseFault>
    ensures reads { IfOk result (λ bytes. column row.now at ≡ Blob bytes.items) }
    ensures kind { IfOk result (λ _. IsOfKind Kind.Blob (column row.now at)) }
    ensures reported { IfErr result (IsValueFault (IsOfKind Kind.Blob (column row.now at))) }
{
    let Ok(ValueRef::Blob(bytes)) = row.get_ref(at) else {
        return Err(DatabaseFault::Refused);
    };
    Ok(Vec::from_slice(alloc, bytes)?)
}

/// A row of one of the tables, as its query shows it.
pub trait TableRow: Drop {
    /// Its table.
    ghost table: { FileTable };
    /// The row as the query shows it.
    ghost view: { Self → ShownOf table };

    /// The query.
    fn query() -> &'static str
        ensures { result.now ≡ (description_of table).read };

    /// A row from what the query shows.
    fn from_row(alloc: Global, row: &Row) -> Result<Self, DatabaseFault>
        ensures reads { IfOk result (λ x. given table row.now ≡ shown_columns table (view x)) }
        ensures kinds { AreOfKinds 0 (query_of table).kinds row.now
            → IfErr result (λ fault. fault ≡ DatabaseFault.NoMemory) }
        ensures not_lost { IfErr result (λ fault. fault ≢ DatabaseFault.Lost) }
        // Memory is asked for only at the first text or bytes, once all before are of their kinds.
        ensures begins { IfOk result (λ _. Begins 0 (query_of table).kinds row.now) }
        ensures no_memory { IfErr result (λ fault. fault ≡ DatabaseFault.NoMemory
            → Begins 0 (query_of table).kinds row.now) }
        ensures utf8 { IfOk result (λ x. HasUtf8Texts table (own table (view x))) };
}

impl TableRow for BookRow {
    ghost table = { FileTable.Book };

    ghost view = { λ x. x };

    fn query() -> &'static str {
        READ_BOOKS
    }

    fn from_row(_: Global, row: &Row) -> Result<BookRow, DatabaseFault> {
        Ok(BookRow {
            id: integer(row, 0)?,
            format: integer(row, 1)?,
            version: integer(row, 2)?,
        })
    }
}

/// The columns of the row of a book.
pub(crate) fn book_columns(row: &BookRow) -> [ValueRef<'_>; 3]
    ensures { bound result ≡ columns_of FileTable.Book row.now }
{
    [row.id.to_sql(), row.format.to_sql(), row.version.to_sql()]
}

impl TableRow for StoredTab {
    ghost table = { FileTable.Tab };

    ghost view = { λ x. x };

    fn query() -> &'static str {
        READ_TABS
    }

    fn from_row(alloc: Global, row: &Row) -> Result<StoredTab, DatabaseFault> {
        Ok(StoredTab {
            rowid: integer(row, 0)?,
            row: TabRow {
                name: text(alloc, row, 1)?,
                body: bytes(alloc, row, 2)?,
            },
        })
    }
}

/// The columns of a braille table.
pub(crate) fn tab_columns<'a>(row: &TabPut<'a>) -> [ValueRef<'a>; 2]
    ensures { bound result ≡ columns_of FileTable.Tab
        (record { name = row.now.name.now; body = row.now.body.now }) }
{
    [row.name.to_sql(), row.body.to_sql()]
}

impl TableRow for ParaRow {
    ghost table = { FileTable.Para };

    ghost view = { λ x. x };

    fn query() -> &'static str {
        READ_PARAS
    }

    fn from_row(alloc: Global, row: &Row) -> Result<ParaRow, DatabaseFault> {
        Ok(ParaRow {
            id: integer(row, 0)?,
            place: integer(row, 1)?,
            tab: text(alloc, row, 2)?,
            original: text(alloc, row, 3)?,
            print: text(alloc, row, 4)?,
            style: integer(row, 5)?,
            volume: integer(row, 6)?,
            struck: integer(row, 7)?,
        })
    }
}

/// The columns of a paragraph, with its print as this text.
pub(crate) fn para_columns<'a>(row: &'a ParaPut<'_>, print: &'a str) -> [ValueRef<'a>; 8]
    ensures { bound result ≡ columns_of FileTable.Para
        (record (lent_para row.now) { print = print.now }) }
{
    [
        row.id.to_sql(),
        row.place.to_sql(),
        row.tab.to_sql(),
        row.original.to_sql(),
        print.to_sql(),
        row.style.to_sql(),
        row.volume.to_sql(),
        row.struck.to_sql(),
    ]
}

impl TableRow for CorrRow {
    ghost table = { FileTable.Corr };

    ghost view = { λ x. x };

    fn query() -> &'static str {
        READ_CORRS
    }

    fn from_row(alloc: Global, row: &Row) -> Result<CorrRow, DatabaseFault> {
        Ok(CorrRow {
            para: integer(row, 0)?,
            seq: integer(row, 1)?,
            kind: integer(row, 2)?,
            start: integer(row, 3)?,
            len: integer(row, 4)?,
            body: text(alloc, row, 5)?,
        })
    }
}

impl TableRow for MarkRow {
    ghost table = { FileTable.Mark };

    ghost view = { λ x. x };

    fn query() -> &'static str {
        READ_MARKS
    }

    fn from_row(alloc: Global, row: &Row) -> Result<MarkRow, DatabaseFault> {
        Ok(MarkRow {
            id: integer(row, 0)?,
            para: integer(row, 1)?,
            start: integer(row, 2)?,
            stop: integer(row, 3)?,
            note: text(alloc, row, 4)?,
            touched: integer(row, 5)?,
            resolved: integer(row, 6)?,
        })
    }
}

/// The columns of a mark.
pub(crate) fn mark_columns<'a>(row: &MarkPut<'a>) -> [ValueRef<'a>; 7]
    ensures { bound result ≡ columns_of FileTable.Mark (lent_mark row.now) }
{
    [
        row.id.to_sql(),
        row.para.to_sql(),
        row.start.to_sql(),
        row.stop.to_sql(),
        row.note.to_sql(),
        row.touched.to_sql(),
        row.resolved.to_sql(),
    ]
}

impl TableRow for CacheRow {
    ghost table = { FileTable.Cache };

    ghost view = { λ x. x };

    fn query() -> &'static str {
        READ_CACHES
    }

    fn from_row(alloc: Global, row: &Row) -> Result<CacheRow, DatabaseFault> {
        Ok(CacheRow {
            para: integer(row, 0)?,
            cells: bytes(alloc, row, 1)?,
        })
    }
}

/// The columns of the braille of a paragraph, with its cells as these bytes.
pub(crate) fn cache_columns<'a>(row: &CachePut<'_>, cells: &'a [u8]) -> [ValueRef<'a>; 2]
    ensures { bound result ≡ columns_of FileTable.Cache
        (record { para = row.now.para; cells = cells.now }) }
{
    [row.para.to_sql(), cells.to_sql()]
}

impl TableRow for NamedCorrRow {
    ghost table = { FileTable.NamedCorr };

    ghost view = { λ x. x };

    fn query() -> &'static str {
        READ_NAMED_CORRS
    }

    fn from_row(alloc: Global, row: &Row) -> Result<NamedCorrRow, DatabaseFault> {
        Ok(NamedCorrRow {
            entry: CorrRow::from_row(alloc, row)?,
            who: text(alloc, row, 6)?,
        })
    }
}

/// The columns of an entry of a history.
pub(crate) fn entry_columns<'a>(row: &NamedCorrPut<'a>) -> [ValueRef<'a>; 7]
    ensures { bound result ≡ columns_of FileTable.NamedCorr (lent_entry row.now) }
{
    [
        row.para.to_sql(),
        row.seq.to_sql(),
        row.kind.to_sql(),
        row.start.to_sql(),
        row.len.to_sql(),
        row.body.to_sql(),
        row.who.to_sql(),
    ]
}
