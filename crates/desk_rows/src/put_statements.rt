//! The statements that put rows.
//!
//! Each runs within a transaction, deletes no row and commits nothing. At `Ok` the rows of its
//! table are those before with the row in place of the one with its key, or with it more, or with
//! the columns set of the row with that key, those of the other tables stay, and the transaction
//! goes on. The error is the database's; if an allocation for a print or for cells fails, that is
//! the error, and nothing was done.

ghost use Rattle.std.specs.Prelude.{◌≡◌, true, IfErr, IfOk, OnOk, encode_utf8_all, string_bytes};
ghost use Rattle.std.specs.Iterator.{IsFinite};
ghost use Rattle.sqlite.specs.State.{HasCleanDisk, KeepsCommit, Survives};
ghost use Rattle.sqlite.specs.Values.{bound};
ghost use Rattle.sql_tables.specs.States.{seen};
ghost use Rattle.desk_parts.specs.Puts.{PutRow, put_of};
ghost use Rattle.desk_parts.specs.declared.file_table.FileTable.{FileTable};
ghost use Rattle.desk_rows.specs.Failing.{of_items};
ghost use Rattle.desk_rows.specs.Puts.{IsPut, RunsTo, statement};

use crate::row::{
    book_columns, cache_columns, entry_columns, mark_columns, para_columns, tab_columns,
};
use crate::texts::{
    PUT_BOOK, PUT_CACHE, PUT_MARK, PUT_NAMED_CORR, PUT_PARA, PUT_TAB, SET_FLAGS, SET_PLACE,
    SET_PRINT, SET_RESOLVED, SET_SPAN, SET_TABLE, SET_VERSION,
};
use cell_core::Cell;
use desk_parts::{BookRow, Put};
use sqlite::types::{ToSql, ValueRef};
use sqlite::{Alter, Error, Transaction};
use std::alloc::{AllocError, Global};

/// Runs a statement within a transaction.
pub(crate) fn run<S: Alter>(
    tx: &mut Transaction<'_, S>,
    text: &str,
    params: &[ValueRef<'_>],
) -> Result<(), Error>
    ensures same_reference { tx.new.conn.ghost_name ≡ tx.old.conn.ghost_name }
    ensures runs { HasCleanDisk (seen S.Store tx.new)
        → RunsTo result text.now (bound params.now) (seen S.Store tx.old) (seen S.Store tx.new) }
    ensures survives { Survives (seen S.Store tx.old) (seen S.Store tx.new) (λ _. ⊥) }
{
    tx.execute(text, params)?;
    Ok(())
}

/// The text of the statement of a put.
fn put_text(put: &Put<'_>) -> &'static str
    ensures { result.now ≡ (statement (put_of put.now)).text }
{
    match put {
        Put::Book(_) => PUT_BOOK,
        Put::Tab(_) => PUT_TAB,
        Put::Para(_) => PUT_PARA,
        Put::Mark(_) => PUT_MARK,
        Put::Cache(_) => PUT_CACHE,
        Put::NamedCorr(_) => PUT_NAMED_CORR,
        Put::Place { .. } => SET_PLACE,
        Put::Flags { .. } => SET_FLAGS,
        Put::Table { .. } => SET_TABLE,
        Put::Print { .. } => SET_PRINT,
        Put::Span { .. } => SET_SPAN,
        Put::Resolved { .. } => SET_RESOLVED,
        Put::Version(_) => SET_VERSION,
    }
}

/// Runs the statement of a put with its parameters within a transaction.
fn run_put<S: Alter>(
    tx: &mut Transaction<'_, S>,
    put: &Put<'_>,
    params: &[ValueRef<'_>],
) -> Result<(), Error>
    requires { bound params.now ≡ (statement (put_of put.now)).params }
    ensures same_reference { tx.new.conn.ghost_name ≡ tx.old.conn.ghost_name }
    ensures put { HasCleanDisk (seen S.Store tx.new)
        → IsPut result (put_of put.now) (seen S.Store tx.old) (seen S.Store tx.new) }
    ensures survives { Survives (seen S.Store tx.old) (seen S.Store tx.new) (λ _. ⊥) }
{
    run(tx, put_text(put), params)
}

/// A print as a text.
fn encoded(alloc: Global, print: &[char]) -> Result<String, AllocError>
    ensures { IfOk result (λ text. string_bytes text ≡ encode_utf8_all print.now) }
{
    print.iter().copied().collect(alloc)
}

/// The masks of cells.
fn masks(alloc: Global, cells: &[Cell]) -> Result<Vec<u8>, AllocError>
    ensures { IfOk result (λ bytes. bytes.items ≡ cells.now) }
{
    cells.iter().map(|cell| cell.mask()).collect(alloc)
}

/// Puts the row of a book by its key.
pub(crate) fn put_book<S: Alter>(tx: &mut Transaction<'_, S>, row: &BookRow) -> Result<(), Error>
    ensures same_reference { tx.new.conn.ghost_name ≡ tx.old.conn.ghost_name }
    ensures put { HasCleanDisk (seen S.Store tx.new)
        → IsPut result (PutRow FileTable.Book row.now) (seen S.Store tx.old) (seen S.Store tx.new) }
    ensures survives { Survives (seen S.Store tx.old) (seen S.Store tx.new) (λ _. ⊥) }
{
    run_put(tx, &Put::Book(*row), &book_columns(row))
}

/// Puts a row by its key, or sets columns of the row with a key, if it is there. If a history has
/// an entry of that number, the database refuses it.
fn put<S: Alter>(alloc: Global, tx: &mut Transaction<'_, S>, put: Put<'_>) -> Result<(), Error>
    ensures same_reference { tx.new.conn.ghost_name ≡ tx.old.conn.ghost_name }
    ensures put { HasCleanDisk (seen S.Store tx.new)
        → IsPut result (put_of put.entry) (seen S.Store tx.old) (seen S.Store tx.new) }
    ensures survives { Survives (seen S.Store tx.old) (seen S.Store tx.new) (λ _. ⊥) }
{
    match put {
        Put::Book(row) => put_book(tx, &row),
        Put::Tab(row) => run_put(tx, &put, &tab_columns(&row)),
        Put::Para(row) => {
            let print = encoded(alloc, row.print)?;
            run_put(tx, &put, &para_columns(&row, print.as_str()))
        }
        Put::Mark(row) => run_put(tx, &put, &mark_columns(&row)),
        Put::Cache(row) => {
            let cells = masks(alloc, row.cells)?;
            run_put(tx, &put, &cache_columns(&row, &cells))
        }
        Put::NamedCorr(row) => run_put(tx, &put, &entry_columns(&row)),
        Put::Place { id, place } => run_put(tx, &put, &[id.to_sql(), place.to_sql()]),
        Put::Flags {
            id,
            style,
            volume,
            struck,
        } => {
            let columns = [
                id.to_sql(),
                style.to_sql(),
                volume.to_sql(),
                struck.to_sql(),
            ];
            run_put(tx, &put, &columns)
        }
        Put::Table { id, tab } => run_put(tx, &put, &[id.to_sql(), tab.to_sql()]),
        Put::Print { id, print } => {
            let print = encoded(alloc, print)?;
            run_put(tx, &put, &[id.to_sql(), print.as_str().to_sql()])
        }
        Put::Span {
            id,
            start,
            stop,
            touched,
        } => {
            let columns = [id.to_sql(), start.to_sql(), stop.to_sql(), touched.to_sql()];
            run_put(tx, &put, &columns)
        }
        Put::Resolved { id, resolved } => run_put(tx, &put, &[id.to_sql(), resolved.to_sql()]),
        Put::Version(version) => run_put(tx, &put, &[1i64.to_sql(), version.to_sql()]),
    }
}

/// Puts in turn what an iterator lends.
pub(crate) fn put_all<'a, S: Alter, I: Iterator<Item = Put<'a>> + Drop>(
    alloc: Global,
    tx: &mut Transaction<'_, S>,
    puts: I,
) -> Result<(), Error>
    requires can { I.can_next puts }
    requires ends { IsFinite (I.remaining puts) }
    ensures same_reference { tx.new.conn.ghost_name ≡ tx.old.conn.ghost_name }
    ensures put { HasCleanDisk (seen S.Store tx.new)
        → OnOk result ((of_items S.Store I.next_gives puts).puts tx.old.conn.now tx.new.conn.now) }
    ensures inside { HasCleanDisk (seen S.Store tx.new)
        → (seen S.Store tx.old).in_transaction ≡ true
        → OnOk result ((seen S.Store tx.new).in_transaction ≡ true) }
    ensures reported { HasCleanDisk (seen S.Store tx.new) → (seen S.Store tx.old).in_transaction ≡ true
        → IfErr result ((of_items S.Store I.next_gives puts).stops tx.old.conn.now
        (seen S.Store tx.new)) }
    ensures kept { HasCleanDisk (seen S.Store tx.new)
        → KeepsCommit (seen S.Store tx.old) (seen S.Store tx.new) }
    ensures survives { Survives (seen S.Store tx.old) (seen S.Store tx.new) (λ _. ⊥) }
{
    for one in puts {
        put(alloc, tx, one)?;
    }
    Ok(())
}
