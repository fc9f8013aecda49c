//! The tables that a book's file lacks of those of a new one, made and filled.

ghost use Rattle.std.specs.Prelude.{◌≡◌, false, OnOk, Some};
ghost use Rattle.desk_parts.specs.Parts.{rows_in};
ghost use Rattle.desk_rows.specs.Fault.{IsReportedAs};
ghost use Rattle.desk_rows.specs.declared.fault.DatabaseFault.{DatabaseFault};
ghost use Rattle.desk_store.specs.FillingSteps.{FillsFile};
ghost use Rattle.desk_store.specs.Completing.{lacking, which_new};
ghost use Rattle.desk_store.specs.Opened.{filled_as};
ghost use Rattle.desk_store.specs.Opening.{IsRefusal};
ghost use Rattle.sql_tables.specs.States.{IsCommitted, IsSettled};
ghost use Rattle.sqlite.specs.Held.{state};
ghost use Rattle.sqlite.specs.State.{HasCleanDisk};

use crate::fault::OpenFault;
use desk_book::{Book, NewTables};
use desk_parts::{EntryRows, FileTable, Parts};
use desk_rows::{DatabaseFault, write_with_tables};
use sqlite::{Alter, Connection, Error};
use std::alloc::Global;

/// What the file of these parts lacks of a new one.
pub(crate) fn lacked_by(parts: &Parts) -> Option<NewTables>
    ensures { result ≡ lacking (rows_in parts.now).entries (rows_in parts.now).caches }
{
    match (&parts.entries, &parts.cache) {
        (EntryRows::Unnamed(_), None) => Some(NewTables::EntriesAndBraille),
        (EntryRows::Unnamed(_), Some(_)) => Some(NewTables::Entries),
        (EntryRows::Named(_), None) => Some(NewTables::Braille),
        (EntryRows::Named(_), Some(_)) => None,
    }
}

/// How an error is reported that stopped the filling of a file which shows a book: that one is
/// there is known by then, so no error says that there is none.
fn stopped_by(error: Error) -> OpenFault
    ensures reported { (why : DatabaseFault) × IsReportedAs error why × (result ≡ filled_as why) }
    ensures not_refused { ¬ IsRefusal result }
{
    match DatabaseFault::of(error) {
        DatabaseFault::NoMemory => OpenFault::NoMemory,
        DatabaseFault::Lost | DatabaseFault::Refused => OpenFault::Lost,
    }
}

/// The tables that are new, in the order in which they are made.
fn file_tables(tables: NewTables) -> &'static [FileTable]
    ensures { result.now ≡ which_new tables }
{
    match tables {
        NewTables::EntriesAndBraille => &[FileTable::Cache, FileTable::NamedCorr],
        NewTables::Entries => &[FileTable::NamedCorr],
        NewTables::Braille => &[FileTable::Cache],
    }
}

/// Makes these tables in the file of a book and fills them with what the book has for them, as one.
///
/// # Errors
///
/// [`OpenFault::Lost`] if the store failed or refused it, and [`OpenFault::NoMemory`]. A crash then
/// leaves the file as it was or with all of this.
pub(crate) fn fill<S: Alter>(
    alloc: Global,
    conn: &mut Connection<S>,
    book: &Book,
    tables: NewTables,
) -> Result<(), OpenFault>
    requires { conn.old.in_transaction ≡ false }
    ensures idle { conn.new.in_transaction ≡ false }
    ensures fills { FillsFile S.Store (Some tables) book.now conn.old (state S.Store conn.new) result }
    ensures open { HasCleanDisk (state S.Store conn.new)
        → OnOk result (IsCommitted (state S.Store conn.new)) }
    ensures settled { HasCleanDisk (state S.Store conn.new)
        → OnOk result (IsSettled (state S.Store conn.new)) }
{
    match write_with_tables(alloc, conn, file_tables(tables), book.filling(tables)) {
        Ok(()) => Ok(()),
        Err(error) => Err(stopped_by(error)),
    }
}
