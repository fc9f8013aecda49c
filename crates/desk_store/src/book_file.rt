//! A book's file, read whole. Nothing is written.
//!
//! Of a file that is declared as a new one the rows are given as they stand, in any order.

ghost use Rattle.std.specs.Prelude.{◌≡◌, ◌⊎◌, false, IfErr, IfOk, MatchBool, None, option_map};
ghost use Rattle.std.specs.List.{list_any};
ghost use Rattle.sqlite.specs.Held.{state};
ghost use Rattle.desk_model.specs.Damage.{IsSoundBookRow};
ghost use Rattle.sqlite.specs.State.{HasCleanDisk, Survives};
ghost use Rattle.desk_model.specs.Book.{Book};
ghost use Rattle.desk_parts.specs.Parts.{entry_rows, rows_in};
ghost use Rattle.desk_rows.specs.Contents.{Contents};
ghost use Rattle.desk_store.specs.Formats.{IsExact, IsOfEither};
ghost use Rattle.desk_store.specs.Found.{RowsShowIn, format_kept};
ghost use Rattle.desk_rows.specs.Layout.{Layout};
ghost use Rattle.desk_store.specs.Opened.{StopsOpening, TellsOf};
ghost use Rattle.desk_store.specs.Opening.{IsBookRow, IsRefusal, Stays, TellsOfRow, format_in, format_read, has_tables};
ghost use Rattle.desk_store.specs.ReadingSteps.{FailsToRead, ReadsCells, ReadsEntries, ReadsFile, ReadsRest};
ghost use Rattle.desk_rows.specs.States.{ShowsContents};
ghost use Rattle.desk_rows.specs.Tables.{is_there};

use crate::fault::OpenFault;
use desk_book::version_of;
use desk_parts::{BookRow, CacheRow, EntryRows, FileTable, Parts};
use desk_rows::{DatabaseFault, has_table, read_rows, read_tabs};
use sqlite::{Alter, Connection};
use std::alloc::Global;

/// The newest format that is read.
const NEWEST_FORMAT: i64 = 2;

/// Whether one of these tables is there, as [`has_table`] says.
pub(crate) fn has_any<S: Alter>(conn: &Connection<S>, tables: &[FileTable]) -> bool
    ensures { result ≡ list_any (is_there (state S.Store conn.now).now.schema) tables.now }
{
    tables.iter().any(|table| has_table(conn, *table))
}

/// Whether a row of `book` is sound, if its format isn't a later one.
fn is_sound(row: &BookRow) -> bool
    ensures { MatchBool result (IsSoundBookRow row.now) (¬ IsSoundBookRow row.now) }
{
    row.id == 1 && row.format >= 1 && version_of(row.version).is_some()
}

/// The row of `book`, which has to be the only one, sound, and of a format that is read.
fn judge_book(rows: &[BookRow]) -> Result<BookRow, OpenFault>
    ensures book { IfOk result (IsBookRow rows.now) }
    ensures reported { IfErr result (TellsOfRow rows.now) }
{
    match rows {
        [row] if row.format > NEWEST_FORMAT => Err(OpenFault::NewerFormat),
        [row] if is_sound(row) => Ok(*row),
        _ => Err(OpenFault::Damaged {
            table: FileTable::Book,
            id: 1,
        }),
    }
}

/// The formats that are read, by how their histories are kept.
#[derive(Clone, Copy, PartialEq, Eq)]
enum FileFormat {
    /// The first: no entry has a name.
    Unnamed,
    /// The second: each entry has a name, which may be empty.
    Named,
}

/// The format of a file with this row of `book`, which is sound and of no later one.
fn format_of(row: &BookRow) -> FileFormat
    ensures { format_read result ≡ format_in row.now.format }
{
    if row.format == 1 {
        FileFormat::Unnamed
    } else {
        FileFormat::Named
    }
}

/// Whether the tables of this format are there, `book` aside.
fn has_tables<S: Alter>(conn: &Connection<S>, format: FileFormat) -> bool
    ensures { result ≡ has_tables (format_read format) (state S.Store conn.now).now.schema }
{
    let shared = has_table(conn, FileTable::Tab)
        && has_table(conn, FileTable::Para)
        && has_table(conn, FileTable::Mark);
    let entries = match format {
        FileFormat::Unnamed => {
            has_table(conn, FileTable::Corr) && !has_table(conn, FileTable::NamedCorr)
        }
        FileFormat::Named => has_table(conn, FileTable::NamedCorr),
    };
    shared && entries
}

/// The entries of the histories in a file of this format.
fn read_entries<S: Alter>(
    alloc: Global,
    conn: &mut Connection<S>,
    format: FileFormat,
) -> Result<EntryRows, DatabaseFault>
    ensures read { HasCleanDisk (state S.Store conn.new) → IfOk result (λ entries.
        ReadsEntries (format_read format) (entry_rows entries)
        (state S.Store conn.old) (state S.Store conn.new)) }
    ensures kept { IfOk result (λ entries. format_kept (entry_rows entries) ≡ format_read format) }
    ensures fails { HasCleanDisk (state S.Store conn.new)
        → IfErr result (FailsToRead S.Store (format_read format) conn.old (state S.Store conn.new)) }
    ensures mode { conn.old.in_transaction ≡ false → conn.new.in_transaction ≡ false }
    ensures survives { Survives (state S.Store conn.old) (state S.Store conn.new) (λ _. ⊥) }
{
    match format {
        FileFormat::Unnamed => Ok(EntryRows::Unnamed(read_rows(alloc, conn)?)),
        FileFormat::Named => Ok(EntryRows::Named(read_rows(alloc, conn)?)),
    }
}

/// The cells of the paragraphs in a file of this format, if it has them.
fn read_cells<S: Alter>(
    alloc: Global,
    conn: &mut Connection<S>,
    format: FileFormat,
) -> Result<Option<Vec<CacheRow>>, DatabaseFault>
    ensures read { HasCleanDisk (state S.Store conn.new) → IfOk result (λ cells.
        ReadsCells (format_read format) (option_map (λ rows. rows.items) cells)
        (state S.Store conn.old) (state S.Store conn.new)) }
    ensures fails { HasCleanDisk (state S.Store conn.new)
        → IfErr result (FailsToRead S.Store (format_read format) conn.old (state S.Store conn.new)) }
    ensures mode { conn.old.in_transaction ≡ false → conn.new.in_transaction ≡ false }
    ensures survives { Survives (state S.Store conn.old) (state S.Store conn.new) (λ _. ⊥) }
{
    if !has_table(conn, FileTable::Cache) {
        return Ok(None);
    }
    Ok(Some(read_rows(alloc, conn)?))
}

/// What a file of this format and at this version holds.
fn read_rest<S: Alter>(
    alloc: Global,
    conn: &mut Connection<S>,
    format: FileFormat,
    version: i64,
) -> Result<Parts, DatabaseFault>
    ensures read { HasCleanDisk (state S.Store conn.new) → IfOk result (λ parts.
        ReadsRest (format_read format) parts (state S.Store conn.old) (state S.Store conn.new)) }
    ensures kept { IfOk result (λ parts. (parts.version ≡ version)
        × (format_kept (rows_in parts).entries ≡ format_read format)) }
    ensures fails { HasCleanDisk (state S.Store conn.new)
        → IfErr result (FailsToRead S.Store (format_read format) conn.old (state S.Store conn.new)) }
    ensures mode { conn.old.in_transaction ≡ false → conn.new.in_transaction ≡ false }
    ensures survives { Survives (state S.Store conn.old) (state S.Store conn.new) (λ _. ⊥) }
{
    Ok(Parts {
        version,
        tabs: read_tabs(alloc, conn)?,
        paras: read_rows(alloc, conn)?,
        entries: read_entries(alloc, conn, format)?,
        marks: read_rows(alloc, conn)?,
        cache: read_cells(alloc, conn, format)?,
    })
}

/// What a book's file holds, once its row of `book` is checked and its tables are there, whether or
/// not they show a book.
///
/// # Errors
///
/// [`OpenFault::NewerFormat`] or a damage of `book`, [`OpenFault::NotABook`] if a table is missing
/// or can't be read, and otherwise that an allocation or the store failed.
pub(crate) fn read_parts<S: Alter>(
    alloc: Global,
    conn: &mut Connection<S>,
) -> Result<Parts, OpenFault>
    requires unlimited { conn.old.step_limit ≡ None }
    ensures read { HasCleanDisk (state S.Store conn.new) → IfOk result (λ parts.
        ReadsFile (state S.Store conn.old) (state S.Store conn.new) (rows_in parts)) }
    // What is refused shows no book, in any file.
    ensures unrefused { HasCleanDisk (state S.Store conn.new) → (book : Book)
        → RowsShowIn (state S.Store conn.old) book → IfErr result (λ fault. ¬ IsRefusal fault) }
    // If the tables that are there, or those that are read in a file of a format, are declared as
    // those of a new file, this is reported.
    ensures reported { HasCleanDisk (state S.Store conn.new) → (l : Layout) (c : Contents)
        → IsExact l ⊎ IsOfEither l → ShowsContents l c (state S.Store conn.old)
        → IfErr result (TellsOf l c) }
    ensures refused { HasCleanDisk (state S.Store conn.new) → IfErr result (λ fault. IsRefusal fault
        → Stays (state S.Store conn.old) (state S.Store conn.new)) }
    // What isn't refused has a cause.
    ensures stops { HasCleanDisk (state S.Store conn.new) → IfErr result (λ fault. (¬ IsRefusal fault)
        → StopsOpening S.Store conn.old (state S.Store conn.new) fault) }
    ensures mode { conn.old.in_transaction ≡ false → conn.new.in_transaction ≡ false }
    ensures survives { Survives (state S.Store conn.old) (state S.Store conn.new) (λ _. ⊥) }
{
    if !has_table(conn, FileTable::Book) {
        return Err(OpenFault::NotABook);
    }
    let books = read_rows(alloc, conn)?;
    let book = judge_book(&books)?;
    let format = format_of(&book);
    if !has_tables(conn, format) {
        return Err(OpenFault::NotABook);
    }
    Ok(read_rest(alloc, conn, format, book.version)?)
}
