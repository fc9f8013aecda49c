//! The statements that read a table whole.
//!
//! Each answers what its statement shows in any file, and changes nothing; a value that isn't of
//! the kind that a new file declares for its column is refused. Over a clean disk, if the table is
//! declared as in a new file, the answer is its rows as they stand, in order. If these also have
//! integer rowids (of `corr`, any) and texts in UTF-8, and the steps have no limit, only an
//! allocation or the store makes it fail.
//!
//! A statement that is stopped by a limit on its steps is reported as refused.

ghost use Rattle.std.specs.Prelude.{◌≡◌, ◌≢◌, false, true, [], Err, IfErr, IfOk, MatchBool, Ok, OnErr, map};
ghost use Rattle.std.specs.List.{AllByRecursion};
ghost use Rattle.sqlite.specs.declared.error.Error.{Error as Failure};
ghost use Rattle.sqlite.specs.Held.{state};
ghost use Rattle.sqlite.specs.State.{HasCleanDisk, CommitsShowing, FailsToQuery, Shown, Survives};
ghost use Rattle.sql_tables.specs.Kinds.{HasKinds};
ghost use Rattle.desk_rows.specs.TableQuery.{AnswersRows, AnyRows, BeginWith, given, query_of};
ghost use Rattle.desk_parts.specs.declared.file_table.FileTable.{FileTable};
ghost use Rattle.desk_parts.specs.FileRows.{HasUtf8Texts};
ghost use Rattle.desk_rows.specs.Fault.{IsReportedAs};
ghost use Rattle.desk_rows.specs.Rows.{own, shown_columns};
ghost use Rattle.desk_rows.specs.Whole.{DifferBy};

use crate::fault::DatabaseFault;
use crate::row::TableRow;
use desk_parts::StoredTab;
use sqlite::{Alter, Connection, Row};
use std::alloc::{AllocError, Global};
use std::collections::BTreeSet;

/// The rows that a query shows.
fn ask<S: Alter>(conn: &mut Connection<S>, sql: &str) -> Result<Vec<Row>, DatabaseFault>
    ensures shown { HasCleanDisk (state S.Store conn.new)
        → IfOk result (λ rows. Shown sql.now [] (state S.Store conn.old)
        (state S.Store conn.new) rows.items) }
    ensures failed { HasCleanDisk (state S.Store conn.new)
        → IfErr result (λ fault. (e : Failure)
        × FailsToQuery sql.now [] (state S.Store conn.old) (state S.Store conn.new) e
        × IsReportedAs e fault) }
    ensures mode { conn.old.in_transaction ≡ false → conn.new.in_transaction ≡ false }
    ensures survives { Survives (state S.Store conn.old) (state S.Store conn.new)
        (CommitsShowing sql.now [] (state S.Store conn.old)) }
{
    conn.query_all(sql, &[]).map_err(DatabaseFault::of)
}

/// Each of the rows, in turn.
#[tactic(auto, using(crate::proofs::TableReads::Beginnings::begin_more, crate::proofs::TableReads::Beginnings::begin_with))]
fn all_of<T: TableRow>(alloc: Global, rows: &[Row]) -> Result<Vec<T>, DatabaseFault>
    ensures reads { IfOk result (λ xs. map (given T.table) rows.now ≡ map (λ x. shown_columns T.table
        (T.view x)) xs.items) }
    ensures kinds { AllByRecursion (HasKinds (query_of T.table).kinds) rows.now
        → IfErr result (λ fault. fault ≡ DatabaseFault.NoMemory) }
    ensures not_lost { IfErr result (λ fault. fault ≢ DatabaseFault.Lost) }
    ensures no_memory { IfErr result (λ fault. fault ≡ DatabaseFault.NoMemory
        → BeginWith (query_of T.table).kinds rows.now) }
    ensures utf8 { IfOk result (λ xs. AllByRecursion (λ x. HasUtf8Texts T.table (own T.table
        (T.view x))) xs.items) }
{
    let mut all = Vec::new(alloc);
    for row in rows {
        all.push(T::from_row(alloc, row)?)
            .map_err(|_| DatabaseFault::NoMemory)?;
    }
    Ok(all)
}

/// The rows of one type, in the order of their keys: those of `book` and `mark` and the paragraphs
/// by their ids, the cells by their paragraphs, the entries of histories by their paragraphs and
/// numbers, and braille tables by the bytes of their names.
pub fn read_rows<T: TableRow, S: Alter>(
    alloc: Global,
    conn: &mut Connection<S>,
) -> Result<Vec<T>, DatabaseFault>
    ensures answers { HasCleanDisk (state S.Store conn.new)
        → AnswersRows result (λ xs. xs.items) T.table T.view AnyRows (state S.Store conn.old)
        (state S.Store conn.new) }
    ensures mode { conn.old.in_transaction ≡ false → conn.new.in_transaction ≡ false }
    ensures survives { Survives (state S.Store conn.old) (state S.Store conn.new) (λ _. ⊥) }
{
    let rows = ask(conn, T::query())?;
    all_of(alloc, &rows)
}

/// Whether no two braille tables have the same rowid.
fn have_own_rowids(alloc: Global, tabs: &[StoredTab]) -> Result<bool, AllocError>
    ensures apart { IfOk result (λ apart. MatchBool apart (DifferBy (λ s. s.rowid) tabs.now)
        (¬ DifferBy (λ s. s.rowid) tabs.now)) }
    // Memory is asked for only if there is a table.
    ensures no_memory { OnErr result (tabs.now ≢ []) }
{
    let mut seen = BTreeSet::new(alloc);
    for tab in tabs {
        if !seen.insert(tab.rowid)? {
            return Ok(false);
        }
    }
    Ok(true)
}

/// The braille tables, in order of the bytes of their names, which is that of the names' code
/// points. If two have one rowid, as only a view shows them, they are refused.
pub fn read_tabs<S: Alter>(
    alloc: Global,
    conn: &mut Connection<S>,
) -> Result<Vec<StoredTab>, DatabaseFault>
    ensures answers { HasCleanDisk (state S.Store conn.new)
        → AnswersRows result (λ xs. xs.items) FileTable.Tab (λ x. x) (DifferBy (λ s. s.rowid))
        (state S.Store conn.old) (state S.Store conn.new) }
    ensures mode { conn.old.in_transaction ≡ false → conn.new.in_transaction ≡ false }
    ensures survives { Survives (state S.Store conn.old) (state S.Store conn.new) (λ _. ⊥) }
{
    let tabs = read_rows(alloc, conn)?;
    match have_own_rowids(alloc, &tabs) {
        Ok(true) => Ok(tabs),
        Ok(false) => Err(DatabaseFault::Refused),
        Err(_) => Err(DatabaseFault::NoMemory),
    }
}
