//! The making of tables.

ghost use Rattle.std.specs.Prelude.{◌≡◌, false, true, IfErr, OnOk};
ghost use Rattle.sqlite.specs.Held.{state};
ghost use Rattle.sqlite.specs.State.{HasCleanDisk, KeepsCommit, Survives};
ghost use Rattle.sql_tables.specs.States.{seen};
ghost use Rattle.desk_rows.specs.Commits.{Commits, making_file};
ghost use Rattle.desk_rows.specs.Failing.{StopsMaking, after_tables, of_first_row};
ghost use Rattle.desk_rows.specs.Making.{AreMade, new_tables};
ghost use Rattle.desk_rows.specs.Tables.{AreWritten};

use crate::put_statements::{put_book, run};
use crate::table::create_text;
use crate::transaction::{begin, end};
use desk_parts::{BookRow, FileTable};
use sqlite::{Alter, Connection, Error, Transaction};

/// The tables of a new file, in the order in which they are made.
const NEW_TABLES: [FileTable; 6] = [
    FileTable::Book,
    FileTable::Tab,
    FileTable::Para,
    FileTable::Mark,
    FileTable::Cache,
    FileTable::NamedCorr,
];

/// Makes these tables in turn, and the counter of rowids with the first that counts them, if it is
/// missing. The error is the database's.
pub(crate) fn create_all<S: Alter>(
    tx: &mut Transaction<'_, S>,
    tables: &[FileTable],
) -> Result<(), Error>
    requires { AreWritten tables.now }
    ensures same_reference { tx.new.conn.ghost_name ≡ tx.old.conn.ghost_name }
    ensures makes { HasCleanDisk (seen S.Store tx.new)
        → OnOk result (AreMade S.Store tables.now tx.old.conn.now tx.new.conn.now) }
    ensures inside { HasCleanDisk (seen S.Store tx.new)
        → (seen S.Store tx.old).in_transaction ≡ true
        → OnOk result ((seen S.Store tx.new).in_transaction ≡ true) }
    ensures reported { HasCleanDisk (seen S.Store tx.new) → (seen S.Store tx.old).in_transaction ≡ true
        → IfErr result (StopsMaking S.Store tables.now tx.old.conn.now
        (seen S.Store tx.new)) }
    ensures kept { HasCleanDisk (seen S.Store tx.new)
        → KeepsCommit (seen S.Store tx.old) (seen S.Store tx.new) }
    ensures survives { Survives (seen S.Store tx.old) (seen S.Store tx.new) (λ _. ⊥) }
{
    for table in tables {
        run(tx, create_text(*table), &[])?;
    }
    Ok(())
}

/// Makes the tables of a new file and puts the row of a new book, in format 2 and at version 0. The
/// error is the database's.
fn make_all<S: Alter>(tx: &mut Transaction<'_, S>) -> Result<(), Error>
    ensures same_reference { tx.new.conn.ghost_name ≡ tx.old.conn.ghost_name }
    ensures put { HasCleanDisk (seen S.Store tx.new)
        → OnOk result ((after_tables S.Store new_tables (of_first_row S.Store)).puts tx.old.conn.now
        tx.new.conn.now) }
    ensures inside { HasCleanDisk (seen S.Store tx.new)
        → (seen S.Store tx.old).in_transaction ≡ true
        → OnOk result ((seen S.Store tx.new).in_transaction ≡ true) }
    ensures reported { HasCleanDisk (seen S.Store tx.new) → (seen S.Store tx.old).in_transaction ≡ true
        → IfErr result ((after_tables S.Store new_tables (of_first_row S.Store)).stops tx.old.conn.now
        (seen S.Store tx.new)) }
    ensures kept { HasCleanDisk (seen S.Store tx.new)
        → KeepsCommit (seen S.Store tx.old) (seen S.Store tx.new) }
    ensures survives { Survives (seen S.Store tx.old) (seen S.Store tx.new) (λ _. ⊥) }
{
    create_all(tx, &NEW_TABLES)?;
    let row = BookRow {
        id: 1,
        format: 2,
        version: 0,
    };
    put_book(tx, &row)
}

/// Makes the six tables with the row of a new book, in format 2 and at version 0, as one. If a
/// table counts its rowids and the database's counter is missing, the counter is made too, with no
/// rows. The error is the database's, and a crash then leaves none of the tables or all of them.
pub fn make_tables<S: Alter>(conn: &mut Connection<S>) -> Result<(), Error>
    requires { conn.old.in_transaction ≡ false }
    ensures idle { conn.new.in_transaction ≡ false }
    // If a name is taken, the answer is an error.
    ensures commits { HasCleanDisk (state S.Store conn.new)
        → Commits S.Store (making_file S.Store) conn.old (state S.Store conn.new) result }
    // Of a crash at any exit: nothing new is left but all of it, and that only if no name was
    // taken.
    ensures crash { Survives (state S.Store conn.old) (state S.Store conn.new)
        ((making_file S.Store).Left conn.old) }
{
    let mut tx = begin(conn);
    let ran = make_all(&mut tx);
    end(tx, ran)
}
