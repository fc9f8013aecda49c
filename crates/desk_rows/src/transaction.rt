//! A change of the file, as one transaction.

ghost use Rattle.std.specs.Prelude.{◌≡◌, false, true, IfErr, IsOk, IsTrue, OnOk};
ghost use Rattle.std.specs.Iterator.{IsFinite};
ghost use Rattle.sqlite.specs.Held.{state};
ghost use Rattle.sqlite.specs.State.{HasCleanDisk, IsLive, KeepsCommit, Survives};
ghost use Rattle.desk_rows.specs.Commits.{Commits, making_tables, putting_items};
ghost use Rattle.desk_rows.specs.Ending.{Ends};
ghost use Rattle.desk_rows.specs.Failing.{after_tables, of_items};
ghost use Rattle.desk_rows.specs.Tables.{AreWritten};
ghost use Rattle.sql_tables.specs.States.{seen};

use crate::make::create_all;
use crate::put_statements::put_all;
use desk_parts::{FileTable, Put};
use sqlite::{Alter, Connection, Error, Transaction};
use std::alloc::Global;

/// Begins a transaction on a connection that is open and shows the last commit.
pub(crate) fn begin<S: Alter>(conn: &mut Connection<S>) -> Transaction<'_, S>
    requires { conn.old.in_transaction ≡ false }
    ensures same_reference { result.conn.ghost_name ≡ conn.entry.ghost_name }
    ensures begun { result.conn.now ≡ record conn.old { in_transaction = true } }
    ensures live { IsLive (state S.Store conn.old) }
    ensures settled { IsTrue (state S.Store conn.old).is_open
        → (state S.Store conn.old).now ≡ (state S.Store conn.old).committed }
{
    let _ = conn.schema();
    let _ = conn.is_autocommit();
    conn.transaction()
}

/// Ends a transaction in which something ran with this answer: commits it, or undoes it if that
/// failed. The error is that one, or the database's.
pub(crate) fn end<S: Alter>(tx: Transaction<'_, S>, ran: Result<(), Error>) -> Result<(), Error>
    ensures ended { tx.exit.0.now.in_transaction ≡ false }
    ensures ends { HasCleanDisk (state S.Store tx.exit.0.now)
        → Ends ran result (seen S.Store tx.entry) (state S.Store tx.exit.0.now) }
    ensures survives { Survives (seen S.Store tx.entry) (state S.Store tx.exit.0.now)
        (λ db. IsOk ran × (db ≡ (seen S.Store tx.entry).now.trees)) }
{
    ran?;
    tx.commit()
}

/// Puts in turn what an iterator lends and commits it, as one. The caller's condition: the iterator
/// ends. The error is the database's, or that an allocation for what is put failed. A connection
/// that is open then shows the last commit, the one from before, and a crash leaves the rows from
/// before or, if the store failed, all of these.
pub fn write<'a, S: Alter, I: Iterator<Item = Put<'a>> + Drop>(
    alloc: Global,
    conn: &mut Connection<S>,
    puts: I,
) -> Result<(), Error>
    requires idle { conn.old.in_transaction ≡ false }
    requires can { I.can_next puts }
    requires ends { IsFinite (I.remaining puts) }
    ensures idle { conn.new.in_transaction ≡ false }
    ensures commits { HasCleanDisk (state S.Store conn.new)
        → Commits S.Store (putting_items S.Store I.next_gives puts) conn.old
        (state S.Store conn.new) result }
    // Of a crash at any exit: nothing new is left but all of it.
    ensures crash { Survives (state S.Store conn.old) (state S.Store conn.new)
        ((putting_items S.Store I.next_gives puts).Left conn.old) }
{
    let mut tx = begin(conn);
    let ran = put_all(alloc, &mut tx, puts);
    end(tx, ran)
}

/// Makes these tables and puts in turn what an iterator lends. The error is the database's, or that
/// an allocation for what is put failed.
fn make_and_put<'a, S: Alter, I: Iterator<Item = Put<'a>> + Drop>(
    alloc: Global,
    tx: &mut Transaction<'_, S>,
    tables: &[FileTable],
    puts: I,
) -> Result<(), Error>
    requires written { AreWritten tables.now }
    requires can { I.can_next puts }
    requires ends { IsFinite (I.remaining puts) }
    ensures same_reference { tx.new.conn.ghost_name ≡ tx.old.conn.ghost_name }
    ensures put { HasCleanDisk (seen S.Store tx.new)
        → OnOk result ((after_tables S.Store tables.now
        (of_items S.Store I.next_gives puts)).puts tx.old.conn.now tx.new.conn.now) }
    ensures inside { HasCleanDisk (seen S.Store tx.new)
        → (seen S.Store tx.old).in_transaction ≡ true
        → OnOk result ((seen S.Store tx.new).in_transaction ≡ true) }
    ensures reported { HasCleanDisk (seen S.Store tx.new) → (seen S.Store tx.old).in_transaction ≡ true
        → IfErr result ((after_tables S.Store tables.now
        (of_items S.Store I.next_gives puts)).stops tx.old.conn.now (seen S.Store tx.new)) }
    ensures kept { HasCleanDisk (seen S.Store tx.new)
        → KeepsCommit (seen S.Store tx.old) (seen S.Store tx.new) }
    ensures survives { Survives (seen S.Store tx.old) (seen S.Store tx.new) (λ _. ⊥) }
{
    create_all(tx, tables)?;
    put_all(alloc, tx, puts)
}

/// Makes these tables, puts in turn what an iterator lends and commits all of it, as one: so a file
/// gets the tables that it lacks together with their rows. The caller's conditions: `corr` isn't
/// among the tables, and the iterator ends. The error is the database's, for instance if a name is
/// taken. A connection that is open then shows the last commit, the one from before, and a crash
/// leaves the file from before or, if the store failed, the one with all of this.
pub fn write_with_tables<'a, S: Alter, I: Iterator<Item = Put<'a>> + Drop>(
    alloc: Global,
    conn: &mut Connection<S>,
    tables: &[FileTable],
    puts: I,
) -> Result<(), Error>
    requires idle { conn.old.in_transaction ≡ false }
    requires written { AreWritten tables.now }
    requires can { I.can_next puts }
    requires ends { IsFinite (I.remaining puts) }
    ensures idle { conn.new.in_transaction ≡ false }
    ensures commits { HasCleanDisk (state S.Store conn.new)
        → Commits S.Store (making_tables S.Store tables.now I.next_gives puts) conn.old
        (state S.Store conn.new) result }
    // Of a crash at any exit: nothing new is left but all of it.
    ensures crash { Survives (state S.Store conn.old) (state S.Store conn.new)
        ((making_tables S.Store tables.now I.next_gives puts).Left conn.old) }
{
    let mut tx = begin(conn);
    let ran = make_and_put(alloc, &mut tx, tables, puts);
    end(tx, ran)
}
