//! A crash, and what is opened after it.

ghost use Rattle.std.specs.Prelude.{◌≡◌, ◌⊎◌, false, None, IfErr, IfOk, OnOk};
ghost use Rattle.sqlite_trees.specs.Tree.{Trees};
ghost use Rattle.sqlite_trees.specs.View.{IsClean};
ghost use Rattle.sqlite.specs.Held.{state};
ghost use Rattle.sqlite.specs.State.{HasCleanDisk, IsLive, Opens};
ghost use Rattle.desk_rows.specs.Contents.{Contents};
ghost use Rattle.desk_rows.specs.Fault.{FailsToReopen};
ghost use Rattle.desk_rows.specs.Layout.{Layout};
ghost use Rattle.std.specs.Iterator.{IsFinite};
ghost use Rattle.desk_rows.specs.Puts.{HasThem, OfItems, Writes, puts_into};
ghost use Rattle.desk_rows.specs.States.{IsFile, ShowsContents};
ghost use Rattle.sql_tables.specs.States.{IsSettled, Leaves};

use crate::fault::DatabaseFault;
use crate::open::open_file;
use crate::transaction::write;
use desk_parts::Put;
use sqlite::{Alter, Connection, Error};
use sqlite_trees::error::StoreError;
use sqlite_trees::store::Reopen;
use std::alloc::Global;

/// Has the store crash under a connection, and opens what is left. The store comes back with an
/// error, never that this is no database.
pub fn reopen<S: Alter + Reopen + Drop>(
    alloc: Global,
    conn: Connection<S>,
) -> Result<Connection<S>, (DatabaseFault, S)>
    ensures opens { IfOk result (λ after. HasCleanDisk (state S.Store after)
        → Opens (state S.Store after) × IsLive (state S.Store after)) }
    ensures unlimited { IfOk result (λ after. (state S.Store after).step_limit ≡ None) }
    // Whatever property each outcome of a crash had, what is opened has it.
    ensures found { IfOk result (λ after. HasCleanDisk (state S.Store after)
        → (state S.Store conn).may_leave (state S.Store after).now.trees) }
    ensures shows { IfOk result (λ after. HasCleanDisk (state S.Store after)
        → (l : Layout) (c : Contents)
        → IsFile l c (state S.Store after).now.trees → ShowsContents l c (state S.Store after)) }
    // A further crash leaves just what is shown.
    ensures settled { IfOk result (λ after. HasCleanDisk (state S.Store after)
        → IsSettled (state S.Store after)) }
    ensures idle { IfOk result (λ after. after.in_transaction ≡ false) }
    ensures clean { IfOk result (λ after. HasCleanDisk (state S.Store after)
        → HasCleanDisk (state S.Store conn)) }
    ensures reported { IfErr result (λ e. IsClean (S.Store.view e.1)
        → FailsToReopen (state S.Store conn).faults (S.Store.faults e.1) e.0) }
    // After an error it leaves nothing new.
    ensures quiet { IfErr result (λ e. IsClean (S.Store.view e.1)
        → HasCleanDisk (state S.Store conn)
        × ((db : Trees) → S.Store.recovers e.1 db → (state S.Store conn).may_leave db)) }
{
    let mut store = conn.into_store();
    match store.crash_and_reopen() {
        Ok(()) => open_file(alloc, store),
        Err(StoreError::OutOfMemory) => Err((DatabaseFault::NoMemory, store)),
        Err(_) => Err((DatabaseFault::Lost, store)),
    }
}

/// Puts in turn what an iterator lends, has the store crash whatever the answer, and opens what is
/// left: it shows the rows from before, or those with all of these, which at `Ok` are there. The
/// store comes back with an error of the opening. The caller's condition: the iterator ends.
pub fn reopen_after_write<'a, S: Alter + Reopen + Drop, I: Iterator<Item = Put<'a>> + Drop>(
    alloc: Global,
    mut conn: Connection<S>,
    puts: I,
) -> Result<(Result<(), Error>, Connection<S>), (DatabaseFault, S)>
    requires idle { conn.in_transaction ≡ false }
    requires can { I.can_next puts }
    requires ends { IsFinite (I.remaining puts) }
    ensures idle { IfOk result (λ it. it.1.in_transaction ≡ false) }
    ensures opens { IfOk result (λ it. HasCleanDisk (state S.Store it.1)
        → Opens (state S.Store it.1) × IsLive (state S.Store it.1)) }
    ensures unlimited { IfOk result (λ it. (state S.Store it.1).step_limit ≡ None) }
    ensures settled { IfOk result (λ it. HasCleanDisk (state S.Store it.1)
        → IsSettled (state S.Store it.1)) }
    ensures clean { IfOk result (λ it. HasCleanDisk (state S.Store it.1)
        → HasCleanDisk (state S.Store conn)) }
    ensures crash { IfOk result (λ it. HasCleanDisk (state S.Store it.1)
        → (l : Layout) (c : Contents) → ShowsContents l c (state S.Store conn)
        → Leaves (IsFile l c) (state S.Store conn)
        → ShowsContents l c (state S.Store it.1) ⊎ OfItems I.next_gives puts (λ xs. HasThem l xs
        → ShowsContents l (puts_into xs c) (state S.Store it.1))) }
    ensures reported { IfErr result (λ e. IsClean (S.Store.view e.1)
        → FailsToReopen (state S.Store conn).faults (S.Store.faults e.1) e.0) }
    ensures kept { IfOk result (λ it. HasCleanDisk (state S.Store it.1)
        → OnOk it.0 (OfItems I.next_gives puts (λ xs. Writes xs (state S.Store conn)
        (state S.Store it.1)))) }
{
    let answer = write(alloc, &mut conn, puts);
    let after = reopen(alloc, conn)?;
    Ok((answer, after))
}
