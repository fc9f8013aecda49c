//! A file that is there, opened.

ghost use Rattle.std.specs.Prelude.{◌≡◌, ◌<◌, ◌^◌, ◌-◌, false, None, IfOk, IfErr};
ghost use Rattle.sqlite_trees.specs.View.{IsClean, IsQuiet};
ghost use Rattle.sqlite.specs.Held.{state};
ghost use Rattle.sqlite.specs.State.{HasCleanDisk, IsLive, Opens};
ghost use Rattle.sqlite.specs.Steps.{FailsToOpen, IsFresh};
ghost use Rattle.sqlite.specs.declared.error.Error.{Error as Failure};
ghost use Rattle.sqlite_disk.specs.Disk.{MoreFaults};
ghost use Rattle.desk_rows.specs.Fault.{IsReportedAs};
ghost use Rattle.desk_rows.specs.Contents.{Contents};
ghost use Rattle.desk_rows.specs.Layout.{Layout};
ghost use Rattle.desk_rows.specs.States.{IsFile, ShowsContents};
ghost use Rattle.sql_tables.specs.States.{Leaves};

use crate::fault::DatabaseFault;
use sqlite::{Alter, Connection};
use std::alloc::Global;

/// Opens the database of a store, whose schema is read from it. The store comes back with an error.
pub fn open_file<S: Alter + Drop>(
    alloc: Global,
    store: S,
) -> Result<Connection<S>, (DatabaseFault, S)>
    requires { IsClean (S.Store.view store) → IsFresh (S.Store.view store) }
    ensures shows { IfOk result (λ conn. HasCleanDisk (state S.Store conn)
        → (l : Layout) (c : Contents) → IsFile l c (S.Store.view store).trees
        → ShowsContents l c (state S.Store conn)) }
    ensures idle { IfOk result (λ conn. conn.in_transaction ≡ false) }
    ensures opens { IfOk result (λ conn. HasCleanDisk (state S.Store conn)
        → Opens (state S.Store conn) × IsLive (state S.Store conn)) }
    // The connection has no limit on steps.
    ensures unlimited { IfOk result (λ conn. (state S.Store conn).step_limit ≡ None) }
    ensures trees { IfOk result (λ conn. HasCleanDisk (state S.Store conn)
        → (state S.Store conn).now.trees ≡ (S.Store.view store).trees) }
    ensures clean { IfOk result (λ conn. HasCleanDisk (state S.Store conn)
        → IsClean (S.Store.view store)) }
    // A crash then leaves what was there.
    ensures crash { IfOk result (λ conn. HasCleanDisk (state S.Store conn)
        → Leaves (λ db. db ≡ (S.Store.view store).trees) (state S.Store conn)) }
    // It is what the database answers to such trees.
    ensures reported { IfErr result (λ e. IsClean (S.Store.view e.1)
        → (error : Failure)
        × FailsToOpen (S.Store.view store).trees (MoreFaults (S.Store.faults store)
        (S.Store.faults e.1)) error × IsReportedAs error e.0) }
    // What is a file of any layout is never refused.
    ensures refused { IfErr result (λ e. IsClean (S.Store.view e.1) → e.0 ≡ DatabaseFault.Refused
        → (l : Layout) (c : Contents) → ¬ IsFile l c (S.Store.view store).trees) }
    // It is lost only if the store counts more failures, unless its count is at its limit.
    ensures lost { IfErr result (λ e. IsClean (S.Store.view e.1) → e.0 ≡ DatabaseFault.Lost
        → S.Store.faults e.1 < 2 ^ 64 - 1 → S.Store.faults store < S.Store.faults e.1) }
    // After an error it leaves nothing new.
    ensures quiet { IfErr result
        (λ e. IsQuiet S.Store.view S.Store.faults S.Store.recovers S.Store.is_shielded store e.1) }
{
    match Connection::over(alloc, store) {
        Ok(conn) => Ok(conn),
        Err((error, store)) => Err((DatabaseFault::of(error), store)),
    }
}
