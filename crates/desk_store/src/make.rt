//! The making of a new book's file.

ghost use Rattle.std.specs.Prelude.{◌≡◌, false, true, Err, IfErr, OnErr, OnOk};
ghost use Rattle.sqlite.specs.Held.{state};
ghost use Rattle.sqlite.specs.declared.error.Error.{Error as Failure};
ghost use Rattle.sqlite.specs.State.{HasCleanDisk, Survives};
ghost use Rattle.sql_tables.specs.States.{IsCommitted, IsSettled, ShowsAsBefore};
ghost use Rattle.desk_rows.specs.Failing.{FailsToChange, of_first_row};
ghost use Rattle.desk_rows.specs.Making.{IsMade, IsNew, new_layout, new_tables};
ghost use Rattle.desk_store.specs.Opening.{IsOpenedAs};
ghost use Rattle.desk_rows.specs.States.{ShowsContents};
ghost use Rattle.desk_rows.specs.Tables.{is_there};
ghost use Rattle.desk_rows.specs.Statements.{with_transaction};

use crate::fault::OpenFault;
use desk_parts::FileTable;
use desk_rows::{DatabaseFault, has_table, make_tables};
use sqlite::{Alter, Connection};

/// Makes the file of a new book, in one transaction, in a file that has none of a book's tables
/// except perhaps `cache`: if that is there, nothing is made.
///
/// # Errors
///
/// [`OpenFault::NotABook`] if a name is taken or making the tables is refused, and otherwise that
/// an allocation or the store failed. What the connection shows is as it was, if it is still open.
pub(crate) fn make_book<S: Alter>(conn: &mut Connection<S>) -> Result<(), OpenFault>
    requires { conn.old.in_transaction ≡ false }
    ensures idle { conn.new.in_transaction ≡ false }
    ensures made { HasCleanDisk (state S.Store conn.new)
        → OnOk result (IsNew (state S.Store conn.old).now.schema (state S.Store conn.old).now.trees
        (λ c. ShowsContents (new_layout (state S.Store conn.old).now.schema) c (state S.Store conn.new))
        × IsCommitted (state S.Store conn.new) × IsSettled (state S.Store conn.new)) }
    // Of a crash at any exit: nothing new is left but all of it, and that only if no name was
    // taken.
    ensures crash { Survives (state S.Store conn.old) (state S.Store conn.new)
        (IsMade (state S.Store conn.old)) }
    ensures as_before { HasCleanDisk (state S.Store conn.new)
        → OnErr result (ShowsAsBefore (state S.Store conn.old) (state S.Store conn.new)) }
    // After a refusal a crash leaves nothing new.
    ensures refused { HasCleanDisk (state S.Store conn.new)
        → IfErr result (λ fault. fault ≡ OpenFault.NotABook
        → Survives (state S.Store conn.old) (state S.Store conn.new) (λ _. ⊥)) }
    // The error is what the database answered to one of the statements or to the commit.
    ensures reported { HasCleanDisk (state S.Store conn.new)
        → is_there (state S.Store conn.old).now.schema FileTable.Cache ≡ false
        → IfErr result (λ reported. (e : Failure)
        × FailsToChange S.Store new_tables (of_first_row S.Store) (with_transaction conn.old)
        (state S.Store conn.new) e × IsOpenedAs e reported) }
    // If `cache` is there, nothing is done.
    ensures beside { is_there (state S.Store conn.old).now.schema FileTable.Cache ≡ true
        → (result ≡ Err OpenFault.NotABook) × (conn.new ≡ conn.old) }
{
    if has_table(conn, FileTable::Cache) {
        return Err(OpenFault::NotABook);
    }
    match make_tables(conn) {
        Ok(()) => Ok(()),
        Err(error) => Err(OpenFault::from(DatabaseFault::of(error))),
    }
}
