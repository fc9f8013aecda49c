//! The store of a book: the connection of its file, on which changes are kept.

ghost use Rattle.std.specs.Prelude.{◌≡◌, false, true, IfErr, IsErr, IsTrue, OnErr, OnOk, is_ok};
ghost use Rattle.desk_book.specs.Changes.{Carries};
ghost use Rattle.desk_store.specs.Keeping.{FailsToKeep, KeepsChange, shown_by};
ghost use Rattle.sqlite.specs.Held.{state};
ghost use Rattle.sqlite.specs.State.{HasCleanDisk};

use desk_book::{Book, Change};
use desk_rows::write;
use sqlite::{Alter, Connection, Error as DatabaseError};
use std::alloc::Global;
use std::marker::Model;
use thiserror::Error;

/// A change wasn't kept. Only opening the file again shows whether it holds the change.
#[derive(Clone, Copy, Debug, Error, PartialEq, Eq)]
#[error("the change wasn't kept")]
pub struct Lost;

/// The connection of a book's file, on which no transaction is open, and whether a change was lost
/// on it. Contracts see both.
#[derive(Drop)]
pub struct Store<S: Alter> {
    connection: Connection<S>,
    lost: bool,
}

impl<S: Alter> Model for Store<S> {
    ghost use Rattle.desk_store.specs.Keeping.{Store, store_code};
    ghost use Rattle.std.specs.Prelude.{◌≡◌, false};

    ghost Value = { Store S };

    ghost coded = { store_code S.code };

    ghost view = { λ s. record { connection = s.connection; lost = s.lost } };

    ghost invariant = { λ s. s.connection.in_transaction ≡ false };
}

/// Puts what a change lends, as one transaction. The caller's conditions: no transaction is open,
/// and the change was planned on the book. What is put is lent from both.
fn put_change<'a, S: Alter>(
    alloc: Global,
    conn: &mut Connection<S>,
    book: &'a Book,
    change: &'a Change,
) -> Result<(), DatabaseError>
    requires idle { conn.old.in_transaction ≡ false }
    requires planned { (command : _) × (next : _) × Carries book.now command next change.now }
    ensures idle { conn.new.in_transaction ≡ false }
    ensures keeps { KeepsChange S.Store book.now change.now conn.old (state S.Store conn.new)
        (is_ok result) }
    ensures reported { HasCleanDisk (state S.Store conn.new)
        → IfErr result (FailsToKeep S.Store book.now change.now conn.old (state S.Store conn.new)) }
{
    write(alloc, conn, change.puts(book))
}

impl<S: Alter> Store<S> {
    /// The store of a connection on which no transaction is open.
    pub fn over(connection: Connection<S>) -> Self
        requires { connection.in_transaction ≡ false }
        ensures { result ≡ record { connection = connection; lost = false } }
    {
        Store {
            connection,
            lost: false,
        }
    }

    /// Keeps a change of the book in its file, as one transaction. The caller's condition: the
    /// change was planned on the book. If the file has the tables of a new one and shows the book,
    /// it then shows the next one, and so does whatever a crash leaves.
    ///
    /// # Errors
    ///
    /// [`Lost`] if a call of the database or an allocation failed. A connection that is still open
    /// then shows what it showed before. From then on nothing is written, and every answer is
    /// [`Lost`].
    pub fn keep(&mut self, alloc: Global, book: &Book, change: &Change) -> Result<(), Lost>
        requires planned { (command : _) × (next : _) × Carries book.now command next change.now }
        ensures keeps { KeepsChange S.Store book.now change.now self.old.connection
            (shown_by S.Store self.new) (is_ok result) }
        // The first loss has a cause: the database answered an error to one of the statements of
        // what this change puts, or to the commit, or an allocation failed. That this isn't
        // reported without one is shown by tests.
        ensures reported { HasCleanDisk (shown_by S.Store self.new) → self.old.lost ≡ false
            → OnErr result ((e : _) × FailsToKeep S.Store book.now change.now
            self.old.connection (shown_by S.Store self.new) e) }
        ensures nothing { IsTrue self.old.lost → IsErr result × (self.new ≡ self.old) }
        ensures lost { OnErr result (self.new.lost ≡ true) }
        ensures not_lost { OnOk result (self.new.lost ≡ false) }
    {
        if self.lost {
            return Err(Lost);
        }
        match put_change(alloc, &mut self.connection, book, change) {
            Ok(()) => Ok(()),
            Err(_) => {
                self.lost = true;
                Err(Lost)
            }
        }
    }

    /// Hands the connection back, after a loss too. No transaction is open on it.
    pub fn release(self) -> Connection<S>
        ensures same { result ≡ self.connection }
        ensures idle { result.in_transaction ≡ false }
    {
        self.connection
    }
}
