//! A book's file opened: checked, read whole, and completed if it lacks tables; or made.

ghost use Rattle.std.specs.Prelude.{◌≡◌, ◌⊎◌, Bool, Err, None, Some, false, true, IfErr, IfOk, IsTrue, Ok, OnOk};
ghost use Rattle.desk_model.specs.Book.{Book as BookOf};
ghost use Rattle.desk_store.specs.Keeping.{LeavesBook, shown_by};
ghost use Rattle.desk_store.specs.Found.{HasNone};
ghost use Rattle.desk_rows.specs.Layout.{Layout};
ghost use Rattle.desk_rows.specs.Making.{with_tables};
ghost use Rattle.desk_store.specs.FillingSteps.{FillsFile, HoldsEitherWith, which_lacked};
ghost use Rattle.desk_store.specs.Opened.{HoldsEither, HoldsEmpty, HoldsNone, OpensFile, Stands};
ghost use Rattle.sql_tables.specs.States.{Leaves};
ghost use Rattle.sqlite.specs.Held.{Held, state};
ghost use Rattle.sqlite.specs.State.{HasCleanDisk};

use crate::book_file::{has_any, read_parts};
use crate::fault::OpenFault;
use crate::fill::{fill, lacked_by};
use crate::make::make_book;
use crate::store::Store;
use desk_book::{Book, NewTables};
use desk_parts::FileTable;
use sqlite::{Alter, Connection};
use std::alloc::Global;

/// The tables by which a book's file is known, in either format.
const KNOWN_TABLES: [FileTable; 6] = [
    FileTable::Book,
    FileTable::Tab,
    FileTable::Para,
    FileTable::Corr,
    FileTable::Mark,
    FileTable::NamedCorr,
];

/// Makes the tables that a book's file lacks, if it lacks any, and fills them.
fn complete<S: Alter>(
    alloc: Global,
    conn: &mut Connection<S>,
    book: &Book,
    lacked: Option<NewTables>,
) -> Result<(), OpenFault>
    requires { conn.old.in_transaction ≡ false }
    ensures idle { conn.new.in_transaction ≡ false }
    ensures fills { FillsFile S.Store lacked book.now conn.old (state S.Store conn.new) result }
    ensures open { HasCleanDisk (state S.Store conn.new) → IsTrue (state S.Store conn.old).is_open
        → OnOk result (IsTrue (state S.Store conn.new).is_open) }
    ensures leaves { HasCleanDisk (state S.Store conn.new) → (l : Layout)
        → Stands l book.now (state S.Store conn.old)
        → Leaves (HoldsEitherWith (which_lacked lacked) l book.now) (state S.Store conn.old) → OnOk result
        (LeavesBook (with_tables (which_lacked lacked) l) book.now (state S.Store conn.new)) }
{
    match lacked {
        Some(tables) => fill(alloc, conn, book, tables),
        None => Ok(()),
    }
}

/// Opens the file of a book, in which a table of one is there.
fn open_book<S: Alter>(alloc: Global, conn: &mut Connection<S>) -> Result<Book, OpenFault>
    requires idle { conn.old.in_transaction ≡ false }
    requires unlimited { conn.old.step_limit ≡ None }
    requires there { ¬ HasNone (state S.Store conn.old).now.schema }
    ensures idle { conn.new.in_transaction ≡ false }
    ensures opens { (make : Bool)
        → OpensFile S.Store make conn.old (state S.Store conn.new) result }
{
    let parts = read_parts(alloc, conn)?;
    let lacked = lacked_by(&parts);
    let book = Book::rebuild(alloc, parts)?;
    complete(alloc, conn, &book, lacked)?;
    Ok(book)
}

/// Makes a new book, the empty one, in a file that has none of a book's tables.
fn open_new<S: Alter>(alloc: Global, conn: &mut Connection<S>) -> Result<Book, OpenFault>
    requires idle { conn.old.in_transaction ≡ false }
    requires bare { HasNone (state S.Store conn.old).now.schema }
    ensures idle { conn.new.in_transaction ≡ false }
    ensures opens { OpensFile S.Store true conn.old (state S.Store conn.new) result }
{
    let Ok(book) = Book::new(alloc) else {
        unreachable!()
    };
    make_book(conn)?;
    Ok(book)
}

impl<S: Alter> Store<S> {
    /// Opens the book of a file: the one that its rows show, with the braille of its prints. A file
    /// of format 1 is brought to format 2, and one without the cells of its paragraphs gets them,
    /// as one transaction. If none of a book's tables is there and `make` is true, the file of the
    /// empty book is made. The caller's conditions: no transaction is open on the connection, and
    /// it has no limit on steps.
    ///
    /// # Errors
    ///
    /// [`OpenFault::NotABook`], [`OpenFault::NewerFormat`] and [`OpenFault::Damaged`] if the file
    /// shows no book; it then stays as it was. [`OpenFault::Lost`] if a call of the database
    /// failed, and [`OpenFault::NoMemory`]: the file holds the same book, as it was or with the
    /// tables that it lacked.
    pub fn open_on(
        alloc: Global,
        connection: &mut Connection<S>,
        make: bool,
    ) -> Result<Book, OpenFault>
        requires idle { connection.old.in_transaction ≡ false }
        requires unlimited { connection.old.step_limit ≡ None }
        ensures idle { connection.new.in_transaction ≡ false }
        ensures opens { OpensFile S.Store make connection.old (state S.Store connection.new) result }
        ensures either { HasCleanDisk (state S.Store connection.new) → (l : Layout) (book : BookOf)
            → Stands l book (state S.Store connection.old)
            → Leaves (HoldsEither l book) (state S.Store connection.old)
            → Leaves (HoldsEither l book) (state S.Store connection.new) }
        ensures none { HasCleanDisk (state S.Store connection.new)
            → HasNone (state S.Store connection.old).now.schema
            → Leaves HoldsNone (state S.Store connection.old)
            → Leaves (λ db. HoldsNone db ⊎ HoldsEmpty db) (state S.Store connection.new) }
    {
        if has_any(connection, &KNOWN_TABLES) {
            open_book(alloc, connection)
        } else if make {
            open_new(alloc, connection)
        } else {
            Err(OpenFault::NotABook)
        }
    }
}

impl<S: Alter + Drop> Store<S> {
    /// Opens the book of a file as [`Store::open_on`] does, and takes the connection.
    ///
    /// # Errors
    ///
    /// Those of [`Store::open_on`]; the connection is then dropped.
    pub fn adopt(
        alloc: Global,
        mut connection: Connection<S>,
        make: bool,
    ) -> Result<(Self, Book), OpenFault>
        requires idle { connection.in_transaction ≡ false }
        requires unlimited { connection.step_limit ≡ None }
        ensures opens { IfOk result (λ it.
            OpensFile S.Store make connection (shown_by S.Store it.0) (Ok it.1)) }
        ensures kept { IfOk result (λ it. it.0.lost ≡ false) }
        // This holds of some connection; that it is the one that was dropped, no contract can say.
        ensures reported { IfErr result (λ fault. (last : Held S)
            × OpensFile S.Store make connection (state S.Store last) (Err fault)) }
    {
        let book = Store::open_on(alloc, &mut connection, make)?;
        Ok((Store::over(connection), book))
    }
}
