//! Laws of what opening a book's file finds.

ghost use Rattle.desk_model.specs.Book.{Book, empty_book};
ghost use Rattle.desk_rows.specs.Contents.{Contents};
ghost use Rattle.desk_rows.specs.Layout.{Layout};
ghost use Rattle.desk_store.specs.Keeping.{HasNewTables, LeavesBook, LeavesEither};
ghost use Rattle.desk_store.specs.Formats.{Format, IsExact, IsOfEither, IsOfFormat};
ghost use Rattle.desk_store.specs.Found.{HasNone, RowsShowIn};
ghost use Rattle.desk_store.specs.Opened.{FindsBook, HoldsEither, HoldsEmpty, HoldsNone};
ghost use Rattle.desk_store.specs.Opened.{OpensBook, Stands, StopsOpening, TellsOf};
ghost use Rattle.desk_store.specs.Opening.{IsRefusal};
ghost use Rattle.desk_store.specs.Reopened.{IsKeptThere, LeavesOneOf};
ghost use Rattle.desk_store.specs.Undamaged.{HasBook, IsUndamaged};
ghost use Rattle.desk_store.specs.declared.fault.OpenFault.{OpenFault};
ghost use Rattle.sql_tables.specs.States.{Leaves, ShowsAsBefore};
ghost use Rattle.sqlite.specs.Held.{state};
ghost use Rattle.sqlite.specs.State.{Opens};
ghost use Rattle.std.specs.List.{Contains};
ghost use Rattle.std.specs.Prelude.{Bool, IfErr, IfOk, IsTrue, List, Ok, Result, [], ◌∷◌, ◌↔◌, ◌≡◌, ◌⊎◌};

use sqlite::{Alter, Connection};

/// Whatever a crash leaves of a connection, if each outcome holds one of some books in a file of
/// either format: a connection that opened at it finds one of these when the book is opened, or no
/// refusal is reported. The book that is found is then kept in a file with the tables of a new one.
/// If each outcome holds no book or the empty one, only the empty book is found or made, or it is
/// reported that there is none, and there is none.
pub fn found_after_a_crash<S: Alter, T: Alter>(
    last: &Connection<S>,
    next: &Connection<T>,
    opened: &Connection<T>,
)
    ensures found { (books : List Book) (make : Bool) (result : Result Book OpenFault)
        → LeavesOneOf books (state S.Store last.now)
        → (state S.Store last.now).may_leave (state T.Store next.now).committed.trees
        → Opens (state T.Store next.now)
        → OpensBook T.Store make next.now (state T.Store opened.now) result
        → FindsBook (Contains books) result }
    ensures kept { (books : List Book) (make : Bool) (book : Book)
        → LeavesOneOf books (state S.Store last.now)
        → (state S.Store last.now).may_leave (state T.Store next.now).committed.trees
        → Opens (state T.Store next.now)
        → OpensBook T.Store make next.now (state T.Store opened.now) (Ok book)
        → IsKeptThere book (state T.Store opened.now) }
    ensures none { (make : Bool) (result : Result Book OpenFault)
        → Leaves (λ db. HoldsNone db ⊎ HoldsEmpty db) (state S.Store last.now)
        → (state S.Store last.now).may_leave (state T.Store next.now).committed.trees
        → Opens (state T.Store next.now)
        → OpensBook T.Store make next.now (state T.Store opened.now) result
        → IfOk result (λ found. found ≡ empty_book) × IfErr result (λ fault. IsRefusal fault
        → (fault ≡ OpenFault.NotABook) × HasNone (state T.Store next.now).now.schema) }
{
    let _ = next.schema();
}

/// What opening a book and keeping a change leave, at any exit, is one of some books: the one that
/// stood there, in the file as it was or with the tables that it lacked; the book or the next one;
/// or the empty book.
pub fn left_at_any_exit<S: Alter>(conn: &Connection<S>)
    ensures opened { (format : Format) (l : Layout) (book : Book) → IsOfFormat format l
        → Leaves (HoldsEither l book) (state S.Store conn.now)
        → LeavesOneOf (book ∷ []) (state S.Store conn.now) }
    ensures made { Leaves HoldsEmpty (state S.Store conn.now)
        → LeavesOneOf (empty_book ∷ []) (state S.Store conn.now) }
    ensures kept { (l : Layout) (book : Book) → HasNewTables l
        → LeavesBook l book (state S.Store conn.now)
        → LeavesOneOf (book ∷ []) (state S.Store conn.now) }
    ensures lost { (l : Layout) (book next : Book) → HasNewTables l
        → LeavesEither l book next (state S.Store conn.now)
        → LeavesOneOf (book ∷ next ∷ []) (state S.Store conn.now) }
{}

/// A file whose tables, or those of them that are read in a file of a format, are declared as those
/// of a new one shows a book exactly if its row of `book` is sound, its tables can be read and
/// there is no damage. Nothing for which a file is refused is then reported of it; and of any other
/// file at most one such thing.
pub fn files_that_show_a_book()
    ensures book { (l : Layout) (c : Contents) → IsExact l ⊎ IsOfEither l
        → (HasBook l c ↔ IsUndamaged l c) }
    ensures unrefused { (l : Layout) (c : Contents) (fault : OpenFault) → HasBook l c
        → TellsOf l c fault → ¬ IsRefusal fault }
    ensures one { (l : Layout) (c : Contents) (fault other : OpenFault) → IsRefusal fault
        → IsRefusal other → TellsOf l c fault → TellsOf l c other → fault ≡ other }
{}

/// A file in which a book stands shows its rows so, by the statements that read it, over any
/// connection that is open.
pub fn rows_of_a_standing_book<S: Alter>(conn: &Connection<S>)
    ensures { IsTrue (state S.Store conn.now).is_open → (l : Layout) (book : Book)
        → Stands l book (state S.Store conn.now) → RowsShowIn (state S.Store conn.now) book }
{}

/// A connection that showed its last commit, and whose file wasn't opened though it isn't refused:
/// if it is open still, it shows what it showed before.
pub fn still_shown_where_opening_stopped<S: Alter>(old: &Connection<S>, new: &Connection<S>)
    ensures { (fault : OpenFault) → StopsOpening S.Store old.now (state S.Store new.now) fault
        → (state S.Store old.now).now ≡ (state S.Store old.now).committed
        → ShowsAsBefore (state S.Store old.now) (state S.Store new.now) }
{}
