//! Laws of what the next session finds.
ghost use Rattle.desk_model.specs.Book.{Book};
ghost use Rattle.desk_rows.specs.Layout.{Layout};
ghost use Rattle.desk_session.specs.Reopened.{IsKeptBook};
ghost use Rattle.desk_session.specs.Service.{EndsAs, IsLeft};
ghost use Rattle.desk_session.specs.Session.{GivenCommand, IsSession, Turn};
ghost use Rattle.desk_session.specs.declared.session.Ended.{Ended};
ghost use Rattle.desk_store.specs.Keeping.{HasNewTables, MayServe, shown_by};
ghost use Rattle.desk_store.specs.Completing.{with_missing_tables};
ghost use Rattle.desk_store.specs.Opened.{FindsBook, HoldsEither, OpensBook, Stands, StopsOpening};
ghost use Rattle.desk_store.specs.Reopened.{IsKeptThere};
ghost use Rattle.desk_store.specs.declared.fault.OpenFault.{OpenFault};
ghost use Rattle.sql_tables.specs.States.{Leaves};
ghost use Rattle.sqlite.specs.Held.{state};
ghost use Rattle.sqlite.specs.State.{Opens};
ghost use Rattle.std.specs.Prelude.{Bool, IsTrue, List, Ok, Result, ◌≡◌};

use desk_store::Store;
use sqlite::{Alter, Connection};

/// Whatever a crash leaves after a session, however that ended: if a connection opened at it and
/// the book is opened, the book after the first of the commands that the session gave is found,
/// with all that were acknowledged and at most one more, or no refusal is reported. The next
/// session may begin with that book.
pub fn opened_after_a_session<S: Alter, T: Alter>(
    last: &Store<S>,
    next: &Connection<T>,
    opened: &Connection<T>,
)
    ensures found { (l : Layout) (book held : Book) (ended : Ended) (turns : List Turn)
        (given : List GivenCommand) → HasNewTables l → IsSession book turns given held → EndsAs ended turns
        → IsLeft l book held ended given (shown_by S.Store last.now)
        → (shown_by S.Store last.now).may_leave (state T.Store next.now).committed.trees
        → Opens (state T.Store next.now) → (make : Bool) (result : Result Book OpenFault)
        → OpensBook T.Store make next.now (state T.Store opened.now) result
        → FindsBook (IsKeptBook book turns given) result }
    ensures begins { (l : Layout) (book held : Book) (ended : Ended) (given : List GivenCommand)
        → HasNewTables l → IsLeft l book held ended given (shown_by S.Store last.now)
        → (shown_by S.Store last.now).may_leave (state T.Store next.now).committed.trees
        → Opens (state T.Store next.now) → (make : Bool) (found : Book)
        → OpensBook T.Store make next.now (state T.Store opened.now) (Ok found)
        → IsKeptThere found (state T.Store opened.now) }
{
    let _ = next.schema();
}

/// A session may begin with a book that is opened again after its file was left as it was or as
/// completed, as by an opening that failed to complete it.
pub fn begins_after_a_failed_opening<S: Alter>(old: &Connection<S>, new: &Connection<S>)
    ensures { (make : Bool) (book : Book)
        → OpensBook S.Store make old.now (state S.Store new.now) (Ok book) → (l : Layout)
        → Stands l book (state S.Store old.now) → Leaves (HoldsEither l book) (state S.Store old.now)
        → MayServe (with_missing_tables l) book (state S.Store new.now) }
{}

/// A session may begin too if the file of a book wasn't opened at first, though it isn't refused,
/// and the book is opened on the same connection then, which was open still. What a crash would
/// leave in between is what opening leaves at any exit.
pub fn begins_where_opening_stopped_first<S: Alter>(
    first: &Connection<S>,
    old: &Connection<S>,
    new: &Connection<S>,
)
    ensures { (make : Bool) (book : Book) (fault : OpenFault)
        → StopsOpening S.Store first.now (state S.Store old.now) fault
        → (state S.Store first.now).now ≡ (state S.Store first.now).committed
        → IsTrue (state S.Store old.now).is_open → (l : Layout)
        → Stands l book (state S.Store first.now) → Leaves (HoldsEither l book) (state S.Store old.now)
        → OpensBook S.Store make old.now (state S.Store new.now) (Ok book)
        → MayServe (with_missing_tables l) book (state S.Store new.now) }
{}
