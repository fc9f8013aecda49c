//! Laws of sessions.
ghost use Rattle.desk_model.specs.After.{After};
ghost use Rattle.desk_model.specs.Book.{Book};
ghost use Rattle.desk_line.specs.declared.answer.Answer.TheVariants.{Done};
ghost use Rattle.desk_line.specs.Request.{Requests};
ghost use Rattle.desk_session.specs.Requests.{FirstRequests};
ghost use Rattle.desk_session.specs.Service.{EndsAs, IsFoundAfter, IsLeft};
ghost use Rattle.desk_session.specs.declared.session.Ended.{Ended};
ghost use Rattle.desk_store.specs.Keeping.{HasNewTables, LeavesBook, MayServe, shown_by};
ghost use Rattle.desk_store.specs.Found.{HasNone};
ghost use Rattle.desk_rows.specs.Layout.{Layout};
ghost use Rattle.desk_rows.specs.Making.{new_layout};
ghost use Rattle.desk_store.specs.Completing.{with_missing_tables};
ghost use Rattle.desk_store.specs.Opened.{OpensBook, Stands};
ghost use Rattle.sqlite.specs.Held.{state};
ghost use Rattle.sqlite.specs.State.{Opens};
ghost use Rattle.desk_session.specs.Session.{AllButOne, GivenCommand, IsGivenBy, IsHeld, IsLife, IsSession};
ghost use Rattle.desk_session.specs.Session.{SessionRecord, Turn, commands_of, kept_commands};
ghost use Rattle.std.specs.Prelude.{[], ◌≡◌, ◌++◌, ◌∷◌, ℕ, Bool, List, Ok, Option, true};
ghost use Rattle.std.specs.List.{Contains};

use desk_store::Store;
use sqlite::{Alter, Connection};

/// Each command that a session gave was a request of it, done and acknowledged if the writer took
/// the whole reply, or lost and not acknowledged; and each request that was done was given so.
pub fn given_commands()
    ensures given { (book last : Book) (turns : List Turn) (given : List GivenCommand) (one : GivenCommand)
        → IsSession book turns given last → Contains given one
        → (turn : Turn) × Contains turns turn × IsGivenBy turn one }
    ensures done { (book last : Book) (turns : List Turn) (given : List GivenCommand)
        (turn : Turn) (number : Option ℕ)
        → IsSession book turns given last → Contains turns turn → turn.answer ≡ Done number
        → (one : GivenCommand) × Contains given one × IsGivenBy turn one }
{}

/// The requests that a session answered are the first of all that an input is cut into of which it
/// read a beginning, with what was left of it.
pub fn first_requests()
    ensures { (read left : List ℕ) (requests all : List (List ℕ))
        → FirstRequests (left ≡ []) read requests → Requests (read ++ left) all
        → (others : List (List ℕ)) × (all ≡ requests ++ others) }
{}

/// The book that a session holds at its end is the one after all the commands that it gave, without
/// the last one if the store failed to keep that.
pub fn held_books()
    ensures { (book last : Book) (turns : List Turn) (given : List GivenCommand)
        → IsSession book turns given last → IsHeld book turns given last }
{}

/// Any first part of the commands that a session gave makes a book.
pub fn kept_parts()
    ensures { (book last : Book) (turns : List Turn) (given kept lost : List GivenCommand)
        → IsSession book turns given last → given ≡ kept ++ lost
        → (next : Book) × After book (commands_of kept) next }
{}

/// The life of a book, over any number of sessions, however each of them was stopped: the book
/// found last is the one after the commands that the sessions kept, of one that began empty too.
/// What a session kept has each acknowledged command where it was given, and all that was kept was
/// acknowledged, except one command at most.
pub fn life()
    ensures found { (book found : Book) (sessions : List SessionRecord)
        → IsLife book sessions found → After book (kept_commands sessions) found }
    ensures acknowledged { (book found : Book) (sessions : List SessionRecord) (lived : SessionRecord)
        → (one : GivenCommand) (front rest : List GivenCommand)
        → IsLife book sessions found → Contains sessions lived
        → lived.given ≡ front ++ one ∷ rest → one.acknowledged ≡ true
        → (others : List GivenCommand) × (lived.kept ≡ front ++ one ∷ others) }
    ensures one_more { (book found : Book) (sessions : List SessionRecord) (lived : SessionRecord)
        → IsLife book sessions found → Contains sessions lived → AllButOne lived.kept }
{}

/// A session may begin over a connection on which a book was opened: if the book stood in the file
/// and a crash would have left it, or if it was made.
pub fn begins_where_a_book_was_opened<S: Alter>(old: &Connection<S>, new: &Connection<S>)
    ensures opened { (make : Bool) (book : Book)
        → OpensBook S.Store make old.now (state S.Store new.now) (Ok book) → (l : Layout)
        → Stands l book (state S.Store old.now) → LeavesBook l book (state S.Store old.now)
        → MayServe (with_missing_tables l) book (state S.Store new.now) }
    ensures made { (make : Bool) (book : Book)
        → OpensBook S.Store make old.now (state S.Store new.now) (Ok book)
        → HasNone (state S.Store old.now).now.schema
        → MayServe (new_layout (state S.Store old.now).now.schema) book (state S.Store new.now) }
{}

/// Whatever a crash leaves after a session, however that ended: a connection that opened at it
/// shows the book after the first of the commands that the session gave, with all that were
/// acknowledged and at most one more. It is what opening a book finds there.
pub fn found_after_a_session<S: Alter, T: Alter>(last: &Store<S>, next: &Connection<T>)
    ensures { (l : Layout) (book held : Book) (ended : Ended) (turns : List Turn) (given : List GivenCommand)
        → HasNewTables l → IsSession book turns given held → EndsAs ended turns
        → IsLeft l book held ended given (shown_by S.Store last.now)
        → (shown_by S.Store last.now).may_leave (state T.Store next.now).committed.trees
        → Opens (state T.Store next.now) → IsFoundAfter l book turns given (state T.Store next.now) }
{
    let _ = next.schema();
}
