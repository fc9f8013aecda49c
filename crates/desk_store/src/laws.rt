//! Laws of books in files.

ghost use Rattle.desk_store.specs.BookFile.{HaveOwnNumbers, rows_of};
ghost use Rattle.desk_store.specs.Keeping.{HoldsKept, LeadsTo, LeavesBook, LeavesEither};
ghost use Rattle.desk_store.specs.Keeping.{MayKeep, MayServe, ShowsBook, shown_by};
ghost use Rattle.desk_rows.specs.Contents.{Contents};
ghost use Rattle.desk_model.specs.Book.{Book};
ghost use Rattle.desk_parts.specs.FileRows.{FileRows};
ghost use Rattle.desk_model.specs.Shows.{Shows as RowsShow};
ghost use Rattle.desk_parts.specs.Puts.{RowPut, with_puts};
ghost use Rattle.desk_parts.specs.declared.file_table.FileTable.{FileTable};
ghost use Rattle.desk_rows.specs.Layout.{Layout};
ghost use Rattle.desk_store.specs.Formats.{Format, IsExact, IsOfFormat, named, unnamed};
ghost use Rattle.desk_rows.specs.Making.{after, is_among, new_layout, with_tables};
ghost use Rattle.desk_store.specs.Opened.{FindsBook, HoldsEither, IsMadeNew, IsOpened, OpensBook, Stands};
ghost use Rattle.desk_store.specs.Completing.{with_missing_tables};
ghost use Rattle.desk_store.specs.declared.fault.OpenFault.{OpenFault};
ghost use Rattle.sql_tables.specs.States.{Leaves};
ghost use Rattle.sqlite.specs.Held.{state};
ghost use Rattle.sqlite.specs.State.{HasCleanDisk, Opens, Survives};
ghost use Rattle.sqlite_schema.specs.declared.schema.Schema.{Schema};
ghost use Rattle.std.specs.Prelude.{Bool, List, Result, [], ◌∷◌, true, ◌≡◌, ◌⊎◌, ◌||◌};
ghost use Rattle.desk_rows.specs.Puts.{puts_into};
ghost use Rattle.desk_rows.specs.Tables.{is_there};

use crate::store::Store;
use desk_book::Change;
use sqlite::{Alter, Connection};

/// What is put into the contents of a file is put into its rows.
pub fn puts_of_the_book()
    ensures { (l : Layout) (c : Contents) (puts : List RowPut)
        → rows_of l (puts_into puts c) ≡ with_puts puts (rows_of l c) }
{}

/// Rows that show a book differ by their numbers, in each table whose key is one.
pub fn numbers_differ()
    ensures { (rows : FileRows) (book : Book) → RowsShow rows book → HaveOwnNumbers rows }
{}

/// Once a change is kept, whatever becomes of the next one: a crash leaves the book with the first,
/// or with both.
pub fn two_keeps<S: Alter>(middle: &Store<S>, end: &Store<S>, change: &Change)
    ensures { HasCleanDisk (shown_by S.Store end.now) → (l : Layout) (first both : Book)
        → MayServe l first (shown_by S.Store middle.now) → LeadsTo first change.now both
        → Survives (shown_by S.Store middle.now) (shown_by S.Store end.now)
        (HoldsKept first change.now (shown_by S.Store middle.now))
        → LeavesEither l first both (shown_by S.Store end.now) }
{}

/// A connection that opened at what a crash may leave of a store shows the book that each outcome
/// of the crash holds, or one of the two of which each holds one.
pub fn kept_then_opened<S: Alter, T: Alter>(last: &Store<S>, next: &Connection<T>)
    ensures book { (shown_by S.Store last.now).may_leave (state T.Store next.now).committed.trees
        → Opens (state T.Store next.now) → (l : Layout) (book : Book)
        → LeavesBook l book (shown_by S.Store last.now)
        → ShowsBook l book (state T.Store next.now) }
    ensures either { (shown_by S.Store last.now).may_leave (state T.Store next.now).committed.trees
        → Opens (state T.Store next.now) → (l : Layout) (book other : Book)
        → LeavesEither l book other (shown_by S.Store last.now)
        → ShowsBook l book (state T.Store next.now) ⊎ ShowsBook l other (state T.Store next.now) }
{
    let _ = next.schema();
}

/// If a book was opened or made, a change that leads on from it may be kept; and a crash leaves the
/// book, if one before it was opened did, in the file as it was or with the tables that it lacked.
pub fn opened_then_kept<S: Alter>(before: &Connection<S>, after: &Store<S>, change: &Change)
    ensures opened { (l : Layout) (c : Contents) (book next : Book)
        → IsOpened l c book (state S.Store before.now) (shown_by S.Store after.now)
        → LeadsTo book change.now next
        → MayKeep (with_missing_tables l) book change.now next (shown_by S.Store after.now) }
    ensures left { (l : Layout) (c : Contents) (book : Book)
        → IsOpened l c book (state S.Store before.now) (shown_by S.Store after.now)
        → Leaves (HoldsEither l book) (state S.Store before.now)
        → MayServe (with_missing_tables l) book (shown_by S.Store after.now) }
    ensures made { (make : Bool) (book next : Book)
        → IsMadeNew make book (state S.Store before.now) (shown_by S.Store after.now)
        → LeadsTo book change.now next
        → MayKeep (new_layout (state S.Store before.now).now.schema) book change.now next
        (shown_by S.Store after.now) }
    ensures made_left { (make : Bool) (book : Book)
        → IsMadeNew make book (state S.Store before.now) (shown_by S.Store after.now)
        → MayServe (new_layout (state S.Store before.now).now.schema) book (shown_by S.Store after.now) }
{}

/// Making tables adds just these to the tables that are there, and an exact layout stays exact.
pub fn tables_made()
    ensures there { (tables : List FileTable) (s : Schema) (t : FileTable)
        → is_there (after tables s) t ≡ (is_among tables t || is_there s t) }
    ensures exact { (tables : List FileTable) (l : Layout) → IsExact l → IsExact (with_tables tables l) }
{}

/// A new file is of format 2. One of format 1 in which tables are made, `corr2` among them, is of
/// format 2 then, and one of either format in which `cache` is made stays of it.
pub fn formats()
    ensures new { (s : Schema) → IsOfFormat named (new_layout s) }
    ensures names { (l : Layout) (tables : List FileTable) → IsOfFormat unnamed l
        → is_among tables FileTable.NamedCorr ≡ true → IsOfFormat named (with_tables tables l) }
    ensures cells { (format : Format) (l : Layout) → IsOfFormat format l
        → IsOfFormat format (with_tables (FileTable.Cache ∷ []) l) }
{}

/// If a book stands in a file that is opened, that one is found, or no refusal is reported.
pub fn found_where_it_stands<S: Alter>(old: &Connection<S>, new: &Connection<S>)
    ensures { (make : Bool) (result : Result Book OpenFault)
        → OpensBook S.Store make old.now (state S.Store new.now) result → (l : Layout) (book : Book)
        → Stands l book (state S.Store old.now)
        → FindsBook (λ found. found ≡ book) result }
{}
