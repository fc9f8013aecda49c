//! Laws of files, and of the connections that show them.

ghost use Rattle.desk_rows.specs.TableQuery.{AreReadable};
ghost use Rattle.desk_rows.specs.Contents.{Contents};
ghost use Rattle.desk_parts.specs.declared.file_table.FileTable.{FileTable};
ghost use Rattle.desk_parts.specs.declared.put.Put.{Put};
ghost use Rattle.desk_parts.specs.Puts.{LendsFirst, RowPut, put_of};
ghost use Rattle.desk_parts.specs.Rows.{StoredTab};
ghost use Rattle.desk_rows.specs.Descriptions.{description_of, shows_rowid, table_of};
ghost use Rattle.sql_tables.specs.Kinds.{HaveIntegerRowids};
ghost use Rattle.desk_rows.specs.Layout.{Layout};
ghost use Rattle.desk_rows.specs.Making.{Differ, IsNew, MakesTables, new_layout, with_none, with_tables};
ghost use Rattle.sql_tables.specs.Making.{KeepsAside};
ghost use Rattle.desk_rows.specs.States.{IsFile, IsUnder, ShowsContents};
ghost use Rattle.desk_rows.specs.Rows.{shown_columns};
ghost use Rattle.sql_tables.specs.Rows.{Lists, columns_at};
ghost use Rattle.sql_tables.specs.Tables.{IsDeclared};
ghost use Rattle.desk_rows.specs.Whole.{AreApart, AreRows, AreUtf8, DifferBy};
ghost use Rattle.desk_rows.specs.Whole.{HaveSameRows, IsUtf8Put, Rows, contents_of};
ghost use Rattle.sqlite.specs.Effect.{Database};
ghost use Rattle.sqlite.specs.Held.{state};
ghost use Rattle.sqlite.specs.State.{Opens};
ghost use Rattle.sqlite_catalog.specs.Change.{KeepsRows};
ghost use Rattle.sqlite_catalog.specs.Listing.{IsSound};
ghost use Rattle.sqlite_schema.specs.declared.schema.Schema.{Schema};
ghost use Rattle.sqlite_trees.specs.Tree.{Trees};
ghost use Rattle.std.specs.Prelude.{IsTrue, List, false, map, true, ◌≡◌, ◌↔◌};
ghost use Rattle.std.specs.Iterator.{Drains};
ghost use Rattle.std.specs.List.{AllByRecursion};
ghost use Rattle.desk_rows.specs.Puts.{puts_into};
ghost use Rattle.desk_rows.specs.Tables.{is_there};
ghost use Rattle.sqlite_catalog.specs.Change.{is_used};

use sqlite::{Alter, Connection};

/// Trees are a database of at most one schema.
#[tactic(auto, using(sql_tables::proofs::OneSchema::one_schema))]
pub fn one_schema()
    ensures { (a b : Schema) (db : Trees) → IsSound a db → IsSound b db → a ≡ b }
{}

/// A connection that is open over the trees of a file shows that file, however it was opened.
pub fn one_file<S: Alter>(conn: &Connection<S>)
    ensures { IsTrue (state S.Store conn.now).is_open → (l : Layout) (c : Contents)
        → IsFile l c (state S.Store conn.now).now.trees → ShowsContents l c (state S.Store conn.now) }
{
    let _ = conn.schema();
}

/// A connection that opened at what a crash may leave of another one shows just that, so it has
/// whatever property each outcome of the crash had, and it shows what these trees are, whatever
/// stores they are over.
pub fn found_again<S: Alter, T: Alter>(last: &Connection<S>, next: &Connection<T>)
    ensures left { (state S.Store last.now).may_leave (state T.Store next.now).committed.trees
        → Opens (state T.Store next.now)
        → (state S.Store last.now).may_leave (state T.Store next.now).now.trees }
    ensures shows { Opens (state T.Store next.now) → (l : Layout) (c : Contents)
        → IsFile l c (state T.Store next.now).committed.trees → ShowsContents l c (state T.Store next.now) }
{
    let _ = next.schema();
}

/// A file has one contents, apart from the order of the rows.
pub fn one_contents()
    ensures { (l : Layout) (c d : Contents) (db : Trees) → IsFile l c db
        → (IsFile l d db ↔ HaveSameRows l c d) }
{}

/// What was read whole, and differs by its keys, is what the file holds.
pub fn read_whole()
    ensures { (l : Layout) (rows : Rows) (db : Trees)
        → ((t : FileTable) → l.has t ≡ true → IsDeclared l.schema (table_of t (l.tree t)))
        → IsSound l.schema db → AreRows l rows db → AreApart rows → IsFile l (contents_of rows db) db }
{}

/// The rows of a file can be read: the rowids that are read are integers, and the texts are UTF-8
/// if those of the file are; the rowids of the braille tables differ.
pub fn texts_as_written()
    ensures readable { (l : Layout) (c : Contents) (db : Trees) → IsFile l c db → AreUtf8 c
        → (t : FileTable) → l.has t ≡ true → AreReadable t (db (l.tree t)) }
    ensures rowids { (l : Layout) (c : Contents) (db : Trees) → IsFile l c db → (t : FileTable)
        → l.has t ≡ true → shows_rowid t ≡ true → HaveIntegerRowids (db (l.tree t)) }
    ensures apart { (l : Layout) (c : Contents) (db : Trees) → IsFile l c db → l.has FileTable.Tab ≡ true
        → (xs : List StoredTab)
        → Lists (shown_columns FileTable.Tab) (columns_at (description_of FileTable.Tab).shown) xs
        (db (l.tree FileTable.Tab))
        → DifferBy (λ s. s.rowid) xs }
{}

/// A file in which the tables were made keeps what the database keeps aside.
pub fn made_keeps()
    ensures { (s : Schema) (rows db : Trees) → IsNew s rows (λ c. IsFile (new_layout s) c db)
        → KeepsAside s rows db }
{}

/// A connection in a transaction that shows a file, and that made tables there which the file
/// lacks, shows the file with these, which have no rows; all other tables keep theirs, and so does
/// what the database keeps aside.
pub fn more_tables<S: Alter>(old: &Connection<S>, new: &Connection<S>)
    ensures { (l : Layout) (c : Contents) (tables : List FileTable) (committed : Database) → Differ tables
        → IsUnder committed l c (state S.Store old.now)
        → MakesTables tables (state S.Store old.now) (state S.Store new.now)
        → IsUnder committed (with_tables tables l) (with_none tables (state S.Store new.now).now.trees c)
        (state S.Store new.now)
        × KeepsRows l.schema.tables (state S.Store old.now).now.trees
        (state S.Store new.now).now.trees
        × KeepsAside l.schema (state S.Store old.now).now.trees (state S.Store new.now).now.trees }
{}

/// Of an iterator that lends the first of what is left, all is lent until it ends.
pub fn all_is_lent()
    ensures { (puts : List RowPut) (lent : List Put) → Drains LendsFirst puts lent
        → map put_of lent ≡ puts }
{}

/// Texts in UTF-8 that are put leave the texts of a file in UTF-8.
#[tactic(auto, using(crate::proofs::RowPuts::Utf8Puts::texts_stay))]
pub fn texts_stay()
    ensures { (puts : List RowPut) (c : Contents) → AllByRecursion IsUtf8Put puts → AreUtf8 c
        → AreUtf8 (puts_into puts c) }
{}

/// A table that a file has is there for its schema, and one whose name is free isn't.
pub fn tables_there()
    ensures has { (l : Layout) (c : Contents) (db : Trees) → IsFile l c db → (t : FileTable)
        → l.has t ≡ true → is_there l.schema t ≡ true }
    ensures free { (s : Schema) (t : FileTable) → is_used s (description_of t).name ≡ false
        → is_there s t ≡ false }
{}
