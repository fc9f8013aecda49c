//! The tables of a book's file by name.

ghost use Rattle.std.specs.Prelude.{◌≡◌, ◌&&◌, true};
ghost use Rattle.std.specs.List.{list_any};
ghost use Rattle.sqlite_schema.specs.Names.{same_name};
ghost use Rattle.sqlite.specs.Held.{state};
ghost use Rattle.desk_rows.specs.Descriptions.{description_of};
ghost use Rattle.desk_rows.specs.Tables.{is_table_or_view, is_there};

use crate::texts::{
    CREATE_BOOK, CREATE_CACHE, CREATE_MARK, CREATE_NAMED_CORR, CREATE_PARA, CREATE_TAB,
};
use desk_parts::FileTable;
use sqlite::{Alter, Connection};
use sqlite_schema::names::same_name;
use sqlite_schema::schema::View;

/// The name of a table, in lower case.
pub fn table_name(table: FileTable) -> &'static str
    ensures { result.now ≡ (description_of table).name }
{
    match table {
        FileTable::Book => "book",
        FileTable::Tab => "tab",
        FileTable::Para => "para",
        FileTable::Corr => "corr",
        FileTable::Mark => "mark",
        FileTable::Cache => "cache",
        FileTable::NamedCorr => "corr2",
    }
}

/// The statement that makes a table; empty for `corr`, which nothing makes.
pub(crate) fn create_text(table: FileTable) -> &'static str
    ensures { result.now ≡ (description_of table).create }
{
    match table {
        FileTable::Book => CREATE_BOOK,
        FileTable::Tab => CREATE_TAB,
        FileTable::Para => CREATE_PARA,
        FileTable::Corr => "",
        FileTable::Mark => CREATE_MARK,
        FileTable::Cache => CREATE_CACHE,
        FileTable::NamedCorr => CREATE_NAMED_CORR,
    }
}

/// Whether it is a view, or a table that the database keeps without understanding it.
fn is_table_or_view(view: &View) -> bool
    ensures { result ≡ is_table_or_view view.now }
{
    match &view.foreign {
        Some(owner) => !view.binds && same_name(owner.as_slice(), view.name.as_slice()),
        None => true,
    }
}

/// Whether one of these is a view or a table of that name.
fn has_named(views: &[View], name: &[u8]) -> bool
    ensures { result ≡ list_any (λ v. same_name v.name name.now && is_table_or_view v) views.now }
{
    views.iter().any(|v| same_name(v.name.as_slice(), name) && is_table_or_view(v))
}

/// Whether a table or a view has the name of this one, in whichever case of its letters, in the
/// schema that was last read or made. A table that the database doesn't understand counts too; an
/// index or a trigger doesn't. It allocates nothing and doesn't ask the store.
pub fn has_table<S: Alter>(conn: &Connection<S>, table: FileTable) -> bool
    ensures { result ≡ is_there (state S.Store conn.now).now.schema table }
{
    let (schema, name) = (conn.schema(), table_name(table).as_bytes());
    schema.table_named(name).is_some() || has_named(schema.views.as_slice(), name)
}
