//! What holds of every book.
ghost use Rattle.desk_model.specs.After.{After};
ghost use Rattle.desk_model.specs.Book.{Book, empty_book};
ghost use Rattle.desk_model.specs.Damage.{HasItsTables, IsDamaged, IsFirstDamage};
ghost use Rattle.desk_model.specs.declared.command.Command.{Command};
ghost use Rattle.desk_model.specs.declared.new_tables.NewTables.{NewTables};
ghost use Rattle.desk_parts.specs.declared.file_table.FileTable.{FileTable};
ghost use Rattle.desk_parts.specs.FileRows.{AreTexts, FileRows, table_of};
ghost use Rattle.desk_model.specs.FilledRows.{AreEntriesOf, Fills, entry_puts, in_second_format};
ghost use Rattle.desk_model.specs.FilledRows.{new_rows, second_format_puts, with_caches, with_empty};
ghost use Rattle.desk_model.specs.FilledRows.{with_new_entries, with_new_tables};
ghost use Rattle.desk_model.specs.Named.{HasCharacters};
ghost use Rattle.desk_model.specs.Outcome.{HasOneOutcome};
ghost use Rattle.desk_parts.specs.Puts.{HasTheirTables, RowPut, put_rows, with_puts};
ghost use Rattle.desk_model.specs.Refusals.{IsAccepted};
ghost use Rattle.desk_model.specs.Restoration.{RestoresPrint};
ghost use Rattle.desk_parts.specs.Rows.{ParaCells, NamedCorr};
ghost use Rattle.desk_model.specs.SameRows.{AreSameRows};
ghost use Rattle.desk_model.specs.Shows.{AreCached, IsUnnamed, Shows};
ghost use Rattle.desk_model.specs.Sound.{IsSound};
ghost use Rattle.desk_model.specs.NextBook.{Makes};
ghost use Rattle.std.specs.Prelude.{All, IsNone, IsSome, List, None, Option, [], ℕ, ℤ, ◌++◌, ◌↔◌, ◌≡◌};

/// A list of commands, cut anywhere: the whole of it makes of a book what its second part makes of
/// the book that its first part makes, and is accepted exactly if both parts are.
pub fn histories_in_parts()
    ensures { (book last : Book) (u v : List Command)
        → After book (u ++ v) last ↔ ((middle : Book) × After book u middle × After middle v last) }
{}

/// A command on a sound book, whatever version is expected, has one outcome: either just one
/// refusal is reported, or none holds and it makes just one book. A failed allocation is none of
/// these refusals. So commands make at most one book.
pub fn one_outcome()
    ensures command { (book : Book) (expect : Option ℕ) (command : Command) → IsSound book
        → HasOneOutcome book expect command }
    ensures commands { (book last other : Book) (commands : List Command)
        → After book commands last → After book commands other → last ≡ other }
{}

/// Commands that are accepted one after the other, and whose texts are of characters, make a sound
/// book of a sound one.
pub fn commands_keep_a_book_sound()
    ensures { (book last : Book) (commands : List Command)
        → All HasCharacters commands → IsSound book → After book commands last → IsSound last }
{}

/// An accepted undo brings back the print that stood just before the correction that it takes back,
/// whatever corrections and undos stand between the two, and adds an entry to the history that
/// names it.
pub fn undo_restores_the_print()
    ensures { (book next : Book) (id : ℕ) → IsSound book → IsAccepted book None (Command.Undo id)
        → Makes book (Command.Undo id) next → RestoresPrint book next id }
{}

/// Rows show at most one book.
pub fn one_book()
    ensures { (rows : FileRows) (book other : Book) → Shows rows book → Shows rows other → book ≡ other }
{}

/// Each sound book has rows of the second format that show it, and one in which no correction has a
/// name has rows of the first format, each with the braille of its paragraphs and without it.
pub fn some_rows()
    ensures second { (book : Book) → IsSound book
        → (rows : FileRows) × (table_of rows.entries ≡ FileTable.NamedCorr) × IsSome rows.caches × Shows rows book }
    ensures second_without_cache { (book : Book) → IsSound book
        → (rows : FileRows) × (table_of rows.entries ≡ FileTable.NamedCorr) × IsNone rows.caches × Shows rows book }
    ensures first { (book : Book) → IsSound book → IsUnnamed book
        → (rows : FileRows) × (table_of rows.entries ≡ FileTable.Corr) × IsNone rows.caches × Shows rows book }
    ensures first_with_cache { (book : Book) → IsSound book → IsUnnamed book
        → (rows : FileRows) × (table_of rows.entries ≡ FileTable.Corr) × IsSome rows.caches × Shows rows book }
{}

/// The rows of a new file show the empty book.
pub fn new_rows_show_the_empty_book()
    ensures { Shows new_rows empty_book }
{}

/// Rows that show a book still show it once they are brought to the second format or get the
/// braille of its paragraphs, either all at once or by what is put, one after the other, into empty
/// tables.
pub fn filled_rows_show_their_book()
    ensures format { (rows : FileRows) (book : Book) → Shows rows book → Shows (in_second_format rows) book }
    ensures braille { (rows : FileRows) (book : Book) (caches : List ParaCells) → Shows rows book
        → AreCached book caches → Shows (with_caches caches rows) book }
    ensures caches { (rows : FileRows) (book : Book) (caches : List ParaCells) → Shows rows book
        → AreCached book caches → Shows (with_puts (put_rows FileTable.Cache caches) (with_caches [] rows)) book }
    ensures names { (rows : FileRows) (book : Book) (entries : List NamedCorr) → Shows rows book
        → AreEntriesOf book entries
        → Shows (with_puts (entry_puts book entries) (with_new_entries rows)) book }
    ensures all { (rows : FileRows) (book : Book) (caches : List ParaCells) → Shows rows book
        → AreCached book caches
        → Shows (with_puts (second_format_puts book.version rows caches) (with_new_tables rows)) book }
{}

/// Rows that show a book still show it once they have new tables, which are empty, and all that
/// fills these with the book's entries and braille is put, one after the other; and each of it has
/// its table.
pub fn filled_tables_show_their_book()
    ensures shown { (tables : NewTables) (rows : FileRows) (book : Book) (puts : List RowPut) → Shows rows book
        → Fills tables book puts → Shows (with_puts puts (with_empty tables rows)) book }
    ensures there { (tables : NewTables) (rows : FileRows) (book : Book) (puts : List RowPut)
        → Fills tables book puts → HasTheirTables puts (with_empty tables rows) }
{}

/// Rows that show a book have no damage.
pub fn shown_rows_are_sound()
    ensures { (rows : FileRows) (book : Book) → Shows rows book → (table : FileTable) (id : ℤ)
        → ¬ IsDamaged rows table id }
{}

/// Rows show a book exactly if their texts are UTF-8, their tables are those of their format, and
/// they have no damage.
pub fn undamaged_rows_show_a_book()
    ensures { (rows : FileRows) → ((book : Book) × Shows rows book)
        ↔ (AreTexts rows × HasItsTables rows
        × ((table : FileTable) (id : ℤ) → ¬ IsDamaged rows table id)) }
{}

/// At most one damage of rows is the first.
pub fn one_first_damage()
    ensures { (rows : FileRows) (table other : FileTable) (id n : ℤ) → IsFirstDamage rows table id
        → IsFirstDamage rows other n → (table ≡ other) × (id ≡ n) }
{}

/// What rows show, and what is damaged in them, doesn't depend on their order.
pub fn rows_in_any_order()
    ensures shown { (a b : FileRows) (book : Book) → AreSameRows a b → Shows a book → Shows b book }
    ensures damage { (a b : FileRows) (table : FileTable) (id : ℤ) → AreSameRows a b
        → IsFirstDamage a table id → IsFirstDamage b table id }
    ensures symmetric { (a b : FileRows) → AreSameRows a b → AreSameRows b a }
{}
