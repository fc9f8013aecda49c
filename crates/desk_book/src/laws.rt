//! What holds of every book.
ghost use Rattle.desk_model.specs.Book.{Book};
ghost use Rattle.desk_book.specs.Changes.{Carries, Change, change_puts};
ghost use Rattle.desk_model.specs.declared.command.Command.{Command};
ghost use Rattle.desk_model.specs.Loans.{AreLent, LeadTo};
ghost use Rattle.desk_model.specs.Sound.{IsSound};
ghost use Rattle.std.specs.Prelude.{◌≡◌};

pub use desk_memory::laws::limits;
pub use desk_model::laws::{
    commands_keep_a_book_sound, filled_rows_show_their_book, filled_tables_show_their_book,
    histories_in_parts, new_rows_show_the_empty_book, one_book, one_first_damage, one_outcome,
    rows_in_any_order, shown_rows_are_sound, some_rows, undamaged_rows_show_a_book,
    undo_restores_the_print,
};

/// What a change of a sound book puts makes rows that show the book, and have `corr2` if an entry
/// is put, show the next one, and only what the command changes is among it.
pub fn puts_make_the_next_book()
    ensures leads { (book next : Book) (command : Command) (change : Change) → IsSound book
        → Carries book command next change → LeadTo book (change_puts book change) next }
    ensures lent { (book next : Book) (command : Command) (change : Change) → IsSound book
        → Carries book command next change → AreLent book next command (change_puts book change) }
{}
