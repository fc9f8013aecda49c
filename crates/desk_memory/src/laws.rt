//! What holds of the limits of a book.
ghost use Rattle.desk_memory.specs.declared.limits.TheConstants.{MOST_ENTRIES, MOST_MARKS, MOST_NAME, MOST_NOTE};
ghost use Rattle.desk_memory.specs.declared.limits.TheConstants.{MOST_PARAGRAPHS, MOST_PRINT, MOST_PROOFREADER};
ghost use Rattle.desk_memory.specs.declared.limits.TheConstants.{MOST_TABLES, MOST_VERSION};
ghost use Rattle.desk_model.specs.Limits.{most_entries, most_marks, most_name, most_note, most_paragraphs};
ghost use Rattle.desk_model.specs.Limits.{most_print, most_proofreader, most_tables, most_version};
ghost use Rattle.std.specs.Prelude.{◌≡◌};

/// The limits that the code compares with are those that the definitions write.
pub fn limits()
    ensures version { MOST_VERSION ≡ most_version }
    ensures tables { MOST_TABLES ≡ most_tables }
    ensures name { MOST_NAME ≡ most_name }
    ensures paragraphs { MOST_PARAGRAPHS ≡ most_paragraphs }
    ensures print { MOST_PRINT ≡ most_print }
    ensures entries { MOST_ENTRIES ≡ most_entries }
    ensures marks { MOST_MARKS ≡ most_marks }
    ensures note { MOST_NOTE ≡ most_note }
    ensures proofreader { MOST_PROOFREADER ≡ most_proofreader }
{}
