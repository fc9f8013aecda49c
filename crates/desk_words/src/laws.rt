//! Laws of words.
ghost use Rattle.desk_words.specs.Subcommands.{whole};
ghost use Rattle.desk_words.specs.Plain.{IsPlain, NamesWith};
ghost use Rattle.desk_words.specs.Words.{NameAnAction};
ghost use Rattle.desk_words.specs.declared.action.Action.TheVariants.{Check, New, Session, Translate};
ghost use Rattle.clap.specs.Words.{fault_of};
ghost use Rattle.std.specs.Borrow.{Bor};
ghost use Rattle.std.specs.Prelude.{List, [], codes, ◌≡◌, ℕ};

/// An action's name and a word that doesn't begin with a hyphen ask for the action on that file, or
/// by that table.
pub fn plain_words()
    ensures new { (word : Bor (List ℕ)) → IsPlain word.now
        → NamesWith whole (codes "new") New word }
    ensures session { (word : Bor (List ℕ)) → IsPlain word.now
        → NamesWith whole (codes "session") Session word }
    ensures translate { (word : Bor (List ℕ)) → IsPlain word.now
        → NamesWith whole (codes "translate") Translate word }
    ensures check { (word : Bor (List ℕ)) → IsPlain word.now
        → NamesWith whole (codes "check") Check word }
{}

/// Words in which the program's command finds no fault name an action, with its numbers within
/// their limits.
pub fn taken_words()
    ensures { (words : List (List ℕ)) → fault_of whole words ≡ [] → NameAnAction whole words }
{}
