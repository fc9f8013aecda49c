//! What the words ask for.
ghost use Rattle.clap.specs.Words.{first_of, found_of, rows_of};
ghost use Rattle.desk_words.specs.Action.{Asks, Counts, IsAsked};
ghost use Rattle.desk_words.specs.Subcommands.{whole};
ghost use Rattle.desk_words.specs.Words.{IsNamedByWords};
ghost use Rattle.desk_words.specs.declared.action.Action.{Action as ActionTerm};
ghost use Rattle.std.specs.Prelude.{MatchOption, codes, option_map, ◌≡◌, ℕ};

use clap::ArgMatches;

/// What the program is asked to do.
#[derive(Clone, Copy, Debug, PartialEq, Eq)]
pub enum Action<'a> {
    /// Makes a book in a file.
    New {
        file: &'a str,
    },
    /// Answers the requests of standard input from the book in a file.
    Session {
        file: &'a str,
    },
    /// Writes a volume of the book in a file as pages.
    Export {
        file: &'a str,
        /// From 1.
        volume: u64,
        /// The cells of a line.
        width: u64,
        /// The lines of a page.
        lines: u64,
    },
    /// Writes the braille of each line of standard input, by a table file or the supplied table.
    Translate {
        table: &'a str,
    },
    /// Checks a book's file and says which version the book has.
    Check {
        file: &'a str,
    },
}

/// The action that the matches of a parse ask for. It allocates nothing, and borrows from the
/// words. If the program's command accepted the words, it is the action that they name.
pub fn action_of<'a>(matches: &ArgMatches<'a>) -> Option<Action<'a>>
    ensures asked { MatchOption result ((action : ActionTerm) → ¬ IsAsked matches.now action)
        (IsAsked matches.now) }
    ensures named { IsNamedByWords whole matches.now result }
{
    let (name, matches) = matches.subcommand()?;
    asked_by(name, matches)
}

/// The action that the subcommand of this name asks for.
fn asked_by<'a>(name: &str, matches: &ArgMatches<'a>) -> Option<Action<'a>>
    ensures { MatchOption result
        ((action : ActionTerm) → ¬ Asks name.now (rows_of (found_of matches.now)) action)
        (Asks name.now (rows_of (found_of matches.now))) }
{
    match name {
        "new" => Some(Action::New {
            file: text_of(matches, "file")?,
        }),
        "session" => Some(Action::Session {
            file: text_of(matches, "file")?,
        }),
        "export" => export_of(matches),
        "translate" => Some(Action::Translate {
            table: text_of(matches, "table")?,
        }),
        "check" => Some(Action::Check {
            file: text_of(matches, "file")?,
        }),
        _ => None,
    }
}

/// The export that the matches of its own words ask for.
fn export_of<'a>(matches: &ArgMatches<'a>) -> Option<Action<'a>>
    ensures { MatchOption result
        ((action : ActionTerm) → ¬ Asks (codes "export") (rows_of (found_of matches.now)) action)
        (Asks (codes "export") (rows_of (found_of matches.now))) }
{
    Some(Action::Export {
        file: text_of(matches, "file")?,
        volume: number_of(matches, "volume")?,
        width: number_of(matches, "width")?,
        lines: number_of(matches, "lines")?,
    })
}

/// The text of the argument with this id.
fn text_of<'a>(matches: &ArgMatches<'a>, id: &str) -> Option<&'a str>
    ensures { option_map (λ text. text.now) result
        ≡ first_of id.now (rows_of (found_of matches.now)) }
{
    matches.get_str(id)
}

/// The number that the argument with this id is.
fn number_of(matches: &ArgMatches<'_>, id: &str) -> Option<u64>
    ensures { MatchOption result
        ((number : ℕ) → ¬ Counts (rows_of (found_of matches.now)) id.now number)
        (Counts (rows_of (found_of matches.now)) id.now) }
{
    matches.get_one(id)
}
