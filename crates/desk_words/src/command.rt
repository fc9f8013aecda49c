//! The commands that read the words.
ghost use Rattle.clap.specs.Words.{app_of, rule_of, shape_of};
ghost use Rattle.clap.specs.declared.builder.command.Command.TheViews.{out-Command};
ghost use Rattle.desk_words.specs.Subcommands.{bare, export, on_file, operand, program, size, translate, whole, within};
ghost use Rattle.std.specs.Prelude.{IfOk, [], codes, false, ◌∷◌, ◌≡◌};

use super::help;
use clap::{Arg, ArgAction, Command, value_parser};
use std::alloc::{AllocError, Global};

/// The command of the whole program.
pub fn whole_command<'a>(alloc: Global) -> Result<Command<'a>, AllocError>
    ensures { IfOk result (λ command. app_of command ≡ whole) }
{
    keeping_command(alloc)?
        .subcommand(export_command(alloc)?)?
        .subcommand(translate_command(alloc)?)?
        .subcommand(file_command(alloc, "check", help::CHECK_ABOUT, help::CHECK)?)
}

/// The program with the actions that make a book's file and change the book in it.
fn keeping_command<'a>(alloc: Global) -> Result<Command<'a>, AllocError>
    ensures { IfOk result (λ command. app_of command ≡ program
        (on_file (codes "new") ∷ on_file (codes "session") ∷ [])) }
{
    top_command(alloc, help::WHOLE)
        .subcommand(file_command(alloc, "new", help::NEW_ABOUT, help::NEW)?)?
        .subcommand(file_command(alloc, "session", help::SESSION_ABOUT, help::SESSION)?)
}

/// The program without its actions.
fn top_command<'a>(alloc: Global, text: &'a str) -> Command<'a>
    ensures { app_of result ≡ bare }
{
    Command::new(alloc, "braildesk")
        .about(help::ABOUT)
        .after_help(text)
        .subcommand_required(true)
        .disable_help_subcommand(true)
}

/// An action on the book in a file.
fn file_command<'a>(
    alloc: Global,
    name: &'a str,
    about: &'a str,
    text: &'a str,
) -> Result<Command<'a>, AllocError>
    ensures shape { IfOk result (λ command. shape_of command ≡ on_file name.entry.now) }
    ensures local { IfOk result (λ command. (out-Command command).has_globals ≡ false) }
{
    Command::new(alloc, name)
        .about(about)
        .after_help(text)
        .arg(operand(alloc, "file", "FILE", "The file of the book"))
}

/// The action `translate`.
fn translate_command<'a>(alloc: Global) -> Result<Command<'a>, AllocError>
    ensures shape { IfOk result (λ command. shape_of command ≡ translate) }
    ensures local { IfOk result (λ command. (out-Command command).has_globals ≡ false) }
{
    Command::new(alloc, "translate")
        .about(help::TRANSLATE_ABOUT)
        .after_help(help::TRANSLATE)
        .arg(operand(alloc, "table", "TABLE", help::TABLE))
}

/// The action `export`.
fn export_command<'a>(alloc: Global) -> Result<Command<'a>, AllocError>
    ensures shape { IfOk result (λ command. shape_of command ≡ export) }
    ensures local { IfOk result (λ command. (out-Command command).has_globals ≡ false) }
{
    Command::new(alloc, "export")
        .about(help::EXPORT_ABOUT)
        .after_help(help::EXPORT)
        .arg(operand(alloc, "file", "FILE", "The file of the book"))?
        .arg(volume(alloc))?
        .arg(width(alloc))?
        .arg(lines(alloc))
}

/// The number of a volume.
fn volume<'a>(alloc: Global) -> Arg<'a>
    ensures rule { rule_of result ≡ within 1 20000 (operand (codes "volume")) }
    ensures local { result.global ≡ false }
{
    let text = "The number of the volume, 1 to 20000";
    operand(alloc, "volume", "VOLUME", text).value_parser(value_parser!(u64).range(1..=20_000))
}

/// The width of pages.
fn width<'a>(alloc: Global) -> Arg<'a>
    ensures rule { rule_of result ≡ within 10 60 (size (codes "width") (codes "40")) }
    ensures local { result.global ≡ false }
{
    let text = "The cells of a line, 10 to 60";
    size(alloc, "width", "40", text).value_parser(value_parser!(u64).range(10..=60))
}

/// The lines of pages.
fn lines<'a>(alloc: Global) -> Arg<'a>
    ensures rule { rule_of result ≡ within 5 40 (size (codes "lines") (codes "25")) }
    ensures local { result.global ≡ false }
{
    let text = "The lines of a page, 5 to 40";
    size(alloc, "lines", "25", text).value_parser(value_parser!(u64).range(5..=40))
}

/// A word that has to be there, at its place.
fn operand<'a>(alloc: Global, id: &'a str, name: &'a str, text: &'a str) -> Arg<'a>
    ensures rule { rule_of result ≡ operand id.entry.now }
    ensures local { result.global ≡ false }
{
    Arg::new(alloc, id)
        .required(true)
        .action(ArgAction::Set)
        .value_name(name)
        .help(text)
}

/// A number that may be left out.
fn size<'a>(alloc: Global, id: &'a str, value: &'a str, text: &'a str) -> Arg<'a>
    ensures rule { rule_of result ≡ size id.entry.now value.entry.now }
    ensures local { result.global ≡ false }
{
    Arg::new(alloc, id)
        .long(id)
        .action(ArgAction::Set)
        .value_name("N")
        .default_value(value)
        .help(text)
}
