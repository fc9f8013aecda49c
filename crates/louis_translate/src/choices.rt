//! The choices that cover a print.
ghost use Rattle.louis_translate.specs.Choice.{span as span_lem};
ghost use Rattle.louis_translate.specs.Position.{AreDefined};
ghost use Rattle.louis_translate.specs.Tiling.{IsChoiceAt};
ghost use Rattle.std.specs.Option.{ForSome};
ghost use Rattle.std.specs.Prelude.{◌≡◌, ◌<◌, ◌≤◌, length};

use super::rule_book::RuleBook;
use louis_table::Table;
use std::marker::Model;

/// What stands for some characters of a print.
#[derive(Clone, Copy, Debug, PartialEq, Eq)]
pub struct Choice {
    /// The index of the rule in the table's rules, or `None` for the definition of one character.
    pub rule: Option<usize>,
    /// The first place of the print that it covers, from 0.
    pub start: usize,
    /// The place after the last one that it covers.
    pub end: usize,
}

/// The choices that cover a print from its front to its end, each chosen at its start. Nothing is
/// allocated. Contracts see the list of those that are left.
#[derive(Drop)]
pub struct Choices<'a, B: RuleBook> {
    book: &'a B,
    print: &'a [char],
    at: usize,
}

impl<'a, B: RuleBook> Model for Choices<'a, B> {
    ghost use Rattle.louis_translate.specs.Position.{AreDefined};
    ghost use Rattle.louis_translate.specs.Left.{choices_from};
    ghost use Rattle.louis_translate.specs.declared.choices.Choice.{Choice};
    ghost use Rattle.std.specs.Prelude.{◌≤◌, List, length};

    ghost Value = { List Choice };

    ghost view = { λ c. choices_from (B.meaning c.book.now) c.print.now c.at };

    ghost invariant = { λ c. (c.at ≤ length c.print.now) × AreDefined (B.meaning c.book.now) c.print.now };
}

impl<'a, B: RuleBook> Choices<'a, B> {
    ghost use Rattle.louis_translate.specs.Position.{AreDefined};
    ghost use Rattle.louis_translate.specs.Tiling.{Tiles};

    /// The choices of a print whose characters the table defines: its tiling.
    pub fn new(book: &'a B, print: &'a [char]) -> Self
        requires { AreDefined (B.meaning book.now) print.now }
        ensures { Tiles (B.meaning book.now) print.now result }
    {
        Choices { book, print, at: 0 }
    }
}

impl<'a, B: RuleBook> Iterator for Choices<'a, B> {
    ghost use Rattle.std.specs.Iterator.{YieldsFirst, item_count};

    type Item = Choice;

    ghost next_gives = { YieldsFirst (λ left. left) };

    ghost remaining = { item_count (λ left. left) };

    fn next(&mut self) -> Option<Choice> {
        if self.at == self.print.len() {
            return None;
        }
        let choice = choose(self.book, self.print, self.at);
        self.at = choice.end;
        Some(choice)
    }
}

/// The choice at a place.
#[inline(always)]
pub(crate) fn choose<B: RuleBook>(book: &B, print: &[char], at: usize) -> Choice
    requires defined { AreDefined (B.meaning book.now) print.now }
    requires within { at < length print.now }
    ensures choice { IsChoiceAt (B.meaning book.now) print.now at result }
    ensures some { at < result.end }
    ensures within { result.end ≤ length print.now }
{
    let rule = book.best(print, at);
    Choice {
        rule,
        start: at,
        end: at + span(book.table(), rule),
    }
}

/// How many characters of a print a choice covers.
fn span(table: &Table, rule: Option<usize>) -> usize
    requires { ForSome rule (λ k. k < length table.now.rules) }
    ensures { result ≡ span_lem table.now rule }
{
    match rule {
        None => 1,
        Some(index) => table.rules()[index].chars.as_slice().len(),
    }
}
