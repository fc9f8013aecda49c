//! The signs before numbers, capitals and what follows a number.
ghost use Rattle.louis_table.specs.Meaning.{sign_cells};
ghost use Rattle.louis_table.specs.declared.sign.Sign.TheVariants.{Capital};
ghost use Rattle.louis_translate.specs.Position.{class_at as class_at_lem};
ghost use Rattle.louis_translate.specs.Sign.{capital_sign as capital_sign_lem};
ghost use Rattle.louis_translate.specs.Sign.{ends_number as ends_number_lem};
ghost use Rattle.louis_translate.specs.Sign.{follows_number as follows_number_lem};
ghost use Rattle.louis_translate.specs.Sign.{is_capital_at as is_capital_at_lem};
ghost use Rattle.louis_translate.specs.Sign.{is_digit_at};
ghost use Rattle.louis_translate.specs.Sign.{is_mode_char as is_mode_char_lem};
ghost use Rattle.louis_translate.specs.Sign.{is_nocontract_char as is_nocontract_char_lem};
ghost use Rattle.louis_translate.specs.Sign.{run_end, run_start, sign_at};
ghost use Rattle.std.specs.Bool.{OnTrue};
ghost use Rattle.std.specs.Prelude.{◌≡◌, ◌+◌, ◌≤◌, ◌<◌, ◌↔◌, ◌&&◌, [], false, true};
ghost use Rattle.std.specs.Prelude.{not, ℕ, length, IsTrue};

use super::position::{class_at, is_digit, is_letter};
use cell_core::Cell;
use louis_table::{Class, Table};

/// The place after the last capital of the run around a place, and the place itself if no capital
/// stands there.
#[inline(never)]
fn end_of_run(table: &Table, print: &[char], place: usize) -> usize
    requires { place ≤ length print.now }
    ensures end { result ≡ run_end table.now print.now place }
    ensures within { result ≤ length print.now }
{
    for (count, character) in print[place..].iter().enumerate() {
        if !table.capital(*character) {
            return place + count;
        }
    }
    print.len()
}

/// Whether a capital stands just before a place.
fn follows_capital(table: &Table, print: &[char], place: usize) -> bool
    requires { place ≤ length print.now }
    ensures { IsTrue result ↔ (run_start table.now print.now place < place) }
{
    place > 0 && table.capital(print[place - 1])
}

/// Whether a capital stands at a place, which may be past the print's end.
fn is_capital_at(table: &Table, print: &[char], place: usize) -> bool
    ensures { result ≡ is_capital_at_lem table.now print.now place }
{
    print
        .get(place)
        .is_some_and(|character| table.capital(*character))
}

/// Whether a capital at a place has no other beside it, and so the sign of one capital.
#[inline(always)]
fn stands_alone(table: &Table, print: &[char], place: usize) -> bool
    requires { place < length print.now }
    ensures { OnTrue result (capital_sign_lem table.now print.now place ≡ sign_cells table.now Capital) }
{
    !follows_capital(table, print, place) && !is_capital_at(table, print, place + 1)
}

/// The sign before a capital, of a run that ends at `end`.
#[inline(never)]
fn capital_sign<'a>(table: &'a Table, print: &[char], place: usize, end: usize) -> &'a [Cell]
    requires run { end ≡ run_end table.now print.now place }
    requires capital { place < end }
    requires within { end ≤ length print.now }
    ensures { result.now ≡ capital_sign_lem table.now print.now place }
{
    let word = table.begcapsword();
    let is_first = !follows_capital(table, print, place);
    let is_alone = is_first && place + 1 == end;
    if word.is_empty() || is_alone || is_letter(class_at(table, print, end)) {
        table.capsletter()
    } else if is_first {
        word
    } else {
        &[]
    }
}

/// Whether the table says that a character continues a number.
pub(crate) fn is_mode_char(table: &Table, character: char) -> bool
    ensures { result ≡ is_mode_char_lem table.now character }
{
    table.mode_chars().contains(&character)
}

/// Whether a character takes a sign right after a number: it is one of those that do, and doesn't
/// continue one.
#[inline(never)]
fn takes_sign_after_number(table: &Table, character: char) -> bool
    ensures { result ≡ (not (is_mode_char_lem table.now character) && is_nocontract_char_lem table.now character) }
{
    !is_mode_char(table, character) && table.nocontract_chars().contains(&character)
}

/// Whether the place before this one is in numeric mode, if that is known of an earlier place. The
/// walk back ends there or at the first digit, and passes only characters that continue a number.
#[inline(never)]
fn follows_number(table: &Table, print: &[char], known: usize, at_known: bool, place: usize) -> bool
    requires order { known ≤ place }
    requires within { place ≤ length print.now }
    requires known { at_known ≡ follows_number_lem table.now print.now known }
    ensures { result ≡ follows_number_lem table.now print.now place }
{
    let mut at = place;
    while at > known {
        at -= 1;
        if is_digit(class_at(table, print, at)) {
            return true;
        }
        if !is_mode_char(table, print[at]) {
            return false;
        }
    }
    at_known
}

/// Whether a number reaches a place whose character has this class, and so the next place follows
/// it.
#[inline(always)]
fn goes_on(table: &Table, print: &[char], place: usize, class: Option<Class>, follows: bool) -> bool
    requires place { place < length print.now }
    requires class { class ≡ class_at_lem table.now print.now place }
    requires follows { follows ≡ follows_number_lem table.now print.now place }
    ensures { result ≡ follows_number_lem table.now print.now (place + 1) }
{
    if is_digit(class) {
        return true;
    }
    if !follows {
        return false;
    }
    is_mode_char(table, print[place])
}

/// Whether a number has ended before a place that has no digit, and the character there takes a
/// sign after one.
#[inline(always)]
fn ends_number(table: &Table, print: &[char], place: usize, follows: bool) -> bool
    requires place { place < length print.now }
    requires digit { is_digit_at table.now print.now place ≡ false }
    requires follows { follows ≡ follows_number_lem table.now print.now place }
    ensures { result ≡ ends_number_lem table.now print.now place }
{
    follows && takes_sign_after_number(table, print[place])
}

/// The sign before a place that has neither a digit nor a capital, and which follows a number or
/// doesn't.
fn sign_after_number<'a>(
    table: &'a Table,
    print: &[char],
    place: usize,
    follows: bool,
) -> &'a [Cell]
    requires within { place < length print.now }
    requires digit { is_digit_at table.now print.now place ≡ false }
    requires capital { is_capital_at_lem table.now print.now place ≡ false }
    requires follows { follows ≡ follows_number_lem table.now print.now place }
    ensures { result.now ≡ sign_at table.now print.now place }
{
    if ends_number(table, print, place, follows) {
        table.nocontractsign()
    } else {
        &[]
    }
}

/// The signs along a print. The run around the last capital is remembered, and whether a number
/// goes on, so that each is walked once if places are asked for in their order, whichever are left
/// out.
#[derive(Drop)]
pub(crate) struct Signs<'a> {
    table: &'a Table,
    print: &'a [char],
    // the run of capitals from here on
    from: usize,
    end: usize,
    // the place after the last one that was asked for, and whether it follows a number
    next: usize,
    follows: bool,
    ghost within: { end ≤ length print.now },
    ghost run: { (k : ℕ) → from ≤ k → k < end → run_end table.now print.now k ≡ end },
    ghost number: { follows ≡ follows_number_lem table.now print.now next },
}

impl<'a> Signs<'a> {
    pub(crate) fn new(table: &'a Table, print: &'a [char]) -> Self
        ensures table { result.table.now ≡ table.now }
        ensures print { result.print.now ≡ print.now }
    {
        Signs {
            table,
            print,
            from: 0,
            end: 0,
            next: 0,
            follows: false,
        }
    }

    /// The end of the run around a place.
    #[inline(always)]
    fn end_at(&mut self, place: usize) -> usize
        requires { place ≤ length self.old.print.now }
        ensures end { result ≡ run_end self.old.table.now self.old.print.now place }
        ensures within { result ≤ length self.old.print.now }
        ensures table { self.new.table.now ≡ self.old.table.now }
        ensures print { self.new.print.now ≡ self.old.print.now }
    {
        if self.from <= place && place < self.end {
            return self.end;
        }
        self.end = end_of_run(self.table, self.print, place);
        self.from = place;
        self.end
    }

    /// Whether a place whose character has this class follows a number. The same is remembered of
    /// the next place.
    #[inline(always)]
    fn follows_at(&mut self, place: usize, class: Option<Class>) -> bool
        requires within { place < length self.old.print.now }
        requires class { class ≡ class_at_lem self.old.table.now self.old.print.now place }
        ensures follows { result ≡ follows_number_lem self.old.table.now self.old.print.now place }
        ensures table { self.new.table.now ≡ self.old.table.now }
        ensures print { self.new.print.now ≡ self.old.print.now }
    {
        let follows = if place == self.next {
            self.follows
        } else if self.next < place {
            follows_number(self.table, self.print, self.next, self.follows, place)
        } else {
            follows_number(self.table, self.print, 0, false, place)
        };
        self.follows = goes_on(self.table, self.print, place, class, follows);
        self.next = place + 1;
        follows
    }

    /// The sign before a capital.
    #[inline(always)]
    fn capital_sign_at(&mut self, place: usize) -> &'a [Cell]
        requires within { place < length self.old.print.now }
        requires capital { is_capital_at_lem self.old.table.now self.old.print.now place ≡ true }
        ensures sign { result.now ≡ capital_sign_lem self.old.table.now self.old.print.now place }
        ensures table { self.new.table.now ≡ self.old.table.now }
        ensures print { self.new.print.now ≡ self.old.print.now }
    {
        if stands_alone(self.table, self.print, place) {
            return self.table.capsletter();
        }
        let end = self.end_at(place);
        capital_sign(self.table, self.print, place, end)
    }

    /// The sign before a place, empty if there is none.
    pub(crate) fn at(&mut self, place: usize) -> &'a [Cell]
        requires { place < length self.old.print.now }
        ensures sign { result.now ≡ sign_at self.old.table.now self.old.print.now place }
        ensures table { self.new.table.now ≡ self.old.table.now }
        ensures print { self.new.print.now ≡ self.old.print.now }
    {
        self.at_class(place, class_at(self.table, self.print, place))
    }

    /// The sign before a place whose character has this class. Whether the place follows a number
    /// matters only at a digit, and if the table has a sign after numbers.
    #[inline(always)]
    pub(crate) fn at_class(&mut self, place: usize, class: Option<Class>) -> &'a [Cell]
        requires within { place < length self.old.print.now }
        requires class { class ≡ class_at_lem self.old.table.now self.old.print.now place }
        ensures sign { result.now ≡ sign_at self.old.table.now self.old.print.now place }
        ensures table { self.new.table.now ≡ self.old.table.now }
        ensures print { self.new.print.now ≡ self.old.print.now }
    {
        if is_digit(class) {
            let follows = self.follows_at(place, class);
            return if follows { &[] } else { self.table.numsign() };
        }
        if self.table.capital(self.print[place]) {
            return self.capital_sign_at(place);
        }
        if self.table.nocontractsign().is_empty() {
            return &[];
        }
        let follows = self.follows_at(place, class);
        sign_after_number(self.table, self.print, place, follows)
    }
}
