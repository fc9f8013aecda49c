//! Reads a table text, line by line.
ghost use Rattle.louis_table.specs.Lines.{lines_of};
ghost use Rattle.louis_table.specs.Steps.Read.{LinesGive, LinesMean, LinesReport, LinesReportEarly, TakesLine, judge};
ghost use Rattle.louis_table.specs.Steps.Table.{HasDefinedPartners};
ghost use Rattle.louis_table.specs.Table.{Means};
ghost use Rattle.louis_table.specs.ReportedFault.{IsReportedOf, not_utf_8};
ghost use Rattle.std.specs.Prelude.{◌≡◌, ◌+◌, ◌==◌, ◌≤◌, count_by, length, map, take, Err, IfOk, IfErr, chars, IsUtf8};
ghost use Rattle.std.specs.Str.Lossy.{utf8_valid_len};

use super::draft::Draft;
use super::fault::{Cause, LineFault, ReadFault, TableFault};
use super::line_entry::read_line;
use super::lines::{next_line, replace_characters, without_byte_order_mark};
use super::pending::finish_all;
use super::table::Table;
use std::alloc::Global;

/// How many lines a table text may have.
pub const MOST_LINES: usize = 20_000;

/// How many characters a line may have, without its line feed and carriage return.
pub const MOST_LINE_CHARACTERS: usize = 1_000;

/// The number of the line on which a byte stands, from 1: one more than the line feeds before it.
fn line_of_byte(bytes: &[u8], at: usize) -> usize
    requires { at ≤ length bytes.now }
    ensures { result ≡ count_by (λ b. b == 10) (take at bytes.now) + 1 }
{
    bytes[..at].iter().filter(|byte| **byte == b'\n').count() + 1
}

/// Takes a line into the draft that the lines before it made.
fn take_line(
    alloc: Global,
    draft: &mut Draft,
    before: usize,
    line: &[char],
) -> Result<(), LineFault>
    requires { HasDefinedPartners draft.old.table }
    ensures { TakesLine result before draft.old draft.new (judge draft.old.table before line.now) }
{
    let given = read_line(alloc, &draft.table, line)?;
    if line.len() > MOST_LINE_CHARACTERS || before >= MOST_LINES {
        return Err(LineFault::Bad(Cause::BeyondLimit));
    }
    draft
        .take(alloc, before + 1, given)
        .map_err(|_| LineFault::NoMemory)
}

/// What the lines of a text give.
fn read_lines(alloc: Global, text: &str) -> Result<Draft, ReadFault>
    ensures ok { IfOk result (λ draft. LinesGive (map chars (lines_of text.now)) draft.table draft.written.items) }
    ensures err { IfErr result (LinesReportEarly (map chars (lines_of text.now))) }
{
    let mut draft = Draft::new(alloc);
    let mut characters = Vec::new(alloc);
    let mut before = 0;
    let mut rest = text;
    while !rest.is_empty() {
        let (line, after) = next_line(rest);
        replace_characters(&mut characters, line).map_err(|_| ReadFault::NoMemory)?;
        match take_line(alloc, &mut draft, before, characters.as_slice()) {
            Ok(()) => {}
            Err(LineFault::Bad(cause)) => {
                return Err(ReadFault::Table(TableFault {
                    line: before + 1,
                    cause: cause.number(),
                }));
            }
            Err(LineFault::NoMemory) => return Err(ReadFault::NoMemory),
        }
        before += 1;
        rest = after;
    }
    Ok(draft)
}

/// Reads a text without a byte order mark.
fn read_text(alloc: Global, text: &str) -> Result<Table, ReadFault>
    ensures ok { IfOk result (LinesMean (map chars (lines_of text.now))) }
    ensures err { IfErr result (LinesReport (map chars (lines_of text.now))) }
{
    let draft = read_lines(alloc, text)?;
    let written = draft.written;
    let rules = finish_all(alloc, &draft.table, written)?;
    Ok(draft.table.with_rules(rules))
}

impl Table {
    /// Reads a table text.
    ///
    /// Each line defines a character or an upper and a lower one, gives a rule, the cells of a sign
    /// or the characters of a set, is a comment, or has no field. Definitions may stand before or
    /// after the rules and sets that use them.
    ///
    /// # Errors
    ///
    /// `Table` reports the first line that has a fault, with its smallest cause, and if no line has
    /// one, the first rule or set with a character that no line defines. `NoMemory` says that an
    /// allocation failed; a text that isn't UTF-8 is reported without any allocation.
    pub fn read(alloc: Global, text: &[u8]) -> Result<Table, ReadFault>
        ensures ok { IfOk result (Means text.now) }
        ensures err { IfErr result (IsReportedOf text.now) }
        ensures not_utf_8 { ¬ IsUtf8 text.now → result ≡ Err (not_utf_8 text.now) }
    {
        match str::from_utf8(text) {
            Ok(text) => read_text(alloc, without_byte_order_mark(text)),
            Err(stop) => Err(ReadFault::Table(TableFault {
                line: line_of_byte(text, stop.valid_up_to()),
                cause: Cause::NotText.number(),
            })),
        }
    }
}
