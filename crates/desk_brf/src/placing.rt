//! The words of a paragraph on lines.
ghost use Rattle.desk_brf.specs.Laying.{FillsLine, LaysLine, PutsLines, PutsParagraph, bytes_of_lines};
ghost use Rattle.desk_brf.specs.PageLayout.{most_width};
ghost use Rattle.desk_brf.specs.Placing.{first_indent as first_indent_lem, other_indent as other_indent_lem};
ghost use Rattle.desk_brf.specs.Volume.{IsSixDot, gap_before};
ghost use Rattle.desk_brf.specs.Words.{IsAtWord, words};
ghost use Rattle.desk_ends.specs.Sending.{Transmits};
ghost use Rattle.std.specs.Prelude.{◌≡◌, ◌+◌, ◌-◌, ◌<◌, ◌≤◌, ◌^◌, [], ◌∷◌, All, OnOk, is_ok, length};

use super::layout::Layout;
use super::page::put_line;
use super::page_line::PageLine;
use super::word::{skip_blanks, word_len};
use cell_core::Cell;
use desk_ends::{Sent, Sink};
use desk_model::Style;

/// The blanks before the first line of a paragraph.
fn first_indent(style: Style) -> usize
    ensures { result ≡ first_indent_lem style }
{
    match style {
        Style::Body => 2,
        Style::Heading => 4,
    }
}

/// The blanks before each other line of it.
fn other_indent(style: Style) -> usize
    ensures { result ≡ other_indent_lem style }
{
    match style {
        Style::Body => 0,
        Style::Heading => 4,
    }
}

/// Adds as many of the words, with which the cells begin, as have room after the `used` cells of a
/// line. Gives the cells that are left.
fn add_words<'a>(cells: &'a [Cell], room: usize, used: usize, line: &mut PageLine) -> &'a [Cell]
    requires used { used ≤ room }
    requires room { length line.old + room ≤ most_width + used }
    requires dots { All IsSixDot cells.now }
    ensures line { FillsLine room used (words cells.now) (words result.now) line.old line.new }
    ensures at_word { IsAtWord result.now }
    ensures dots { All IsSixDot result.now }
    ensures fewer { length result.now ≤ length cells.now }
    ensures length { length line.new + used ≤ length line.old + room }
{
    let mut used = used;
    let mut rest = skip_blanks(cells);
    while !rest.is_empty() {
        let len = word_len(rest);
        if len >= room - used {
            break;
        }
        line.push(b' ');
        line.push_cells(&rest[..len]);
        used += len + 1;
        rest = skip_blanks(&rest[len..]);
    }
    rest
}

/// Adds a line of the words with which the cells begin, and gives the cells that are left.
fn lay_line<'a>(cells: &'a [Cell], room: usize, line: &mut PageLine) -> &'a [Cell]
    requires at_word { IsAtWord cells.now }
    requires some { 0 < length cells.now }
    requires positive { 0 < room }
    requires room { length line.old + room ≤ most_width }
    requires dots { All IsSixDot cells.now }
    ensures line { LaysLine room (words cells.now) (words result.now) line.old line.new }
    ensures at_word { IsAtWord result.now }
    ensures dots { All IsSixDot result.now }
    ensures fewer { length result.now < length cells.now }
    ensures length { length line.new ≤ length line.old + room }
{
    let len = word_len(cells);
    if len > room {
        line.push_cells(&cells[..room]);
        return &cells[room..];
    }
    line.push_cells(&cells[..len]);
    add_words(&cells[len..], room, len, line)
}

/// Sends the lines of a paragraph with these words.
fn put_words<K: Sink>(
    sink: &mut K,
    layout: &Layout,
    lines: &mut u64,
    style: Style,
    cells: &[Cell],
) -> Sent
    requires at_word { IsAtWord cells.now }
    requires dots { All IsSixDot cells.now }
    requires count { lines.old + length cells.now + 1 < 2 ^ 64 }
    ensures lines { PutsLines K.can_fail (K.contents sink.old) (K.contents sink.new) layout.now
        (first_indent_lem style) (other_indent_lem style) (words cells.now) lines.old lines.new (is_ok result) }
    ensures few { OnOk result (lines.new ≤ lines.old + length cells.now) }
{
    let width = layout.width();
    let mut line = PageLine::new();
    let mut indent = first_indent(style);
    let mut rest = cells;
    while !rest.is_empty() {
        line.push_blanks(indent);
        rest = lay_line(rest, width - indent, &mut line);
        put_line(sink, layout, lines, &mut line)?;
        indent = other_indent(style);
    }
    Ok(())
}

/// Sends the empty line before a heading that doesn't begin a page.
fn put_gap<K: Sink>(sink: &mut K, layout: &Layout, lines: &mut u64, style: Style) -> Sent
    requires count { lines.old + 1 < 2 ^ 64 }
    ensures sent { Transmits K.can_fail (K.contents sink.old) (K.contents sink.new)
        (bytes_of_lines layout.now lines.old (gap_before layout.now lines.old style ([] ∷ []))) [] (is_ok result) }
    ensures count { OnOk result (lines.new ≡ lines.old + length (gap_before layout.now lines.old style ([] ∷ []))) }
{
    match style {
        Style::Heading if *lines % layout.text_lines() != 0 => {
            put_line(sink, layout, lines, &mut PageLine::new())
        }
        Style::Heading | Style::Body => Ok(()),
    }
}

/// Sends the lines of a paragraph. `lines` counts those of the volume.
pub(crate) fn put_paragraph<K: Sink>(
    sink: &mut K,
    layout: &Layout,
    lines: &mut u64,
    style: Style,
    cells: &[Cell],
) -> Sent
    requires dots { All IsSixDot cells.now }
    requires count { lines.old + length cells.now + 2 < 2 ^ 64 }
    ensures lines { PutsParagraph K.can_fail (K.contents sink.old) (K.contents sink.new) layout.now
        style (words cells.now) lines.old lines.new (is_ok result) }
    ensures few { OnOk result (lines.new ≤ lines.old + length cells.now + 1) }
{
    let rest = skip_blanks(cells);
    if rest.is_empty() {
        return Ok(());
    }
    // a line is wider than each indent
    let _ = layout.width();
    put_gap(sink, layout, lines, style)?;
    put_words(sink, layout, lines, style, rest)
}
