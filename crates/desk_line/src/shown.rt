//! Puts the lines that queries show.
ghost use Rattle.desk_model.specs.Book.{Entry, Mark as BookMark, Paragraph as BookParagraph};
ghost use Rattle.desk_model.specs.ListItems.{IsListed};
ghost use Rattle.desk_model.specs.ParagraphMarks.{TellsOf as TellsOfMark};
ghost use Rattle.desk_model.specs.HistoryItems.{TellsOf};
ghost use Rattle.desk_ends.specs.Cells.{text_of};
ghost use Rattle.desk_ends.specs.Sending.{Puts};
ghost use Rattle.desk_line.specs.ReplyLines.{entry_line, list_line, mark_line, shown_line, shown_text};
ghost use Rattle.std.specs.List.{flat_map};
ghost use Rattle.std.specs.Prelude.{decimal, is_ok, map, ◌++◌};

use super::text_output::{put_characters, put_fields};
use cell_core::Cell;
use desk_book::{Done, History, HistoryItem, List, ListItem, MarkItem, ParagraphMarks};
use desk_ends::{Block, Sent, Sink, put_byte, put_bytes, put_cells};
use desk_model::Style;
use itoa::Buffer;

/// Puts a print.
pub(crate) fn put_print<K: Sink>(sink: &mut K, block: &mut Block, print: &[char]) -> Sent
    ensures { Puts K.Sink sink.old sink.new
        (block.old ++ shown_line (shown_text print.now)) block.new (is_ok result) }
{
    put_bytes(sink, block, b"| ")?;
    put_characters(sink, block, print)?;
    put_byte(sink, block, b'\n')
}

/// Puts braille.
pub(crate) fn put_braille<K: Sink>(sink: &mut K, block: &mut Block, cells: &[Cell]) -> Sent
    ensures { Puts K.Sink sink.old sink.new
        (block.old ++ shown_line (text_of cells.now)) block.new (is_ok result) }
{
    put_bytes(sink, block, b"| ")?;
    put_cells(sink, block, cells)?;
    put_byte(sink, block, b'\n')
}

/// Puts the number of a place or of a cell.
pub(crate) fn put_place<K: Sink>(sink: &mut K, block: &mut Block, place: usize) -> Sent
    ensures { Puts K.Sink sink.old sink.new
        (block.old ++ shown_line (decimal place)) block.new (is_ok result) }
{
    let mut digits = Buffer::new();
    put_fields(sink, block, &[digits.format(place).as_bytes()])
}

/// Puts the entries of a history.
pub(crate) fn put_history<K: Sink>(sink: &mut K, block: &mut Block, history: History<'_>) -> Sent
    ensures { Puts K.Sink sink.old sink.new
        (block.old ++ flat_map shown_line (map entry_line history.entry)) block.new (is_ok result) }
{
    for item in history {
        put_entry(sink, block, &item)?;
    }
    Ok(())
}

/// Puts an entry of a history.
fn put_entry<K: Sink>(sink: &mut K, block: &mut Block, item: &HistoryItem<'_>) -> Sent
    ensures { (entry : Entry) → TellsOf entry item.now.done
        → Puts K.Sink sink.old sink.new
        (block.old ++ shown_line (entry_line (item.now.number, entry))) block.new (is_ok result) }
{
    let mut number = Buffer::new();
    let number = number.format(item.number).as_bytes();
    match item.done {
        Done::Corrected {
            start,
            count,
            text,
            who,
        } => {
            let mut first = Buffer::new();
            let mut size = Buffer::new();
            let first = first.format(start).as_bytes();
            let size = size.format(count).as_bytes();
            let text = text.as_bytes();
            if who.is_empty() {
                put_fields(sink, block, &[number, b"correct", first, size, text])
            } else {
                let who = who.as_bytes();
                put_fields(
                    sink,
                    block,
                    &[number, b"correct-by", who, first, size, text],
                )
            }
        }
        Done::TookBack(undone) => {
            let mut digits = Buffer::new();
            let undone = digits.format(undone).as_bytes();
            put_fields(sink, block, &[number, b"undo", undone])
        }
    }
}

/// Puts the marks of a paragraph.
pub(crate) fn put_marks<K: Sink>(sink: &mut K, block: &mut Block, marks: ParagraphMarks<'_>) -> Sent
    ensures { Puts K.Sink sink.old sink.new
        (block.old ++ flat_map shown_line (map mark_line marks.entry)) block.new (is_ok result) }
{
    for mark in marks {
        put_mark(sink, block, &mark)?;
    }
    Ok(())
}

/// Puts a mark.
fn put_mark<K: Sink>(sink: &mut K, block: &mut Block, mark: &MarkItem<'_>) -> Sent
    ensures { (reported : BookMark) → TellsOfMark reported mark.now
        → Puts K.Sink sink.old sink.new
        (block.old ++ shown_line (mark_line reported)) block.new (is_ok result) }
{
    let mut id = Buffer::new();
    let mut start = Buffer::new();
    let mut end = Buffer::new();
    let id = id.format(mark.id).as_bytes();
    let start = start.format(mark.start).as_bytes();
    let end = end.format(mark.end).as_bytes();
    let state: &[u8] = if mark.resolved { b"resolved" } else { b"open" };
    let touch: &[u8] = if mark.touched { b"touched" } else { b"kept" };
    let note = mark.note.as_bytes();
    put_fields(sink, block, &[id, start, end, state, touch, note])
}

/// Puts the paragraphs of a book.
pub(crate) fn put_list<K: Sink>(sink: &mut K, block: &mut Block, list: List<'_>) -> Sent
    ensures { Puts K.Sink sink.old sink.new
        (block.old ++ flat_map shown_line (map list_line list.entry)) block.new (is_ok result) }
{
    for paragraph in list {
        put_listed(sink, block, &paragraph)?;
    }
    Ok(())
}

/// Puts a paragraph of the list.
fn put_listed<K: Sink>(sink: &mut K, block: &mut Block, paragraph: &ListItem<'_>) -> Sent
    ensures { (reported : BookParagraph) → IsListed reported paragraph.now
        → Puts K.Sink sink.old sink.new
        (block.old ++ shown_line (list_line reported)) block.new (is_ok result) }
{
    let mut id = Buffer::new();
    let mut length = Buffer::new();
    let id = id.format(paragraph.id).as_bytes();
    let table = paragraph.table.as_bytes();
    let style: &[u8] = match paragraph.style {
        Style::Body => b"body",
        Style::Heading => b"heading",
    };
    let volume: &[u8] = if paragraph.begins_volume {
        b"volume"
    } else {
        b"-"
    };
    let life: &[u8] = if paragraph.struck { b"struck" } else { b"live" };
    let length = length.format(paragraph.length).as_bytes();
    put_fields(sink, block, &[id, table, style, volume, life, length])
}
