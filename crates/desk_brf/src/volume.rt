//! A volume, sent.
ghost use Rattle.cell_core.specs.Cell.{HasDot};
ghost use Rattle.desk_brf.specs.Exported.{IsExported, IsJudged};
ghost use Rattle.desk_brf.specs.Laying.{PutsPages, PutsParagraphs};
ghost use Rattle.desk_brf.specs.PageLayout.{most_lines};
ghost use Rattle.desk_brf.specs.Volume.{HasSixDotCells, IsSixDot};
ghost use Rattle.desk_brf.specs.Volumes.{volume_of};
ghost use Rattle.std.specs.Prelude.{◌≡◌, ◌⊎◌, ◌+◌, ◌<◌, ◌^◌, All, IfNone, IfSome, IsTrue};
ghost use Rattle.std.specs.Prelude.{OnOk, is_ok, length, slice_index, take};

use super::layout::Layout;
use super::page::fill_page;
use super::page_line::PageLine;
use super::placing::put_paragraph;
use super::volumes::{Volumes, cells_of};
use cell_core::Cell;
use desk_book::Book;
use desk_ends::{Failure, Sent, Sink};
use thiserror::Error;

/// How many cells have none of the dots 7 and 8.
const SIX_DOT_CELLS: u8 = 64;

/// Why a volume wasn't exported, or not whole.
#[derive(Clone, Copy, Debug, PartialEq, Eq, Error)]
pub enum ExportFault {
    /// The book has no such volume. No byte was written.
    #[error("there is no such volume")]
    NoVolume,
    /// A cell of the volume has dot 7 or 8. No byte was written.
    #[error("cell {cell} of paragraph {paragraph} has dot 7 or 8")]
    NotSixDots {
        /// The paragraph's id.
        paragraph: u64,
        /// The cell's place in its braille, from 0.
        cell: usize,
    },
    /// The sink failed. What went out is a beginning of the volume.
    #[error("a write failed")]
    Write,
}

/// Whether all cells have only the dots 1 to 6. It doesn't stop at one that has more, so that many
/// cells are looked at together.
fn are_six_dot(cells: &[Cell]) -> bool
    ensures { IsTrue result → All IsSixDot cells.now }
{
    let mut six_dot = true;
    for cell in cells {
        six_dot &= cell.mask() < SIX_DOT_CELLS;
    }
    six_dot
}

/// The place of the first cell that has dot 7 or 8, if there is one.
fn first_eight_dot(cells: &[Cell]) -> Option<usize>
    ensures none { IfNone result (All IsSixDot cells.now) }
    ensures some { IfSome result (λ place. (place < length cells.now) × All IsSixDot (take place cells.now)
        × (HasDot (slice_index cells.now place) 7 ⊎ HasDot (slice_index cells.now place) 8)) }
{
    if are_six_dot(cells) {
        return None;
    }
    for (i, cell) in cells.iter().enumerate() {
        if cell.to_ascii().is_none() {
            return Some(i);
        }
    }
    None
}

/// Says that the volume is there, and that its cells have only the dots 1 to 6.
fn check_volume(book: &Book, volume: u64) -> Result<(), ExportFault>
    ensures { IsJudged book.now volume result }
{
    // a book has few paragraphs, no two with one id
    let _ = book.version();
    let mut volumes = Volumes::new();
    let mut is_there = false;
    for paragraph in book.list() {
        if !volumes.next_is_in(&paragraph, volume) {
            continue;
        }
        is_there = true;
        if let Some(cell) = first_eight_dot(cells_of(book, paragraph.id)) {
            return Err(ExportFault::NotSixDots {
                paragraph: paragraph.id,
                cell,
            });
        }
    }
    if is_there {
        Ok(())
    } else {
        Err(ExportFault::NoVolume)
    }
}

/// Sends the lines of a volume's paragraphs. `lines` counts them.
fn put_paragraphs<K: Sink>(
    sink: &mut K,
    book: &Book,
    layout: &Layout,
    volume: u64,
    lines: &mut u64,
) -> Sent
    requires six_dot { All (HasSixDotCells book.now) (volume_of book.now volume) }
    requires none { lines.old ≡ 0 }
    ensures lines { PutsParagraphs K.can_fail (K.contents sink.old) (K.contents sink.new)
        book.now layout.now (volume_of book.now volume) lines.new (is_ok result) }
    ensures few { OnOk result (lines.new + most_lines < 2 ^ 64) }
{
    // a book has few paragraphs, each with few cells, and a line is wider than each indent
    let _ = book.version();
    let _ = layout.width();
    let mut volumes = Volumes::new();
    for paragraph in book.list() {
        if !volumes.next_is_in(&paragraph, volume) {
            continue;
        }
        let cells = cells_of(book, paragraph.id);
        put_paragraph(sink, layout, lines, paragraph.style, cells)?;
    }
    Ok(())
}

/// Sends the pages of a volume, and gives their number.
fn put_volume<K: Sink>(
    sink: &mut K,
    book: &Book,
    layout: &Layout,
    volume: u64,
) -> Result<u64, Failure>
    requires six_dot { All (HasSixDotCells book.now) (volume_of book.now volume) }
    ensures { PutsPages K.can_fail (K.contents sink.old) (K.contents sink.new)
        book.now layout.now (volume_of book.now volume) result }
{
    let text_lines = layout.text_lines();
    let mut lines = 0;
    put_paragraphs(sink, book, layout, volume, &mut lines)?;
    fill_page(sink, layout, &mut lines, &mut PageLine::new())?;
    Ok(lines / text_lines)
}

/// Sends the volume with a number, counted from 1, and gives the number of its pages. It allocates
/// nothing, and doesn't flush the sink.
///
/// # Errors
///
/// `NoVolume` exactly if the book has no such volume; otherwise `NotSixDots` exactly if a cell of
/// it has dot 7 or 8, with the first in the order of the volume. After either the sink is as it
/// was. `Write` only if the sink can fail, and what went out is then a beginning of the volume.
pub fn export<K: Sink>(
    book: &Book,
    layout: &Layout,
    volume: u64,
    sink: &mut K,
) -> Result<u64, ExportFault>
    ensures { IsExported K.Sink sink.old sink.new book.now layout.now volume result }
{
    check_volume(book, volume)?;
    put_volume(sink, book, layout, volume).map_err(|_| ExportFault::Write)
}
