//! Cells as text, sent in blocks.
ghost use Rattle.cell_core.specs.Cell.{braille_character};
ghost use Rattle.desk_ends.specs.Cells.{text_of};
ghost use Rattle.desk_ends.specs.Sending.{Puts};
ghost use Rattle.std.specs.Prelude.{encode_utf8, is_ok, ◌++◌};

use super::block::Block;
use super::bytes::make_room;
use super::ends::{Sent, Sink};
use cell_core::Cell;

/// Puts the cells, as characters, after the block, and sends it whenever it is full. Most choices
/// make one cell, so one has a way of its own, without a loop.
#[inline(always)]
pub fn put_cells<K: Sink>(sink: &mut K, block: &mut Block, cells: &[Cell]) -> Sent
    ensures { Puts K.Sink sink.old sink.new
        (block.old ++ text_of cells.now) block.new (is_ok result) }
{
    match cells {
        [] => Ok(()),
        [cell] => put_cell(sink, block, *cell),
        _ => put_each(sink, block, cells),
    }
}

/// Puts cells, one after another.
#[inline(never)]
fn put_each<K: Sink>(sink: &mut K, block: &mut Block, cells: &[Cell]) -> Sent
    ensures { Puts K.Sink sink.old sink.new
        (block.old ++ text_of cells.now) block.new (is_ok result) }
{
    for cell in cells {
        put_cell(sink, block, *cell)?;
    }
    Ok(())
}

/// Puts a cell, as a character, after the block, which is sent first if it has no room for one.
#[inline(always)]
pub fn put_cell<K: Sink>(sink: &mut K, block: &mut Block, cell: Cell) -> Sent
    ensures { Puts K.Sink sink.old sink.new
        (block.old ++ encode_utf8 (braille_character cell)) block.new (is_ok result) }
{
    make_room(sink, block)?;
    block.push_cell(cell);
    Ok(())
}
