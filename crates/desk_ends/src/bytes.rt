//! Bytes, sent in blocks.
ghost use Rattle.desk_ends.specs.Sending.{Puts, Sends};
ghost use Rattle.std.specs.Prelude.{OnOk, [], is_ok, length, ◌+◌, ◌++◌, ◌≤◌, ◌∷◌};

use super::block::{BLOCK_BYTES, Block, CELL_BYTES};
use super::ends::{Sent, Sink};
use super::texts::send;

/// Sends the block and a line feed.
pub fn send_block<K: Sink>(sink: &mut K, block: &mut Block) -> Sent
    ensures { Sends K.Sink sink.old sink.new (block.old ++ 10 ∷ []) (is_ok result) }
{
    put_byte(sink, block, b'\n')?;
    send(sink, block.as_slice())
}

/// Puts bytes, one after another.
pub fn put_bytes<K: Sink>(sink: &mut K, block: &mut Block, bytes: &[u8]) -> Sent
    ensures { Puts K.Sink sink.old sink.new (block.old ++ bytes.now) block.new (is_ok result) }
{
    for byte in bytes {
        put_byte(sink, block, *byte)?;
    }
    Ok(())
}

/// Puts a byte after the block, which is sent first if it has no room for a cell.
#[inline(always)]
pub fn put_byte<K: Sink>(sink: &mut K, block: &mut Block, byte: u8) -> Sent
    ensures { Puts K.Sink sink.old sink.new (block.old ++ byte ∷ []) block.new (is_ok result) }
{
    make_room(sink, block)?;
    block.push(byte);
    Ok(())
}

/// Sends the block if it has no room for one more cell.
#[inline(always)]
pub(crate) fn make_room<K: Sink>(sink: &mut K, block: &mut Block) -> Sent
    ensures sent { Puts K.Sink sink.old sink.new block.old block.new (is_ok result) }
    ensures room { OnOk result (length block.new + CELL_BYTES ≤ BLOCK_BYTES) }
{
    if !block.has_room() {
        send(sink, block.as_slice())?;
        block.clear();
    }
    Ok(())
}
