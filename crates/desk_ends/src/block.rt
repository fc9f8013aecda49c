//! The output buffer.
ghost use Rattle.cell_core.specs.Cell.{braille_character};
ghost use Rattle.desk_ends.specs.Block.{AreEncoded, encoding};
ghost use Rattle.std.specs.Prelude.{IsTrue, [], encode_utf8, length, ◌+◌, ◌++◌, ◌<◌, ◌≡◌, ◌≤◌, ◌↔◌, ◌∷◌};

use cell_core::Cell;
use std::marker::Model;

/// The most bytes of a block: 4,096 cells.
pub const BLOCK_BYTES: usize = 3 * 4096;

/// The bytes of a cell's character in UTF-8.
pub const CELL_BYTES: usize = 3;

/// How many cells there are.
const CELLS: usize = 256;

/// One byte more than a block holds, since a cell is put as four bytes, the last of which counts
/// for nothing.
const ROOM: usize = BLOCK_BYTES + 1;

/// Bytes that are to be sent together, at most `BLOCK_BYTES` of them. Contracts see their list.
#[derive(Drop)]
pub struct Block {
    bytes: [u8; ROOM],
    len: usize,
    // the bytes of each cell's character, the first in the lowest part
    encoded: [u32; CELLS],
}

impl Model for Block {
    ghost use Rattle.std.specs.Prelude.{List, take, ℕ, ◌≤◌};
    ghost use Rattle.desk_ends.specs.Block.{AreEncoded};
    ghost use Rattle.desk_ends.specs.declared.block.TheConstants.{BLOCK_BYTES};

    ghost Value = { List ℕ };

    ghost view = { λ b. take b.len b.bytes };

    ghost invariant = { λ b. (b.len ≤ BLOCK_BYTES) × AreEncoded b.encoded };
}

impl Block {
    /// No byte.
    pub fn new() -> Self
        ensures { result ≡ [] }
    {
        Block {
            bytes: [0; ROOM],
            len: 0,
            encoded: encode_all(),
        }
    }

    /// The bytes in order.
    pub fn as_slice(&self) -> &[u8]
        ensures { result.now ≡ self.now }
    {
        &self.bytes[..self.len]
    }

    /// Whether a cell would still fit.
    #[inline(always)]
    pub fn has_room(&self) -> bool
        ensures { IsTrue result ↔ (length self.now + CELL_BYTES ≤ BLOCK_BYTES) }
    {
        self.len <= BLOCK_BYTES - CELL_BYTES
    }

    /// Adds a byte.
    #[inline(always)]
    pub fn push(&mut self, byte: u8)
        requires { length self.old < BLOCK_BYTES }
        ensures { self.new ≡ self.old ++ byte ∷ [] }
    {
        self.bytes[self.len] = byte;
        self.len += 1;
    }

    /// Adds the UTF-8 of a cell's character, U+2800 and the mask. It is looked up, and put by one
    /// write of four bytes.
    #[inline(always)]
    pub fn push_cell(&mut self, cell: Cell)
        requires { length self.old + CELL_BYTES ≤ BLOCK_BYTES }
        ensures { self.new ≡ self.old ++ encode_utf8 (braille_character cell) }
    {
        let encoded = self.encoded[cell.mask() as usize];
        let len = self.len;
        self.bytes[len] = (encoded % 256) as u8;
        self.bytes[len + 1] = (encoded / 256 % 256) as u8;
        self.bytes[len + 2] = (encoded / 65_536 % 256) as u8;
        self.bytes[len + 3] = (encoded / 16_777_216) as u8;
        self.len = len + CELL_BYTES;
    }

    /// Takes all bytes out.
    pub fn clear(&mut self)
        ensures { self.new ≡ [] }
    {
        self.len = 0;
    }
}

/// The three bytes of the character of the cell with a mask, the first in the lowest part: 0xE2 and
/// two bytes with six bits of the character each.
fn encode(mask: u8) -> u32
    ensures { result ≡ encoding mask }
{
    let second = 0xA0 + mask / 64;
    let third = 0x80 + mask % 64;
    0xE2 + 256 * u32::from(second) + 65_536 * u32::from(third)
}

/// The bytes of each cell's character, by the cells' masks.
fn encode_all() -> [u32; CELLS]
    ensures { AreEncoded result }
{
    let mut all = [0; CELLS];
    for mask in 0..CELLS {
        all[mask] = encode(mask as u8);
    }
    all
}
