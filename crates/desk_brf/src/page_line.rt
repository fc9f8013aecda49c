//! A line as it is laid.
ghost use Rattle.desk_brf.specs.Placing.{IsAscii};
ghost use Rattle.desk_brf.specs.Volume.{IsSixDot};
ghost use Rattle.std.specs.Prelude.{◌≡◌, ◌+◌, ◌<◌, ◌≤◌, ℕ, List, [], ◌∷◌, ◌++◌, All, length, replicate, take};

use super::layout::MOST_WIDTH;
use cell_core::Cell;
use std::marker::Model;

/// The most bytes of a line: those of its cells, CR and LF.
pub(crate) const LINE_BYTES: usize = MOST_WIDTH as usize + 2;

/// The bytes of a line, at most `LINE_BYTES` of them. Contracts see their list.
#[derive(Drop)]
pub(crate) struct PageLine {
    bytes: [u8; LINE_BYTES],
    len: usize,
}

impl Model for PageLine {
    ghost use Rattle.std.specs.Prelude.{List, take, ℕ, ◌≤◌};
    ghost use Rattle.desk_brf.specs.declared.page_line.TheConstants.{LINE_BYTES};

    ghost Value = { List ℕ };

    ghost view = { λ l. take l.len l.bytes };

    ghost invariant = { λ l. l.len ≤ LINE_BYTES };
}

/// Puts the bytes of cells at a place of the bytes of a line, over those that stand there.
fn put_ascii(bytes: &mut [u8; LINE_BYTES], place: usize, cells: &[Cell])
    requires room { place + length cells.now ≤ LINE_BYTES }
    requires dots { All IsSixDot cells.now }
    ensures { (put : List ℕ) × (take (place + length cells.now) bytes.new ≡ take place bytes.old ++ put)
        × IsAscii cells.now put }
{
    for (i, cell) in cells.iter().enumerate() {
        let Some(byte) = cell.to_ascii() else {
            unreachable!()
        };
        bytes[place + i] = byte;
    }
}

impl PageLine {
    /// No byte.
    pub(crate) fn new() -> Self
        ensures { result ≡ [] }
    {
        PageLine {
            bytes: [0; LINE_BYTES],
            len: 0,
        }
    }

    /// The bytes in order.
    pub(crate) fn as_slice(&self) -> &[u8]
        ensures { result.now ≡ self.now }
    {
        &self.bytes[..self.len]
    }

    /// Takes all bytes out.
    pub(crate) fn clear(&mut self)
        ensures { self.new ≡ [] }
    {
        self.len = 0;
    }

    /// Adds a byte.
    pub(crate) fn push(&mut self, byte: u8)
        requires { length self.old < LINE_BYTES }
        ensures { self.new ≡ self.old ++ byte ∷ [] }
    {
        self.bytes[self.len] = byte;
        self.len += 1;
    }

    /// Adds so many blanks.
    pub(crate) fn push_blanks(&mut self, count: usize)
        requires { length self.old + count ≤ LINE_BYTES }
        ensures { self.new ≡ self.old ++ replicate count 32 }
    {
        for _ in 0..count {
            self.push(b' ');
        }
    }

    /// Adds the bytes of cells.
    pub(crate) fn push_cells(&mut self, cells: &[Cell])
        requires room { length self.old + length cells.now ≤ LINE_BYTES }
        requires dots { All IsSixDot cells.now }
        ensures { (bytes : List ℕ) × (self.new ≡ self.old ++ bytes) × IsAscii cells.now bytes }
    {
        put_ascii(&mut self.bytes, self.len, cells);
        self.len += cells.len();
    }
}
