//! Which paragraphs a volume has, and their cells.
ghost use Rattle.desk_model.specs.Book.{paragraph_of};
ghost use Rattle.desk_model.specs.Translation.{IsBraille};
ghost use Rattle.desk_brf.specs.Counting.{count_after};
ghost use Rattle.std.specs.Prelude.{◌≡◌, ◌+◌, ◌<◌, ◌^◌, ◌==◌, ◌&&◌, IfSome, IsSome, if◌then◌else◌, not};

use cell_core::Cell;
use desk_book::{Book, ListItem};

/// Counts volumes along the paragraphs of a book.
#[derive(Drop)]
pub(crate) struct Volumes {
    count: u64,
}

impl Volumes {
    /// No volume has begun.
    pub(crate) fn new() -> Self
        ensures { result.count ≡ 0 }
    {
        Volumes { count: 0 }
    }

    /// Whether the next paragraph of the book stands in the volume with a number.
    pub(crate) fn next_is_in(&mut self, paragraph: &ListItem, volume: u64) -> bool
        requires { self.old.count + 1 < 2 ^ 64 }
        ensures count { self.new.count ≡ (if paragraph.now.struck then self.old.count
            else count_after self.old.count paragraph.now.begins_volume) }
        ensures is_in { result ≡ (not paragraph.now.struck && (self.new.count == volume)) }
    {
        if paragraph.struck {
            return false;
        }
        if self.count == 0 || paragraph.begins_volume {
            self.count += 1;
        }
        self.count == volume
    }
}

/// The braille of a paragraph that the book has.
pub(crate) fn cells_of(book: &Book, id: u64) -> &[Cell]
    requires { IsSome (paragraph_of book.now id) }
    ensures { IfSome (paragraph_of book.now id) (λ paragraph. IsBraille book.now paragraph result.now) }
{
    let Ok(cells) = book.cells(id) else {
        unreachable!()
    };
    cells
}
