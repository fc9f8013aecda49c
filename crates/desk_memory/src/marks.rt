//! The marks of proofreaders.
ghost use Rattle.desk_memory.specs.HeldMarks.{AreWithin, IsWithin, indexes_on, moved_held, held_mark};
ghost use Rattle.desk_memory.specs.HeldMarks.{span_held, with_held_moved, with_held_resolved};
ghost use Rattle.desk_memory.specs.Held.{mark_held};
ghost use Rattle.desk_model.specs.Book.{new_mark};
ghost use Rattle.desk_model.specs.Limits.{most_print};
ghost use Rattle.std.specs.Prelude.{option_copied, ◌≡◌, ◌+◌, ◌-◌, ◌<◌, ◌≤◌, ℕ, None};

use super::items::Items;
use desk_model::{Span, Text};

/// A mark, as it is held in memory.
pub struct HeldMark {
    /// The paragraph that it is put on.
    pub paragraph: u64,
    /// The first place of the print that it covers, from 0.
    pub start: usize,
    /// The place after the last that it covers.
    pub end: usize,
    /// The proofreader's note.
    pub note: Text,
    /// Whether a correction or an undo has touched what it covers.
    pub touched: bool,
    /// Whether it is dealt with.
    pub resolved: bool,
}

// Written out, as the drop of a paragraph is.
impl Drop for HeldMark {
    fn drop(self) {
        let Self {
            paragraph,
            start,
            end,
            note,
            touched,
            resolved,
        } = self;
    }
}

impl HeldMark {
    /// A mark that was just put on places of a print: neither touched nor resolved.
    pub fn new(paragraph: u64, start: usize, end: usize, note: Text) -> Self
        ensures { (id : ℕ) → mark_held (id, result) ≡ new_mark id paragraph start end note }
    {
        HeldMark {
            paragraph,
            start,
            end,
            note,
            touched: false,
            resolved: false,
        }
    }

    /// The places that it covers.
    fn span(&self) -> Span
        ensures { result ≡ span_held self.now }
    {
        Span {
            start: self.start,
            end: self.end,
            touched: self.touched,
        }
    }

    /// Moves the mark as so many characters of the print, from a place on, give way to others.
    fn give_way(&mut self, start: usize, removed: usize, added: usize)
        requires mark { IsWithin self.old }
        requires within { start + removed ≤ most_print }
        requires short { added ≤ most_print }
        ensures { self.new ≡ moved_held start removed added self.old }
    {
        let span = self.span().after_edit(start, removed, added);
        self.start = span.start;
        self.end = span.end;
        self.touched = span.touched;
    }
}

/// Moves the marks of a paragraph, which have these indexes, as so many characters of its print,
/// from a place on, give way to others.
fn give_way(marks: &mut [HeldMark], indexes: &[usize], start: usize, removed: usize, added: usize)
    requires indexes { (id : ℕ) × (indexes.now ≡ indexes_on id marks.old) }
    requires marks { AreWithin marks.old }
    requires within { start + removed ≤ most_print }
    requires short { added ≤ most_print }
    ensures { (id : ℕ) → indexes.now ≡ indexes_on id marks.old
        → marks.new ≡ with_held_moved id start removed added marks.old }
{
    for index in indexes {
        marks[*index].give_way(start, removed, added);
    }
}

/// Marks with the ids 1, 2, .. in the order of their coming: the one with id n has index n - 1.
pub type Marks = Items<HeldMark>;

impl Items<HeldMark> {
    /// The mark with an id, if there is one.
    pub fn get(&self, id: u64) -> Option<&HeldMark>
        ensures { option_copied result ≡ held_mark id self.now }
    {
        let index = id.checked_sub(1)?;
        self.items.get(index as usize)
    }

    /// Resolves the mark with an id, if there is one.
    pub fn resolve(&mut self, id: u64)
        ensures { self.new ≡ with_held_resolved id self.old }
    {
        if id == 0 {
            return;
        }
        if let Some(mark) = self.items.get_mut((id - 1) as usize) {
            mark.resolved = true;
        }
    }

    /// Moves the marks of a paragraph, which have these indexes, as so many characters of its
    /// print, from a place on, give way to others.
    pub fn give_way(&mut self, indexes: &[usize], start: usize, removed: usize, added: usize)
        requires indexes { (id : ℕ) × (indexes.now ≡ indexes_on id self.old) }
        requires marks { AreWithin self.old }
        requires within { start + removed ≤ most_print }
        requires short { added ≤ most_print }
        ensures { (id : ℕ) → indexes.now ≡ indexes_on id self.old
            → self.new ≡ with_held_moved id start removed added self.old }
    {
        give_way(&mut self.items, indexes, start, removed, added);
    }
}
