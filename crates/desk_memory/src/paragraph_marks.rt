//! What a book shows of a paragraph's marks.
ghost use Rattle.desk_memory.specs.ItemsLeft.{AreMarks, marks_at};
ghost use Rattle.std.specs.Prelude.{◌≡◌};

use super::marks::HeldMark;
use desk_model::MarkItem;
use std::marker::Model;

/// The marks of a paragraph in the order of their ids. It allocates nothing. Contracts see it as
/// those that are left.
#[derive(Drop)]
pub struct ParagraphMarks<'a> {
    // the marks of the book
    marks: &'a [HeldMark],
    // the indexes of those of the paragraph
    indexes: &'a [usize],
    at: usize,
}

impl<'a> Model for ParagraphMarks<'a> {
    ghost use Rattle.desk_model.specs.Book.{MarkList};
    ghost use Rattle.desk_memory.specs.ItemsLeft.{AreMarks, marks_at};

    ghost Value = { MarkList };

    ghost view = { λ m. marks_at m.at m.indexes.now m.marks.now };

    ghost invariant = { λ m. AreMarks m.marks.now m.indexes.now };
}

impl<'a> ParagraphMarks<'a> {
    /// The marks with these indexes.
    pub fn new(marks: &'a [HeldMark], indexes: &'a [usize]) -> Self
        requires { AreMarks marks.now indexes.now }
        ensures { result ≡ marks_at 0 indexes.now marks.now }
    {
        ParagraphMarks {
            marks,
            indexes,
            at: 0,
        }
    }
}

impl<'a> Iterator for ParagraphMarks<'a> {
    ghost use Rattle.desk_model.specs.ParagraphMarks.{TellsFirst};
    ghost use Rattle.std.specs.Iterator.{item_count};

    type Item = MarkItem<'a>;

    ghost next_gives = { TellsFirst };

    ghost remaining = { item_count (λ s. s) };

    fn next(&mut self) -> Option<MarkItem<'a>> {
        let index = *self.indexes.get(self.at)?;
        let mark = &self.marks[index];
        self.at += 1;
        Some(MarkItem {
            id: index as u64 + 1,
            start: mark.start,
            end: mark.end,
            resolved: mark.resolved,
            touched: mark.touched,
            note: mark.note.as_str(),
        })
    }
}
