//! The list of a book's paragraphs.
use super::paragraphs::Paragraphs;
use desk_model::ListItem;
use std::marker::Model;

/// The paragraphs of a book in order, struck ones too. It allocates nothing. Contracts see it as
/// those that are left.
#[derive(Drop)]
pub struct List<'a> {
    paragraphs: &'a Paragraphs,
    at: usize,
}

impl<'a> Model for List<'a> {
    ghost use Rattle.desk_model.specs.Book.{ParagraphList};
    ghost use Rattle.desk_memory.specs.Held.{HavePrints, paragraphs_from};

    ghost Value = { ParagraphList };

    ghost view = { λ l. paragraphs_from l.at l.paragraphs.now };

    ghost invariant = { λ l. HavePrints l.paragraphs.now };
}

impl<'a> List<'a> {
    ghost use Rattle.desk_memory.specs.Held.{HavePrints, paragraphs_from};
    ghost use Rattle.std.specs.Prelude.{◌≡◌};

    /// All paragraphs.
    pub fn new(paragraphs: &'a Paragraphs) -> Self
        requires { HavePrints paragraphs.now }
        ensures { result ≡ paragraphs_from 0 paragraphs.now }
    {
        List { paragraphs, at: 0 }
    }
}

impl<'a> Iterator for List<'a> {
    ghost use Rattle.desk_model.specs.ListItems.{ListsFirst};
    ghost use Rattle.std.specs.Iterator.{item_count};

    type Item = ListItem<'a>;

    ghost next_gives = { ListsFirst };

    ghost remaining = { item_count (λ s. s) };

    fn next(&mut self) -> Option<ListItem<'a>> {
        let (id, paragraph) = self.paragraphs.at(self.at)?;
        self.at += 1;
        Some(ListItem {
            id,
            table: paragraph.table.as_str(),
            style: paragraph.style,
            begins_volume: paragraph.begins_volume,
            struck: paragraph.struck,
            length: paragraph.print.as_slice().len(),
        })
    }
}
