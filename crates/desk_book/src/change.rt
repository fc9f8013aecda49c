//! What a command changes in a book, and the book with that change.
ghost use Rattle.desk_book.specs.Changes.{Carries, IsEffectOn};
ghost use Rattle.desk_memory.specs.Held.{IsHeld, book_held};
ghost use Rattle.std.specs.Prelude.{ℕ, ◌≡◌};

use super::book::Book;
use cell_core::Cells;
use desk_memory::{
    BoxedTable, HeldMark, Marks, Order, Paragraph, Paragraphs, PrintChange, Room, Tables,
    TablesRoom,
};
use desk_model::{Style, Text};
use std::marker::Model;

/// What a change does to a book. It has room for all that it adds.
#[derive(Drop)]
pub(crate) enum Effect {
    /// A new table.
    AddTable {
        /// Its name.
        name: Text,
        /// The table.
        table: BoxedTable,
        /// Room for it beside the others.
        room: TablesRoom,
    },
    /// A table gets another text, and the paragraphs that use it other cells.
    ReplaceTable {
        /// The table's name.
        name: Text,
        /// The table that takes its place.
        table: BoxedTable,
        /// For each paragraph in the order of ids its new cells, or nothing if it doesn't use the
        /// table.
        cells: Vec<Option<Cells>>,
    },
    /// A new paragraph.
    AddParagraph {
        /// The paragraph.
        paragraph: Paragraph,
        /// Room for it beside the others.
        room: Room<Paragraph>,
        /// Room for its id in their order.
        order_room: Room<u64>,
        /// Its place in that order, from 0. Those that stood there and after move on by one.
        place: usize,
    },
    /// A paragraph gets another print, and its marks move.
    ChangePrint {
        /// The paragraph's id.
        id: u64,
        /// What changes.
        change: PrintChange,
    },
    /// A new mark.
    AddMark {
        /// The mark.
        mark: HeldMark,
        /// Room for it beside the others.
        room: Room<HeldMark>,
        /// Room for its index among those of its paragraph.
        index_room: Room<usize>,
    },
    /// A mark becomes resolved.
    ResolveMark {
        /// The mark's id.
        id: u64,
    },
    /// A paragraph gets a style and flags.
    SetFlags {
        /// The paragraph's id.
        id: u64,
        /// The style.
        style: Style,
        /// Whether it begins a volume.
        begins_volume: bool,
        /// Whether it is struck.
        struck: bool,
    },
    /// A paragraph uses another table.
    ChangeTable {
        /// The paragraph's id.
        id: u64,
        /// The table's name.
        table: Text,
        /// The cells by that table.
        cells: Cells,
    },
    /// The paragraphs stand in another order.
    Reorder {
        /// The order.
        order: Order,
    },
}

/// What an accepted command changes in the book on which it was planned. Contracts see the version
/// that it gives the book and the number that the command answers, and that it carries the command
/// out.
#[derive(Drop)]
pub struct Change {
    /// The book's new version.
    pub(crate) version: u64,
    /// The number that is answered.
    pub(crate) number: Option<u64>,
    /// What changes beside the version.
    pub(crate) effect: Effect,
}

impl Model for Change {
    ghost use Rattle.desk_book.specs.Changes.{Change, change_by, change_code};
    ghost use Rattle.desk_book.specs.contracts.change.Effect as effects;

    ghost Value = { Change };

    ghost coded = { change_code effects.the_row.coded };

    ghost view = { λ c. change_by c.version c.number c.effect };
}

impl Change {
    /// The number that the command answers: the id of a new paragraph or mark, or the number of a
    /// new entry of a history.
    pub fn number(&self) -> Option<u64>
        ensures { result ≡ self.now.number }
    {
        self.number
    }
}

/// Turns the parts of a book into those of the next one. It allocates nothing.
fn apply(effect: Effect, tables: &mut Tables, paragraphs: &mut Paragraphs, marks: &mut Marks)
    requires { (was : ℕ) × (at : ℕ) × (next : _)
        × IsEffectOn was tables.old paragraphs.old marks.old at effect next }
    ensures { (was at : ℕ) (next : _) → IsEffectOn was tables.old paragraphs.old marks.old at effect next
        → IsHeld at tables.new paragraphs.new marks.new
        × (book_held at tables.new paragraphs.new marks.new ≡ next) }
{
    match effect {
        Effect::AddTable { name, table, room } => tables.add(name, table, room),
        Effect::ReplaceTable { name, table, cells } => {
            tables.replace(name.as_str(), table);
            paragraphs.renew(cells);
        }
        Effect::AddParagraph {
            paragraph,
            room,
            order_room,
            place,
        } => paragraphs.add(paragraph, room, order_room, place),
        Effect::ChangePrint { id, change } => {
            let indexes = paragraphs.marks_of(id);
            marks.give_way(indexes, change.start, change.removed, change.added);
            paragraphs.change_print(id, change);
        }
        Effect::AddMark {
            mark,
            room,
            index_room,
        } => {
            paragraphs.add_mark(mark.paragraph, index_room, marks.len());
            marks.push(room, mark);
        }
        Effect::ResolveMark { id } => marks.resolve(id),
        Effect::SetFlags {
            id,
            style,
            begins_volume,
            struck,
        } => paragraphs.set_flags(id, style, begins_volume, struck),
        Effect::ChangeTable { id, table, cells } => paragraphs.set_table(id, table, cells),
        Effect::Reorder { order } => paragraphs.reorder(order),
    }
}

impl Book {
    /// The book with a change that was planned on it. It allocates nothing.
    pub fn settle(mut self, change: Change) -> Self
        requires { (command : _) × (next : _) × Carries self command next change }
        ensures { (command : _) (next : _) → Carries self command next change → result ≡ next }
    {
        let Change {
            version,
            number: _,
            effect,
        } = change;
        self.version = version;
        apply(
            effect,
            &mut self.tables,
            &mut self.paragraphs,
            &mut self.marks,
        );
        self
    }
}
