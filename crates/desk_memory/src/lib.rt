//! How a book is held in memory: its tables, its paragraphs with their histories and their order,
//! its marks, and the room that they have to grow.
//!
//! A command makes a list longer in two steps. What the list needs is asked for first
//! ([`Items::room`], [`Tables`] with [`TablesRoom`]), which can fail; then the item is put in,
//! which allocates nothing. So a change of a book can be planned, written to a file and applied,
//! and nothing that fails is left for the last step.
//!
//! ```rust
//! use desk_memory::Items;
//!
//! let mut items = Items::new(alloc);
//! let room = items.room(alloc)?;
//! items.push(room, 7);
//! assert_eq!(rt; items.as_slice(), &[7]);
//! ```
//!
//! `desk_model` says what a book is. `desk_rebuild` makes what is held here of the rows of a file,
//! and `desk_book` changes it by commands.
#![tactic(auto)]

mod history;
mod history_items;
mod items;
pub mod laws;
mod limits;
mod list;
mod marks;
mod paragraph_marks;
mod paragraphs;
mod tables;
mod texts;

pub use history::{Correction, HeldEntry, newest, replace_span};
pub use history_items::History;
pub use items::{Items, Room};
pub use limits::{
    MOST_ENTRIES, MOST_MARKS, MOST_NAME, MOST_NOTE, MOST_PARAGRAPHS, MOST_PRINT, MOST_PROOFREADER,
    MOST_TABLES, MOST_VERSION,
};
pub use list::List;
pub use marks::{HeldMark, Marks};
pub use paragraph_marks::ParagraphMarks;
pub use paragraphs::{Order, Paragraph, Paragraphs, PrintChange, cells_of, renew_paragraphs};
pub use tables::{BookTable, BoxedTable, Tables, TablesRoom};
pub use texts::{count_of, first_barred, is_proofreader_name, is_table_name, normal_form};
