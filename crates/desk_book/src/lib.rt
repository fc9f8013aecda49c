//! The book that a transcriber works on: its tables, paragraphs and marks, the commands that change
//! them, and what is shown of them.
//!
//! A command is planned on a book first: it is refused, and all stays as it was, or it gives a
//! change, which has room for all that it adds. The change is then applied, and this can't fail. So
//! a change can be written to a file between the two.
//!
//! ```rust
//! use desk_book::Book;
//! use desk_model::Command;
//!
//! let book = Book::new(alloc)?;
//! let command = Command::Table { name, text };
//! let change = book.plan(alloc, &command, None)?;
//! let book = book.settle(change);
//! assert_eq!(rt; book.version(), 1);
//! ```
//!
//! `desk_model` says what a book is, what each command makes of it and when it is refused.
//! `desk_memory` holds a book's tables, paragraphs and marks in memory, and `desk_rebuild` makes
//! them of the rows of a file. Files are left to `desk_store`, pages to `desk_brf`, and the lines
//! of requests and replies to `desk_line`.
#![tactic(auto)]

mod book;
mod change;
mod corrections;
mod filling;
pub mod laws;
mod marking;
mod plan;
mod puts;
mod queries;

pub use book::Book;
pub use change::Change;
pub use desk_memory::{History, List, ParagraphMarks};
pub use desk_model::{Done, HistoryItem, ListItem, MarkItem, NewTables, PartsFault};
pub use desk_rebuild::version_of;
pub use filling::Filling;
pub use puts::Puts;
