//! What a book is, what can be asked of it, what each command makes of it, when a command is
//! refused, which rows show a book, and what is damaged in rows that show none: definitions, and
//! the laws that they have. How a book is held in memory, and how it is
//! kept in its file, isn't said here.
//!
//! The definitions stand in `specs/`, and `laws` has what holds of them. The types are those of
//! which the definitions speak: a command, whose texts contracts see as the codes of their
//! characters and whose table's text is bytes; why it is refused, which is reported by a number,
//! and sometimes by further ones: a place, a paragraph or what is at its limit; what is shown of a
//! paragraph, of an entry of its history and of a mark; which places a mark covers; which tables a
//! file lacks; and which damage is reported.
//!
//! ```rust
//! use desk_model::{Anchor, Command, LentText, Refusal};
//!
//! let text = LentText::new("Hello");
//! let command = Command::TypeIn { after: Anchor::End, table, text };
//! assert_eq!(rt; Refusal::NoParagraph.code(), 2);
//! ```
//!
//! `desk_book` has the book that obeys them, and `desk_store` its file.
#![tactic(auto)]

mod command;
mod fault;
mod history_item;
pub mod laws;
mod lent;
mod list_item;
mod mark_item;
mod new_tables;
mod refusal;
mod span;
mod style;
mod text;

pub use command::{Anchor, Command};
pub use fault::PartsFault;
pub use history_item::{Done, HistoryItem};
pub use lent::{LentBytes, LentText};
pub use list_item::ListItem;
pub use mark_item::MarkItem;
pub use new_tables::NewTables;
pub use refusal::{Limit, Refusal};
pub use span::Span;
pub use style::Style;
pub use text::{Bytes, Text};
