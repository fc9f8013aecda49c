//! How a book is made of the rows of its file: each row is validated and converted, and the first
//! damage is reported.
//!
//! The rows of one table are read after those of another, in this order: tables, paragraphs,
//! entries of histories, marks and braille. A row is judged by itself, by the rows before it in the
//! order of their keys, and by what was made of the tables before. Entries are grouped by
//! paragraphs first, and rows of `cache` are compared before they are converted.
//!
//! ```rust
//! use desk_rebuild::rebuild;
//!
//! let held = rebuild(alloc, parts)?;
//! assert_eq!(rt; held.version, 1);
//! ```
//!
//! `desk_model` says which rows show a book, and what is damaged. `desk_rows` reads the rows from a
//! file, and `desk_memory` holds what is made of them.
#![tactic(auto)]

mod book;
mod caches;
mod damage;
mod entries;
mod history;
mod marks;
mod ordered_rows;
mod paras;
mod tabs;

pub use book::{HeldBook, rebuild, version_of};
