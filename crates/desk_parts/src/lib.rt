//! The parts of a book's file as plain values: its tables, their rows, and what is put into them.
//!
//! A row holds what stands in its table, whether it makes sense or not. `desk_model` says what rows
//! show of a book, and what is wrong with those that show none; `desk_rows` reads them from a file
//! and puts them into it.
//!
//! ```rust
//! use desk_parts::{FileTable, Put};
//!
//! let put = Put::Place { id: 3, place: 1 };
//! assert_eq!(rt; FileTable::Para.number(), 3);
//! ```
#![tactic(auto)]

mod file_table;
mod parts;
mod put;
mod rows;

pub use file_table::FileTable;
pub use parts::{EntryRows, Parts};
pub use put::{CachePut, MarkPut, NamedCorrPut, ParaPut, Put, TabPut};
pub use rows::{BookRow, CacheRow, CorrRow, MarkRow, NamedCorrRow, ParaRow, StoredTab, TabRow};
