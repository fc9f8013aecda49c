//! The rows of a book's file, an SQLite database: its tables made, rows put and read, and what a
//! crash leaves of them.
//!
//! Each table is described once (`specs/Descriptions.antt`), and so is the layout of a file that
//! has these tables beside others. Each statement is proved over any such file, whatever else
//! stands in it. `desk_model` says which rows show a book, and `desk_store` opens a book's file and
//! keeps changes in it.
#![tactic(auto)]

mod fault;
pub mod laws;
mod make;
mod open;
mod put_statements;
mod read;
mod reopening;
mod row;
mod table;
mod texts;
mod transaction;

pub use fault::DatabaseFault;
pub use make::make_tables;
pub use open::open_file;
pub use read::{read_rows, read_tabs};
pub use reopening::{reopen, reopen_after_write};
pub use table::{has_table, table_name};
pub use transaction::{write, write_with_tables};
