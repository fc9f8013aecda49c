//! The book of a file: opened, completed if the file lacks tables, or made; and its changes, kept
//! one by one.
//!
//! `Store::open_on` and `Store::adopt` give the book that a file's rows show, or say why there is
//! none, and `Store::keep` keeps a change before it is acknowledged. What statements do to rows is
//! left to `desk_rows`, and what rows show to `desk_model`.
#![tactic(auto)]

mod book_file;
mod fault;
mod fill;
pub mod found;
pub mod laws;
mod make;
mod opening;
mod store;

pub use fault::OpenFault;
pub use store::{Lost, Store};
