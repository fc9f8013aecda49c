//! Translates print to braille by a table: which rules and definitions stand for the characters of
//! a print, which cells they make, and which places of print and cells belong together.
//!
//! At each place the longest rule or definition that may be used there is chosen, and the next
//! choice begins where it ends. So the choices cover the print without gap or overlap; their cells,
//! each with the sign before its start, are the braille.
//!
//! ```rust
//! use louis_table::{EN, Table};
//! use louis_translate::{PlainRules, translate, translate_string};
//!
//! let book = PlainRules::new(Table::read(alloc, EN.as_bytes())?);
//! let translation = translate(alloc, &book, "Hello")?;
//! assert_eq!(rt; translation.cells.as_slice()[1].to_unicode(), '⠓');
//! let part = translate_string(alloc, &book, "Hello", 3)?;
//! assert_eq!(rt; part.used, 2);
//! ```
//!
//! A rule book is a table with a way to find the chosen rule: [`PlainRules`] looks at all rules,
//! [`RuleIndex`] walks along the print down a tree of the rules' characters. All else is proved
//! once over [`RuleBook`]. Reading tables is left to `louis_table`; lines, books and pages to the
//! crates above.
#![tactic(auto)]

mod choices;
mod counterpart;
mod covering;
mod indexed_table;
mod known_characters;
pub mod laws;
mod lone_cells;
mod pieces;
mod plain_rules;
mod position;
mod print;
mod rule_book;
mod rule_index;
mod rule_tree;
mod sign;
mod start;
mod translation;
mod tree_search;

pub use choices::{Choice, Choices};
pub use counterpart::{choice_of_cell, output_place, print_place};
pub use pieces::{Piece, Pieces};
pub use plain_rules::PlainRules;
pub use print::{Fault, is_defined, undefined_place};
pub use rule_book::RuleBook;
pub use rule_index::RuleIndex;
pub use translation::{Part, Places, Translation, translate, translate_string};
