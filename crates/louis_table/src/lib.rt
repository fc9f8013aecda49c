//! Reads table texts in a profile of liblouis's language: which cells stand for which print.
//!
//! ```rust
//! use louis_table::Table;
//!
//! let table = Table::read(alloc, b"space \\s 0\nletter a 1\n")?;
//! assert!(rt; table.definition('a').is_some());
//! ```
//!
//! What a print becomes by a table is left to the crates above.
#![tactic(auto)]

mod char_map;
mod character_set;
mod characters;
mod definition;
mod dots;
mod draft;
mod en;
mod fault;
mod fields;
pub mod laws;
mod line_entry;
mod lines;
mod opcode;
mod pending;
mod read;
mod rule;
mod sign;
mod table;

pub use char_map::CharMap;
pub use character_set::CharacterSet;
pub use definition::{Class, Definition};
pub use en::EN;
pub use fault::{ReadFault, TableFault};
pub use line_entry::{MOST_RULE_CHARACTERS, MOST_SET_CHARACTERS};
pub use read::{MOST_LINE_CHARACTERS, MOST_LINES};
pub use rule::{Characters, Rule, RuleKind};
pub use sign::Sign;
pub use table::Table;
