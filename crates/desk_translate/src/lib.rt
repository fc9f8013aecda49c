//! Lines of print, each answered by a line: its braille, or why it has none.
//!
//! ```rust
//! use desk_translate::{Ended, translate_lines};
//!
//! let ended = translate_lines(&mut source, &mut sink, &index);
//! assert_eq!(rt; ended, Ended::Done);
//! ```
//!
//! Nothing is allocated. Which cells a print has is `louis_translate`'s, by the rule book that is
//! given; lines are read from a source of `desk_ends`, and answers go to a sink of it. Where a
//! table comes from is left to `desk_program`.
#![tactic(auto)]

mod answer;
mod braille;
mod print;
mod translate;

pub use translate::{Ended, translate_lines};
